ghost use Rattle.std.specs.Prelude.{◌≡◌};
ghost use Rattle.dj_image_step.specs.Running.{account_of};

use dj_names::Charge;
use dj_natives::Accounter;

/// The charge that has passed its threshold, where one has; none where nobody counts.
pub(crate) fn exceeded(accounter: &Option<Accounter>) -> Option<Charge>
    ensures { result ≡ (account_of accounter.now).exceeded }
{
    match accounter {
        Some(accounter) => accounter.exceeded(),
        None => None,
    }
}
