ghost use Rattle.std.specs.Prelude.{◌≡◌};
ghost use Rattle.std.specs.Option.{option_map};
ghost use Rattle.dj_model.specs.trusted.Program.{Code, Runs};
ghost use Rattle.dj_model.specs.trusted.Linking.{FoundMethod};
ghost use Rattle.dj_model.specs.trusted.Kinds.{call_signature};
ghost use Rattle.dj_image.specs.Imaged.{program_of};
ghost use Rattle.dj_invocation.specs.Choosing.{IsMethod, IsNumber};
ghost use Rattle.dj_invocation.specs.Operands.{parameters_in};

use dj_image::{Image, MethodId};
use dj_names::Kind;

/// The kinds of the parameters of a method with code; none where it takes or gives a float or a double. Nothing is promised for a method without code.
pub fn parameters(image: &Image, method: MethodId) -> Option<&[Kind]>
    requires { IsNumber (program_of image.now) method }
    ensures { (found : FoundMethod) (code : Code) → IsMethod (program_of image.now) method found → found.method.body ≡ Runs code
        → option_map (λ kinds. kinds.now) result ≡ parameters_in (call_signature found.method.desc) }
{
    let parts = image.shape_parts(method)?;
    let call = parts.kinds.call(parts.desc)?;
    Some(call.parameters())
}
