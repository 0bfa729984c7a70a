ghost use Rattle.std.specs.Prelude.{◌≡◌};
ghost use Rattle.dj_class.specs.Memory.{is_memory};

use dj_class::ClassError;
use dj_pool::PoolError;

/// Whether there was no memory.
pub fn is_memory(error: ClassError) -> bool
    ensures { result ≡ is_memory error }
{
    matches!(
        error,
        ClassError::Memory | ClassError::Pool(PoolError::Memory)
    )
}
