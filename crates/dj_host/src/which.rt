ghost use Rattle.std.specs.Prelude.{◌≡◌};
ghost use Rattle.dj_host.specs.Hosted.{is_hosted};

use dj_names::NativeId;

/// Whether the host answers the native method, so that it is called by `call_host`.
#[tactic(auto, using(crate::proofs::Others::no_hosted))]
pub fn is_hosted(id: NativeId) -> bool
    ensures { result ≡ is_hosted id }
{
    match id {
        NativeId::HostHashCode => true,
        NativeId::HostToString => true,
        NativeId::HostIdentityHashCode => true,
        NativeId::NanoTime => true,
        NativeId::CurrentTimeMillis => true,
        _ => false,
    }
}
