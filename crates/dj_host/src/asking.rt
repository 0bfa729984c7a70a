ghost use Rattle.dj_names.specs.declared.run.Value.TheVariants as values;
ghost use Rattle.dj_edge.specs.declared.host.HostAnswer.TheVariants.{Word, Nanos, Millis};
ghost use Rattle.dj_host.specs.Hosted.{Passes};

use dj_edge::Host;
use dj_names::Value;
use dj_natives::NativeAnswer;

/// The method returns a word of the host.
pub fn give_word<H: Host>(host: &mut H) -> NativeAnswer
    ensures { Passes Word values.Int (H.given host.old) (H.given host.new) result }
{
    match host.hash_word() {
        Ok(word) => NativeAnswer::Gives(Value::Int(word)),
        Err(_) => NativeAnswer::Memory,
    }
}

/// The method returns the host's time in nanoseconds.
pub fn give_nanos<H: Host>(host: &mut H) -> NativeAnswer
    ensures { Passes Nanos values.Long (H.given host.old) (H.given host.new) result }
{
    match host.nanos() {
        Ok(nanos) => NativeAnswer::Gives(Value::Long(nanos)),
        Err(_) => NativeAnswer::Memory,
    }
}

/// The method returns the host's time in milliseconds.
pub fn give_millis<H: Host>(host: &mut H) -> NativeAnswer
    ensures { Passes Millis values.Long (H.given host.old) (H.given host.new) result }
{
    match host.millis() {
        Ok(millis) => NativeAnswer::Gives(Value::Long(millis)),
        Err(_) => NativeAnswer::Memory,
    }
}
