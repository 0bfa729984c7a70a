use crate::host::{Host, HostAnswer, HostError};
use std::alloc::Global;

/// A host whose answers are known: one word, and a clock that goes up by one at each answer.
#[derive(Drop)]
pub struct MemHost {
    word: i32,
    clock: i64,
    given: Vec<HostAnswer>,
}

impl MemHost {
    ghost use Rattle.std.specs.Prelude.{◌≡◌, []};
    ghost use Rattle.dj_edge.specs.Hosts.{word_of, clock_of};

    /// A host that has given no answer yet.
    pub fn new(alloc: Global, word: i32, clock: i64) -> MemHost
        ensures word { word_of result ≡ word }
        ensures clock { clock_of result ≡ clock }
        ensures given { ⟦<MemHost as Host>⟧.given result ≡ [] }
    {
        MemHost {
            word,
            clock,
            given: Vec::new(alloc),
        }
    }
}

impl Host for MemHost {
    ghost use Rattle.std.specs.Prelude.{List};
    ghost use Rattle.dj_edge.specs.declared.host.HostAnswer.{HostAnswer};
    ghost use Rattle.dj_edge.specs.declared.host.HostAnswer.TheVariants.{Word, Nanos, Millis};
    ghost use Rattle.dj_edge.specs.trusted.Calls.{Gives};
    ghost use Rattle.dj_edge.specs.Hosts.{given_of, AnswersWord, AnswersTime};

    ghost given = { given_of };

    fn hash_word(&mut self) -> Result<i32, HostError>
        ensures gives { Gives Word (given_of self.old) (given_of self.new) result }
        ensures answers { AnswersWord self.old self.new result }
    {
        let Ok(()) = self.given.push(HostAnswer::Word(self.word)) else {
            return Err(HostError::Memory);
        };
        Ok(self.word)
    }

    fn nanos(&mut self) -> Result<i64, HostError>
        ensures gives { Gives Nanos (given_of self.old) (given_of self.new) result }
        ensures answers { AnswersTime self.old self.new result }
    {
        let nanos = self.clock;
        let Ok(()) = self.given.push(HostAnswer::Nanos(nanos)) else {
            return Err(HostError::Memory);
        };
        self.clock = nanos.wrapping_add(1);
        Ok(nanos)
    }

    fn millis(&mut self) -> Result<i64, HostError>
        ensures gives { Gives Millis (given_of self.old) (given_of self.new) result }
        ensures answers { AnswersTime self.old self.new result }
    {
        let millis = self.clock;
        let Ok(()) = self.given.push(HostAnswer::Millis(millis)) else {
            return Err(HostError::Memory);
        };
        self.clock = millis.wrapping_add(1);
        Ok(millis)
    }
}
