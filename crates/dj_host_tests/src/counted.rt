use dj_edge::{Host, HostError, MemHost};
use std::alloc::Global;

/// A host in memory that counts its answers.
#[derive(Drop)]
pub struct Counted {
    host: MemHost,
    count: u32,
}

impl Counted {
    /// A host that has given no answer yet.
    pub fn new(alloc: Global, word: i32, clock: i64) -> Counted {
        Counted {
            host: MemHost::new(alloc, word, clock),
            count: 0,
        }
    }

    /// How many answers it has given.
    pub fn count(&self) -> u32 {
        self.count
    }
}

impl Host for Counted {
    ghost use Rattle.dj_edge.specs.Hosts.{given_of};

    ghost given = { λ counted. given_of counted.host };

    fn hash_word(&mut self) -> Result<i32, HostError> {
        let word = self.host.hash_word()?;
        self.count = self.count.saturating_add(1);
        Ok(word)
    }

    fn nanos(&mut self) -> Result<i64, HostError> {
        let nanos = self.host.nanos()?;
        self.count = self.count.saturating_add(1);
        Ok(nanos)
    }

    fn millis(&mut self) -> Result<i64, HostError> {
        let millis = self.host.millis()?;
        self.count = self.count.saturating_add(1);
        Ok(millis)
    }
}
