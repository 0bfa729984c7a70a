ghost use Rattle.std.specs.Prelude.{◌≡◌, ◌%◌, ◌^◌, [], ◌∷◌, ◌++◌, OnOk, OnErr};

use dj_edge::{Host, HostAnswer, HostError};
use std::rt::Clock;
use std::time::{Instant, SystemTime, UNIX_EPOCH};

fn low_word(word: u64) -> u32
    ensures { result ≡ word % 2 ^ 32 }
{
    (word & 0xffff_ffff) as u32
}

/// The system's clocks. A clock that cannot be read answers 0.
#[derive(Drop)]
pub struct ClockHost<R: Clock + AllocGlobal + Drop> {
    rt: R,
    made: Option<Instant>,
    given: Vec<HostAnswer>,
}

impl<R: Clock + AllocGlobal + Drop> ClockHost<R> {
    /// The system's clocks, which haven't been asked yet.
    pub fn new(rt: R) -> ClockHost<R>
        ensures { ⟦<ClockHost<R> as Host>⟧.given result ≡ [] }
    {
        let made = Instant::now(&rt).ok();
        let given = Vec::new(rt.alloc());
        ClockHost { rt, made, given }
    }

    /// The nanoseconds since the host was made.
    fn nanos_since(&self) -> i64 {
        match self.made.map(|made| made.elapsed(&self.rt)) {
            Some(Ok(time)) => i64::try_from(time.as_nanos()).unwrap_or(0),
            _ => 0,
        }
    }

    /// The milliseconds since the start of 1970.
    fn millis_since_epoch(&self) -> i64 {
        match SystemTime::now(&self.rt).map(|now| now.duration_since(UNIX_EPOCH)) {
            Ok(Ok(time)) => i64::try_from(time.as_millis()).unwrap_or(0),
            _ => 0,
        }
    }

    fn give(&mut self, answer: HostAnswer) -> Result<(), HostError>
        ensures ok { OnOk result (self.new.given.items ≡ self.old.given.items ++ answer ∷ []) }
        ensures err { OnErr result (self.new.given.items ≡ self.old.given.items) }
    {
        self.given.push(answer).map_err(|_| HostError::Memory)
    }
}

impl<R: Clock + AllocGlobal + Drop> Host for ClockHost<R> {
    ghost given = { λ host. host.given.items };

    /// The low 32 bits of the nanoseconds since the host was made.
    fn hash_word(&mut self) -> Result<i32, HostError> {
        let word = low_word(self.nanos_since().cast_unsigned()).cast_signed();
        self.give(HostAnswer::Word(word))?;
        Ok(word)
    }

    fn nanos(&mut self) -> Result<i64, HostError> {
        let nanos = self.nanos_since();
        self.give(HostAnswer::Nanos(nanos))?;
        Ok(nanos)
    }

    fn millis(&mut self) -> Result<i64, HostError> {
        let millis = self.millis_since_epoch();
        self.give(HostAnswer::Millis(millis))?;
        Ok(millis)
    }
}

#[cfg(test)]
mod tests {
    use super::*;
    use crate::adapters::Rising;
    use std::alloc::Global;
    use std::io;
    use std::io::ErrorKind;
    use std::process::Abort;
    use std::test::Fail;
    use std::time::Duration;

    fn clocks_answer<A: Abort, R: Clock + AllocGlobal + Drop>(
        rt: &A,
        host: &mut ClockHost<R>,
    ) -> Result<(), Fail> {
        let first = host.nanos().ok().ok_or("a time")?;
        let second = host.nanos().ok().ok_or("a time")?;
        assert!(rt; 0 <= first && first <= second);
        // 2026 begins 1,767,225,600,000 milliseconds after 1970.
        let millis = host.millis().ok().ok_or("a time")?;
        assert!(rt; millis > 1_767_225_600_000);
        let word = host.hash_word().ok().ok_or("a word")?;
        assert_eq!(rt; host.given.len(), 4);
        assert_eq!(rt; host.given[3], HostAnswer::Word(word));
        Ok(())
    }

    #[test]
    fn real_clocks(rt: HostRuntime) -> Result<(), Fail> {
        let mut host = ClockHost::new(&rt);
        clocks_answer(&rt, &mut host)
    }

    // Clocks that can't be read.
    struct Unreadable;

    impl Clock for Unreadable {
        fn monotonic(&self) -> io::Result<Duration> {
            Err(io::Error::from(ErrorKind::Unsupported))
        }

        fn since_1970(&self) -> io::Result<Duration> {
            Err(io::Error::from(ErrorKind::Unsupported))
        }
    }

    // What a host over the clocks answers to two questions for the time, one for the date and one for a word, and whether these are all that it gave.
    fn answers<C: Clock>(
        alloc: Global,
        clock: &C,
    ) -> Result<([i64; 2], i64, i32, bool), HostError> {
        let mut host = ClockHost::new((clock, alloc));
        let nanos = [host.nanos()?, host.nanos()?];
        let millis = host.millis()?;
        let word = host.hash_word()?;
        let given = [
            HostAnswer::Nanos(nanos[0]),
            HostAnswer::Nanos(nanos[1]),
            HostAnswer::Millis(millis),
            HostAnswer::Word(word),
        ];
        Ok((
            nanos,
            millis,
            word,
            host.given.as_slice() == given.as_slice(),
        ))
    }

    // The first reading and the step, the two times, the date and the word.
    type Reading = (u64, u64, [i64; 2], i64, i32);

    const READINGS: [Reading; 6] = [
        (5, 7, [7, 14], 0, 28),
        (0, 1_000_000, [1_000_000, 2_000_000], 3, 4_000_000),
        (9_000_000, 0, [0, 0], 9, 0),
        (0, 1 << 31, [1 << 31, 1 << 32], 6_442, 0),
        (0, 0x6000_0000, [0x6000_0000, 0xc000_0000], 4_831, i32::MIN),
        (0, 0x3fff_ffff, [0x3fff_ffff, 0x7fff_fffe], 3_221, -4),
    ];

    // The clocks' times count from when the host was made, the date from 1970, and a word is the low 32 bits of the time.
    #[test]
    fn clocks_that_move(rt: HostRuntime) {
        for (start, step, nanos, millis, word) in READINGS {
            assert!(rt;
                answers(rt.alloc(), &Rising::new(start, step)) == Ok((nanos, millis, word, true))
            );
        }
        assert!(rt; answers(rt.alloc(), &Unreadable) == Ok(([0, 0], 0, 0, true)));
    }
}
