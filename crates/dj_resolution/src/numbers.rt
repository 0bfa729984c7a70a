ghost use Rattle.std.specs.Prelude.{◌≡◌, [], ◌*◌, ◌<◌, ◌≤◌, ℕ, true, length, IfOk, OnOk};
ghost use Rattle.dj_resolution.specs.Bits.{AreBits, in_bits, words_for};
ghost use Rattle.dj_resolution.specs.Numbers.{has, with_new, with_all, AreBelow};

use crate::words::{has_bit, has_bits, put_bit};
use std::alloc::{AllocError, Global};

/// Whether the number is one of these.
pub fn is_among(numbers: &[u32], number: u32) -> bool
    ensures { result ≡ has numbers.now number }
{
    for other in numbers {
        if *other == number {
            return true;
        }
    }
    false
}

/// Numbers below a bound, each once, in the order in which they came.
#[derive(Drop)]
pub struct Numbers {
    pub list: Vec<u32>,
    pub bits: Vec<u64>,
    ghost marked: { AreBits list.items bits.items },
}

impl Numbers {
    /// No numbers, and room for those below the bound.
    pub fn below(alloc: Global, bound: usize) -> Result<Numbers, AllocError>
        ensures none { IfOk result (λ numbers. numbers.list.items ≡ []) }
        ensures bound { IfOk result (λ numbers. length numbers.bits.items ≡ words_for bound) }
    {
        let bits = vec![in alloc; 0; bound / 64 + 1]?;
        Ok(Numbers {
            list: Vec::new(alloc),
            bits,
        })
    }

    /// Whether the number is there.
    pub fn has(&self, number: u32) -> bool
        requires { number < length self.now.bits.items * 64 }
        ensures { result ≡ has self.now.list.items number }
    {
        has_bit(&self.bits, number)
    }

    /// Whether all numbers of the bits are there.
    pub fn has_all(&self, others: &[u64]) -> bool
        requires { length others.now ≤ length self.now.bits.items }
        ensures { result ≡ true → (z : ℕ) → in_bits others.now z ≡ true → has self.now.list.items z ≡ true }
    {
        has_bits(&self.bits, others)
    }

    /// Puts a number at the end, unless it is there.
    pub fn add(&mut self, number: u32) -> Result<(), AllocError>
        requires { number < length self.old.bits.items * 64 }
        ensures list { OnOk result (self.new.list.items ≡ with_new self.old.list.items number) }
        ensures bound { OnOk result (length self.new.bits.items ≡ length self.old.bits.items) }
    {
        if !has_bit(&self.bits, number) {
            self.list.push(number)?;
            put_bit(&mut self.bits, number);
        }
        Ok(())
    }

    /// Puts those of the numbers at the end that aren't there.
    pub fn add_all(&mut self, numbers: &[u32]) -> Result<(), AllocError>
        requires { AreBelow (length self.old.bits.items * 64) numbers.now }
        ensures list { OnOk result (self.new.list.items ≡ with_all self.old.list.items numbers.now) }
        ensures bound { OnOk result (length self.new.bits.items ≡ length self.old.bits.items) }
    {
        for number in numbers {
            self.add(*number)?;
        }
        Ok(())
    }
}
