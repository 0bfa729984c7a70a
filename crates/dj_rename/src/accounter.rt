//! The constants by which rewritten code calls the accounter's methods.
ghost use Rattle.std.specs.Prelude.{◌≡◌, ◌+◌, ◌*◌, ◌≤◌, ◌<◌, ◌∷◌, [], ◌++◌, false, length, All, IfErr, OnOk};
ghost use Rattle.dj_names.specs.Library.{accounter_class};
ghost use Rattle.dj_pool.specs.trusted.Pool.{Utf8, Class, NamesAnyClass, takes_two, IsConstant, IsPool};
ghost use Rattle.dj_pool.specs.Views.{constant_of};
ghost use Rattle.dj_pool.specs.Answers.{last_index};
ghost use Rattle.dj_rename.specs.Accounting.{called_constants, IsCalled, AreAccounters};
ghost use Rattle.dj_rename.specs.Refusals.{AppendsAccounter};

use crate::error::RenameError;
use dj_pool::{AppendError, Entry, Pool};

// The greatest index of a constant, since the count is one more and fits two bytes.
const LAST_INDEX: usize = 65534;

// The accounter's constants: its name, its class, and four for each method.
const CONSTANTS: usize = 26;

/// A method that is called.
#[derive(Clone, Copy)]
pub(crate) struct Called<'t> {
    pub(crate) name: &'t [u8],
    pub(crate) desc: &'t [u8],
}

const METHODS: [Called<'static>; 6] = [
    Called {
        name: b"recordJump",
        desc: b"()V",
    },
    Called {
        name: b"recordInvocation",
        desc: b"()V",
    },
    Called {
        name: b"recordThrow",
        desc: b"()V",
    },
    Called {
        name: b"recordAllocation",
        desc: b"(I)V",
    },
    Called {
        name: b"recordArray",
        desc: b"(II)V",
    },
    Called {
        name: b"checkCatch",
        desc: b"(Lsandbox/java/lang/Object;)V",
    },
];

// The accounter's methods, in order.
fn accounter_methods() -> &'static [Called<'static>]
    ensures called { All IsCalled result.now }
    ensures constants { AreAccounters result.now }
    ensures count { length result.now ≡ 6 }
{
    &METHODS
}

/// Appends a constant of one index.
#[tactic(auto, using(crate::proofs::Accounting::alone, crate::proofs::Accounting::room_there, crate::proofs::Accounting::pool_grown))]
pub(crate) fn append_one<'t>(now: &mut Pool<'t>, entry: Entry<'t>) -> Result<(), RenameError>
    requires pool { IsPool now.old }
    requires room { length now.old < last_index }
    requires narrow { takes_two (constant_of entry) ≡ false }
    requires valid { IsConstant now.old (constant_of entry) }
    ensures ok { OnOk result (now.new ≡ now.old ++ constant_of entry.entry ∷ []) }
    ensures pool { OnOk result (IsPool now.new) }
    ensures err { IfErr result (λ e. e ≡ RenameError.Memory) }
{
    match now.append(entry) {
        Ok(_) => Ok(()),
        Err(AppendError::Memory) => Err(RenameError::Memory),
        Err(AppendError::Full) => unreachable!(),
    }
}

// The index that the next constant gets.
fn next_index(now: &Pool<'_>) -> u16
    requires { length now.now < last_index }
    ensures { result ≡ length now.now + 1 }
{
    (now.as_slice().len() + 1) as u16
}

// Appends a method's constants.
fn append_method<'t>(now: &mut Pool<'t>, class: u16, method: Called<'t>) -> Result<(), RenameError>
    requires pool { IsPool now.old }
    requires room { length now.old + 4 ≤ last_index }
    requires class { NamesAnyClass now.old class }
    requires texts { IsCalled method }
    ensures ok { OnOk result (now.new ≡ now.old ++ called_constants class (length now.old + 1) (method.entry ∷ [])) }
    ensures pool { OnOk result (IsPool now.new) }
    ensures err { IfErr result (λ e. e ≡ RenameError.Memory) }
{
    let at = next_index(now);
    append_one(now, Entry::Utf8(method.name))?;
    append_one(now, Entry::Utf8(method.desc))?;
    append_one(now, Entry::NameAndType(at, at + 1))?;
    append_one(now, Entry::Method(class, at + 2))
}

// Appends the constants of methods, in order.
fn append_methods<'t>(
    now: &mut Pool<'t>,
    class: u16,
    methods: &[Called<'t>],
) -> Result<(), RenameError>
    requires pool { IsPool now.old }
    requires room { length now.old + 4 * length methods.now ≤ last_index }
    requires class { NamesAnyClass now.old class }
    requires texts { All IsCalled methods.now }
    ensures ok { OnOk result (now.new ≡ now.old ++ called_constants class (length now.old + 1) methods.now) }
    ensures pool { OnOk result (IsPool now.new) }
    ensures err { IfErr result (λ e. e ≡ RenameError.Memory) }
{
    for method in methods {
        append_method(now, class, *method)?;
    }
    Ok(())
}

// Appends the accounter's name and its class.
fn append_class(now: &mut Pool<'_>, first: u16) -> Result<(), RenameError>
    requires pool { IsPool now.old }
    requires room { length now.old + 26 ≤ last_index }
    requires first { first ≡ length now.old + 1 }
    ensures ok { OnOk result (now.new ≡ now.old ++ Utf8 accounter_class ∷ (Class first ∷ [])) }
    ensures pool { OnOk result (IsPool now.new) }
    ensures class { OnOk result (NamesAnyClass now.new (first + 1)) }
    ensures err { IfErr result (λ e. e ≡ RenameError.Memory) }
{
    append_one(now, Entry::Utf8(b"djvm/Accounter"))?;
    append_one(now, Entry::Class(first))
}

/// Appends the accounter's constants, and answers the index of the first. A full pool stays as it is.
pub fn append_accounter(now: &mut Pool<'_>) -> Result<u16, RenameError>
    requires { IsPool now.old }
    ensures { AppendsAccounter now.old now.new result }
{
    if LAST_INDEX - CONSTANTS < now.as_slice().len() {
        return Err(RenameError::Full);
    }
    let first = next_index(now);
    append_class(now, first)?;
    append_methods(now, first + 1, accounter_methods())?;
    Ok(first)
}
