//! What lines need of the pool.
ghost use Rattle.std.specs.Prelude.{◌≡◌, ◌&&◌, [], ◌∷◌, is_some, IfOk};
ghost use Rattle.dj_asm_pool.specs.trusted.Entries as entries;
ghost use Rattle.dj_asm_pool.specs.trusted.Needs.{member_entry};
ghost use Rattle.dj_asm_pool.specs.Pooling.{Puts};
ghost use Rattle.dj_asm_pool.specs.PoolNeeds.{is_short, PutsNeeds};

use crate::pool::PoolBuilder;
use std::alloc::{AllocError, Global};

/// Whether a text has at most 65,535 bytes (JVMS 4.4.7).
fn is_short(text: &[u8]) -> bool
    ensures { result ≡ is_short text.now }
{
    text.len() < 65536
}

/// Whether both texts are short.
fn are_short(name: &[u8], desc: &[u8]) -> bool
    ensures { result ≡ (is_short name.now && is_short desc.now) }
{
    is_short(name) && is_short(desc)
}

/// Whether an entry with this index, whose texts are short or not, has room.
fn has_room(index: Option<u16>, short: bool) -> bool
    ensures { result ≡ (is_some index && short) }
{
    index.is_some() && short
}

/// Puts a text, and returns whether it has room.
pub(crate) fn need_text(
    pool: &mut PoolBuilder,
    alloc: Global,
    text: &[u8],
) -> Result<bool, AllocError>
    ensures { IfOk result (λ room. PutsNeeds pool.old (entries.Utf8 text.now ∷ []) pool.new room) }
{
    let index = pool.utf8(alloc, text)?;
    Ok(has_room(index, is_short(text)))
}

/// Puts a class with its text, and returns whether both have room.
pub(crate) fn need_class(
    pool: &mut PoolBuilder,
    alloc: Global,
    name: &[u8],
) -> Result<bool, AllocError>
    ensures { IfOk result (λ room. PutsNeeds pool.old (entries.Class name.now ∷ []) pool.new room) }
{
    let index = pool.class(alloc, name)?;
    Ok(has_room(index, is_short(name)))
}

/// Puts a string with its text, and returns whether both have room.
pub(crate) fn need_string(
    pool: &mut PoolBuilder,
    alloc: Global,
    text: &[u8],
) -> Result<bool, AllocError>
    ensures { IfOk result (λ room. PutsNeeds pool.old (entries.Text text.now ∷ []) pool.new room) }
{
    let index = pool.string(alloc, text)?;
    Ok(has_room(index, is_short(text)))
}

/// Puts an int, and returns whether it has room.
#[tactic(auto, using(crate::proofs::NeedSteps::number_need))]
pub(crate) fn need_integer(pool: &mut PoolBuilder, n: i32) -> Result<bool, AllocError>
    ensures { IfOk result (λ room. PutsNeeds pool.old (entries.Integer n ∷ []) pool.new room) }
{
    let index = pool.integer(n)?;
    Ok(has_room(index, true))
}

/// Puts a long, and returns whether it has room.
#[tactic(auto, using(crate::proofs::NeedSteps::long_need))]
pub(crate) fn need_long(pool: &mut PoolBuilder, n: i64) -> Result<bool, AllocError>
    ensures { IfOk result (λ room. PutsNeeds pool.old (entries.Long n ∷ []) pool.new room) }
{
    let index = pool.long(n)?;
    Ok(has_room(index, true))
}

/// Puts a call site with its name and descriptor, and returns whether all have room.
pub(crate) fn need_dynamic(
    pool: &mut PoolBuilder,
    alloc: Global,
    place: u16,
    name: &[u8],
    desc: &[u8],
) -> Result<bool, AllocError>
    ensures { IfOk result (λ room. PutsNeeds pool.old (entries.Dynamic place name.now desc.now ∷ []) pool.new room) }
{
    let index = pool.dynamic(alloc, place, name, desc)?;
    Ok(has_room(index, are_short(name, desc)))
}

/// Puts a field or a method with its parts, by the opcode and whether `interface` is there, and returns its index.
fn put_member(
    pool: &mut PoolBuilder,
    alloc: Global,
    op: u8,
    class: &[u8],
    name: &[u8],
    desc: &[u8],
    interface: bool,
) -> Result<Option<u16>, AllocError>
    ensures { IfOk result (λ answer. Puts pool.old (member_entry op class.now name.now desc.now interface) pool.new answer) }
{
    if op <= 181 {
        pool.field(alloc, class, name, desc)
    } else if op == 185 || interface {
        pool.interface_method(alloc, class, name, desc)
    } else {
        pool.method(alloc, class, name, desc)
    }
}

/// Whether all three texts are short.
fn all_short(class: &[u8], name: &[u8], desc: &[u8]) -> bool
    ensures { result ≡ (is_short class.now && (is_short name.now && is_short desc.now)) }
{
    is_short(class) && are_short(name, desc)
}

/// Puts a field or a method with its parts, and returns whether all have room.
pub(crate) fn need_member(
    pool: &mut PoolBuilder,
    alloc: Global,
    op: u8,
    class: &[u8],
    name: &[u8],
    desc: &[u8],
    interface: bool,
) -> Result<bool, AllocError>
    ensures { IfOk result (λ room. PutsNeeds pool.old (member_entry op class.now name.now desc.now interface ∷ []) pool.new room) }
{
    let index = put_member(pool, alloc, op, class, name, desc, interface)?;
    Ok(has_room(index, all_short(class, name, desc)))
}

/// Whether both have room.
pub(crate) fn both(first: bool, second: bool) -> bool
    ensures { result ≡ (first && second) }
{
    first && second
}

/// Puts the texts of a name and a descriptor, and returns whether both have room.
pub(crate) fn need_names(
    pool: &mut PoolBuilder,
    alloc: Global,
    name: &[u8],
    desc: &[u8],
) -> Result<bool, AllocError>
    ensures { IfOk result (λ room. PutsNeeds pool.old (entries.Utf8 name.now ∷ (entries.Utf8 desc.now ∷ [])) pool.new room) }
{
    let first = need_text(pool, alloc, name)?;
    let second = need_text(pool, alloc, desc)?;
    Ok(both(first, second))
}
