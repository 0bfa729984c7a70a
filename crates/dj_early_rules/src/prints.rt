//! Whether the texts that name the members of a class differ, as they do in most class files.
ghost use Rattle.std.specs.Prelude.{◌≡◌, ◌≤◌, ◌^◌, true, length, IsTrue, IfOk};
ghost use Rattle.dj_early_rules.specs.Prints.{print_of, NotesPrint, AreDistinct};

use dj_pool::Pool;
use std::alloc::{AllocError, Global};
use std::collections::BTreeSet;

// A number of a text: equal texts have the same, and others seldom do.
fn print_of(text: &[u8]) -> u32
    ensures { result ≡ print_of 0 text.now }
{
    let mut print: u32 = 0;
    for byte in text {
        print = print.wrapping_mul(31).wrapping_add(u32::from(*byte));
    }
    print
}

// Whether the text at an index is the first with its number, which is noted. Where there is no text, nothing is noted.
fn note_print(prints: &mut BTreeSet<u32>, pool: &Pool<'_>, index: u16) -> Result<bool, AllocError>
    ensures { IfOk result (NotesPrint prints.old prints.new pool.now index true) }
{
    match pool.text(index) {
        Some(text) => Ok(prints.insert(print_of(text))?),
        None => Ok(true),
    }
}

// The same where the index is marked; for other indexes nothing is noted.
fn note_marked(
    prints: &mut BTreeSet<u32>,
    pool: &Pool<'_>,
    index: u16,
    marked: bool,
) -> Result<bool, AllocError>
    ensures { IfOk result (NotesPrint prints.old prints.new pool.now index marked) }
{
    if marked {
        note_print(prints, pool, index)
    } else {
        Ok(true)
    }
}

/// Whether their numbers show that no two of the marked indexes have the same text.
pub fn are_distinct(alloc: Global, pool: &Pool<'_>, marks: &[bool]) -> Result<bool, AllocError>
    requires { length marks.now ≤ 2 ^ 16 }
    ensures { IfOk result (λ distinct. IsTrue distinct → AreDistinct pool.now marks.now) }
{
    let mut prints = BTreeSet::new(alloc);
    for (index, marked) in marks.iter().enumerate() {
        if !note_marked(&mut prints, pool, index as u16, *marked)? {
            return Ok(false);
        }
    }
    Ok(true)
}
