//! Classes that declare a member, as bits.
ghost use Rattle.std.specs.Prelude.{◌≡◌, ℕ, ◌<◌, ◌≤◌, ◌*◌, ◌&&◌, true, ltb, nat_eq, Contains, length, Some, slice_get, if◌then◌else◌};
ghost use Rattle.std.specs.Option.{option_map};
ghost use Rattle.dj_declarations.specs.Members.{method_flags};
ghost use Rattle.dj_class_table.specs.Tables.{methods_at};
ghost use Rattle.dj_member_index.specs.declared.rows.MemberRow.{MemberRow};
ghost use Rattle.dj_resolution.specs.Bits.{in_bits};
ghost use Rattle.dj_resolution.specs.Marked.{AddsMarks, is_plain_at};
ghost use Rattle.dj_resolution.specs.Ranked.{rank_in};

use crate::find::{PRIVATE, STATIC};
use crate::words::put_bit;
use dj_member_index::{Directory, MemberRow};

/// The access flags of a method (JVMS table 4.6-A).
pub fn method_flags(directory: &Directory<'_>, class: u32, member: u32) -> u16
    requires there { class < length directory.now.program }
    requires within { member < length (methods_at directory.now.program class) }
    ensures { Some result ≡ option_map method_flags (slice_get (methods_at directory.now.program class) member) }
{
    directory.classes().method_flags(class, member)
}

// Whether the method of a row is neither private nor static.
fn is_plain_row(directory: &Directory<'_>, row: MemberRow) -> bool
    requires there { row.class < length directory.now.program }
    requires within { row.place < length (methods_at directory.now.program row.class) }
    ensures { result ≡ is_plain_at directory.now.program row.class row.place }
{
    let flags = method_flags(directory, row.class, row.place);
    flags & PRIVATE == 0 && flags & STATIC == 0
}

// Marks a class, where it is to be marked.
fn mark_if(marks: &mut [u64], class: u32, marked: bool)
    requires { class < length marks.old * 64 }
    ensures bits { (z : ℕ) → in_bits marks.new z ≡ (if marked && nat_eq class z then true else in_bits marks.old z) }
    ensures count { length marks.new ≡ length marks.old }
{
    if marked {
        put_bit(marks, class);
    }
}

/// Marks the classes of the rows whose method is neither private nor static, and no others.
pub fn mark_plain(directory: &Directory<'_>, rows: &[MemberRow], marks: &mut [u64])
    requires there { (row : MemberRow) → Contains rows.now row → row.class < length directory.now.program }
    requires within { (row : MemberRow) → Contains rows.now row → row.place < length (methods_at directory.now.program row.class) }
    requires few { length directory.now.program ≤ length marks.old * 64 }
    ensures count { length marks.new ≡ length marks.old }
    ensures marks { AddsMarks (λ row. is_plain_at directory.now.program row.class row.place) (λ row. row.class) rows.now marks.old marks.new }
{
    for row in rows {
        mark_if(marks, row.class, is_plain_row(directory, *row));
    }
}

/// Marks the classes of the rows, and no others.
pub fn mark_all(rows: &[MemberRow], marks: &mut [u64])
    requires { (row : MemberRow) → Contains rows.now row → row.class < length marks.old * 64 }
    ensures count { length marks.new ≡ length marks.old }
    ensures marks { AddsMarks (λ row. true) (λ row. row.class) rows.now marks.old marks.new }
{
    for row in rows {
        mark_if(marks, row.class, true);
    }
}

// Marks the rank of a class, where there is a bit for it.
fn mark_rank(ranks: &[u32], marks: &mut [u64], class: u32)
    requires { class < length ranks.now }
    ensures bits { (z : ℕ) → in_bits marks.new z ≡ (if ltb (rank_in ranks.now class) (length marks.old * 64) && nat_eq (rank_in ranks.now class) z then true else in_bits marks.old z) }
    ensures count { length marks.new ≡ length marks.old }
{
    let rank = ranks[class as usize];
    if rank as usize / 64 < marks.len() {
        put_bit(marks, rank);
    }
}

/// Marks the ranks of the classes of the rows, where there are bits for them, and no others.
pub fn mark_ranks(ranks: &[u32], rows: &[MemberRow], marks: &mut [u64])
    requires { (row : MemberRow) → Contains rows.now row → row.class < length ranks.now }
    ensures marks { AddsMarks (λ row. ltb (rank_in ranks.now row.class) (length marks.old * 64)) (λ row. rank_in ranks.now row.class) rows.now marks.old marks.new }
    ensures count { length marks.new ≡ length marks.old }
{
    for row in rows {
        mark_rank(ranks, marks, row.class);
    }
}
