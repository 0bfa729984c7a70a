//! What calls look in: methods by their places, and those that a call may take by the numbers of their names and descriptors.
ghost use Rattle.std.specs.Prelude.{◌≡◌, ℕ, ◌<◌, true, false, Contains, length, None, IfOk, IfSome, if◌then◌else◌};
ghost use Rattle.std.specs.List.Sorted.{IsNonDecreasingBy, IsPermutation};
ghost use Rattle.dj_class_table.specs.Tables.{methods_at};
ghost use Rattle.dj_member_index.specs.Calls.{AreFirsts, AreMarked, AreMethods, ArePlaces, AreTakable, DeclareLike, DeclaresLike, IsCallTable, IsFirstLike, IsNearestLike, IsPlaced, IsRowAt, IsTakable, IsWhether, place_key, takes, tests};
ghost use Rattle.dj_member_index.specs.DirectoryRows.{AreInOrder, IsLeast};

use crate::directory::Directory;
use crate::marks::SpanMarks;
use crate::rows::{MemberRow, pair_of, place_in, put_in_order, rows_with};
use crate::spans::Spans;
use dj_class_table::ClassTable;
use std::alloc::{AllocError, Global};

// JVMS table 4.6-A.
const PRIVATE: u16 = 0x0002;

// JVMS table 4.6-A.
const STATIC: u16 = 0x0008;

/// Tables in which the nearest class that declares a method is found at once.
#[derive(Drop)]
pub struct Marked {
    /// Where the classes stand in the tree of superclasses.
    pub spans: Spans,
    /// The marks of methods that are neither private nor static.
    pub plain: SpanMarks,
    /// The marks of methods that aren't static.
    pub instance: SpanMarks,
}

/// The methods of the classes of a table, for calls.
#[derive(Drop)]
pub struct CallTable {
    /// All methods, in the order of their classes and places.
    pub places: Vec<MemberRow>,
    /// By class, how many of them stand before its first one.
    pub starts: Vec<usize>,
    /// By where they stand, the place of the first method of the same class that has the same name and the same descriptor.
    pub firsts: Vec<u32>,
    /// Of each class the first method of a name and a descriptor, where it is neither private nor static. They stand in the order of numbers.
    pub plain: Vec<MemberRow>,
    /// The same, where it isn't static.
    pub instance: Vec<MemberRow>,
    /// Where the classes of both are marked. None where superclasses go round.
    pub marked: Option<Marked>,
}

// Whether a call may take a method with these access flags, which isn't static, and is private at most where that is allowed.
fn takes(private_too: bool, flags: u16) -> bool
    ensures { result ≡ takes private_too flags }
{
    if flags & STATIC != 0 {
        return false;
    }
    private_too || flags & PRIVATE == 0
}

// Whether it is the first row of its class with its numbers.
fn is_first(rows: &[MemberRow], row: MemberRow) -> bool
    requires { AreInOrder rows.now }
    ensures { IsWhether (IsLeast rows.now row.name row.desc row.class row.place) result }
{
    let Some(first) = place_in(rows, row.name, row.desc, row.class) else {
        return false;
    };
    first == row.place
}

// Whether it is that of the first method of its class with its name and its descriptor, and a call may take this.
fn is_takable(table: &ClassTable, rows: &[MemberRow], row: MemberRow, private_too: bool) -> bool
    requires rows { AreMethods table.now rows.now }
    requires there { Contains rows.now row }
    ensures { IsWhether (IsTakable table.now (tests private_too) rows.now row) result }
{
    let flags = table.method_flags(row.class, row.place);
    if takes(private_too, flags) {
        is_first(rows, row)
    } else {
        false
    }
}

// Those that a call may take.
fn takable(
    alloc: Global,
    table: &ClassTable,
    rows: &[MemberRow],
    private_too: bool,
) -> Result<Vec<MemberRow>, AllocError>
    requires { AreMethods table.now rows.now }
    ensures { IfOk result (λ taken. AreTakable table.now (tests private_too) rows.now taken.items) }
{
    let mut taken = Vec::new(alloc);
    for row in rows {
        if is_takable(table, rows, *row, private_too) {
            taken.push(*row)?;
        }
    }
    put_in_order(&mut taken);
    Ok(taken)
}

// Where the classes of rows are marked.
fn mark_classes(
    alloc: Global,
    table: &ClassTable,
    plain: &[MemberRow],
    instance: &[MemberRow],
) -> Result<Option<Marked>, AllocError>
    ensures { IfOk result (λ found. IfSome found (AreMarked table.now plain.now instance.now)) }
{
    let Some(spans) = Spans::of(alloc, table)? else {
        return Ok(None);
    };
    let Some(plain) = SpanMarks::of(alloc, &spans, plain)? else {
        return Ok(None);
    };
    let Some(instance) = SpanMarks::of(alloc, &spans, instance)? else {
        return Ok(None);
    };
    Ok(Some(Marked {
        spans,
        plain,
        instance,
    }))
}

// What rows are ordered by: the class and the place.
fn place_key(row: MemberRow) -> u64
    ensures { result ≡ place_key row }
{
    pair_of(row.class, row.place)
}

// Puts rows in the order of their classes and places.
fn put_in_places(rows: &mut Vec<MemberRow>)
    ensures moved { IsPermutation rows.old.items rows.new.items }
    ensures ascend { IsNonDecreasingBy place_key rows.new.items }
{
    rows.sort_unstable_by_key(|row| place_key(*row));
}

// Whether the row that stands there is that of the method at a place.
fn is_placed(rows: &[MemberRow], at: usize, class: u32, place: u32) -> bool
    ensures placed { result ≡ true → IsPlaced rows.now class place at }
    ensures other { result ≡ false → IsPlaced rows.now class place at → ⊥ }
{
    match rows.get(at) {
        Some(row) => row.class == class && row.place == place,
        None => false,
    }
}

// Where the row of the method at a place stands, by halving.
fn halved(rows: &[MemberRow], class: u32, place: u32) -> Option<usize>
    requires { ArePlaces rows.now }
    ensures some { IfSome result (IsPlaced rows.now class place) }
    ensures none { result ≡ None → (at : ℕ) → IsPlaced rows.now class place at → ⊥ }
{
    let key = pair_of(class, place);
    let at = rows.partition_point(|row| place_key(*row) < key);
    if is_placed(rows, at, class, place) {
        Some(at)
    } else {
        None
    }
}

// By class, how many rows stand before its first one.
fn starts_of(
    alloc: Global,
    table: &ClassTable,
    rows: &[MemberRow],
) -> Result<Vec<usize>, AllocError> {
    let mut starts = Vec::new(alloc);
    for class in 0..table.class_count() {
        let key = pair_of(class, 0);
        let start = rows.partition_point(|row| place_key(*row) < key);
        starts.push(start)?;
    }
    Ok(starts)
}

// By where rows stand, the first place of a row of the same numbers and the same class.
fn firsts_of(
    alloc: Global,
    rows: &[MemberRow],
    places: &[MemberRow],
) -> Result<Vec<u32>, AllocError>
    requires order { AreInOrder rows.now }
    requires within { (row : MemberRow) → Contains places.now row → Contains rows.now row }
    ensures { IfOk result (λ firsts. AreFirsts rows.now places.now firsts.items) }
{
    let mut firsts = Vec::new(alloc);
    for row in places {
        let Some(first) = place_in(rows, row.name, row.desc, row.class) else {
            unreachable!()
        };
        firsts.push(first)?;
    }
    Ok(firsts)
}

impl CallTable {
    /// Puts the methods of all classes in order.
    pub fn of(alloc: Global, table: &ClassTable) -> Result<CallTable, AllocError>
        ensures { IfOk result (IsCallTable table.now) }
    {
        let rows = Directory::of(alloc, table)?.into_methods();
        let plain = takable(alloc, table, &rows, false)?;
        let instance = takable(alloc, table, &rows, true)?;
        let marked = mark_classes(alloc, table, &plain, &instance)?;
        let mut places = rows.as_slice().to_vec(alloc)?;
        put_in_places(&mut places);
        let starts = starts_of(alloc, table, &places)?;
        let firsts = firsts_of(alloc, &rows, &places)?;
        Ok(CallTable {
            places,
            starts,
            firsts,
            plain,
            instance,
            marked,
        })
    }

    // Where the row of the method at a place stands if it is as far from the first one of its class as the method from the first of the class.
    fn near(&self, class: u32, place: u32) -> Option<usize> {
        let start = self.starts.get(class as usize)?;
        start.checked_add(place as usize)
    }

    // Where the row of the method at a place stands.
    fn index_of(&self, class: u32, place: u32) -> Option<usize>
        requires { ArePlaces self.now.places.items }
        ensures some { IfSome result (IsPlaced self.now.places.items class place) }
        ensures none { result ≡ None → (at : ℕ) → IsPlaced self.now.places.items class place at → ⊥ }
    {
        match self.near(class, place) {
            Some(at) if is_placed(&self.places, at, class, place) => Some(at),
            _ => halved(&self.places, class, place),
        }
    }

    // The row of the method at a place.
    fn row_at(&self, class: u32, place: u32) -> Option<MemberRow>
        requires { ArePlaces self.now.places.items }
        ensures some { IfSome result (IsRowAt self.now.places.items class place) }
        ensures none { result ≡ None → (at : ℕ) → IsPlaced self.now.places.items class place at → ⊥ }
    {
        let at = self.index_of(class, place)?;
        Some(self.places[at])
    }

    /// The place of the first method of its class that has the name and the descriptor of the method at a place.
    pub fn first_like(&self, table: &ClassTable, class: u32, member: u32) -> u32
        requires table { IsCallTable table.now self.now }
        requires there { class < length table.now }
        requires within { member < length (methods_at table.now class) }
        ensures { IsFirstLike table.now class member result }
    {
        let _ = table;
        match self.index_of(class, member) {
            Some(at) => self.firsts[at],
            None => unreachable!(),
        }
    }

    // Those that a call may take.
    fn taken(&self, private_too: bool) -> &[MemberRow]
        ensures { result.now ≡ (if private_too then self.now.instance.items else self.now.plain.items) }
    {
        if private_too {
            &self.instance
        } else {
            &self.plain
        }
    }

    /// The rows of those that a call may take that have the name and the descriptor of the method at a place.
    pub fn alike(
        &self,
        table: &ClassTable,
        class: u32,
        member: u32,
        private_too: bool,
    ) -> Option<&[MemberRow]>
        requires { IsCallTable table.now self.now }
        ensures { IfSome result (λ rows. DeclareLike table.now (tests private_too) class member rows.now) }
    {
        let _ = table.class_count();
        let row = self.row_at(class, member)?;
        Some(rows_with(self.taken(private_too), row.name, row.desc))
    }

    /// The place of the first method of another class that has the name and the descriptor of the method at a place, where a call may take it.
    pub fn taken_in(
        &self,
        table: &ClassTable,
        class: u32,
        member: u32,
        private_too: bool,
        other: u32,
    ) -> Option<u32>
        requires table { IsCallTable table.now self.now }
        requires other { other < length table.now }
        ensures { IfSome result (λ place. DeclaresLike table.now (tests private_too) class member other place) }
    {
        let _ = table;
        let row = self.row_at(class, member)?;
        place_in(self.taken(private_too), row.name, row.desc, other)
    }

    /// The nearest class, from `class` upward, with a method that a call may take, of the same name and descriptor as the method at a place, where it is known.
    /// No nearer class among `below` and its superclasses declares such a method; the answer itself needn't be among these.
    pub fn nearest_like(
        &self,
        table: &ClassTable,
        class: u32,
        member: u32,
        private_too: bool,
        below: u32,
    ) -> Option<Option<u32>>
        requires { IsCallTable table.now self.now }
        ensures { IfSome result (IsNearestLike table.now (tests private_too) class member below) }
    {
        let _ = table;
        let row = self.row_at(class, member)?;
        let Some(marked) = &self.marked else {
            return None;
        };
        let start = marked.spans.start(below);
        if private_too {
            marked.instance.nearest(row.name, row.desc, start)
        } else {
            marked.plain.nearest(row.name, row.desc, start)
        }
    }
}
