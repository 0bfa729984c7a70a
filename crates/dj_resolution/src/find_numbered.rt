//! Members found by the numbers of their names and descriptors.
ghost use Rattle.std.specs.Prelude.{◌≡◌, ℕ, List, ◌<◌, ◌≤◌, true, false, length, Some, IfSome, MatchOption, slice_get, if◌then◌else◌, ◌∷◌};
ghost use Rattle.std.specs.Option.{option_map};
ghost use Rattle.dj_model.specs.trusted.Program.{is_interface, flags_of};
ghost use Rattle.dj_model.specs.trusted.Linking.{any_method, is_plain, most_classes, option_list};
ghost use Rattle.dj_declarations.specs.trusted.Files.{desc_in};
ghost use Rattle.dj_class_table.specs.Tables.{flags_in, super_number};
ghost use Rattle.dj_resolution.specs.Bits.{in_bits};
ghost use Rattle.dj_resolution.specs.Chained.{AreFieldChains, AreMethodChains};
ghost use Rattle.dj_resolution.specs.Marked.{IsCovered};
ghost use Rattle.dj_resolution.specs.Numbered.{AreTexts};
ghost use Rattle.dj_resolution.specs.Numbers.{AreAbove, AreBelow, SaysMethod, SaysField, first_some, method_found, field_found, lists_of, numbers_above, numbers_up};
ghost use Rattle.dj_resolution.specs.Ranked.{AreRanksOf, HasRow};
ghost use Rattle.dj_resolution.specs.Shared.{HaveFieldMarks, HavePlainMarks, HaveRankMarks};

use crate::chains::Chains;
use crate::declarers::{mark_all, mark_plain, method_flags};
use crate::find::{INTERFACE, MOST_CLASSES, PRIVATE, STATIC};
use crate::nearest::nearest_of;
use crate::ranked::{MOST_ROWS, Ranks};
use crate::shared::{FEW_ROWS, Shared};
use crate::words::may_have_bit;
use dj_class_table::Place;
use dj_member_index::Directory;

// A search among at most this many classes looks at them one by one; a longer one first marks all classes that declare the member.
const SHORT_WALK: u32 = 8;

// Words with a bit for each class, where there are as few as have rows.
const MARK_WORDS: usize = 128;

// ---- what a table says of a class

// The access flags of a class (JVMS table 4.1-A).
fn flags_of(directory: &Directory<'_>, class: u32) -> u16
    requires { class < length directory.now.program }
    ensures { Some result ≡ option_map flags_in (slice_get directory.now.program class) }
{
    directory.classes().flags_of(class)
}

// The number of the superclass of a class, where it has one that is there.
fn super_of(directory: &Directory<'_>, class: u32) -> Option<u32>
    requires { class < length directory.now.program }
    ensures { result ≡ super_number directory.now.program class }
{
    directory.classes().super_of(class)
}

// ---- members

// The method of the name and the descriptor that a class declares.
fn method_in(directory: &Directory<'_>, class: u32, name: u32, desc: u32) -> Option<Place>
    requires { class < length directory.now.program }
    ensures { (n d : List ℕ) → AreTexts directory.now name desc n d → SaysMethod directory.now.program result (method_found directory.now.program any_method n (desc_in d) class) }
{
    let member = directory.method_in(class, name, desc)?;
    Some(Place { class, member })
}

// The same, where it is neither private nor static.
fn plain_method_in(directory: &Directory<'_>, class: u32, name: u32, desc: u32) -> Option<Place>
    requires { class < length directory.now.program }
    ensures { (n d : List ℕ) → AreTexts directory.now name desc n d → SaysMethod directory.now.program result (method_found directory.now.program is_plain n (desc_in d) class) }
{
    let member = directory.method_in(class, name, desc)?;
    let flags = method_flags(directory, class, member);
    if flags & PRIVATE == 0 && flags & STATIC == 0 {
        Some(Place { class, member })
    } else {
        None
    }
}

// The field of the name and the descriptor that a class declares.
fn field_in(directory: &Directory<'_>, class: u32, name: u32, desc: u32) -> Option<Place>
    requires { class < length directory.now.program }
    ensures { (n d : List ℕ) → AreTexts directory.now name desc n d → SaysField directory.now.program result (field_found directory.now.program n (desc_in d) class) }
{
    let member = directory.field_in(class, name, desc)?;
    Some(Place { class, member })
}

// ---- classes that are marked

// Whether something may be found in a class: it is marked, where any are.
fn may_be_in(marks: Option<&[u64]>, class: u32) -> bool
    ensures { result ≡ false → MatchOption marks.entry ⊥ (λ words. in_bits words.now class ≡ false) }
{
    match marks {
        Some(words) => may_have_bit(words, class),
        None => true,
    }
}

// Whether the classes that declare a member are marked before these are looked at, as they are where there are many of these.
fn is_worth_marking(directory: &Directory<'_>, classes: &[u32]) -> bool
    ensures { result ≡ true → length directory.now.program ≤ 8192 }
{
    classes.len() > SHORT_WALK as usize && directory.classes().class_count() <= MOST_ROWS
}

// ---- members of the first of some classes

// The method that a class declares, where it may be there and is neither private nor static.
fn plain_method_if(
    directory: &Directory<'_>,
    marks: Option<&[u64]>,
    class: u32,
    name: u32,
    desc: u32,
) -> Option<Place>
    requires there { class < length directory.now.program }
    requires marked { (n d : List ℕ) → AreTexts directory.now name desc n d → IfSome marks (λ words. IsCovered (method_found directory.now.program is_plain n (desc_in d)) (length directory.now.program) words.now) }
    ensures { (n d : List ℕ) → AreTexts directory.now name desc n d → SaysMethod directory.now.program result (method_found directory.now.program is_plain n (desc_in d) class) }
{
    if may_be_in(marks, class) {
        plain_method_in(directory, class, name, desc)
    } else {
        None
    }
}

// The first method of these classes, or of those that are marked, that is neither private nor static.
fn plain_method_in_turn(
    directory: &Directory<'_>,
    marks: Option<&[u64]>,
    classes: &[u32],
    name: u32,
    desc: u32,
) -> Option<Place>
    requires below { AreBelow (length directory.now.program) classes.now }
    requires marked { (n d : List ℕ) → AreTexts directory.now name desc n d → IfSome marks (λ words. IsCovered (method_found directory.now.program is_plain n (desc_in d)) (length directory.now.program) words.now) }
    ensures { (n d : List ℕ) → AreTexts directory.now name desc n d → SaysMethod directory.now.program result (first_some (method_found directory.now.program is_plain n (desc_in d)) classes.now) }
{
    for class in classes {
        if let Some(place) = plain_method_if(directory, marks, *class, name, desc) {
            return Some(place);
        }
    }
    None
}

// The first method of these classes that is neither private nor static, where few classes declare such a method, or few are looked at.
fn plain_method_of_few(
    directory: &Directory<'_>,
    classes: &[u32],
    name: u32,
    desc: u32,
) -> Option<Place>
    requires below { AreBelow (length directory.now.program) classes.now }
    requires few { length directory.now.program ≤ 8192 }
    ensures { (n d : List ℕ) → AreTexts directory.now name desc n d → SaysMethod directory.now.program result (first_some (method_found directory.now.program is_plain n (desc_in d)) classes.now) }
{
    let rows = directory.methods_of(name, desc);
    if rows.is_empty() {
        return None;
    }
    if rows.len() > FEW_ROWS {
        return plain_method_in_turn(directory, None, classes, name, desc);
    }
    let mut marks = [0; MARK_WORDS];
    mark_plain(directory, rows, &mut marks);
    plain_method_in_turn(directory, Some(marks.as_slice()), classes, name, desc)
}

// The first method of these classes that is neither private nor static.
fn plain_method_among(
    directory: &Directory<'_>,
    shared: &Shared,
    classes: &[u32],
    name: u32,
    desc: u32,
) -> Option<Place>
    requires below { AreBelow (length directory.now.program) classes.now }
    requires shared { HavePlainMarks directory.now.program shared.now.plain.items }
    ensures { (n d : List ℕ) → AreTexts directory.now name desc n d → SaysMethod directory.now.program result (first_some (method_found directory.now.program is_plain n (desc_in d)) classes.now) }
{
    if !is_worth_marking(directory, classes) {
        return plain_method_in_turn(directory, None, classes, name, desc);
    }
    match shared.plain_marks(directory, name, desc) {
        Some(marks) => plain_method_in_turn(directory, Some(marks), classes, name, desc),
        None => plain_method_of_few(directory, classes, name, desc),
    }
}

// The field that a class declares, where it may be there.
fn field_if(
    directory: &Directory<'_>,
    marks: Option<&[u64]>,
    class: u32,
    name: u32,
    desc: u32,
) -> Option<Place>
    requires there { class < length directory.now.program }
    requires marked { (n d : List ℕ) → AreTexts directory.now name desc n d → IfSome marks (λ words. IsCovered (field_found directory.now.program n (desc_in d)) (length directory.now.program) words.now) }
    ensures { (n d : List ℕ) → AreTexts directory.now name desc n d → SaysField directory.now.program result (field_found directory.now.program n (desc_in d) class) }
{
    if may_be_in(marks, class) {
        field_in(directory, class, name, desc)
    } else {
        None
    }
}

// The first field of these classes, or of those that are marked.
fn field_in_turn(
    directory: &Directory<'_>,
    marks: Option<&[u64]>,
    classes: &[u32],
    name: u32,
    desc: u32,
) -> Option<Place>
    requires below { AreBelow (length directory.now.program) classes.now }
    requires marked { (n d : List ℕ) → AreTexts directory.now name desc n d → IfSome marks (λ words. IsCovered (field_found directory.now.program n (desc_in d)) (length directory.now.program) words.now) }
    ensures { (n d : List ℕ) → AreTexts directory.now name desc n d → SaysField directory.now.program result (first_some (field_found directory.now.program n (desc_in d)) classes.now) }
{
    for class in classes {
        if let Some(place) = field_if(directory, marks, *class, name, desc) {
            return Some(place);
        }
    }
    None
}

// The first field of these classes, where few classes declare such a field, or few are looked at.
fn field_of_few(directory: &Directory<'_>, classes: &[u32], name: u32, desc: u32) -> Option<Place>
    requires below { AreBelow (length directory.now.program) classes.now }
    requires few { length directory.now.program ≤ 8192 }
    ensures { (n d : List ℕ) → AreTexts directory.now name desc n d → SaysField directory.now.program result (first_some (field_found directory.now.program n (desc_in d)) classes.now) }
{
    let rows = directory.fields_of(name, desc);
    if rows.is_empty() {
        return None;
    }
    if rows.len() > FEW_ROWS {
        return field_in_turn(directory, None, classes, name, desc);
    }
    let mut marks = [0; MARK_WORDS];
    mark_all(rows, &mut marks);
    field_in_turn(directory, Some(marks.as_slice()), classes, name, desc)
}

// The first field of these classes.
fn field_among(
    directory: &Directory<'_>,
    shared: &Shared,
    classes: &[u32],
    name: u32,
    desc: u32,
) -> Option<Place>
    requires below { AreBelow (length directory.now.program) classes.now }
    requires shared { HaveFieldMarks directory.now.program shared.now.fields.items }
    ensures { (n d : List ℕ) → AreTexts directory.now name desc n d → SaysField directory.now.program result (first_some (field_found directory.now.program n (desc_in d)) classes.now) }
{
    if !is_worth_marking(directory, classes) {
        return field_in_turn(directory, None, classes, name, desc);
    }
    match shared.field_marks(directory, name, desc) {
        Some(marks) => field_in_turn(directory, Some(marks), classes, name, desc),
        None => field_of_few(directory, classes, name, desc),
    }
}

// ---- up the classes

// The first method of the interfaces above a class that is neither private nor static.
fn plain_method_above(
    directory: &Directory<'_>,
    above: &[Vec<u32>],
    shared: &Shared,
    class: u32,
    name: u32,
    desc: u32,
) -> Option<Place>
    requires there { class < length directory.now.program }
    requires above { AreAbove directory.now.program (lists_of above.now) }
    requires shared { HavePlainMarks directory.now.program shared.now.plain.items }
    ensures { (n d : List ℕ) → AreTexts directory.now name desc n d → SaysMethod directory.now.program result (first_some (method_found directory.now.program is_plain n (desc_in d)) (numbers_above directory.now.program class)) }
{
    plain_method_among(directory, shared, &above[class as usize], name, desc)
}

// The first field of a class and of the interfaces above it.
fn field_above(
    directory: &Directory<'_>,
    above: &[Vec<u32>],
    shared: &Shared,
    class: u32,
    name: u32,
    desc: u32,
) -> Option<Place>
    requires there { class < length directory.now.program }
    requires above { AreAbove directory.now.program (lists_of above.now) }
    requires shared { HaveFieldMarks directory.now.program shared.now.fields.items }
    ensures { (n d : List ℕ) → AreTexts directory.now name desc n d → SaysField directory.now.program result (first_some (field_found directory.now.program n (desc_in d)) (class ∷ numbers_above directory.now.program class)) }
{
    match field_in(directory, class, name, desc) {
        Some(place) => Some(place),
        None => field_among(directory, shared, &above[class as usize], name, desc),
    }
}

// Class by class, the first method of a class and its superclasses.
fn method_up_by_class(directory: &Directory<'_>, class: u32, name: u32, desc: u32) -> Option<Place>
    requires { class < length directory.now.program }
    ensures { (n d : List ℕ) → AreTexts directory.now name desc n d → SaysMethod directory.now.program result (first_some (method_found directory.now.program any_method n (desc_in d)) (numbers_up most_classes directory.now.program (Some class))) }
{
    let mut next = Some(class);
    for _ in 0..MOST_CLASSES {
        let at = next?;
        if let Some(place) = method_in(directory, at, name, desc) {
            return Some(place);
        }
        next = super_of(directory, at);
    }
    None
}

// What a short walk finds out of the first method of a class and its superclasses: the method, or that there is none. Most walks end soon;
// where this one doesn't, it finds out nothing.
fn method_near(directory: &Directory<'_>, class: u32, name: u32, desc: u32) -> Option<Option<Place>>
    requires { class < length directory.now.program }
    ensures { IfSome result (λ place. (n d : List ℕ) → AreTexts directory.now name desc n d → SaysMethod directory.now.program place (first_some (method_found directory.now.program any_method n (desc_in d)) (numbers_up most_classes directory.now.program (Some class)))) }
{
    let mut next = Some(class);
    for _ in 0..SHORT_WALK {
        let Some(at) = next else {
            return Some(None);
        };
        if let Some(place) = method_in(directory, at, name, desc) {
            return Some(Some(place));
        }
        next = super_of(directory, at);
    }
    None
}

// The method of the nearest class that declares it, of a class that has bits and its superclasses.
fn nearest_method(
    directory: &Directory<'_>,
    ranks: &Ranks,
    class: u32,
    name: u32,
    desc: u32,
) -> Option<Place>
    requires there { class < length directory.now.program }
    requires ranks { AreRanksOf directory.now.program ranks.now }
    requires known { HasRow (lists_of ranks.now.rows.items) class }
    ensures { (n d : List ℕ) → AreTexts directory.now name desc n d → SaysMethod directory.now.program result (first_some (method_found directory.now.program any_method n (desc_in d)) (numbers_up most_classes directory.now.program (Some class))) }
{
    let rows = directory.methods_of(name, desc);
    if rows.len() > FEW_ROWS {
        return method_up_by_class(directory, class, name, desc);
    }
    let near = nearest_of(directory.classes(), ranks, rows, class)?;
    method_in(directory, near.class, name, desc)
}

// The same, where many classes declare it: their marks give the nearest one.
fn marked_method(
    directory: &Directory<'_>,
    ranks: &Ranks,
    shared: &Shared,
    class: u32,
    name: u32,
    desc: u32,
) -> Option<Option<Place>>
    requires there { class < length directory.now.program }
    requires ranks { AreRanksOf directory.now.program ranks.now }
    requires known { HasRow (lists_of ranks.now.rows.items) class }
    requires shared { HaveRankMarks directory.now.program ranks.now.ranks.items shared.now.declared.items }
    ensures { IfSome result (λ place. (n d : List ℕ) → AreTexts directory.now name desc n d → SaysMethod directory.now.program place (first_some (method_found directory.now.program any_method n (desc_in d)) (numbers_up most_classes directory.now.program (Some class)))) }
{
    let marks = shared.declared_marks(directory, ranks, name, desc)?;
    let near = ranks.nearest_marked(directory.classes(), class, marks)?;
    let Some(near) = near else {
        return Some(None);
    };
    let place = method_in(directory, near, name, desc)?;
    Some(Some(place))
}

// The first method of a class and its superclasses.
fn method_up(
    directory: &Directory<'_>,
    ranks: &Ranks,
    shared: &Shared,
    class: u32,
    name: u32,
    desc: u32,
) -> Option<Place>
    requires there { class < length directory.now.program }
    requires ranks { AreRanksOf directory.now.program ranks.now }
    requires shared { HaveRankMarks directory.now.program ranks.now.ranks.items shared.now.declared.items }
    ensures { (n d : List ℕ) → AreTexts directory.now name desc n d → SaysMethod directory.now.program result (first_some (method_found directory.now.program any_method n (desc_in d)) (numbers_up most_classes directory.now.program (Some class))) }
{
    if let Some(reported) = method_near(directory, class, name, desc) {
        return reported;
    }
    if !ranks.has_row(directory.classes(), class) {
        // Its superclasses go round, or there are too many classes for bits.
        return method_up_by_class(directory, class, name, desc);
    }
    match marked_method(directory, ranks, shared, class, name, desc) {
        Some(reported) => reported,
        None => nearest_method(directory, ranks, class, name, desc),
    }
}

// Class by class, the first method of the interfaces above a class and its superclasses that is neither private nor static.
fn plain_method_by_class(
    directory: &Directory<'_>,
    above: &[Vec<u32>],
    shared: &Shared,
    class: u32,
    name: u32,
    desc: u32,
) -> Option<Place>
    requires there { class < length directory.now.program }
    requires above { AreAbove directory.now.program (lists_of above.now) }
    requires shared { HavePlainMarks directory.now.program shared.now.plain.items }
    ensures { (n d : List ℕ) → AreTexts directory.now name desc n d → SaysMethod directory.now.program result
        (first_some (λ k. first_some (method_found directory.now.program is_plain n (desc_in d)) (numbers_above directory.now.program k)) (numbers_up most_classes directory.now.program (Some class))) }
{
    let mut next = Some(class);
    for _ in 0..MOST_CLASSES {
        let at = next?;
        if let Some(place) = plain_method_above(directory, above, shared, at, name, desc) {
            return Some(place);
        }
        next = super_of(directory, at);
    }
    None
}

/// The first method of the interfaces above a class and its superclasses that is neither private nor static.
pub fn plain_method_up(
    directory: &Directory<'_>,
    above: &[Vec<u32>],
    shared: &Shared,
    methods: &Chains,
    class: u32,
    name: u32,
    desc: u32,
) -> Option<Place>
    requires there { class < length directory.now.program }
    requires above { AreAbove directory.now.program (lists_of above.now) }
    requires methods { AreMethodChains directory.now.program methods.now }
    requires shared { HavePlainMarks directory.now.program shared.now.plain.items }
    ensures { (n d : List ℕ) → AreTexts directory.now name desc n d → SaysMethod directory.now.program result
        (first_some (λ k. first_some (method_found directory.now.program is_plain n (desc_in d)) (numbers_above directory.now.program k)) (numbers_up most_classes directory.now.program (Some class))) }
{
    match methods.list_of(class) {
        Some(list) => plain_method_among(directory, shared, list, name, desc),
        // Its superclasses go round.
        None => plain_method_by_class(directory, above, shared, class, name, desc),
    }
}

// Class by class, the first field of a class, the interfaces above it, and its superclasses in the same way.
fn field_by_class(
    directory: &Directory<'_>,
    above: &[Vec<u32>],
    shared: &Shared,
    class: u32,
    name: u32,
    desc: u32,
) -> Option<Place>
    requires there { class < length directory.now.program }
    requires above { AreAbove directory.now.program (lists_of above.now) }
    requires shared { HaveFieldMarks directory.now.program shared.now.fields.items }
    ensures { (n d : List ℕ) → AreTexts directory.now name desc n d → SaysField directory.now.program result
        (first_some (λ k. first_some (field_found directory.now.program n (desc_in d)) (k ∷ numbers_above directory.now.program k)) (numbers_up most_classes directory.now.program (Some class))) }
{
    let mut next = Some(class);
    for _ in 0..MOST_CLASSES {
        let at = next?;
        if let Some(place) = field_above(directory, above, shared, at, name, desc) {
            return Some(place);
        }
        next = super_of(directory, at);
    }
    None
}

/// The first field of a class, the interfaces above it, and its superclasses in the same way.
pub fn field_up(
    directory: &Directory<'_>,
    above: &[Vec<u32>],
    shared: &Shared,
    fields: &Chains,
    class: u32,
    name: u32,
    desc: u32,
) -> Option<Place>
    requires there { class < length directory.now.program }
    requires above { AreAbove directory.now.program (lists_of above.now) }
    requires fields { AreFieldChains directory.now.program fields.now }
    requires shared { HaveFieldMarks directory.now.program shared.now.fields.items }
    ensures { (n d : List ℕ) → AreTexts directory.now name desc n d → SaysField directory.now.program result
        (first_some (λ k. first_some (field_found directory.now.program n (desc_in d)) (k ∷ numbers_above directory.now.program k)) (numbers_up most_classes directory.now.program (Some class))) }
{
    match fields.list_of(class) {
        Some(list) => field_among(directory, shared, list, name, desc),
        // Its superclasses go round.
        None => field_by_class(directory, above, shared, class, name, desc),
    }
}

/// The first method of an interface and Object, or of a class and its superclasses.
pub fn method_first(
    directory: &Directory<'_>,
    ranks: &Ranks,
    shared: &Shared,
    object: Option<u32>,
    class: u32,
    name: u32,
    desc: u32,
) -> Option<Place>
    requires object { IfSome object (λ k. k < length directory.now.program) }
    requires ranks { AreRanksOf directory.now.program ranks.now }
    requires there { class < length directory.now.program }
    requires shared { HaveRankMarks directory.now.program ranks.now.ranks.items shared.now.declared.items }
    ensures { (n d : List ℕ) → AreTexts directory.now name desc n d → SaysMethod directory.now.program result (first_some (method_found directory.now.program any_method n (desc_in d))
        (if is_interface (flags_of (slice_get directory.now.program class)) then class ∷ option_list object else numbers_up most_classes directory.now.program (Some class))) }
{
    if flags_of(directory, class) & INTERFACE == 0 {
        return method_up(directory, ranks, shared, class, name, desc);
    }
    match method_in(directory, class, name, desc) {
        Some(place) => Some(place),
        None => method_in(directory, object?, name, desc),
    }
}
