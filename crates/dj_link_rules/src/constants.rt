ghost use Rattle.std.specs.Prelude.{◌≡◌, ◌<◌, [], length, Some, nat_eq, if◌then◌else◌, IfOk, IfSome};
ghost use Rattle.std.specs.Option.{option_map};
ghost use Rattle.dj_pool.specs.trusted.Pool.{IsPool, IsClassText, IsLinked, NamesText, text_at};
ghost use Rattle.dj_pool.specs.Views.{constant_of};
ghost use Rattle.dj_model.specs.trusted.Types.{object_name};
ghost use Rattle.dj_class_table.specs.Tables.{class_number};
ghost use Rattle.dj_link_rules.specs.trusted.Named.{named_type, named_member};
ghost use Rattle.dj_link_rules.specs.Judged.{tag_of, judged_class, judged_member, judged, AreJudged};
ghost use Rattle.dj_link_rules.specs.Constants.{text_class, static_in, AreSeen, AreNumbersSeenBy, IsDirectoryOf, IsNumbered};

use crate::class_text::{class_text, is_of_library, object_name};
use crate::error::LinkError;
use crate::name_numbers::{NumberedName, member_name, unseen_numbers};
use crate::named::{NamedClass, NamedConstant, NamedMember, Tag};
use crate::statics::is_static_at;
use dj_early_rules::class_text_index;
use dj_member_index::Directory;
use dj_pool::{Entry, Pool};
use dj_resolution::Linker;
use std::alloc::Global;

fn tag_of(entry: Entry<'_>) -> Tag
    ensures { result ≡ tag_of (constant_of entry.entry) }
{
    match entry {
        Entry::Integer(_)
        | Entry::Float(_)
        | Entry::Text(_)
        | Entry::Handle(_, _)
        | Entry::MethodType(_) => Tag::Short,
        Entry::Long(_) | Entry::Double(_) => Tag::Long,
        Entry::Class(_) => Tag::Class,
        Entry::Field(_, _) => Tag::Field,
        Entry::Method(_, _) => Tag::Method,
        Entry::InterfaceMethod(_, _) => Tag::InterfaceMethod,
        Entry::Dynamic(_, _) => Tag::Dynamic,
        _ => Tag::Other,
    }
}

// ---- classes

// The class that a text names.
fn judge_class(linker: &Linker, text: &[u8]) -> NamedClass
    requires { IsClassText text.now }
    ensures { result ≡ text_class linker.now.program text.now }
{
    let stands = class_text(text);
    NamedClass {
        dims: stands.dims,
        number: linker.classes().class_named(stands.class),
        of_library: is_of_library(stands.class),
    }
}

// The class that the text at an index names: the one that was kept, or else it is found out and kept.
fn see_class(
    linker: &Linker,
    pool: &Pool<'_>,
    seen: &mut [Option<NamedClass>],
    index: u16,
) -> NamedClass
    requires seen { AreSeen linker.now.program pool.now seen.old }
    requires text { NamesText IsClassText pool.now index }
    ensures seen { AreSeen linker.now.program pool.now seen.new }
    ensures class { Some result ≡ option_map (text_class linker.now.program) (text_at pool.now index) }
{
    if let Some(class) = seen[usize::from(index)] {
        return class;
    }
    let Some(text) = pool.text(index) else {
        unreachable!()
    };
    let class = judge_class(linker, text);
    seen[usize::from(index)] = Some(class);
    class
}

// The class that a constant names.
fn class_of(
    linker: &Linker,
    pool: &Pool<'_>,
    seen: &mut [Option<NamedClass>],
    entry: Entry<'_>,
) -> Option<NamedClass>
    requires valid { IsPool pool.now }
    requires linked { IsLinked pool.now (constant_of entry) }
    requires seen { AreSeen linker.now.program pool.now seen.old }
    ensures seen { AreSeen linker.now.program pool.now seen.new }
    ensures class { result ≡ option_map (judged_class linker.now.program) (named_type pool.now (constant_of entry.entry)) }
{
    let index = class_text_index(pool, entry)?;
    Some(see_class(linker, pool, seen, index))
}

// ---- members

// The number of the class in which members of a class are looked up; those of an array are Object's.
fn member_class(object: Option<u32>, class: NamedClass) -> Option<u32>
    ensures { result ≡ if nat_eq class.dims 0 then class.number else object }
{
    if class.dims == 0 {
        class.number
    } else {
        object
    }
}

// Whether what a constant names in the class of a number is static, where there is such a class.
fn is_static_in(
    linker: &Linker,
    directory: Option<&Directory<'_>>,
    entry: Entry<'_>,
    class: Option<u32>,
    named: NumberedName<'_>,
) -> Option<bool>
    requires same { IsDirectoryOf linker.now.program directory }
    requires there { IfSome class (λ number. number < length linker.now.program) }
    requires named { IsNumbered directory named }
    ensures { result ≡ static_in linker.now (constant_of entry.entry) class named.entry.name.now named.entry.desc.now }
{
    is_static_at(linker, directory, entry, class?, named)
}

// The member that a constant names, where its class is this one.
fn member_of(
    linker: &Linker,
    directory: Option<&Directory<'_>>,
    pool: &Pool<'_>,
    numbers: &mut [Option<Option<u32>>],
    object: Option<u32>,
    entry: Entry<'_>,
    class: Option<NamedClass>,
) -> Option<NamedMember>
    requires plain { linker.now.prefix ≡ [] }
    requires same { IsDirectoryOf linker.now.program directory }
    requires numbers { AreNumbersSeenBy directory pool.now numbers.old }
    requires object { object ≡ class_number linker.now.program (object_name []) }
    requires linked { IsLinked pool.now (constant_of entry) }
    requires class { class ≡ option_map (judged_class linker.now.program) (named_type pool.now (constant_of entry)) }
    ensures numbers { AreNumbersSeenBy directory.entry pool.now numbers.new }
    ensures member { result ≡ option_map (judged_member linker.now.program (constant_of entry.entry)) (named_member pool.now (constant_of entry.entry)) }
{
    let class = class?;
    let named = member_name(directory, pool, numbers, entry)?;
    Some(NamedMember {
        is_static: is_static_in(linker, directory, entry, member_class(object, class), named),
        is_constructor: named.name == b"<init>".as_slice(),
        is_initialiser: named.name == b"<clinit>".as_slice(),
    })
}

// ---- constants

// What a constant names.
fn judge_constant(
    linker: &Linker,
    directory: Option<&Directory<'_>>,
    pool: &Pool<'_>,
    object: Option<u32>,
    seen: &mut [Option<NamedClass>],
    numbers: &mut [Option<Option<u32>>],
    entry: Entry<'_>,
) -> NamedConstant
    requires plain { linker.now.prefix ≡ [] }
    requires same { IsDirectoryOf linker.now.program directory }
    requires numbers { AreNumbersSeenBy directory pool.now numbers.old }
    requires object { object ≡ class_number linker.now.program (object_name []) }
    requires valid { IsPool pool.now }
    requires linked { IsLinked pool.now (constant_of entry) }
    requires seen { AreSeen linker.now.program pool.now seen.old }
    ensures seen { AreSeen linker.now.program pool.now seen.new }
    ensures numbers { AreNumbersSeenBy directory.entry pool.now numbers.new }
    ensures constant { result ≡ judged linker.now.program pool.now (constant_of entry.entry) }
{
    let class = class_of(linker, pool, seen, entry);
    let member = member_of(linker, directory, pool, numbers, object, entry, class);
    NamedConstant {
        tag: tag_of(entry),
        class,
        member,
    }
}

/// What each constant of a pool names, by its index. Each text is looked up once.
pub fn judge_constants(
    alloc: Global,
    linker: &Linker,
    directory: Option<&Directory<'_>>,
    pool: &Pool<'_>,
) -> Result<Vec<Option<NamedConstant>>, LinkError>
    requires plain { linker.now.prefix ≡ [] }
    requires same { IsDirectoryOf linker.now.program directory }
    requires valid { IsPool pool.now }
    ensures { IfOk result (λ kept. AreJudged linker.now.program pool.now kept.items) }
{
    let object = linker.classes().class_named(object_name());
    let entries = pool.as_slice();
    let mut seen = vec![in alloc; None; entries.len() + 1]?;
    let mut numbers = unseen_numbers(alloc, directory, entries.len() + 1)?;
    let mut kept = vec![in alloc; None]?;
    for entry in entries {
        let constant = judge_constant(
            linker,
            directory,
            pool,
            object,
            &mut seen,
            &mut numbers,
            *entry,
        );
        kept.push(Some(constant))?;
    }
    Ok(kept)
}
