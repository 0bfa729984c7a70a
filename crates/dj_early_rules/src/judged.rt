ghost use Rattle.std.specs.Prelude.{◌≡◌, ◌↔◌, ◌+◌, ◌<◌, ◌≤◌, ◌^◌, [], ◌∷◌, map, length, slice_get, Contains, true, IsTrue, IfOk, OnOk};
ghost use Rattle.std.specs.List.{list_any};
ghost use Rattle.dj_names.specs.trusted.Names.{IsClassName};
ghost use Rattle.dj_class.specs.trusted.ClassFile.{MemberInfo};
ghost use Rattle.dj_class.specs.Members.{member_of};
ghost use Rattle.dj_class.specs.Views.{class_of};
ghost use Rattle.dj_early_rules.specs.trusted.Floats.{HasFloat, IsFloating, HasFloating, MentionsFloat};
ghost use Rattle.dj_early_rules.specs.trusted.Classes.{IsReflective, IsReflectiveText, element_class};
ghost use Rattle.dj_early_rules.specs.Judged.{IsTextAt, AreTexts, first_in, BeginsFloat, is_float_letter, AreNumbered, IsMarked, StayMarked, AreNamesMarked, AreMembersMarked, AreRight, Notes, IsReportedText, IsJudgedText, IsOwnText, AreOwnTexts};

use crate::prints::are_distinct;
use dj_class::{ClassView, MemberView};
use dj_names::{Base, Desc, DescError, Of, Ty, is_class_name, read_desc};
use dj_pool::{Entry, Pool};
use std::alloc::{AllocError, Global};
use std::collections::BTreeMap;

/// What the rules need to know of the text at an index.
#[derive(Clone, Copy, Debug)]
pub struct JudgedText {
    /// Whether it is a descriptor with a float or a double.
    pub float: bool,
    /// Whether it stands for a class of reflection.
    pub reflective: bool,
    /// The first index with the same text, or the index itself where there is no text.
    pub first: u16,
}

fn is_floating(ty: &Ty) -> bool
    ensures { IsTrue result ↔ IsFloating ty.now }
{
    matches!(ty.of, Of::Base(Base::Float | Base::Double))
}

fn has_floating(params: &[Ty]) -> bool
    ensures { IsTrue result ↔ HasFloating params.now }
{
    for ty in params {
        if is_floating(ty) {
            return true;
        }
    }
    false
}

fn mentions_float(desc: &Desc) -> bool
    ensures { IsTrue result ↔ MentionsFloat desc.now }
{
    match desc {
        Desc::Field(ty) => is_floating(ty),
        Desc::Method { params, ret } => {
            has_floating(params.as_slice())
                || match ret {
                    Some(ty) => is_floating(ty),
                    None => false,
                }
        }
    }
}

// Whether the descriptor of a method, of an array, of a float or of a double may begin with this byte.
fn begins_float(byte: u8) -> bool
    ensures { IsTrue result ↔ BeginsFloat (byte ∷ []) }
{
    byte == b'(' || byte == b'[' || byte == b'F' || byte == b'D'
}

// Whether the text begins with such a byte.
fn may_have_float(text: &[u8]) -> bool
    ensures { IsTrue result ↔ BeginsFloat text.now }
{
    match text {
        [byte, ..] => begins_float(*byte),
        [] => false,
    }
}

fn is_float_letter(byte: u8) -> bool
    ensures { result ≡ is_float_letter byte }
{
    (byte == b'F') | (byte == b'D')
}

// Whether the text has the letter of a float or of a double. The pass never stops early, so that it can be made on many bytes at once.
fn has_float_letter(text: &[u8]) -> bool
    ensures { result ≡ list_any is_float_letter text.now }
{
    let mut found = false;
    for byte in text {
        found = found | is_float_letter(*byte);
    }
    found
}

// Whether the text is a descriptor with a float or a double. The first byte shows of most texts that they are none, and the letters of most descriptors.
fn has_float(alloc: Global, text: &[u8]) -> Result<bool, AllocError>
    ensures { IfOk result (λ float. IsTrue float ↔ HasFloat text.now) }
{
    if !may_have_float(text) {
        return Ok(false);
    }
    if !has_float_letter(text) {
        return Ok(false);
    }
    match read_desc(alloc, text) {
        Ok(desc) => Ok(mentions_float(&desc)),
        Err(DescError::NotADescriptor) => Ok(false),
        Err(DescError::Memory) => Err(AllocError),
    }
}

fn is_reflective(name: &[u8]) -> bool
    ensures { IsTrue result ↔ IsReflective name.now }
{
    name == b"java/lang/Class".as_slice()
        || name == b"java/lang/ClassLoader".as_slice()
        || name.starts_with(b"java/lang/reflect/")
        || name.starts_with(b"java/lang/invoke/")
}

// Whether the class of an array's element is of reflection; for a base type that class is Object.
fn is_reflective_element(of: &Of) -> bool
    ensures { IsTrue result ↔ IsReflective (element_class of.now) }
{
    match of {
        Of::Base(_) => false,
        Of::Class(name) => is_reflective(name.as_slice()),
    }
}

// Whether the type is an array, of elements whose class is of reflection.
fn is_reflective_array(ty: &Ty) -> bool
    ensures { IsTrue result ↔ ((1 ≤ ty.now.dims) × IsReflective (element_class ty.now.of)) }
{
    ty.dims != 0 && is_reflective_element(&ty.of)
}

// Whether the text is the descriptor of an array of elements whose class is of reflection.
fn is_reflective_desc(alloc: Global, text: &[u8]) -> Result<bool, AllocError>
    requires { IsClassName text.now → ⊥ }
    ensures { IfOk result (λ reflective. IsTrue reflective ↔ IsReflectiveText text.now) }
{
    match read_desc(alloc, text) {
        Ok(Desc::Field(ty)) => Ok(is_reflective_array(&ty)),
        Ok(Desc::Method { params: _, ret: _ }) => Ok(false),
        Err(DescError::NotADescriptor) => Ok(false),
        Err(DescError::Memory) => Err(AllocError),
    }
}

// Whether the text is the name of a class of reflection.
fn is_reflective_name(text: &[u8]) -> bool
    ensures { IsTrue result ↔ (IsReflective text.now × IsClassName text.now) }
{
    is_reflective(text) && is_class_name(text)
}

// Whether the text of a class constant stands for a class of reflection. Most texts are neither an array's descriptor nor the name of such a class.
fn is_reflective_text(alloc: Global, text: &[u8]) -> Result<bool, AllocError>
    ensures { IfOk result (λ reflective. IsTrue reflective ↔ IsReflectiveText text.now) }
{
    if text.starts_with(b"[") {
        return is_reflective_desc(alloc, text);
    }
    Ok(is_reflective_name(text))
}

// ---- names of members

// Marks an index, where it has a place.
fn mark_index(marks: &mut [bool], index: u16)
    ensures stay { StayMarked marks.old marks.new }
    ensures own { index < length marks.new → IsMarked marks.new index }
{
    if usize::from(index) < marks.len() {
        marks[usize::from(index)] = true;
    }
}

// Marks the indexes of the names and descriptors of members.
fn mark_names(marks: &mut [bool], members: &[MemberView<'_>])
    ensures stay { StayMarked marks.old marks.new }
    ensures own { (m : MemberInfo) → Contains (map member_of members.now) m → AreNamesMarked marks.new m }
{
    for member in members {
        mark_index(marks, member.name);
        mark_index(marks, member.desc);
    }
}

/// For each index, whether it is that of a member's name or descriptor.
pub fn marked_names(alloc: Global, view: &ClassView<'_>) -> Result<Vec<bool>, AllocError>
    ensures { IfOk result (λ marks. AreMembersMarked (class_of view.now) marks.items) }
{
    let mut marks = vec![in alloc; false; view.pool.as_slice().len() + 1]?;
    mark_names(&mut marks, view.fields.as_slice());
    mark_names(&mut marks, view.methods.as_slice());
    Ok(marks)
}

// ---- texts

// The index that represents a text: the one that was noted for it, or else this one, which is noted.
fn note_text<'p>(
    indexes: &mut BTreeMap<&'p [u8], u16>,
    text: &'p [u8],
    index: u16,
) -> Result<u16, AllocError>
    ensures { IfOk result (Notes indexes.old indexes.new text.now index true) }
{
    match indexes.insert(text, index)? {
        None => Ok(index),
        Some(first) => {
            indexes.insert(text, first)?;
            Ok(first)
        }
    }
}

// The index that represents the text at an index, which is noted where the index is marked.
fn first_index<'p>(
    indexes: &mut BTreeMap<&'p [u8], u16>,
    text: &'p [u8],
    index: u16,
    marked: bool,
) -> Result<u16, AllocError>
    ensures { IfOk result (Notes indexes.old indexes.new text.now index marked) }
{
    if marked {
        note_text(indexes, text, index)
    } else {
        Ok(index)
    }
}

// What the rules need to know of a text, which is that at an index.
fn judge_text<'p>(
    alloc: Global,
    indexes: &mut BTreeMap<&'p [u8], u16>,
    text: &'p [u8],
    index: u16,
    marked: bool,
) -> Result<JudgedText, AllocError>
    ensures { IfOk result (IsReportedText indexes.old indexes.new text.now index marked) }
{
    let float = has_float(alloc, text)?;
    let reflective = is_reflective_text(alloc, text)?;
    let first = first_index(indexes, text, index, marked)?;
    Ok(JudgedText {
        float,
        reflective,
        first,
    })
}

// What the rules need to know of the text at an index, if there is one.
fn judge_index<'p>(
    alloc: Global,
    indexes: &mut BTreeMap<&'p [u8], u16>,
    pool: &Pool<'p>,
    index: u16,
    marked: bool,
) -> Result<JudgedText, AllocError>
    requires { AreRight pool.now indexes.old }
    ensures { IfOk result (IsJudgedText pool.now indexes.old indexes.new index marked) }
{
    match pool.text(index) {
        Some(text) => judge_text(alloc, indexes, text, index, marked),
        None => Ok(JudgedText {
            float: false,
            reflective: false,
            first: index,
        }),
    }
}

// The same, where the index represents its own text.
fn judge_own(alloc: Global, pool: &Pool<'_>, index: u16) -> Result<JudgedText, AllocError>
    ensures { IfOk result (IsOwnText pool.now index) }
{
    match pool.text(index) {
        Some(text) => Ok(JudgedText {
            float: has_float(alloc, text)?,
            reflective: is_reflective_text(alloc, text)?,
            first: index,
        }),
        None => Ok(JudgedText {
            float: false,
            reflective: false,
            first: index,
        }),
    }
}

// What the rules need to know of texts, where each index represents its own text.
fn judge_own_texts(
    alloc: Global,
    pool: &Pool<'_>,
    count: usize,
) -> Result<Vec<JudgedText>, AllocError>
    requires { count ≤ 2 ^ 16 }
    ensures { IfOk result (λ texts. AreOwnTexts pool.now count texts.items) }
{
    let mut texts = Vec::with_capacity(alloc, count)?;
    for index in 0..count {
        texts.push(judge_own(alloc, pool, index as u16)?)?;
    }
    Ok(texts)
}

// What the rules need to know of texts, where the first marked index represents all that have the same text.
fn judge_first_texts(
    alloc: Global,
    view: &ClassView<'_>,
    marks: &[bool],
) -> Result<Vec<JudgedText>, AllocError>
    requires few { length marks.now ≤ 2 ^ 16 }
    requires marks { AreMembersMarked (class_of view.now) marks.now }
    ensures texts { IfOk result (λ texts. AreTexts view.now.pool texts.items) }
    ensures numbered { IfOk result (λ texts. AreNumbered (class_of view.now) texts.items) }
{
    let mut indexes = BTreeMap::new(alloc);
    let mut texts = Vec::with_capacity(alloc, marks.len())?;
    for index in 0..marks.len() {
        let text = judge_index(alloc, &mut indexes, &view.pool, index as u16, marks[index])?;
        texts.push(text)?;
    }
    Ok(texts)
}

/// What the rules need to know of the texts of a class file's pool, by index. Each text is looked at once. Texts are compared only where they name or describe
/// a member and have the same number as another.
pub fn judge_texts(alloc: Global, view: &ClassView<'_>) -> Result<Vec<JudgedText>, AllocError>
    requires { length view.now.pool + 1 < 2 ^ 16 }
    ensures texts { IfOk result (λ texts. AreTexts view.now.pool texts.items) }
    ensures numbered { IfOk result (λ texts. AreNumbered (class_of view.now) texts.items) }
{
    let marks = marked_names(alloc, view)?;
    if are_distinct(alloc, &view.pool, &marks)? {
        judge_own_texts(alloc, &view.pool, marks.len())
    } else {
        judge_first_texts(alloc, view, &marks)
    }
}

/// What the rules need to know of the text at an index.
pub fn text_in(pool: &Pool<'_>, texts: &[JudgedText], index: u16) -> JudgedText
    requires { AreTexts pool.now texts.now }
    ensures means { IsTextAt pool.now index result }
    ensures first { result.first ≡ first_in texts.now index }
{
    match texts.get(index as usize) {
        Some(&text) => text,
        None => JudgedText {
            float: false,
            reflective: false,
            first: index,
        },
    }
}
