ghost use Rattle.std.specs.Prelude.{◌≡◌, ◌↔◌, ◌⊎◌, ℕ, IsTrue, IsSomeAnd};
ghost use Rattle.dj_pool.specs.trusted.Pool.{constant_at};
ghost use Rattle.dj_pool.specs.Views.{constant_of};
ghost use Rattle.dj_early_rules.specs.trusted.Classes.{IsGetClass, NamesGetClass, NamesReflective, class_text_index, names_at};
ghost use Rattle.dj_early_rules.specs.trusted.Instructions.{index_of, member_index_of, IsHandleOrType, IsClass, IsFloatNumber, NamesSuch, NamesSuchMember, PushesSuch, IsDynamic, IsReflection, IsFloat, IsSubroutine, IsBreakpoint, IsMultiArray};
ghost use Rattle.dj_early_rules.specs.Instructions.{is_plain};
ghost use Rattle.dj_early_rules.specs.Judged.{AreTexts};
ghost use Rattle.dj_early_rules.specs.trusted.Methods.{InstrViolates};

use crate::judged::{JudgedText, text_in};
use crate::opcodes::{is_float_base, is_float_op, is_short_literal, is_subroutine_jump};
use dj_ops::Instr;
use dj_pool::{Entry, Pool};

/// The index of the constant that an instruction names.
pub fn index_of(instr: &Instr) -> Option<u16>
    ensures { result ≡ index_of instr.now }
{
    match instr {
        Instr::Literal { op: _, index } => Some(*index),
        Instr::Member { op: _, index } => Some(*index),
        Instr::Interface { index, count: _ } => Some(*index),
        Instr::Dynamic { index } => Some(*index),
        Instr::Class { op: _, index } => Some(*index),
        Instr::Multi { index, dims: _ } => Some(*index),
        _ => None,
    }
}

// The index of the constant by which an instruction names a field or a method.
fn member_index_of(instr: &Instr) -> Option<u16>
    ensures { result ≡ member_index_of instr.now }
{
    match instr {
        Instr::Dynamic { index: _ } => None,
        _ => index_of(instr),
    }
}

/// The index of the text of the class that a constant names.
pub fn class_text_index(pool: &Pool<'_>, entry: Entry<'_>) -> Option<u16>
    ensures { result ≡ class_text_index pool.now (constant_of entry.entry) }
{
    let class = match entry {
        Entry::Class(name) => return Some(name),
        Entry::Field(class, _) => class,
        Entry::Method(class, _) => class,
        Entry::InterfaceMethod(class, _) => class,
        _ => return None,
    };
    match pool.get(class) {
        Some(Entry::Class(name)) => Some(name),
        _ => None,
    }
}

// Whether the class of a constant is of reflection.
fn names_reflective(pool: &Pool<'_>, texts: &[JudgedText], entry: Entry<'_>) -> bool
    requires { AreTexts pool.now texts.now }
    ensures { IsTrue result ↔ NamesReflective pool.now (constant_of entry.entry) }
{
    match class_text_index(pool, entry) {
        Some(index) => text_in(pool, texts, index).reflective,
        None => false,
    }
}

// Whether these are the name and the descriptor of getClass.
fn is_get_class(name: &[u8], desc: &[u8]) -> bool
    ensures { IsTrue result ↔ IsGetClass (name.now, desc.now) }
{
    name == b"getClass".as_slice() && desc == b"()Ljava/lang/Class;".as_slice()
}

// Whether the member of a constant is getClass.
fn names_get_class(pool: &Pool<'_>, entry: Entry<'_>) -> bool
    ensures { IsTrue result ↔ NamesGetClass pool.now (constant_of entry.entry) }
{
    let names = match entry {
        Entry::Field(_, names) => names,
        Entry::Method(_, names) => names,
        Entry::InterfaceMethod(_, names) => names,
        _ => return false,
    };
    match pool.name_and_type(names) {
        Some((name, desc)) => is_get_class(name, desc),
        None => false,
    }
}

// Whether the class of the constant that an instruction names is of reflection.
fn uses_reflective(pool: &Pool<'_>, texts: &[JudgedText], instr: &Instr) -> bool
    requires { AreTexts pool.now texts.now }
    ensures { IsTrue result ↔ NamesSuch NamesReflective pool.now instr.now }
{
    let Some(index) = index_of(instr) else {
        return false;
    };
    match pool.get(index) {
        Some(entry) => names_reflective(pool, texts, entry),
        None => false,
    }
}

// Whether the member of the constant that an instruction names is getClass.
fn uses_get_class(pool: &Pool<'_>, instr: &Instr) -> bool
    ensures { IsTrue result ↔ NamesSuchMember NamesGetClass pool.now instr.now }
{
    let Some(index) = member_index_of(instr) else {
        return false;
    };
    match pool.get(index) {
        Some(entry) => names_get_class(pool, entry),
        None => false,
    }
}

// Whether the constant at the index is a method handle or a method's type.
fn is_handle_or_type(pool: &Pool<'_>, index: u16) -> bool
    ensures { IsTrue result ↔ IsSomeAnd (constant_at pool.now index) IsHandleOrType }
{
    matches!(
        pool.get(index),
        Some(Entry::Handle(_, _) | Entry::MethodType(_))
    )
}

// Whether the constant at the index is a class.
fn is_class(pool: &Pool<'_>, index: u16) -> bool
    ensures { IsTrue result ↔ IsSomeAnd (constant_at pool.now index) IsClass }
{
    matches!(pool.get(index), Some(Entry::Class(_)))
}

// Whether the constant at the index is a float or a double.
fn is_float_number(pool: &Pool<'_>, index: u16) -> bool
    ensures { IsTrue result ↔ IsSomeAnd (constant_at pool.now index) IsFloatNumber }
{
    matches!(pool.get(index), Some(Entry::Float(_) | Entry::Double(_)))
}

/// Whether the instruction violates the rule DYNAMIC.
pub fn is_dynamic(pool: &Pool<'_>, instr: &Instr) -> bool
    ensures { IsTrue result ↔ IsDynamic pool.now instr.now }
{
    match instr {
        Instr::Dynamic { index: _ } => true,
        Instr::Literal { op, index } => is_short_literal(*op) && is_handle_or_type(pool, *index),
        _ => false,
    }
}

// Whether the instruction pushes a class.
fn pushes_class(pool: &Pool<'_>, instr: &Instr) -> bool
    ensures { IsTrue result ↔ PushesSuch IsClass pool.now instr.now }
{
    match instr {
        Instr::Literal { op, index } => is_short_literal(*op) && is_class(pool, *index),
        _ => false,
    }
}

/// Whether the instruction violates the rule REFLECTION.
pub fn is_reflection(pool: &Pool<'_>, texts: &[JudgedText], instr: &Instr) -> bool
    requires { AreTexts pool.now texts.now }
    ensures { IsTrue result ↔ IsReflection pool.now instr.now }
{
    pushes_class(pool, instr) || uses_reflective(pool, texts, instr) || uses_get_class(pool, instr)
}

/// Whether the instruction violates the rule FLOAT.
pub fn is_float(pool: &Pool<'_>, instr: &Instr) -> bool
    ensures { IsTrue result ↔ IsFloat pool.now instr.now }
{
    match instr {
        Instr::Simple { op } => is_float_op(*op),
        Instr::Local {
            op,
            slot: _,
            wide: _,
        } => is_float_op(*op),
        Instr::Array { base } => is_float_base(*base),
        Instr::Literal { op: _, index } => is_float_number(pool, *index),
        _ => false,
    }
}

/// Whether the instruction violates the rule SUBROUTINE.
pub fn is_subroutine(pool: &Pool<'_>, instr: &Instr) -> bool
    ensures { IsTrue result ↔ IsSubroutine pool.now instr.now }
{
    match instr {
        Instr::Branch { op, target: _ } => is_subroutine_jump(*op),
        Instr::Local {
            op,
            slot: _,
            wide: _,
        } => *op == 169,
        _ => false,
    }
}

/// Whether the instruction violates the rule BREAKPOINT.
pub fn is_breakpoint(pool: &Pool<'_>, instr: &Instr) -> bool
    ensures { IsTrue result ↔ IsBreakpoint pool.now instr.now }
{
    match instr {
        Instr::Simple { op } => *op == 202,
        _ => false,
    }
}

/// Whether the instruction violates the rule MULTI_ARRAY.
pub fn is_multi_array(pool: &Pool<'_>, instr: &Instr) -> bool
    ensures { IsTrue result ↔ IsMultiArray pool.now instr.now }
{
    matches!(instr, Instr::Multi { index: _, dims: _ })
}

/// Whether its opcode alone shows that the instruction violates no rule on instructions. It does so for most instructions.
pub fn is_plain(instr: &Instr) -> bool
    ensures { result ≡ is_plain instr.now }
{
    match instr {
        Instr::Simple { op } => !is_float_op(*op) && *op != 202,
        Instr::Push { op: _, value: _ } => true,
        Instr::Local {
            op,
            slot: _,
            wide: _,
        } => !is_float_op(*op) && *op != 169,
        Instr::Inc {
            slot: _,
            by: _,
            wide: _,
        } => true,
        Instr::Branch { op, target: _ } => !is_subroutine_jump(*op),
        _ => false,
    }
}

// Whether the instruction violates one of the rules on what instructions name or push.
fn is_of_constants(pool: &Pool<'_>, texts: &[JudgedText], instr: &Instr) -> bool
    requires { AreTexts pool.now texts.now }
    ensures { IsTrue result ↔ (IsDynamic pool.now instr.now ⊎ (IsReflection pool.now instr.now ⊎ IsFloat pool.now instr.now)) }
{
    is_dynamic(pool, instr) || is_reflection(pool, texts, instr) || is_float(pool, instr)
}

// Whether the instruction violates one of the other rules on instructions.
fn is_of_opcodes(pool: &Pool<'_>, instr: &Instr) -> bool
    ensures { IsTrue result ↔ (IsSubroutine pool.now instr.now ⊎ (IsBreakpoint pool.now instr.now ⊎ IsMultiArray pool.now instr.now)) }
{
    is_subroutine(pool, instr) || is_breakpoint(pool, instr) || is_multi_array(pool, instr)
}

/// Whether the instruction violates a rule on instructions.
pub fn violates_instr(pool: &Pool<'_>, texts: &[JudgedText], instr: &Instr) -> bool
    requires { AreTexts pool.now texts.now }
    ensures { IsTrue result ↔ ((rule : ℕ) × InstrViolates pool.now instr.now rule) }
{
    is_of_constants(pool, texts, instr) || is_of_opcodes(pool, instr)
}
