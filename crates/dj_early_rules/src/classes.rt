ghost use Rattle.std.specs.Prelude.{◌≡◌, ◌↔◌, ◌<◌, ◌^◌, length, IsTrue, OnOk, IfOk};
ghost use Rattle.dj_pool.specs.Views.{constant_of};
ghost use Rattle.dj_class.specs.trusted.ClassFile.{IsValid};
ghost use Rattle.dj_class.specs.Views.{class_of};
ghost use Rattle.dj_report.specs.Lines.{Adds};
ghost use Rattle.dj_file_rules.specs.trusted.Violations.{this_name};
ghost use Rattle.dj_early_rules.specs.Judged.{AreTexts};
ghost use Rattle.dj_early_rules.specs.trusted.Classes.{IsReserved};
ghost use Rattle.dj_early_rules.specs.trusted.Floats.{NamesFloatArray};
ghost use Rattle.dj_early_rules.specs.trusted.Members.{IsFloatConstant, HasFloatConstant};
ghost use Rattle.dj_early_rules.specs.trusted.Rules.{IsNamingLine};

use crate::judged::{JudgedText, text_in};
use crate::lines::add_file_line_if;
use dj_class::ClassView;
use dj_pool::{Entry, Pool};
use dj_report::Violation;
use std::alloc::{AllocError, Global};

// The numbers of the rules SANDBOX_PACKAGE and FLOAT.
const SANDBOX_PACKAGE: u8 = 4;

const FLOAT: u8 = 12;

/// The name of the class that the file defines.
pub fn class_name<'a>(view: &ClassView<'a>) -> &'a [u8]
    ensures { result.now ≡ this_name (class_of view.now) }
{
    view.pool.class_name(view.this_class).unwrap_or(b"")
}

// Whether the name is in a package of the sandbox or the library.
fn is_reserved(name: &[u8]) -> bool
    ensures { IsTrue result ↔ IsReserved name.now }
{
    name.starts_with(b"sandbox/") || name.starts_with(b"java/") || name.starts_with(b"javax/")
}

// Whether the text at the index is the descriptor of an array of floats or doubles.
fn names_float_array(pool: &Pool<'_>, texts: &[JudgedText], index: u16) -> bool
    requires { AreTexts pool.now texts.now }
    ensures { IsTrue result ↔ NamesFloatArray pool.now index }
{
    match pool.text(index) {
        Some(text) => text.starts_with(b"[") && text_in(pool, texts, index).float,
        None => false,
    }
}

// Whether the constant has a float or a double, or a descriptor with one.
fn is_float_constant(pool: &Pool<'_>, texts: &[JudgedText], entry: Entry<'_>) -> bool
    requires { AreTexts pool.now texts.now }
    ensures { IsTrue result ↔ IsFloatConstant pool.now (constant_of entry.entry) }
{
    match entry {
        Entry::Float(_) => true,
        Entry::Double(_) => true,
        Entry::NameAndType(_, desc) => text_in(pool, texts, desc).float,
        Entry::MethodType(desc) => text_in(pool, texts, desc).float,
        Entry::Class(name) => names_float_array(pool, texts, name),
        _ => false,
    }
}

// Whether one of the constants has a float or a double.
fn has_float_constant(view: &ClassView<'_>, texts: &[JudgedText]) -> bool
    requires { AreTexts view.now.pool texts.now }
    ensures { IsTrue result ↔ HasFloatConstant (class_of view.now) }
{
    for entry in view.pool.as_slice() {
        let float = is_float_constant(&view.pool, texts, *entry);
        if float {
            return true;
        }
    }
    false
}

/// Appends the lines on the class's name and on the constants of the pool.
pub fn add_naming_lines(
    alloc: Global,
    found: &mut Vec<Violation>,
    path: &str,
    view: &ClassView<'_>,
    texts: &[JudgedText],
) -> Result<(), AllocError>
    requires { AreTexts view.now.pool texts.now }
    ensures { OnOk result (Adds (IsNamingLine path.now (class_of view.now)) found.old.items found.new.items) }
{
    add_file_line_if(
        alloc,
        found,
        path,
        SANDBOX_PACKAGE,
        is_reserved(class_name(view)),
    )?;
    add_file_line_if(alloc, found, path, FLOAT, has_float_constant(view, texts))
}
