//! The class file of lines.
ghost use Rattle.std.specs.Prelude.{◌≡◌, ◌<◌, ◌^◌, length, map, IfOk};
ghost use Rattle.dj_class.specs.trusted.ClassFile.{class_bytes};
ghost use Rattle.dj_class.specs.Views.{class_of};
ghost use Rattle.dj_pool.specs.Views.{constant_of};
ghost use Rattle.dj_write.specs.Parts.{with_pool};
ghost use Rattle.dj_asm_pool.specs.trusted.Entries.{pool_of};
ghost use Rattle.dj_asm_source.specs.LineViews.{line_view};
ghost use Rattle.dj_asm_source.specs.trusted.Sources.{Source};
ghost use Rattle.dj_asm_pool.specs.trusted.Needs.{code_name, constant_value_name};
ghost use Rattle.dj_asm_pool.specs.Pooling.{found_index};
ghost use Rattle.dj_asm.specs.Assembling.{IsFitting, AreFileBytes};
ghost use Rattle.dj_asm.specs.Filing.{members_in, file_with, file_in};

use crate::bodies::{bodies_of, constants_of};
use crate::heading::{heading_of, interfaces_of};
use crate::member_list::members_of;
use dj_asm_pool::PoolBuilder;
use dj_asm_source::{Line, section_size};
use dj_class::{Attributes, ClassView, Members};
use dj_names::Bytes;
use dj_pool::{Entry, Pool};
use dj_write::write_class_with;
use std::alloc::{AllocError, Global};

/// The fields, by the lines before the methods.
fn fields_of<'b>(
    alloc: Global,
    pool: &PoolBuilder,
    constants: &'b [Bytes],
    head: &[Line<'_>],
) -> Result<Members<'b>, AllocError>
    ensures { IfOk result (λ members. members ≡ members_in (found_index pool.now) (found_index pool.now constant_value_name) constants.now (map line_view head.now)) }
{
    let attribute = pool.utf8_index(b"ConstantValue");
    members_of(alloc, pool, attribute, constants, head)
}

/// The methods, by their lines.
fn methods_of<'b>(
    alloc: Global,
    pool: &PoolBuilder,
    bodies: &'b [Bytes],
    lines: &[Line<'_>],
) -> Result<Members<'b>, AllocError>
    ensures { IfOk result (λ members. members ≡ members_in (found_index pool.now) (found_index pool.now code_name) bodies.now (map line_view lines.now)) }
{
    let attribute = pool.utf8_index(b"Code");
    members_of(alloc, pool, attribute, bodies, lines)
}

/// The bytes of a class file of these parts and constants.
fn bytes_of(alloc: Global, entries: &[Entry<'_>], view: &ClassView<'_>) -> Result<Bytes, AllocError>
    ensures { IfOk result (λ bytes. bytes ≡ class_bytes (with_pool (map constant_of entries.now) (class_of view.now))) }
{
    write_class_with(alloc, entries, view).or(Err(AllocError))
}

/// A class file of a heading and interfaces, which are those of the lines before the methods, and these fields and methods; its constants are given apart.
fn class_view<'b>(
    alloc: Global,
    pool: &'b PoolBuilder,
    head: &[Line<'_>],
    fields: Members<'b>,
    methods: Members<'b>,
) -> Result<ClassView<'b>, AllocError>
    ensures { IfOk result (λ view. with_pool (pool_of pool.now) (class_of view) ≡ file_with pool.now (map line_view head.now) fields.entry methods.entry) }
{
    let heading = heading_of(pool, head);
    let interfaces = interfaces_of(alloc, pool, head)?;
    Ok(ClassView {
        minor: heading.minor,
        major: heading.major,
        pool: Pool::new(alloc),
        flags: heading.flags,
        this_class: heading.this_class,
        super_class: heading.super_class,
        interfaces,
        fields,
        methods,
        attributes: Attributes::new(alloc),
    })
}

/// The class file of the lines before the methods and those of the methods, with the bodies of the attributes of both.
fn written(
    alloc: Global,
    pool: &PoolBuilder,
    head: &[Line<'_>],
    methods: &[Line<'_>],
    constants: &[Bytes],
    bodies: &[Bytes],
) -> Result<Bytes, AllocError>
    ensures { IfOk result (λ bytes. bytes ≡ class_bytes (file_in pool.now (map line_view head.now) (map line_view methods.now) constants.now bodies.now)) }
{
    let fields = fields_of(alloc, pool, constants, head)?;
    let methods = methods_of(alloc, pool, bodies, methods)?;
    let view = class_view(alloc, pool, head, fields, methods)?;
    let entries = pool.entries(alloc)?;
    bytes_of(alloc, &entries, &view)
}

/// The class file of these lines (JVMS 4.1).
pub(crate) fn write_file(
    alloc: Global,
    lines: &[Line<'_>],
    pool: &PoolBuilder,
) -> Result<Bytes, AllocError>
    requires few { length lines.now < 2 ^ 32 }
    requires fitting { (s : Source) × IsFitting s (map line_view lines.now) pool.now }
    ensures { IfOk result (λ bytes. (s : Source) → IsFitting s (map line_view lines.now) pool.now → AreFileBytes s bytes) }
{
    let size = section_size(lines);
    let (head, methods) = (&lines[..size], &lines[size..]);
    let constants = constants_of(alloc, pool, head)?;
    let bodies = bodies_of(alloc, methods, pool)?;
    let bytes = written(
        alloc,
        pool,
        head,
        methods,
        constants.as_slice(),
        bodies.as_slice(),
    )?;
    Ok(bytes)
}
