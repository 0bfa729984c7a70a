//! What a class file has before its fields: the versions, the class, its superclass and its interfaces.
ghost use Rattle.std.specs.Prelude.{◌≡◌, ◌++◌, map, IfOk, OnOk};
ghost use Rattle.std.specs.List.{flat_map};
ghost use Rattle.dj_asm_source.specs.LineViews.{line_view};
ghost use Rattle.dj_asm_pool.specs.Pooling.{found_index};
ghost use Rattle.dj_asm.specs.Filing.{no_heading, heading_with, heading_from, interface_indexes};

use dj_asm_pool::PoolBuilder;
use dj_asm_source::Line;
use dj_pool::Indexes;
use std::alloc::{AllocError, Global};

/// The versions, the flags, and the indexes of the class and its superclass.
#[derive(Clone, Copy)]
pub(crate) struct Heading {
    pub(crate) minor: u16,
    pub(crate) major: u16,
    pub(crate) flags: u16,
    pub(crate) this_class: u16,
    pub(crate) super_class: u16,
}

/// The heading with what a line adds to it.
fn heading_with(pool: &PoolBuilder, before: Heading, line: &Line<'_>) -> Heading
    ensures { result ≡ heading_with (found_index pool.now) before (line_view line.now) }
{
    let mut heading = before;
    match line {
        Line::Class { flags, name } => {
            heading.flags = *flags;
            heading.this_class = pool.class_index(name.as_slice());
        }
        Line::Version { major, minor } => {
            heading.major = *major;
            heading.minor = *minor;
        }
        Line::Super(name) => {
            heading.super_class = pool.class_index(name.as_slice());
        }
        Line::Implements(_)
        | Line::Field { .. }
        | Line::Abstract { .. }
        | Line::Method { .. }
        | Line::Stack(_)
        | Line::Locals(_)
        | Line::Label(_)
        | Line::Catch { .. }
        | Line::Frame(_)
        | Line::Does(_)
        | Line::End => {}
    }
    heading
}

/// The heading of a source, by its lines before the methods.
#[tactic(auto, using(crate::proofs::FileSteps::heading_more, crate::proofs::FileSteps::heading_end))]
pub(crate) fn heading_of(pool: &PoolBuilder, lines: &[Line<'_>]) -> Heading
    ensures { result ≡ heading_from (found_index pool.now) no_heading (map line_view lines.now) }
{
    let mut heading = Heading {
        minor: 0,
        major: 52,
        flags: 0,
        this_class: 0,
        super_class: 0,
    };
    for line in lines {
        heading = heading_with(pool, heading, line);
    }
    heading
}

/// Appends the index of an interface, where the line names one.
fn push_interface(
    indexes: &mut Indexes,
    pool: &PoolBuilder,
    line: &Line<'_>,
) -> Result<(), AllocError>
    ensures { OnOk result (indexes.new ≡ indexes.old ++ interface_indexes (found_index pool.now) (line_view line.now)) }
{
    match line {
        Line::Implements(name) => indexes.push(pool.class_index(name.as_slice())),
        Line::Class { .. }
        | Line::Version { .. }
        | Line::Super(_)
        | Line::Field { .. }
        | Line::Abstract { .. }
        | Line::Method { .. }
        | Line::Stack(_)
        | Line::Locals(_)
        | Line::Label(_)
        | Line::Catch { .. }
        | Line::Frame(_)
        | Line::Does(_)
        | Line::End => Ok(()),
    }
}

/// The indexes of the interfaces, by the lines before the methods.
pub(crate) fn interfaces_of(
    alloc: Global,
    pool: &PoolBuilder,
    lines: &[Line<'_>],
) -> Result<Indexes, AllocError>
    ensures { IfOk result (λ indexes. indexes ≡ flat_map (interface_indexes (found_index pool.now)) (map line_view lines.now)) }
{
    let mut indexes = Indexes::new(alloc);
    for line in lines {
        push_interface(&mut indexes, pool, line)?;
    }
    Ok(indexes)
}
