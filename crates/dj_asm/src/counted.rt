//! Lines that a class file counts.
ghost use Rattle.std.specs.Prelude.{◌≡◌, length, map};
ghost use Rattle.dj_asm_source.specs.LineViews.{line_view};
ghost use Rattle.dj_asm.specs.trusted.Large as large;
ghost use Rattle.dj_asm.specs.Judging.{IsFirstOf, is_kind, is_past};

use dj_asm_source::Line;

// A count of two bytes has this many (JVMS 4.1 and 4.7.3).
const MOST_LINES: usize = 65535;

/// What is counted.
#[derive(Clone, Copy)]
pub(crate) enum Kind {
    Interface,
    Field,
    Method,
    Catch,
}

fn is_interface(line: &Line<'_>) -> bool
    ensures { result ≡ large.is_interface (line_view line.now) }
{
    match line {
        Line::Implements(_) => true,
        Line::Class { .. }
        | Line::Version { .. }
        | Line::Super(_)
        | Line::Field { .. }
        | Line::Abstract { .. }
        | Line::Method { .. }
        | Line::Stack(_)
        | Line::Locals(_)
        | Line::Label(_)
        | Line::Catch { .. }
        | Line::Frame(_)
        | Line::Does(_)
        | Line::End => false,
    }
}

fn is_field(line: &Line<'_>) -> bool
    ensures { result ≡ large.is_field (line_view line.now) }
{
    match line {
        Line::Field { .. } => true,
        Line::Class { .. }
        | Line::Version { .. }
        | Line::Super(_)
        | Line::Implements(_)
        | Line::Abstract { .. }
        | Line::Method { .. }
        | Line::Stack(_)
        | Line::Locals(_)
        | Line::Label(_)
        | Line::Catch { .. }
        | Line::Frame(_)
        | Line::Does(_)
        | Line::End => false,
    }
}

fn is_method(line: &Line<'_>) -> bool
    ensures { result ≡ large.is_method (line_view line.now) }
{
    match line {
        Line::Abstract { .. } | Line::Method { .. } => true,
        Line::Class { .. }
        | Line::Version { .. }
        | Line::Super(_)
        | Line::Implements(_)
        | Line::Field { .. }
        | Line::Stack(_)
        | Line::Locals(_)
        | Line::Label(_)
        | Line::Catch { .. }
        | Line::Frame(_)
        | Line::Does(_)
        | Line::End => false,
    }
}

fn is_catch(line: &Line<'_>) -> bool
    ensures { result ≡ large.is_catch (line_view line.now) }
{
    match line {
        Line::Catch { .. } => true,
        Line::Class { .. }
        | Line::Version { .. }
        | Line::Super(_)
        | Line::Implements(_)
        | Line::Field { .. }
        | Line::Abstract { .. }
        | Line::Method { .. }
        | Line::Stack(_)
        | Line::Locals(_)
        | Line::Label(_)
        | Line::Frame(_)
        | Line::Does(_)
        | Line::End => false,
    }
}

/// Whether the line is of the kind.
fn is_kind(kind: Kind, line: &Line<'_>) -> bool
    ensures { result ≡ is_kind kind (line_view line.now) }
{
    match kind {
        Kind::Interface => is_interface(line),
        Kind::Field => is_field(line),
        Kind::Method => is_method(line),
        Kind::Catch => is_catch(line),
    }
}

/// The first line of the kind that is one too many.
#[tactic(auto, using(crate::proofs::JudgedFirst::one_past))]
pub(crate) fn first_past(kind: Kind, lines: &[Line<'_>]) -> Option<usize>
    ensures { IsFirstOf (is_past kind (map line_view lines.now)) (length lines.now) result }
{
    let mut count = 0;
    for place in 0..lines.len() {
        if is_kind(kind, &lines[place]) {
            if MOST_LINES <= count {
                return Some(place);
            }
            count += 1;
        }
    }
    None
}
