//! The ranges of a method's lines, and their handlers.
ghost use Rattle.std.specs.Prelude.{◌≡◌, ◌++◌, List, map, IfOk};
ghost use Rattle.std.specs.Option.{option_map};
ghost use Rattle.std.specs.List.{flat_map};
ghost use Rattle.dj_asm_source.specs.trusted.Lines as lines;
ghost use Rattle.dj_asm_source.specs.trusted.Labels.{label_number};
ghost use Rattle.dj_asm_tokens.specs.Views.{units_of};
ghost use Rattle.dj_asm_tokens.specs.Texts.{text_view};
ghost use Rattle.dj_asm_source.specs.LineViews.{line_view};
ghost use Rattle.dj_asm_pool.specs.Pooling.{found_index};
ghost use Rattle.dj_asm.specs.trusted.Codes.{catch_index, ranges_in};
ghost use Rattle.dj_asm.specs.trusted.Files.{places_of};

use dj_asm_pool::PoolBuilder;
use dj_asm_source::{Line, MethodLabels, Text, Word};
use dj_labels::{Protected, Ranges};
use std::alloc::{AllocError, Global};

/// The index of the class that is caught, or 0 for any.
fn catch_index(pool: &PoolBuilder, class: &Option<Text<'_>>) -> u16
    ensures { (body : List lines.Line) → result ≡ catch_index (places_of (found_index pool.now) body) (option_map text_view class.now) }
{
    match class {
        Some(name) => pool.class_index(name.as_slice()),
        None => 0,
    }
}

/// How many instructions come before a label.
fn number_of(labels: &MethodLabels<'_, '_>, label: Word<'_>) -> u32
    ensures { result ≡ label_number labels.now (units_of label.entry) }
{
    labels.number(label)
}

/// The range between two labels, with its handler and what is caught.
fn range_of(
    labels: &MethodLabels<'_, '_>,
    from: Word<'_>,
    to: Word<'_>,
    handler: Word<'_>,
    catch_type: u16,
) -> Protected
    ensures { result ≡ record { start = label_number labels.now (units_of from.entry); end = label_number labels.now (units_of to.entry); handler = label_number labels.now (units_of handler.entry); catch_type = catch_type } }
{
    Protected {
        start: number_of(labels, from),
        end: number_of(labels, to),
        handler: number_of(labels, handler),
        catch_type,
    }
}

/// Appends the range of a line, where it has one.
fn push_line(
    ranges: &mut Ranges,
    labels: &MethodLabels<'_, '_>,
    pool: &PoolBuilder,
    line: &Line<'_>,
) -> Result<(), AllocError>
    ensures { IfOk result (λ x. ranges.new ≡ ranges.old ++ ranges_in (places_of (found_index pool.now) labels.now) (line_view line.now)) }
{
    match line {
        Line::Catch {
            class,
            from,
            to,
            handler,
        } => {
            let range = range_of(labels, *from, *to, *handler, catch_index(pool, class));
            ranges.push(range)?;
            Ok(())
        }
        Line::Class { .. }
        | Line::Version { .. }
        | Line::Super(_)
        | Line::Implements(_)
        | Line::Field { .. }
        | Line::Abstract { .. }
        | Line::Method { .. }
        | Line::Stack(_)
        | Line::Locals(_)
        | Line::Label(_)
        | Line::Frame(_)
        | Line::Does(_)
        | Line::End => Ok(()),
    }
}

/// The ranges of lines.
#[tactic(auto, using(crate::proofs::ProperCode::ranges_more, crate::proofs::ProperCode::ranges_all))]
pub(crate) fn ranges_of(
    alloc: Global,
    lines: &[Line<'_>],
    labels: &MethodLabels<'_, '_>,
    pool: &PoolBuilder,
) -> Result<Ranges, AllocError>
    ensures { IfOk result (λ ranges. ranges ≡ flat_map (ranges_in (places_of (found_index pool.now) labels.now)) (map line_view lines.now)) }
{
    let mut ranges = Ranges::new(alloc);
    for line in lines {
        push_line(&mut ranges, labels, pool, line)?;
    }
    Ok(ranges)
}
