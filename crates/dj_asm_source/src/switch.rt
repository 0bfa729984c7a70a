ghost use Rattle.std.specs.Prelude.{◌≡◌, None};
ghost use Rattle.dj_asm_source.specs.LineReading.{default_after, targets, pairs_after, table, lookup};
ghost use Rattle.dj_asm_tokens.specs.Views.{units_of, left_of};
ghost use Rattle.dj_asm_source.specs.OperationViews.{operation_view};
ghost use Rattle.dj_asm_source.specs.Stops.{GivesRead};

use crate::fields::number_i32;
use crate::reader::{Stop, label, line_end, word_at};
use crate::syntax::Operation;
use crate::targets::{Labels, Pairs};
use dj_asm_tokens::{LineTokens, Word, spells};
use std::alloc::Global;

/// The lowest match, the targets and the default.
pub(crate) fn table<'t>(
    alloc: Global,
    at: LineTokens<'t>,
) -> Result<(Operation<'t>, LineTokens<'t>), Stop>
    ensures { GivesRead (λ x. operation_view x.0) (λ x. left_of x.1) result (table (left_of at.entry)) }
{
    let (low, at) = number_i32(at)?;
    let (targets, default, at) = targets(alloc, at)?;
    Ok((
        Operation::Table {
            low,
            targets,
            default,
        },
        at,
    ))
}

/// Targets up to the default, and the default.
fn targets<'t>(
    alloc: Global,
    at: LineTokens<'t>,
) -> Result<(Labels<'t>, Word<'t>, LineTokens<'t>), Stop>
    ensures { GivesRead (λ x. (x.0, units_of x.1)) (λ x. left_of x.2) result (targets (left_of at.entry)) }
{
    let mut targets = Labels::new(alloc);
    let mut at = at;
    loop {
        let spot = word_at(at)?;
        if spells(spot.word.bytes, b"default") {
            let (default, at) = default_after(spot.rest)?;
            return Ok((targets, default, at));
        }
        targets.push(spot.word)?;
        at = spot.rest;
    }
}

/// The default, and the line's end.
fn default_after<'t>(at: LineTokens<'t>) -> Result<(Word<'t>, LineTokens<'t>), Stop>
    ensures { GivesRead (λ x. units_of x.0) (λ x. left_of x.1) result (default_after (left_of at.entry)) }
{
    let (default, at) = label(at)?;
    let at = line_end(at)?;
    Ok((default, at))
}

/// Matches with their targets, and the default.
pub(crate) fn lookup<'t>(
    alloc: Global,
    at: LineTokens<'t>,
) -> Result<(Operation<'t>, LineTokens<'t>), Stop>
    ensures { GivesRead (λ x. operation_view x.0) (λ x. left_of x.1) result (lookup (left_of at.entry)) }
{
    let (pairs, default, at) = pairs(alloc, at)?;
    Ok((Operation::Lookup { pairs, default }, at))
}

/// Matches with their targets up to the default, and the default.
fn pairs<'t>(
    alloc: Global,
    at: LineTokens<'t>,
) -> Result<(Pairs<'t>, Word<'t>, LineTokens<'t>), Stop>
    ensures { GivesRead (λ x. (x.0, units_of x.1)) (λ x. left_of x.2) result (pairs_after None (left_of at.entry)) }
{
    let mut pairs = Pairs::new(alloc);
    let mut at = at;
    loop {
        let spot = word_at(at)?;
        if spells(spot.word.bytes, b"default") {
            let (default, at) = default_after(spot.rest)?;
            return Ok((pairs, default, at));
        }
        let (key, rest) = number_i32(at)?;
        let (target, rest) = label(rest)?;
        pairs.push(key, target)?;
        at = rest;
    }
}
