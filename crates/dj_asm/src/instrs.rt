//! The instructions of a method's lines.
ghost use Rattle.std.specs.Prelude.{◌≡◌, ℤ, List, pos, map, IfOk};
ghost use Rattle.std.specs.List.{flat_map};
ghost use Rattle.dj_ops.specs.declared.instruction.Instr.{Instr};
ghost use Rattle.dj_ops.specs.declared.instruction.Instr.TheVariants as instrs;
ghost use Rattle.dj_ops.specs.trusted.Instructions.{IsProper};
ghost use Rattle.dj_asm_source.specs.trusted.Lines as lines;
ghost use Rattle.dj_asm_source.specs.trusted.Lines.{Label};
ghost use Rattle.dj_asm_source.specs.trusted.Labels.{label_number};
ghost use Rattle.dj_asm_tokens.specs.Views.{units_of};
ghost use Rattle.dj_asm_source.specs.PairViews.{pair_view};
ghost use Rattle.dj_asm_source.specs.OperationViews.{operation_view};
ghost use Rattle.dj_asm_source.specs.LineViews.{line_view};
ghost use Rattle.dj_asm_pool.specs.Pooling.{found_index};
ghost use Rattle.dj_asm_pool.specs.trusted.Needs.{member_entry};
ghost use Rattle.dj_asm.specs.trusted.Codes.{Places, is_interface_call, IsInterfaceCall, IsMemberInstr, IsInstrOf, AreInstrsOf, operation_in};
ghost use Rattle.dj_asm.specs.trusted.Files.{places_of};
ghost use Rattle.dj_asm.specs.CodeBodies.{IsAlone, IsOfPool, IsProperIn, AreProperIn, HasOneMore};

use dj_asm_pool::PoolBuilder;
use dj_asm_source::{Line, MethodLabels, Operation, Pair, Word};
use dj_names::{read_desc, slots};
use dj_ops::{Instr, Instrs, Pairs, Targets};
use std::alloc::{AllocError, Global};

/// The number of the instruction at a label.
fn target_of(labels: &MethodLabels<'_, '_>, label: Word<'_>) -> i64
    ensures { result ≡ pos (label_number labels.now (units_of label.entry)) }
{
    i64::from(labels.number(label))
}

/// The numbers of the instructions at labels.
fn targets_of(
    alloc: Global,
    labels: &MethodLabels<'_, '_>,
    words: &[Word<'_>],
) -> Result<Targets, AllocError>
    ensures { IfOk result (λ targets. targets ≡ map (λ (label : Label). pos (label_number labels.now label)) (map units_of words.now)) }
{
    let mut targets = Targets::new(alloc)?;
    for word in words {
        targets.push(target_of(labels, *word))?;
    }
    Ok(targets)
}

/// Matches with the numbers of the instructions at their targets.
fn pairs_of(
    alloc: Global,
    labels: &MethodLabels<'_, '_>,
    list: &[Pair<'_>],
) -> Result<Pairs, AllocError>
    ensures { IfOk result (λ pairs. pairs ≡ map (λ (pair : ℤ × Label). (pair.0, pos (label_number labels.now pair.1))) (map pair_view list.now)) }
{
    let mut pairs = Vec::new(alloc);
    for pair in list {
        pairs.push((pair.key, target_of(labels, pair.target)))?;
    }
    Pairs::from_vec(pairs)
}

/// A jump by a table.
fn table_of(
    alloc: Global,
    labels: &MethodLabels<'_, '_>,
    low: i32,
    words: &[Word<'_>],
    default: Word<'_>,
) -> Result<Instr, AllocError>
    ensures { IfOk result (λ instr. instr ≡ instrs.Table low (pos (label_number labels.now (units_of default.entry))) (map (λ (label : Label). pos (label_number labels.now label)) (map units_of words.now))) }
{
    let targets = targets_of(alloc, labels, words)?;
    Ok(Instr::Table {
        default: target_of(labels, default),
        low,
        targets,
    })
}

/// A jump by matches.
fn lookup_of(
    alloc: Global,
    labels: &MethodLabels<'_, '_>,
    list: &[Pair<'_>],
    default: Word<'_>,
) -> Result<Instr, AllocError>
    ensures { IfOk result (λ instr. instr ≡ instrs.Lookup (pos (label_number labels.now (units_of default.entry))) (map (λ (pair : ℤ × Label). (pair.0, pos (label_number labels.now pair.1))) (map pair_view list.now))) }
{
    let pairs = pairs_of(alloc, labels, list)?;
    Ok(Instr::Lookup {
        default: target_of(labels, default),
        pairs,
    })
}

/// A call of an interface's method of this index, whose count is one more than the slots of the parameters.
#[tactic(auto, using(crate::proofs::ProperCode::few_slots, crate::proofs::ProperCode::few_places, crate::proofs::ProperCode::call_is))]
fn interface_call(alloc: Global, index: u16, desc: &[u8]) -> Result<Instr, AllocError>
    requires { (instr : Instr) → IsInterfaceCall index desc.now instr → IsProper instr }
    ensures { IfOk result (IsInterfaceCall index desc.now) }
{
    // The descriptor is one of a method.
    let described = read_desc(alloc, desc).or(Err(AllocError))?;
    Ok(Instr::Interface {
        index,
        count: slots(&described) as u8 + 1,
    })
}

/// A field or a method of this index.
fn member_instr(alloc: Global, op: u8, index: u16, desc: &[u8]) -> Result<Instr, AllocError>
    requires { (instr : Instr) → IsMemberInstr (is_interface_call op) op index desc.now instr → IsProper instr }
    ensures { IfOk result (IsMemberInstr (is_interface_call op) op index desc.now) }
{
    if op == 185 {
        interface_call(alloc, index, desc)
    } else {
        Ok(Instr::Member { op, index })
    }
}

/// An instruction that names neither labels nor entries.
fn alone(operation: &Operation<'_>) -> Instr
    requires { IsAlone (operation_view operation.now) }
    ensures { (places : Places) → IsInstrOf places (operation_view operation.now) result }
{
    match operation {
        Operation::Plain { op } => Instr::Simple { op: *op },
        Operation::Push { op, value } => Instr::Push {
            op: *op,
            value: *value,
        },
        Operation::Local { wide, op, slot } => Instr::Local {
            op: *op,
            slot: *slot,
            wide: *wide,
        },
        Operation::Increment { wide, slot, by } => Instr::Inc {
            slot: *slot,
            by: *by,
            wide: *wide,
        },
        Operation::Array { base } => Instr::Array { base: *base },
        Operation::Load { .. } => unreachable!(),
        Operation::LoadLong(_) => unreachable!(),
        Operation::Jump { .. } => unreachable!(),
        Operation::Table { .. } => unreachable!(),
        Operation::Lookup { .. } => unreachable!(),
        Operation::Member { .. } => unreachable!(),
        Operation::Dynamic { .. } => unreachable!(),
        Operation::ClassOf { .. } => unreachable!(),
        Operation::Multi { .. } => unreachable!(),
    }
}

/// An instruction that names one entry, except fields and methods.
fn of_pool(
    alloc: Global,
    pool: &PoolBuilder,
    operation: &Operation<'_>,
) -> Result<Instr, AllocError>
    requires { IsOfPool (operation_view operation.now) }
    ensures { IfOk result (λ instr. (body : List lines.Line) → IsInstrOf (places_of (found_index pool.now) body) (operation_view operation.now) instr) }
{
    match operation {
        Operation::Load { op, literal } => {
            let index = pool.literal_index(alloc, literal)?;
            Ok(Instr::Literal { op: *op, index })
        }
        Operation::LoadLong(n) => Ok(Instr::Literal {
            op: 20,
            index: pool.long_index(*n),
        }),
        Operation::Dynamic { index, name, desc } => Ok(Instr::Dynamic {
            index: pool.dynamic_index(*index, name.as_slice(), desc.as_slice()),
        }),
        Operation::ClassOf { op, class } => Ok(Instr::Class {
            op: *op,
            index: pool.class_index(class.as_slice()),
        }),
        Operation::Multi { desc, dims } => Ok(Instr::Multi {
            index: pool.class_index(desc.as_slice()),
            dims: *dims,
        }),
        Operation::Plain { .. } => unreachable!(),
        Operation::Push { .. } => unreachable!(),
        Operation::Local { .. } => unreachable!(),
        Operation::Increment { .. } => unreachable!(),
        Operation::Jump { .. } => unreachable!(),
        Operation::Table { .. } => unreachable!(),
        Operation::Lookup { .. } => unreachable!(),
        Operation::Member { .. } => unreachable!(),
        Operation::Array { .. } => unreachable!(),
    }
}

/// The instruction that an operation is, by the numbers of labels and the indexes of entries.
fn instr_of(
    alloc: Global,
    labels: &MethodLabels<'_, '_>,
    pool: &PoolBuilder,
    operation: &Operation<'_>,
) -> Result<Instr, AllocError>
    requires { IsProperIn (places_of (found_index pool.now) labels.now) (operation_view operation.now) }
    ensures { IfOk result (IsInstrOf (places_of (found_index pool.now) labels.now) (operation_view operation.now)) }
{
    match operation {
        Operation::Jump { op, target } => Ok(Instr::Branch {
            op: *op,
            target: target_of(labels, *target),
        }),
        Operation::Table {
            low,
            targets,
            default,
        } => table_of(alloc, labels, *low, targets.as_slice(), *default),
        Operation::Lookup { pairs, default } => {
            lookup_of(alloc, labels, pairs.as_slice(), *default)
        }
        Operation::Member {
            op,
            class,
            name,
            desc,
            interface,
        } => {
            let (class, name, desc) = (class.as_slice(), name.as_slice(), desc.as_slice());
            let index = pool.member_index(*op, class, name, desc, *interface);
            member_instr(alloc, *op, index, desc)
        }
        Operation::Load { .. } => of_pool(alloc, pool, operation),
        Operation::LoadLong(_) => of_pool(alloc, pool, operation),
        Operation::Dynamic { .. } => of_pool(alloc, pool, operation),
        Operation::ClassOf { .. } => of_pool(alloc, pool, operation),
        Operation::Multi { .. } => of_pool(alloc, pool, operation),
        Operation::Plain { .. } => Ok(alone(operation)),
        Operation::Push { .. } => Ok(alone(operation)),
        Operation::Local { .. } => Ok(alone(operation)),
        Operation::Increment { .. } => Ok(alone(operation)),
        Operation::Array { .. } => Ok(alone(operation)),
    }
}

/// Appends the instruction of a line, where it is one.
#[tactic(auto, using(crate::proofs::ProperCode::instr_more, crate::proofs::ProperCode::line_more))]
fn push_line(
    instrs: &mut Instrs,
    alloc: Global,
    labels: &MethodLabels<'_, '_>,
    pool: &PoolBuilder,
    line: &Line<'_>,
) -> Result<(), AllocError>
    requires { AreProperIn (places_of (found_index pool.now) labels.now) (operation_in (line_view line.now)) }
    ensures { IfOk result (λ x. HasOneMore (places_of (found_index pool.now) labels.now) (line_view line.now) instrs.old instrs.new) }
{
    match line {
        Line::Does(operation) => {
            let instr = instr_of(alloc, labels, pool, operation)?;
            instrs.push(instr)
        }
        Line::Class { .. }
        | Line::Version { .. }
        | Line::Super(_)
        | Line::Implements(_)
        | Line::Field { .. }
        | Line::Abstract { .. }
        | Line::Method { .. }
        | Line::Stack(_)
        | Line::Locals(_)
        | Line::Label(_)
        | Line::Catch { .. }
        | Line::Frame(_)
        | Line::End => Ok(()),
    }
}

/// The instructions of lines.
#[tactic(auto, using(crate::proofs::ProperCode::proper_at, crate::proofs::ProperCode::one_line_more, crate::proofs::ProperCode::all_lines))]
pub(crate) fn instrs_of(
    alloc: Global,
    lines: &[Line<'_>],
    labels: &MethodLabels<'_, '_>,
    pool: &PoolBuilder,
) -> Result<Instrs, AllocError>
    requires { AreProperIn (places_of (found_index pool.now) labels.now) (flat_map operation_in (map line_view lines.now)) }
    ensures { IfOk result (λ instrs. AreInstrsOf (places_of (found_index pool.now) labels.now) (map line_view lines.now) instrs) }
{
    let mut instrs = Instrs::new(alloc);
    for line in lines {
        push_line(&mut instrs, alloc, labels, pool, line)?;
    }
    Ok(instrs)
}
