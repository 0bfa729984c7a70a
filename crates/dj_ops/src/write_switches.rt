ghost use Rattle.std.specs.Prelude.{◌≡◌, ◌+◌, ◌<◌, ◌++◌, replicate, OnOk};
ghost use Rattle.std.specs.List.{flat_map, AllByRecursion};
ghost use Rattle.dj_cursor.specs.trusted.Spelling.{s4};
ghost use Rattle.dj_ops.specs.trusted.Instructions.{IsTable, IsLookup, IsFar, offset, high_of, target_bytes, pair_bytes, written, padding_count};
ghost use Rattle.dj_ops.specs.Instructions.{Appended};
ghost use Rattle.dj_ops.specs.declared.instruction.Instr.TheVariants as instrs;

use crate::read::OpError;
use crate::write::put;
use dj_cursor::u4_bytes;
use std::alloc::AllocError;

/// The distance from an address to a target.
pub fn offset_of(at: u32, target: i64) -> i32
    requires { IsFar at target }
    ensures { result ≡ offset at target }
{
    (target - i64::from(at)) as i32
}

/// Writes a tableswitch.
pub fn write_table(
    default: i64,
    low: i32,
    targets: &[i64],
    at: u32,
    out: &mut Vec<u8>,
) -> Result<(), OpError>
    requires proper { IsTable low targets.now }
    requires default { IsFar at default }
    requires targets { AllByRecursion (IsFar at) targets.now }
    ensures { Appended result out.old.items out.new.items (written at (instrs.Table low default targets.now)) }
{
    let mut bytes = Vec::new(*out.allocator());
    bytes.push(170)?;
    put_padding(at, &mut bytes)?;
    put_s4(offset_of(at, default), &mut bytes)?;
    put_s4(low, &mut bytes)?;
    put_s4(high_number(low, targets), &mut bytes)?;
    put_targets(targets, at, &mut bytes)?;
    put(&bytes, out)
}

/// Writes a lookupswitch.
pub fn write_lookup(
    default: i64,
    pairs: &[(i32, i64)],
    at: u32,
    out: &mut Vec<u8>,
) -> Result<(), OpError>
    requires proper { IsLookup pairs.now }
    requires default { IsFar at default }
    requires pairs { AllByRecursion (λ pair. IsFar at pair.1) pairs.now }
    ensures { Appended result out.old.items out.new.items (written at (instrs.Lookup default pairs.now)) }
{
    let mut bytes = Vec::new(*out.allocator());
    bytes.push(171)?;
    put_padding(at, &mut bytes)?;
    put_s4(offset_of(at, default), &mut bytes)?;
    put_s4(pairs.len() as i32, &mut bytes)?;
    put_pairs(pairs, at, &mut bytes)?;
    put(&bytes, out)
}

/// The last number of a table from low on.
fn high_number(low: i32, targets: &[i64]) -> i32
    requires { IsTable low targets.now }
    ensures { result ≡ high_of low targets.now }
{
    (i64::from(low) + (targets.len() as i64 - 1)) as i32
}

/// Appends zeros, after which the address is a multiple of 4.
fn put_padding(at: u32, out: &mut Vec<u8>) -> Result<(), AllocError>
    ensures { OnOk result (out.new.items ≡ out.old.items ++ replicate (padding_count at) 0) }
{
    out.resize(out.len() + (3 - at % 4) as usize, 0)
}

/// Appends a signed number of four bytes.
fn put_s4(number: i32, out: &mut Vec<u8>) -> Result<(), AllocError>
    ensures { OnOk result (out.new.items ≡ out.old.items ++ s4 number) }
{
    out.extend_from_slice(&u4_bytes(number.cast_unsigned()))
}

/// Appends the offsets of targets.
fn put_targets(targets: &[i64], at: u32, out: &mut Vec<u8>) -> Result<(), AllocError>
    requires { AllByRecursion (IsFar at) targets.now }
    ensures { OnOk result (out.new.items ≡ out.old.items ++ flat_map (target_bytes at) targets.now) }
{
    for target in targets {
        put_s4(offset_of(at, *target), out)?;
    }
    Ok(())
}

/// Appends a match, and the offset of its target.
fn put_pair(pair: &(i32, i64), at: u32, out: &mut Vec<u8>) -> Result<(), AllocError>
    requires { IsFar at pair.now.1 }
    ensures { OnOk result (out.new.items ≡ out.old.items ++ pair_bytes at pair.now) }
{
    let (number, target) = *pair;
    put_s4(number, out)?;
    put_s4(offset_of(at, target), out)
}

/// Appends matches, and the offsets of their targets.
fn put_pairs(pairs: &[(i32, i64)], at: u32, out: &mut Vec<u8>) -> Result<(), AllocError>
    requires { AllByRecursion (λ pair. IsFar at pair.1) pairs.now }
    ensures { OnOk result (out.new.items ≡ out.old.items ++ flat_map (pair_bytes at) pairs.now) }
{
    for pair in pairs {
        put_pair(pair, at, out)?;
    }
    Ok(())
}
