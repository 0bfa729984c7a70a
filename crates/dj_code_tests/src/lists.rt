use crate::opcodes::ALOAD_0;
use dj_labels::{Protected, Ranges};
use dj_ops::{CatchRow, CatchRows, Instr, Instrs, Pairs, Starts, Targets};
use std::alloc::{AllocError, Global};

fn targets_grow(alloc: Global) -> Result<bool, AllocError> {
    let mut targets = Targets::new(alloc)?;
    targets.push(-3)?;
    Ok(targets.as_slice() == [-3].as_slice())
}

fn pairs_grow(alloc: Global) -> Result<bool, AllocError> {
    let mut pairs = Pairs::new(alloc)?;
    pairs.push((-1, 7))?;
    Ok(pairs.as_slice() == [(-1, 7)].as_slice())
}

fn rows_grow(alloc: Global) -> Result<bool, AllocError> {
    let row = CatchRow {
        start: 0,
        end: 4,
        handler: 7,
        catch_type: 0,
    };
    let mut rows = CatchRows::new(alloc);
    rows.push(row)?;
    Ok(rows.as_slice() == [row].as_slice())
}

fn starts_grow(alloc: Global) -> Result<bool, AllocError> {
    let mut starts = Starts::new(alloc);
    starts.push(7)?;
    Ok(starts.as_slice() == [7].as_slice())
}

fn instructions_grow(alloc: Global) -> Result<bool, AllocError> {
    let mut instrs = Instrs::new(alloc);
    instrs.push(Instr::Simple { op: ALOAD_0 })?;
    Ok(instrs.as_slice().len() == 1)
}

fn ranges_grow(alloc: Global) -> Result<bool, AllocError> {
    let range = Protected {
        start: 0,
        end: 4,
        handler: 7,
        catch_type: 0,
    };
    let mut ranges = Ranges::new(alloc);
    ranges.push(range)?;
    Ok(ranges.as_slice() == [range].as_slice())
}

#[test]
fn lists_grow(rt: HostRuntime) {
    assert!(rt; matches!(targets_grow(rt.alloc()), Ok(true)));
    assert!(rt; matches!(pairs_grow(rt.alloc()), Ok(true)));
    assert!(rt; matches!(rows_grow(rt.alloc()), Ok(true)));
    assert!(rt; matches!(starts_grow(rt.alloc()), Ok(true)));
    assert!(rt; matches!(instructions_grow(rt.alloc()), Ok(true)));
    assert!(rt; matches!(ranges_grow(rt.alloc()), Ok(true)));
}
