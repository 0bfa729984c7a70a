//! Pools of rewritten classes.
ghost use Rattle.std.specs.Prelude.{◌≡◌, All, IfOk, IfErr};
ghost use Rattle.dj_pool.specs.trusted.Pool.{IsPool};
ghost use Rattle.dj_rename.specs.Pools.{appended_texts, renamed_descs, first_index, rewritten_pool};
ghost use Rattle.dj_rename.specs.Refusals.{IsDescIndex, AreAppended, RefusesAccounter};

use crate::accounter::append_accounter;
use crate::error::RenameError;
use crate::renamed::rename_pool;
use crate::texts::Texts;
use dj_pool::{Indexes, Pool};
use std::alloc::Global;

/// A rewritten class's constants, the new indexes of its members' descriptors, and the index of the accounter's first constant.
#[derive(Drop)]
pub struct Rewritten<'t> {
    pub pool: Pool<'t>,
    pub descs: Indexes,
    pub first: u16,
}

/// The constants of a class with its renamed texts and the accounter's constants after them. The texts are those of `rename_texts`; `descs` has
/// the indexes of the members' descriptors.
pub fn rewrite_pool<'t>(
    alloc: Global,
    pool: &Pool<'t>,
    descs: &[u16],
    texts: &'t Texts,
) -> Result<Rewritten<'t>, RenameError>
    requires valid { IsPool pool.now }
    requires described { All (IsDescIndex pool.now) descs.now }
    requires appended { AreAppended pool.now descs.now texts.now }
    ensures pool { IfOk result (λ rewritten. rewritten.pool ≡ rewritten_pool pool.now descs.now) }
    ensures valid { IfOk result (λ rewritten. IsPool rewritten.pool) }
    ensures descs { IfOk result (λ rewritten. rewritten.descs ≡ renamed_descs pool.now (appended_texts pool.now descs.now) descs.now) }
    ensures first { IfOk result (λ rewritten. rewritten.first ≡ first_index pool.now (appended_texts pool.now descs.now)) }
    ensures err { IfErr result (RefusesAccounter pool.now descs.now) }
{
    let mut renamed = rename_pool(alloc, pool, descs, texts)?;
    let first = append_accounter(&mut renamed.pool)?;
    Ok(Rewritten {
        pool: renamed.pool,
        descs: renamed.descs,
        first,
    })
}
