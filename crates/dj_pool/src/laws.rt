ghost use Rattle.dj_pool.specs.Laws.{OnePool, OneFault, NoPoolWhereFault, PoolOrFault, AppendedIsPool, RedirectedIsPool, PoolLooksUp};

/// At a place there is at most one pool.
pub fn one_pool()
    ensures { OnePool }
{}

/// At a place there is at most one first fault.
pub fn one_fault()
    ensures { OneFault }
{}

/// There is no pool where there is a fault.
pub fn no_pool_where_fault()
    ensures { NoPoolWhereFault }
{}

/// There is a pool at a place, or there is a fault.
pub fn pool_or_fault()
    ensures { PoolOrFault }
{}

/// A valid pool stays so where a valid constant is appended.
pub fn appended_is_pool()
    ensures { AppendedIsPool }
{}

/// A valid pool stays so where a constant gets another text of the kind that it had.
pub fn redirected_is_pool()
    ensures { RedirectedIsPool }
{}

/// In a valid pool what a constant names is there.
pub fn pool_looks_up()
    ensures { PoolLooksUp }
{}
