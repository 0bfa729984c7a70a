// The matches of a lookupswitch: whether they rise, and what a number finds among them.
ghost use Rattle.std.specs.Prelude.{◌≡◌, ◌≤◌, ◌∷◌, ◌++◌, ◌&&◌, [], true, false, length, int_lt};
ghost use Rattle.std.specs.List.Sorted.{IsPartitionPoint};
ghost use Rattle.dj_ops.specs.trusted.Lookups.{rises};
ghost use Rattle.dj_ops.specs.Lookups.{first_target, is_match, target_if};

// Whether the first match is below the second.
fn is_below(a: &(i32, i64), b: &(i32, i64)) -> bool
    ensures { result ≡ int_lt a.now.0 b.now.0 }
{
    a.0 < b.0
}

/// Whether each match is below the next.
pub fn is_rising(pairs: &[(i32, i64)]) -> bool
    ensures { result ≡ rises pairs.now }
{
    for i in 1..pairs.len() {
        if !is_below(&pairs[i - 1], &pairs[i]) {
            return false;
        }
    }
    true
}

/// Whether the match is above the last one, where there is one.
#[tactic(auto, using(crate::proofs::Lookups::rises_first, crate::proofs::Lookups::rises_more))]
pub fn is_above_last(pairs: &[(i32, i64)], item: (i32, i64)) -> bool
    ensures { (rises pairs.now && result) ≡ rises (pairs.now ++ item ∷ []) }
{
    let count = pairs.len();
    if count == 0 {
        return true;
    }
    is_below(&pairs[count - 1], &item)
}

// Whether the match of the pair is this number.
fn has_match(pair: &(i32, i64), wanted: &i32) -> bool
    ensures { result ≡ is_match pair.now.0 wanted.now }
{
    pair.0 <= *wanted && *wanted <= pair.0
}

// How many pairs come before the first one whose match isn't below the number.
fn first_not_below(pairs: &[(i32, i64)], wanted: i32) -> usize
    requires { rises pairs.now ≡ true }
    ensures bound { result ≤ length pairs.now }
    ensures point { IsPartitionPoint (λ pair. int_lt pair.0 wanted ≡ true) (λ pair. int_lt pair.0 wanted ≡ false) pairs.now result }
{
    pairs.partition_point(|pair| pair.0 < wanted)
}

// The target of the pair, if its match is this number.
fn target_if(pair: &(i32, i64), wanted: &i32) -> Option<i64>
    ensures { result ≡ target_if pair.now wanted.now }
{
    if has_match(pair, wanted) {
        Some(pair.1)
    } else {
        None
    }
}

/// The target of the first pair with the match, by halving.
pub fn target_by_halving(pairs: &[(i32, i64)], wanted: i32) -> Option<i64>
    requires { rises pairs.now ≡ true }
    ensures { result ≡ first_target pairs.now wanted }
{
    let place = first_not_below(pairs, wanted);
    if pairs.len() <= place {
        return None;
    }
    target_if(&pairs[place], &wanted)
}

/// The same in turn, whatever the order of the matches.
#[tactic(auto, using(crate::proofs::Lookups::pair_met, crate::proofs::Lookups::pair_passed, crate::proofs::Lookups::pairs_end))]
pub fn target_in_turn(pairs: &[(i32, i64)], wanted: i32) -> Option<i64>
    ensures { result ≡ first_target pairs.now wanted }
{
    for pair in pairs {
        if has_match(pair, &wanted) {
            return Some(pair.1);
        }
    }
    None
}
