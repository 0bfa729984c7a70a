ghost use Rattle.std.specs.Prelude.{◌≡◌, ◌<◌, ℕ, Bool, IfOk};
ghost use Rattle.dj_member_effects.specs.Numbering.{AreNumbered};
ghost use Rattle.dj_member_effects.specs.Fields.{HasFields, holder_by, holder_reported};

use dj_effects::{Flow, Way};
use dj_heap::{Heap, Made};
use dj_names::Raised;

/// Which classes have the fields that a class declares.
pub trait Holders {
    /// How many classes and arrays have numbers.
    ghost count: { Self → ℕ };

    /// For the number of a declaring class and that of another class, whether the other one has the fields.
    ghost has: { Self → ℕ → ℕ → Bool };

    /// Whether a class has the fields that the declaring one declares.
    fn has_fields(&self, class: u32, declaring: u32) -> bool
        requires { class < count self.now }
        ensures { result ≡ has self.now declaring class };
}

/// How many fields the instance of a reference has, where its class has the fields of the declaring one; else how the run goes on.
#[tactic(auto, using(crate::proofs::HolderFacts::null_holder, crate::proofs::HolderFacts::past_holder, crate::proofs::HolderFacts::array_holder, crate::proofs::HolderFacts::text_holder, crate::proofs::HolderFacts::instance_holder, crate::proofs::HolderFacts::other_holder, crate::proofs::HolderFacts::has_fields, crate::proofs::HolderFacts::class_numbered))]
pub fn holder<H: Holders>(holders: &H, heap: &Heap, declaring: u32, r: u32) -> Result<u32, Flow>
    requires { AreNumbered (H.count holders.now) heap.now.heap }
    ensures reported { result ≡ holder_reported (holder_by (H.has holders.now declaring) heap.now.heap r) }
    ensures there { IfOk result (λ count. HasFields heap.now.heap r count) }
{
    if r == 0 {
        return Err(Flow::Goes(Way::Raise(Raised::NullPointer)));
    }
    if heap.count() < r {
        return Err(Flow::Link);
    }
    match heap.made(r) {
        Made::Instance => {
            if holders.has_fields(heap.class_of(r), declaring) {
                Ok(heap.length(r))
            } else {
                Err(Flow::Link)
            }
        }
        Made::Array(_) => Err(Flow::Link),
        Made::Text => Err(Flow::Link),
    }
}
