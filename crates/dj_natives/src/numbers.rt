ghost use Rattle.std.specs.Prelude.{◌≡◌, map, pos};
ghost use Rattle.std.specs.Int.{w32, w64, int_wrap};
ghost use Rattle.dj_names.specs.trusted.Values.{value_kind};
ghost use Rattle.dj_model.specs.NativeKinds.{native_signature};
ghost use Rattle.dj_model.specs.trusted.Natives.{Seen};
ghost use Rattle.dj_natives.specs.Answers.{Says, is_on_numbers};
ghost use Rattle.std.specs.Prelude.{unsigned_abs};

use crate::answer::{Answer, given};
use crate::arguments::{int, number};
use dj_names::{NativeId, Value};

/// The answer of a method of Math, which sees nothing of the heap.
#[tactic(auto, using(crate::proofs::Others::no_on_numbers), unfolding(dj_model::specs::trusted::Natives::answer))]
pub fn on_numbers(id: NativeId, args: &[Value]) -> Option<Answer>
    requires { map value_kind args.now ≡ (native_signature id).parameters }
    ensures { (heap : Seen) → Says is_on_numbers id heap args.now result }
{
    match id {
        NativeId::AbsInt => given(Value::Int(abs_int(int(args, 0)))),
        NativeId::AbsLong => given(Value::Long(abs_long(number(args, 0)))),
        NativeId::MaxInts => given(Value::Int(int(args, 0).max(int(args, 1)))),
        NativeId::MaxLongs => given(Value::Long(number(args, 0).max(number(args, 1)))),
        NativeId::MinInts => given(Value::Int(int(args, 0).min(int(args, 1)))),
        NativeId::MinLongs => given(Value::Long(number(args, 0).min(number(args, 1)))),
        _ => None,
    }
}

// The number without its sign; the least int stays as it is.
#[tactic(auto, using(crate::proofs::Units::wrapped_32))]
fn abs_int(z: i32) -> i32
    ensures { result ≡ int_wrap w32 (pos (unsigned_abs z)) }
{
    z.wrapping_abs()
}

// The number without its sign; the least long stays as it is.
#[tactic(auto, using(crate::proofs::Units::wrapped_64))]
fn abs_long(z: i64) -> i64
    ensures { result ≡ int_wrap w64 (pos (unsigned_abs z)) }
{
    z.wrapping_abs()
}
