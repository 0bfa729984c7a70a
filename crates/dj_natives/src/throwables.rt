ghost use Rattle.std.specs.Prelude.{◌≡◌, ◌%◌, ◌^◌};
ghost use Rattle.dj_natives.specs.Seen.{field_at};
ghost use Rattle.dj_natives.specs.Answers.{Says, is_on_throwables};
ghost use Rattle.dj_natives.specs.Calls.{seen_of};
ghost use Rattle.dj_names.specs.declared.descriptor.Ty.{Ty};
ghost use Rattle.dj_model.specs.trusted.Types.{Prefix};
ghost use Rattle.dj_model.specs.trusted.Program.{Program};
ghost use Rattle.std.specs.Prelude.{List};

use crate::answer::{Answer, gives_reference};
use crate::arguments::reference;
use crate::seen::field;
use dj_heap::Heap;
use dj_names::{NativeId, Value};

/// The answer of a method of Throwable: its fields are the message and the cause.
#[tactic(auto, using(crate::proofs::Others::no_on_throwables), unfolding(dj_model::specs::trusted::Natives::answer))]
pub fn on_throwables(heap: &Heap, id: NativeId, args: &[Value]) -> Option<Answer>
    ensures { (program : Program) (prefix : Prefix) (types : List Ty) → Says is_on_throwables id (seen_of program prefix types heap.now) args.now result }
{
    let object = reference(args, 0);
    match id {
        NativeId::ThrowableNew => Some(Answer::SetsFields(object, 0, 0)),
        NativeId::ThrowableNewMessage => Some(Answer::SetsFields(object, reference(args, 1), 0)),
        NativeId::ThrowableNewCause => {
            Some(Answer::SetsFields(object, reference(args, 1), reference(args, 2)))
        }
        NativeId::GetMessage => Some(gives_reference(reference_in(heap, object, 0))),
        NativeId::GetCause => Some(gives_reference(reference_in(heap, object, 1))),
        _ => None,
    }
}

// The reference in a field, which is in its low 32 bits.
fn reference_in(heap: &Heap, r: u32, at: u32) -> u32
    ensures { result ≡ field_at heap.now r at % 2 ^ 32 }
{
    (field(heap, r, at) % (1 << 32)) as u32
}
