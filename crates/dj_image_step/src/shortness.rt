// What holds of the code of class files, and isn't known of that of an image: its instructions and rows have numbers of 32 bits, and each literal is loaded
// by one of the three opcodes that do.
ghost use Rattle.std.specs.Prelude.{◌≡◌, ◌<◌, ◌^◌, true, length, IfOk};
ghost use Rattle.dj_numbering.specs.Members.{all_methods};
ghost use Rattle.dj_image.specs.Imaged.{program_of};
ghost use Rattle.dj_image_step.specs.Short.{AreBounded, IsBounded, LoadByKnown, is_known_load};

use dj_image::{Body, Image, MethodCode, MethodId};
use dj_ops::Instr;
use std::alloc::AllocError;

/// Whether it holds of all code of an image.
pub(crate) fn are_bounded(image: &Image) -> Result<bool, AllocError>
    ensures { IfOk result (λ bounded. bounded ≡ true → AreBounded image.now) }
{
    let count = method_count(image)?;
    for number in 0..count {
        if !is_bounded(image, MethodId { number }) {
            return Ok(false);
        }
    }
    Ok(true)
}

// How many methods the classes of an image have.
fn method_count(image: &Image) -> Result<u32, AllocError>
    ensures { IfOk result (λ count. count ≡ length (all_methods (program_of image.now))) }
{
    let linker = image.linker();
    let classes = linker.classes();
    let mut count: u32 = 0;
    for class in 0..classes.class_count() {
        let Ok(more) = u32::try_from(classes.method_count(class)) else {
            return Err(AllocError);
        };
        let Some(sum) = count.checked_add(more) else {
            return Err(AllocError);
        };
        count = sum;
    }
    Ok(count)
}

// Whether it holds of the code of a method, where it has some.
#[tactic(auto, using(crate::proofs::ShortTables::bounded_abstract, crate::proofs::ShortTables::bounded_native, crate::proofs::ShortTables::bounded_code))]
fn is_bounded(image: &Image, method: MethodId) -> bool
    requires { method.number < length (all_methods (program_of image.now)) }
    ensures { result ≡ true → IsBounded image.now method.number }
{
    match image.body(method) {
        Body::Abstract => true,
        Body::Native(_) => true,
        Body::Code(code) => is_short(code) && load_by_known(code),
    }
}

// Whether instructions and rows have numbers of 32 bits.
fn is_short(code: &MethodCode) -> bool
    ensures { result ≡ true → (length code.now.code.code < 2 ^ 32) × (length code.now.code.ranges < 2 ^ 32) }
{
    let most = u32::MAX as usize;
    code.code.code.as_slice().len() <= most && code.code.ranges.as_slice().len() <= most
}

// Whether each literal is loaded by one of the three opcodes that do.
fn load_by_known(code: &MethodCode) -> bool
    ensures { result ≡ true → LoadByKnown code.now.code.code }
{
    for instr in code.code.code.as_slice() {
        if !is_known_load(instr) {
            return false;
        }
    }
    true
}

fn is_known_load(instr: &Instr) -> bool
    ensures { result ≡ is_known_load instr.now }
{
    match instr {
        Instr::Literal { op, .. } => *op <= 20,
        _ => true,
    }
}
