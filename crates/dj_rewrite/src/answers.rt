//! What becomes of the methods of a class.
ghost use Rattle.std.specs.Prelude.{◌≡◌, ◌+◌, ◌<◌, ◌^◌, IfOk};
ghost use Rattle.std.specs.List.{AllByRecursion, list_any};
ghost use Rattle.dj_pool.specs.trusted.Pool.{IsPool};
ghost use Rattle.dj_class.specs.Members.{member_of};
ghost use Rattle.dj_class.specs.Views.{class_of};
ghost use Rattle.dj_class.specs.trusted.ClassFile.{IsAttribute};
ghost use Rattle.dj_image.specs.Imaged.{program_of};
ghost use Rattle.dj_rewrite_code.specs.Answers.{IsKnownMethod};
ghost use Rattle.dj_rewrite.specs.Answers.{AnswersMethod, AreAnswers, IsKnownClass};
ghost use Rattle.dj_rewrite.specs.Steps.{is_large};

use dj_class::{ClassView, MemberView};
use dj_image::Image;
use dj_pool::Pool;
use dj_rewrite_code::{CodeBody, CodeError, rewrite_code};
use std::alloc::{AllocError, Global};

/// What becomes of a method.
#[derive(Debug, Drop)]
pub(crate) enum MethodAnswer {
    /// It has no code.
    Bodiless,
    /// Its rewritten Code attribute.
    Rewritten(CodeBody),
    /// Its rewritten code doesn't fit.
    TooLarge,
}

fn answer_method(
    alloc: Global,
    image: &Image,
    pool: &Pool<'_>,
    first: u16,
    method: &MemberView<'_>,
) -> Result<MethodAnswer, AllocError>
    requires first { first + 25 < 2 ^ 16 }
    requires valid { IsPool pool.now }
    requires attributes { AllByRecursion (IsAttribute pool.now) (member_of method.now).attributes }
    requires known { IsKnownMethod (program_of image.now) pool.now (member_of method.now) }
    ensures { IfOk result (AnswersMethod (program_of image.now) pool.now first (member_of method.now)) }
{
    match rewrite_code(alloc, image, pool, first, method) {
        Ok(None) => Ok(MethodAnswer::Bodiless),
        Ok(Some(code)) => Ok(MethodAnswer::Rewritten(code)),
        Err(CodeError::TooLarge) => Ok(MethodAnswer::TooLarge),
        Err(CodeError::Memory) => Err(AllocError),
    }
}

/// What becomes of each method of a class, whose new pool has the accounter's constants from `first` on.
pub(crate) fn answer_methods(
    alloc: Global,
    image: &Image,
    view: &ClassView<'_>,
    first: u16,
) -> Result<Vec<MethodAnswer>, AllocError>
    requires first { first + 25 < 2 ^ 16 }
    requires known { IsKnownClass (program_of image.now) (class_of view.now) }
    ensures { IfOk result (λ answers. AreAnswers (program_of image.now) view.now.pool first (class_of view.now).methods answers.items) }
{
    let mut answers = Vec::new(alloc);
    for method in view.methods.as_slice() {
        let answer = answer_method(alloc, image, &view.pool, first, method)?;
        answers.push(answer)?;
    }
    Ok(answers)
}

/// Whether its code doesn't fit.
pub(crate) fn is_large(answer: &MethodAnswer) -> bool
    ensures { result ≡ is_large answer.now }
{
    match answer {
        MethodAnswer::TooLarge => true,
        MethodAnswer::Bodiless | MethodAnswer::Rewritten(_) => false,
    }
}

/// Whether the code of one of the methods doesn't fit.
pub(crate) fn has_large(answers: &[MethodAnswer]) -> bool
    ensures { result ≡ list_any is_large answers.now }
{
    answers.iter().any(|answer| is_large(answer))
}
