ghost use Rattle.std.specs.Prelude.{Ok};
ghost use Rattle.dj_rewrite_code.specs.Steps.{AnswersStack};

/// A method of 65,533 operands has room for the two more of rewritten code (JVMS 4.7.3, max_stack), and one of 65,534 has none.
#[tactic(auto, using(crate::proofs::StepFacts::greatest_stack, crate::proofs::StepFacts::deep_stack_refused))]
pub fn greatest_stack_fits()
    ensures greatest { AnswersStack 65533 (Ok 65535) }
    ensures past { AnswersStack 65534 (Ok 65536) → ⊥ }
{}
