ghost use Rattle.std.specs.Prelude.{pos};
ghost use Rattle.dj_asm_source.specs.trusted.Lines.{Version, IsSized};

/// The greatest versions fit a class file (JVMS 4.1), and the next ones don't.
#[tactic(auto, using(crate::proofs::SizeFacts::greatest_version, crate::proofs::SizeFacts::large_major, crate::proofs::SizeFacts::large_minor))]
pub fn greatest_versions_fit()
    ensures greatest { IsSized (Version (pos 65535) (pos 65535)) }
    ensures major { IsSized (Version (pos 65536) (pos 0)) → ⊥ }
    ensures minor { IsSized (Version (pos 52) (pos 65536)) → ⊥ }
{}
