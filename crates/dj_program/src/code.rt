ghost use Rattle.std.specs.Prelude.{List};
ghost use Rattle.dj_pool.specs.trusted.Pool.{Constant};
ghost use Rattle.dj_class.specs.trusted.ClassFile.{MemberInfo};
ghost use Rattle.dj_early_rules.specs.Passes.{IsWholeMethod};
ghost use Rattle.dj_program.specs.trusted.Codes.{IsMethodCode};
ghost use Rattle.dj_program.specs.Views.{parts_of};

use dj_early_rules::WholeCode;
use dj_labels::Labelled;
use dj_ops::Frames;

/// The code of a method, with numbers of instructions in place of addresses (JVMS 4.7.3 and 4.7.4).
#[derive(Debug, Drop)]
pub struct MethodCode {
    pub max_stack: u16,
    pub max_locals: u16,
    pub code: Labelled,
    /// The frames of its stack map; no frames where there is no such attribute, and none where the attribute is no stack map.
    pub frames: Option<Frames>,
}

/// The code of a method that is whole.
pub fn method_code(code: WholeCode<'_>) -> MethodCode
    ensures { (pool : List Constant) (m : MemberInfo) → IsWholeMethod pool m code.entry → IsMethodCode pool m (parts_of result) }
{
    MethodCode {
        max_stack: code.max_stack,
        max_locals: code.max_locals,
        code: code.labelled,
        frames: code.frames,
    }
}
