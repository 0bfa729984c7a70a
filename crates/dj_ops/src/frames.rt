ghost use Rattle.std.specs.Prelude.{◌≡◌, List, [], ◌∷◌, ◌++◌, OnOk, OnErr};

use std::alloc::{AllocError, Global};
use std::marker::Model;

/// A verification type of a stack map (JVMS 4.7.4).
#[derive(Clone, Copy, Debug, PartialEq, Eq)]
pub enum VType {
    Top,
    Integer,
    Float,
    Double,
    Long,
    Null,
    UninitializedThis,
    /// An object of the class of this pool index.
    Object(u16),
    /// What the new instruction of this number made.
    Uninitialized(u32),
}

/// Verification types, in order.
#[derive(Debug, Drop)]
pub struct VTypes {
    items: Vec<VType>,
}

impl Model for VTypes {
    ghost use Rattle.std.specs.Prelude.{List};
    ghost use Rattle.dj_ops.specs.declared.frames.VType.{VType};

    ghost Value = { List VType };

    ghost view = { λ types. types.items.items };
}

impl VTypes {
    /// No types.
    pub fn new(alloc: Global) -> VTypes
        ensures { result ≡ [] }
    {
        VTypes {
            items: Vec::new(alloc),
        }
    }

    /// Appends a type.
    pub fn push(&mut self, item: VType) -> Result<(), AllocError>
        ensures ok { OnOk result (self.new ≡ self.old ++ item ∷ []) }
        ensures err { OnErr result (self.new ≡ self.old) }
    {
        Ok(self.items.push(item)?)
    }

    /// The types, borrowed.
    pub fn as_slice(&self) -> &[VType]
        ensures { result.now ≡ self.now }
    {
        self.items.as_slice()
    }
}

/// The form of a frame, which may depend on the frame before it.
#[derive(Debug, Drop)]
pub enum Form {
    /// The same local variables, and no operands.
    Same,
    /// The same local variables, and one operand.
    Stack1(VType),
    /// Without the last n local variables, and no operands.
    Chop(u8),
    /// With these local variables after the others, and no operands.
    Append(VTypes),
    /// All local variables, and all operands, the bottom first.
    Full(VTypes, VTypes),
}

/// A frame of a stack map, at the instruction of this number.
#[derive(Debug, Drop)]
pub struct Frame {
    pub at: u32,
    pub form: Form,
}

/// The frames of a stack map, in order.
#[derive(Debug, Drop)]
pub struct Frames {
    items: Vec<Frame>,
}

impl Model for Frames {
    ghost use Rattle.std.specs.Prelude.{List};
    ghost use Rattle.dj_ops.specs.declared.frames.Frame.{Frame};

    ghost Value = { List Frame };

    ghost view = { λ frames. frames.items.items };
}

impl Frames {
    /// No frames.
    pub fn new(alloc: Global) -> Frames
        ensures { result ≡ [] }
    {
        Frames {
            items: Vec::new(alloc),
        }
    }

    /// Appends a frame.
    pub fn push(&mut self, item: Frame) -> Result<(), AllocError>
        ensures ok { OnOk result (self.new ≡ self.old ++ item ∷ []) }
        ensures err { OnErr result (self.new ≡ self.old) }
    {
        Ok(self.items.push(item)?)
    }

    /// The frames, borrowed.
    pub fn as_slice(&self) -> &[Frame]
        ensures { result.now ≡ self.now }
    {
        self.items.as_slice()
    }
}
