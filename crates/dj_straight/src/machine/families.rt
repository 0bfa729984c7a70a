//! What the families of straight instructions do (JVMS 6.5).

ghost use Rattle.std.specs.Prelude.{IfOk};
ghost use Rattle.dj_straight.specs.trusted.Instructions as model;
ghost use Rattle.dj_names.specs.declared.descriptor.Kind.TheVariants as kinds;
ghost use Rattle.dj_names.specs.declared.run.Element.TheVariants.{Byte};
ghost use Rattle.dj_straight.specs.Methods.{operation_view};
ghost use Rattle.dj_straight.specs.Machines.{machine_view, Does};

use crate::machine::heap::{Referent, element};
use crate::machine::parts::{Progress, StraightMachine};
use crate::machine::values::{computed, is_of_kind, last_slot, low_byte, store_local};
use crate::program::IntOperation;
use dj_names::{Kind, Raised, Value};
use std::alloc::{AllocError, Global};

#[tactic(auto, unfolding(crate::specs::trusted::Effects::effect))]
impl StraightMachine {
    /// A value is pushed.
    pub fn push(&mut self, value: Value) -> Result<Progress, AllocError>
        ensures { IfOk result (Does (model.Push value) (machine_view self.old) (machine_view self.new)) }
    {
        self.operands.push(value)?;
        Ok(Progress::Next)
    }

    /// A local variable is pushed.
    pub fn load(&mut self, kind: Kind, slot: u16) -> Result<Progress, AllocError>
        ensures { IfOk result (Does (model.Load kind slot) (machine_view self.old) (machine_view self.new)) }
    {
        let Some(Some(value)) = self.locals.get(slot as usize).copied() else {
            return Ok(Progress::IllFormed);
        };
        if !is_of_kind(kind, value) {
            return Ok(Progress::IllFormed);
        }
        self.push(value)
    }

    /// A value is taken, and stored in a local variable.
    pub fn store(&mut self, kind: Kind, slot: u16) -> Progress
        ensures { Does (model.Store kind slot) (machine_view self.old) (machine_view self.new) result }
    {
        let Some(value) = self.operands.pop() else {
            return Progress::IllFormed;
        };
        if !is_of_kind(kind, value) || last_slot(kind, slot) >= self.locals.len() {
            return Progress::IllFormed;
        }
        store_local(&mut self.locals, slot as usize, value);
        Progress::Next
    }

    /// A value that is no long is taken.
    pub fn pop(&mut self) -> Progress
        ensures { Does (model.Move model.Pop) (machine_view self.old) (machine_view self.new) result }
    {
        match self.operands.pop() {
            None | Some(Value::Long(_)) => Progress::IllFormed,
            Some(_) => Progress::Next,
        }
    }

    /// The value on top, which is no long, is pushed once more.
    pub fn dup(&mut self) -> Result<Progress, AllocError>
        ensures { IfOk result (Does (model.Move model.Dup) (machine_view self.old) (machine_view self.new)) }
    {
        let Some(value) = self.operands.pop() else {
            return Ok(Progress::IllFormed);
        };
        if is_of_kind(Kind::Long, value) {
            return Ok(Progress::IllFormed);
        }
        self.operands.push(value)?;
        self.operands.push(value)?;
        Ok(Progress::Next)
    }

    /// Two ints are taken, and what is computed of them is pushed.
    pub fn compute(&mut self, operation: IntOperation) -> Result<Progress, AllocError>
        ensures { IfOk result (Does (model.Compute (operation_view operation)) (machine_view self.old) (machine_view self.new)) }
    {
        let (Some(Value::Int(b)), Some(Value::Int(a))) = (self.operands.pop(), self.operands.pop())
        else {
            return Ok(Progress::IllFormed);
        };
        self.push(Value::Int(computed(operation, a, b)))
    }

    /// A reference is returned.
    pub fn return_reference(&self) -> Progress
        ensures { Does (model.Return (Some kinds.Ref)) (machine_view self.now) (machine_view self.now) result }
    {
        match self.operands.top() {
            Some(Value::Ref(reference)) => Progress::Returns(reference),
            _ => Progress::IllFormed,
        }
    }

    /// An index and an array are taken, and the array's element is pushed.
    pub fn load_byte(&mut self) -> Result<Progress, AllocError>
        ensures { IfOk result (Does (model.LoadElement model.Bytes) (machine_view self.old) (machine_view self.new)) }
    {
        let (Some(Value::Int(index)), Some(Value::Ref(reference))) = (
            self.operands.pop(),
            self.operands.pop(),
        ) else {
            return Ok(Progress::IllFormed);
        };
        match self.heap.array(reference) {
            Referent::Null => Ok(Progress::Raises(Raised::NullPointer)),
            Referent::NoArray => Ok(Progress::Broken),
            Referent::Bytes(bytes) => match element(bytes, index) {
                None => Ok(Progress::Raises(Raised::ArrayIndexOutOfBounds)),
                Some(byte) => self.push(Value::Int(i32::from(byte))),
            },
        }
    }

    /// A value, an index and an array are taken, and the value's low byte is the array's element.
    pub fn store_byte(&mut self) -> Progress
        ensures { Does (model.StoreElement model.Bytes) (machine_view self.old) (machine_view self.new) result }
    {
        let (Some(Value::Int(value)), Some(Value::Int(index))) = (
            self.operands.pop(),
            self.operands.pop(),
        ) else {
            return Progress::IllFormed;
        };
        let Some(Value::Ref(reference)) = self.operands.pop() else {
            return Progress::IllFormed;
        };
        match self.heap.array(reference) {
            Referent::Null => Progress::Raises(Raised::NullPointer),
            Referent::NoArray => Progress::Broken,
            Referent::Bytes(bytes) => match element(bytes, index) {
                None => Progress::Raises(Raised::ArrayIndexOutOfBounds),
                Some(_) => {
                    self.heap.store(reference, index, low_byte(value));
                    Progress::Next
                }
            },
        }
    }

    /// An array is taken, and its length is pushed.
    pub fn array_length(&mut self) -> Result<Progress, AllocError>
        ensures { IfOk result (Does model.ArrayLength (machine_view self.old) (machine_view self.new)) }
    {
        let Some(Value::Ref(reference)) = self.operands.pop() else {
            return Ok(Progress::IllFormed);
        };
        match self.heap.array(reference) {
            Referent::Null => Ok(Progress::Raises(Raised::NullPointer)),
            Referent::NoArray => Ok(Progress::Broken),
            Referent::Bytes(bytes) => {
                let length = bytes.len() as i32;
                self.push(Value::Int(length))
            }
        }
    }

    /// A length is taken, and an array of as many zeros is made.
    pub fn new_byte_array(&mut self, alloc: Global) -> Result<Progress, AllocError>
        ensures { IfOk result (Does (model.NewArray model.byte_array_class Byte) (machine_view self.old) (machine_view self.new)) }
    {
        let Some(Value::Int(count)) = self.operands.pop() else {
            return Ok(Progress::IllFormed);
        };
        if count < 0 {
            return Ok(Progress::Raises(Raised::NegativeArraySize));
        }
        let reference = self.heap.make(alloc, count as u32)?;
        self.push(Value::Ref(reference))
    }
}
