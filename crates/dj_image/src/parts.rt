use crate::owned::OwnedPool;
use dj_program::MethodCode;
use dj_shape_rule::PoolKinds;

/// The constant with which a field begins (JVMS 4.7.2).
#[derive(Debug, Drop)]
pub enum FieldValue {
    Int(i32),
    Long(i64),
    /// A text, by its index among the constants of the class.
    Text(u16),
    /// A constant of another kind, which sets nothing.
    Unfit,
}

/// What a class has beside what it declares; a library's class has no constants, no code and no values.
#[derive(Drop)]
pub struct ClassParts {
    pub pool: OwnedPool,
    /// What rule 19, SHAPE, needs to know of the constants.
    pub kinds: PoolKinds,
    /// For each method, in order, its code, where it has some.
    pub codes: Vec<Option<MethodCode>>,
    /// For each method, in order, the index of its descriptor; a library's class has none.
    pub descs: Vec<u16>,
    /// For each field, in order, the constant with which it begins, where it has one.
    pub values: Vec<Option<FieldValue>>,
}
