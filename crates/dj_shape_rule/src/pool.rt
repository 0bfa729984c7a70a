ghost use Rattle.std.specs.Prelude.{◌≡◌, ◌<◌, ◌^◌, length, get_or, option_copied, IfOk};
ghost use Rattle.std.specs.Option.{option_map};
ghost use Rattle.dj_names.specs.trusted.DescReading.{opens};
ghost use Rattle.dj_pool.specs.trusted.Pool.{IsPool, desc_at};
ghost use Rattle.dj_pool.specs.Views.{constant_of};
ghost use Rattle.dj_model.specs.trusted.Kinds.{call_signature, signature_with};
ghost use Rattle.dj_model.specs.trusted.Members.{kinds_of};
ghost use Rattle.dj_shape_rule.specs.Keeping.{all_calls, all_kinds, call_by, desc_index_at, kind_by, text_call, text_kind};
ghost use Rattle.dj_shape_rule.specs.Pools.{ArePoolKinds, call_at};
ghost use Rattle.dj_shape_rule.specs.declared.pool.ConstantKind.TheVariants as constants;

use crate::error::ShapeError;
use dj_names::{Desc, DescError, Kind, Ty, kind_of, read_desc};
use dj_pool::{Entry, Pool};
use std::alloc::Global;
use std::marker::Model;

/// The kinds that a method takes, without the object on which it is called, and the kind that it returns.
#[derive(Debug, Drop)]
pub struct CallKinds {
    parameters: Vec<Kind>,
    result: Option<Kind>,
}

impl Model for CallKinds {
    ghost use Rattle.dj_model.specs.trusted.Kinds.{Signature};

    ghost Value = { Signature };

    ghost view = { λ call. record { parameters = call.parameters.items; result = call.result } };
}

impl CallKinds {
    /// The kinds that the method takes, in order.
    pub fn parameters(&self) -> &[Kind]
        ensures { result.now ≡ self.now.parameters }
    {
        &self.parameters
    }

    /// The kind that the method returns.
    pub fn result(&self) -> Option<Kind>
        ensures { result ≡ self.now.result }
    {
        self.result
    }
}

/// What shape needs to know of a constant.
#[derive(Clone, Copy, Debug)]
pub enum ConstantKind {
    Int,
    Long,
    Text,
    Class,
    /// The kind of a field; none for a float or a double.
    Field(Option<Kind>),
    /// The index of the descriptor's text.
    Method(u16),
    InterfaceMethod(u16),
    Other,
}

/// What shape needs to know of the constants of a pool, by index.
#[derive(Drop)]
pub struct PoolKinds {
    constants: Vec<ConstantKind>,
    // For each text that is the descriptor of a method without floats and doubles, by its index.
    calls: Vec<Option<CallKinds>>,
}

impl Model for PoolKinds {
    ghost use Rattle.dj_shape_rule.specs.Kept.{KeptKinds};

    ghost Value = { KeptKinds };

    ghost view = { λ kinds. record { constants = kinds.constants.items; calls = kinds.calls.items } };
}

impl PoolKinds {
    /// What shape needs to know of the constant at an index.
    pub fn constant(&self, index: u16) -> ConstantKind
        ensures { result ≡ get_or self.now.constants index constants.Other }
    {
        match self.constants.get(usize::from(index)) {
            Some(constant) => *constant,
            None => ConstantKind::Other,
        }
    }

    /// The kinds of a call of a method whose descriptor is at this index, if it is one without floats and doubles.
    pub fn call(&self, index: u16) -> Option<&CallKinds>
        ensures { option_map (λ x. x.now) result ≡ call_at self.now.calls index }
    {
        match self.calls.get(usize::from(index)) {
            Some(Some(call)) => Some(call),
            _ => None,
        }
    }
}

// ---- constants

// The kind of a field with this descriptor, which the first byte shows.
fn text_kind(text: &[u8]) -> Option<Kind>
    ensures { result ≡ text_kind text.now }
{
    match text {
        [b'J', ..] => Some(Kind::Long),
        [b'F' | b'D', ..] => None,
        [b'L' | b'[', ..] => Some(Kind::Ref),
        _ => Some(Kind::Int),
    }
}

// The index of the descriptor of a name and descriptor.
fn desc_index(pool: &Pool<'_>, names: u16) -> Option<u16>
    ensures { result ≡ desc_index_at pool.now names }
{
    match pool.get(names) {
        Some(Entry::NameAndType(_, desc)) => Some(desc),
        _ => None,
    }
}

// The descriptor of a name and descriptor.
fn desc_text<'p>(pool: &Pool<'p>, names: u16) -> Option<&'p [u8]>
    ensures { option_copied result ≡ desc_at pool.now names }
{
    match pool.get(names) {
        Some(Entry::NameAndType(_, desc)) => pool.text(desc),
        _ => None,
    }
}

// What shape needs to know of a constant.
fn constant_kind(pool: &Pool<'_>, entry: Entry<'_>) -> ConstantKind
    ensures { result ≡ kind_by pool.now (constant_of entry.entry) }
{
    match entry {
        Entry::Integer(_) => ConstantKind::Int,
        Entry::Long(_) => ConstantKind::Long,
        Entry::Text(_) => ConstantKind::Text,
        Entry::Class(_) => ConstantKind::Class,
        Entry::Field(_, names) => match desc_text(pool, names) {
            Some(desc) => ConstantKind::Field(text_kind(desc)),
            None => ConstantKind::Other,
        },
        Entry::Method(_, names) => match desc_index(pool, names) {
            Some(desc) => ConstantKind::Method(desc),
            None => ConstantKind::Other,
        },
        Entry::InterfaceMethod(_, names) => match desc_index(pool, names) {
            Some(desc) => ConstantKind::InterfaceMethod(desc),
            None => ConstantKind::Other,
        },
        _ => ConstantKind::Other,
    }
}

fn constant_kinds(alloc: Global, pool: &Pool<'_>) -> Result<Vec<ConstantKind>, ShapeError>
    ensures { IfOk result (λ kept. kept.items ≡ all_kinds pool.now pool.now) }
{
    let entries = pool.as_slice();
    let mut kept = vec![in alloc; ConstantKind::Other]?;
    for entry in entries {
        kept.push(constant_kind(pool, *entry))?;
    }
    Ok(kept)
}

// ---- descriptors of methods

// The kinds of types, where each has one.
fn kinds_of(alloc: Global, types: &[Ty]) -> Result<Option<Vec<Kind>>, ShapeError>
    ensures { IfOk result (λ kinds. option_map (λ x. x.items) kinds ≡ kinds_of types.now) }
{
    let mut kinds = Vec::new(alloc);
    for ty in types {
        match kind_of(ty) {
            None => return Ok(None),
            Some(kind) => kinds.push(kind)?,
        }
    }
    Ok(Some(kinds))
}

// The kinds of a call with these parameters and this result, where all of them have kinds.
fn call_of(
    alloc: Global,
    params: &[Ty],
    given: Option<Kind>,
) -> Result<Option<CallKinds>, ShapeError>
    ensures { IfOk result (λ call. call ≡ signature_with given (kinds_of params.now)) }
{
    match kinds_of(alloc, params)? {
        None => Ok(None),
        Some(parameters) => Ok(Some(CallKinds {
            parameters,
            result: given,
        })),
    }
}

fn desc_call(alloc: Global, desc: &Desc) -> Result<Option<CallKinds>, ShapeError>
    ensures { IfOk result (λ call. call ≡ call_signature desc.now) }
{
    match desc {
        Desc::Field(_) => Ok(None),
        Desc::Method { params, ret: None } => call_of(alloc, params.as_slice(), None),
        Desc::Method {
            params,
            ret: Some(ty),
        } => match kind_of(ty) {
            None => Ok(None),
            kind => call_of(alloc, params.as_slice(), kind),
        },
    }
}

// Whether the text starts as the descriptor of a method does.
fn opens_method(text: &[u8]) -> bool
    ensures { result ≡ opens text.now }
{
    match text {
        [b'(', ..] => true,
        _ => false,
    }
}

// The kinds of a call of the method whose descriptor is this text.
#[tactic(auto, using(crate::proofs::Keeping::not_read))]
fn text_call(alloc: Global, text: &[u8]) -> Result<Option<CallKinds>, ShapeError>
    ensures { IfOk result (λ call. call ≡ text_call text.now) }
{
    if !opens_method(text) {
        return Ok(None);
    }
    match read_desc(alloc, text) {
        Ok(desc) => desc_call(alloc, &desc),
        Err(DescError::NotADescriptor) => Ok(None),
        Err(DescError::Memory) => Err(ShapeError::Memory),
    }
}

fn entry_call(alloc: Global, entry: Entry<'_>) -> Result<Option<CallKinds>, ShapeError>
    ensures { IfOk result (λ call. call ≡ call_by (constant_of entry.entry)) }
{
    match entry {
        Entry::Utf8(text) => text_call(alloc, text),
        _ => Ok(None),
    }
}

fn calls(alloc: Global, pool: &Pool<'_>) -> Result<Vec<Option<CallKinds>>, ShapeError>
    ensures { IfOk result (λ kept. kept.items ≡ all_calls pool.now) }
{
    let entries = pool.as_slice();
    let mut kept = Vec::new(alloc);
    kept.push(None)?;
    for entry in entries {
        let call = entry_call(alloc, *entry)?;
        kept.push(call)?;
    }
    Ok(kept)
}

/// What shape needs to know of the constants of a pool. Each text is looked at once.
pub fn pool_kinds(alloc: Global, pool: &Pool<'_>) -> Result<PoolKinds, ShapeError>
    requires linked { IsPool pool.now }
    requires few { length pool.now < 2 ^ 16 }
    ensures { IfOk result (ArePoolKinds pool.now) }
{
    let constants = constant_kinds(alloc, pool)?;
    let calls = calls(alloc, pool)?;
    Ok(PoolKinds { constants, calls })
}
