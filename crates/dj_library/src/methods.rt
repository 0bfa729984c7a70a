ghost use Rattle.std.specs.Prelude.{◌≡◌, ◌++◌, IfOk, OnOk, map, option_map};
ghost use Rattle.dj_library_types.specs.Views.{library_method_view};
ghost use Rattle.dj_library.specs.TableRows.{method_of_row, method_of_parts, host_native, native_in, method_in, rows_of_hosts};

use crate::errors::LibraryError;
use crate::types::{TypeRow, result_of, types_of};
use crate::which::Which;
use dj_library_types::{LibMethod, LibMethods};
use dj_names::{Desc, Name, NativeId};
use std::alloc::Global;

/// A method of a class: its name, its parameters, its result, and its native in the deterministic library.
#[derive(Clone, Copy)]
pub(crate) enum MethodRow {
    Constructor(&'static [TypeRow], NativeId),
    OnObject(&'static [u8], &'static [TypeRow], TypeRow, NativeId),
    Static(&'static [u8], &'static [TypeRow], TypeRow, NativeId),
    /// A static method without a result.
    StaticVoid(&'static [u8], &'static [TypeRow], NativeId),
    Abstract(&'static [u8], &'static [TypeRow], Option<TypeRow>),
}

/// What a row says.
#[derive(Clone, Copy)]
pub(crate) struct Parts {
    flags: u16,
    name: &'static [u8],
    params: &'static [TypeRow],
    ret: Option<TypeRow>,
    native: Option<NativeId>,
}

const PUBLIC: u16 = 0x0001;

const STATIC: u16 = 0x0008;

const NATIVE: u16 = 0x0100;

const ABSTRACT: u16 = 0x0400;

fn parts_of(row: MethodRow) -> Parts
    ensures { (w : Which) → method_of_parts w result ≡ method_of_row w row }
{
    match row {
        MethodRow::Constructor(params, native) => Parts {
            flags: PUBLIC | NATIVE,
            name: b"<init>",
            params,
            ret: None,
            native: Some(native),
        },
        MethodRow::OnObject(name, params, ret, native) => Parts {
            flags: PUBLIC | NATIVE,
            name,
            params,
            ret: Some(ret),
            native: Some(native),
        },
        MethodRow::Static(name, params, ret, native) => Parts {
            flags: PUBLIC | STATIC | NATIVE,
            name,
            params,
            ret: Some(ret),
            native: Some(native),
        },
        MethodRow::StaticVoid(name, params, native) => Parts {
            flags: PUBLIC | STATIC | NATIVE,
            name,
            params,
            ret: None,
            native: Some(native),
        },
        MethodRow::Abstract(name, params, ret) => Parts {
            flags: PUBLIC | ABSTRACT,
            name,
            params,
            ret,
            native: None,
        },
    }
}

/// The native by which a host answers in place of this one.
fn host_native(native: NativeId) -> NativeId
    ensures { result ≡ host_native native }
{
    match native {
        NativeId::ObjectHashCode => NativeId::HostHashCode,
        NativeId::ObjectToString => NativeId::HostToString,
        NativeId::IdentityHashCode => NativeId::HostIdentityHashCode,
        other => other,
    }
}

fn native_in(which: Which, native: Option<NativeId>) -> Option<NativeId>
    ensures { result ≡ option_map (native_in which) native }
{
    match (which, native) {
        (Which::Raw, Some(native)) => Some(host_native(native)),
        _ => native,
    }
}

/// The method of the row.
fn method_of(alloc: Global, which: Which, row: MethodRow) -> Result<LibMethod, LibraryError>
    ensures { IfOk result (λ method. library_method_view method ≡ method_in which row) }
{
    let parts = parts_of(row);
    let params = types_of(alloc, which, parts.params)?;
    let ret = result_of(alloc, which, parts.ret)?;
    Ok(LibMethod {
        flags: parts.flags,
        name: Name::from_slice(alloc, parts.name)?,
        desc: Desc::Method { params, ret },
        native: native_in(which, parts.native),
    })
}

/// Appends the methods of the rows.
fn add_methods(
    alloc: Global,
    which: Which,
    rows: &[MethodRow],
    methods: &mut LibMethods,
) -> Result<(), LibraryError>
    ensures { OnOk result (map library_method_view methods.new ≡ map library_method_view methods.old ++ map (method_in which) rows.now) }
{
    for row in rows {
        methods.push(method_of(alloc, which, *row)?)?;
    }
    Ok(())
}

/// The methods of a class: in the raw library those that only a host answers follow the others.
pub(crate) fn methods_of(
    alloc: Global,
    which: Which,
    rows: &[MethodRow],
    hosts: &[MethodRow],
) -> Result<LibMethods, LibraryError>
    ensures { IfOk result (λ methods. map library_method_view methods ≡ map (method_in which) (rows.now ++ rows_of_hosts which hosts.now)) }
{
    let mut methods = LibMethods::new(alloc);
    add_methods(alloc, which, rows, &mut methods)?;
    match which {
        Which::Deterministic | Which::Sandbox => {}
        Which::Raw => add_methods(alloc, which, hosts, &mut methods)?,
    }
    Ok(methods)
}
