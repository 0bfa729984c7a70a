ghost use Rattle.std.specs.Prelude.{◌≡◌, ℕ, List, ◌<◌, length, Some, IfOk, IfSome};
ghost use Rattle.std.specs.Option.{option_map};
ghost use Rattle.dj_names.specs.declared.descriptor.Ty.{Ty};
ghost use Rattle.dj_class_table.specs.Tables.{class_number, methods_at, method_there, field_there};
ghost use Rattle.dj_declarations.specs.Members.{IsDescriptor};
ghost use Rattle.dj_member_index.specs.Calls.{IsCallTable};
ghost use Rattle.dj_model.specs.trusted.Types.{object_name};
ghost use Rattle.dj_model.specs.trusted.Linking.{FoundMethod, chain, is_among, is_subclass, member_class, select, special_method};
ghost use Rattle.dj_declarations.specs.trusted.Files.{desc_in};
ghost use Rattle.dj_resolution.specs.Numbers.{IsNamed, SaysMethod};
ghost use Rattle.dj_resolution.specs.Numbered.{AreTexts};
ghost use Rattle.dj_resolution.specs.Linked.{Linked, prefix_of, class_name, resolved_method, resolved_field};

use crate::above::interfaces_above;
use crate::ancestors::is_above;
use crate::calls::{instance_method_like, selected_by};
use crate::chains::Chains;
use crate::costly::are_costly;
use crate::downward::downward;
use crate::fields::field_chains;
use crate::find::{field_up, method_first, plain_method_up};
use crate::find_numbered;
use crate::methods::method_chains;
use crate::ranked::Ranks;
use crate::select::selected_method;
use crate::shared::Shared;
use crate::special::{instance_method_above, is_own_or_superclass, is_superclass};
use dj_class_table::{ClassTable, Place, TableError};
use dj_member_index::{CallTable, Directory};
use std::alloc::{AllocError, Global};
use std::marker::Model;

/// Under which names Object, String and the library's other classes stand.
#[derive(Clone, Copy, Debug, PartialEq, Eq)]
pub enum BaseNames {
    /// Their own names, as `java/lang/String`.
    Plain,
    /// Those of rewritten classes, within the package `sandbox`.
    Sandbox,
}

/// Classes among which fields and methods are resolved.
#[derive(Drop)]
pub struct Linker {
    table: ClassTable,
    base: BaseNames,
    above: Vec<Vec<u32>>,
    methods: Chains,
    fields: Chains,
    ranks: Ranks,
    shared: Shared,
    // The number of Object, where it is there.
    object: Option<u32>,
    ghost named: { object ≡ class_number table (object_name (prefix_of base)) },
}

impl Model for Linker {
    ghost use Rattle.dj_resolution.specs.Linked.{Linked, prefix_of};

    ghost Value = { Linked };

    ghost use Rattle.dj_resolution.specs.Shared.{AreLists};
    ghost use Rattle.dj_resolution.specs.Numbers.{lists_of};

    ghost view = { λ linker. record { program = linker.table; prefix = prefix_of linker.base } };

    ghost invariant = { λ linker. AreLists linker.table (lists_of linker.above.items) linker.methods linker.fields linker.ranks linker.shared };
}

// The name of Object.
fn object_of(base: BaseNames) -> &'static [u8]
    ensures { result.now ≡ object_name (prefix_of base) }
{
    match base {
        BaseNames::Plain => b"java/lang/Object",
        BaseNames::Sandbox => b"sandbox/java/lang/Object",
    }
}

impl Linker {
    /// Makes what resolution needs of the classes.
    pub fn of(alloc: Global, table: ClassTable, base: BaseNames) -> Result<Linker, TableError>
        ensures { IfOk result (λ linker. linker ≡ record { program = table; prefix = prefix_of base }) }
    {
        let above = interfaces_above(alloc, &table)?;
        let order = downward(alloc, &table)?;
        let methods = method_chains(alloc, &table, &order, &above)?;
        let fields = field_chains(alloc, &table, &order, &above)?;
        let ranks = Ranks::of(alloc, &table, order)?;
        let shared = Shared::of(alloc, &table, &methods, &fields, &ranks)?;
        let object = table.class_named(object_of(base));
        Ok(Linker {
            table,
            base,
            above,
            methods,
            fields,
            ranks,
            shared,
            object,
        })
    }

    /// The classes.
    pub fn classes(&self) -> &ClassTable
        ensures { result.now ≡ self.now.program }
    {
        &self.table
    }

    /// Under which names the library's classes stand.
    pub fn base(&self) -> BaseNames
        ensures { prefix_of result ≡ self.now.prefix }
    {
        self.base
    }

    /// The members by the numbers of their texts, where a search by the texts themselves could take long.
    pub fn directory(&self, alloc: Global) -> Result<Option<Directory<'_>>, AllocError>
        ensures { IfOk result (λ directory. IfSome directory (λ d. d.program ≡ self.now.program)) }
    {
        if are_costly(&self.table, &self.methods) {
            Ok(Some(Directory::of(alloc, &self.table)?))
        } else {
            Ok(None)
        }
    }

    /// The method to which a name and a descriptor resolve in a class (JVMS 5.4.3.3 and 5.4.3.4).
    pub fn resolve_method(&self, class: u32, name: &[u8], desc: &[u8]) -> Option<Place>
        requires there { class < length self.now.program }
        requires described { IsDescriptor desc.now }
        ensures { option_map (method_there self.now.program) result ≡ option_map Some (resolved_method self.now class name.now desc.now) }
    {
        self.table.names_differ();
        match method_first(&self.table, self.object, class, name, desc) {
            Some(place) => Some(place),
            None => plain_method_up(&self.table, &self.above, &self.methods, class, name, desc),
        }
    }

    /// The field to which a name and a descriptor resolve in a class (JVMS 5.4.3.2).
    pub fn resolve_field(&self, class: u32, name: &[u8], desc: &[u8]) -> Option<Place>
        requires there { class < length self.now.program }
        requires described { IsDescriptor desc.now }
        ensures { option_map (field_there self.now.program) result ≡ option_map Some (resolved_field self.now class name.now desc.now) }
    {
        self.table.names_differ();
        field_up(&self.table, &self.above, &self.fields, class, name, desc)
    }

    /// The method to which the name and the descriptor of these numbers of a directory resolve in a class (JVMS 5.4.3.3 and 5.4.3.4).
    pub fn resolve_numbered_method(
        &self,
        directory: &Directory<'_>,
        class: u32,
        name: u32,
        desc: u32,
    ) -> Option<Place>
        requires same { directory.now.program ≡ self.now.program }
        requires there { class < length self.now.program }
        ensures { (n d : List ℕ) → AreTexts directory.now name desc n d → option_map (method_there self.now.program) result ≡ option_map Some (resolved_method self.now class n d) }
    {
        self.table.names_differ();
        match find_numbered::method_first(
            directory,
            &self.ranks,
            &self.shared,
            self.object,
            class,
            name,
            desc,
        ) {
            Some(place) => Some(place),
            None => find_numbered::plain_method_up(
                directory,
                &self.above,
                &self.shared,
                &self.methods,
                class,
                name,
                desc,
            ),
        }
    }

    /// The field to which the name and the descriptor of these numbers of a directory resolve in a class (JVMS 5.4.3.2).
    pub fn resolve_numbered_field(
        &self,
        directory: &Directory<'_>,
        class: u32,
        name: u32,
        desc: u32,
    ) -> Option<Place>
        requires same { directory.now.program ≡ self.now.program }
        requires there { class < length self.now.program }
        ensures { (n d : List ℕ) → AreTexts directory.now name desc n d → option_map (field_there self.now.program) result ≡ option_map Some (resolved_field self.now class n d) }
    {
        self.table.names_differ();
        find_numbered::field_up(
            directory,
            &self.above,
            &self.shared,
            &self.fields,
            class,
            name,
            desc,
        )
    }

    /// Whether a class is the other one, or has it above it (JVMS 4.10.1.2).
    pub fn is_subclass(&self, class: u32, ancestor: u32) -> bool
        requires there { class < length self.now.program }
        requires ancestor { ancestor < length self.now.program }
        ensures { result ≡ is_subclass self.now.program (class_name self.now.program class) (class_name self.now.program ancestor) }
    {
        self.table.names_differ();
        is_above(
            &self.table,
            &self.above,
            &self.methods,
            &self.ranks,
            class,
            ancestor,
        )
    }

    /// Whether a class is the other one, or has it among its superclasses (JVMS 4.10.1.2).
    pub fn is_own_or_superclass(&self, class: u32, other: u32) -> bool
        requires there { class < length self.now.program }
        requires other { other < length self.now.program }
        ensures { result ≡ is_among (chain self.now.program (class_name self.now.program class)) (class_name self.now.program other) }
    {
        self.table.names_differ();
        is_own_or_superclass(&self.table, &self.ranks, class, other)
    }

    /// The method that `invokespecial` takes in a class for the one to which its operand resolves (JVMS 6.5): the method has this name and this descriptor.
    pub fn special_method(
        &self,
        class: u32,
        resolved: Place,
        name: &[u8],
        desc: &[u8],
    ) -> Option<Place>
        requires there { class < length self.now.program }
        requires described { IsDescriptor desc.now }
        ensures { (found : FoundMethod) → IsNamed self.now.program resolved found name.now (desc_in desc.now)
            → SaysMethod self.now.program result (special_method self.now.program (class_name self.now.program class) found) }
    {
        self.table.names_differ();
        if name != b"<init>".as_slice()
            && is_superclass(&self.table, &self.ranks, class, resolved.class)
        {
            instance_method_above(&self.table, class, name, desc)
        } else {
            Some(resolved)
        }
    }

    /// The method that `invokespecial` takes in a class for a resolved one, by that method's own name and descriptor. It is found by binary search, however long the
    /// chain of superclasses is and however many classes declare such a method.
    pub fn special_by(&self, calls: &CallTable, class: u32, resolved: Place) -> Option<Place>
        requires calls { IsCallTable self.now.program calls.now }
        requires there { class < length self.now.program }
        requires declared { resolved.class < length self.now.program }
        requires within { resolved.member < length (methods_at self.now.program resolved.class) }
        ensures { (found : FoundMethod) → method_there self.now.program resolved ≡ Some found
            → SaysMethod self.now.program result (special_method self.now.program (class_name self.now.program class) found) }
    {
        self.table.names_differ();
        let name = self.table.method_name(resolved.class, resolved.member);
        if name != b"<init>".as_slice()
            && is_superclass(&self.table, &self.ranks, class, resolved.class)
        {
            instance_method_like(&self.table, &self.ranks, calls, resolved, class)
        } else {
            Some(resolved)
        }
    }

    /// The number of Object, where it is there.
    pub fn object(&self) -> Option<u32>
        ensures { result ≡ class_number self.now.program (object_name self.now.prefix) }
    {
        self.object
    }

    /// The method that is taken for a receiver whose methods are those of this class, or of no class that is there (JVMS 6.5, invokevirtual and invokeinterface).
    pub fn select(&self, resolved: Place, class: Option<u32>) -> Option<Place>
        requires there { resolved.class < length self.now.program }
        requires within { resolved.member < length (methods_at self.now.program resolved.class) }
        requires class { IfSome class (λ k. k < length self.now.program) }
        ensures { (found : FoundMethod) (ty : Ty) → method_there self.now.program resolved ≡ Some found → class ≡ class_number self.now.program (member_class self.now.prefix ty)
            → SaysMethod self.now.program result (select self.now.program self.now.prefix found ty) }
    {
        selected_method(&self.table, resolved, class)
    }

    /// The same, by halving, however long the chain of superclasses is, and however many classes declare such a method.
    pub fn select_by(&self, calls: &CallTable, resolved: Place, class: Option<u32>) -> Option<Place>
        requires calls { IsCallTable self.now.program calls.now }
        requires there { resolved.class < length self.now.program }
        requires within { resolved.member < length (methods_at self.now.program resolved.class) }
        requires class { IfSome class (λ k. k < length self.now.program) }
        ensures { (found : FoundMethod) (ty : Ty) → method_there self.now.program resolved ≡ Some found → class ≡ class_number self.now.program (member_class self.now.prefix ty)
            → SaysMethod self.now.program result (select self.now.program self.now.prefix found ty) }
    {
        selected_by(&self.table, &self.ranks, calls, resolved, class)
    }
}
