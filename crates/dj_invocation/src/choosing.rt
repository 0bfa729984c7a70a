ghost use Rattle.std.specs.Prelude.{◌≡◌, ◌<◌, None, Some, IfSome, length};
ghost use Rattle.dj_model.specs.trusted.Instructions as model;
ghost use Rattle.dj_model.specs.trusted.Types.{Member};
ghost use Rattle.dj_model.specs.trusted.Linking.{FoundMethod, resolve_method, special_method};
ghost use Rattle.dj_resolution.specs.Linked.{class_name};
ghost use Rattle.dj_numbering.specs.Members.{all_methods};
ghost use Rattle.dj_image.specs.Imaged.{program_of};
ghost use Rattle.dj_invocation.specs.Choosing.{IsNumber, IsThere, IsMethod, IsMethodOrNone, IsChosen, RefusesWith, choice_of, chosen_method, special_choice, reported_mode, virtual_choice};
ghost use Rattle.dj_invocation.specs.Receivers.{AreNumbered, IsObject, typed_heap};

use dj_heap::Heap;
use dj_image::{Image, MethodId};

/// How a method is called.
#[derive(Clone, Copy, Debug, PartialEq, Eq)]
pub enum Mode {
    Virtual,
    Special,
    Static,
    Interface,
}

/// What a call takes: a method, or the reason why there is none.
#[derive(Clone, Copy, Debug)]
pub enum Chosen {
    Method(MethodId),
    /// The receiver is null.
    Null,
    /// The receiver isn't of the class, or there is no such method.
    Link,
}

// The method that is taken, where there is one for the receiver.
fn method_or_link(method: Option<MethodId>) -> Chosen
    ensures { result ≡ chosen_method method }
{
    match method {
        Some(method) => Chosen::Method(method),
        None => Chosen::Link,
    }
}

// Why a receiver isn't fit for a method: it is null, or isn't of the class that declares it.
fn refuse(image: &Image, heap: &Heap, method: MethodId, r: u32) -> Option<Chosen>
    requires there { method.number < length (all_methods (program_of image.now)) }
    requires numbered { AreNumbered image.now heap.now.heap }
    requires object { IsObject heap.now.heap r }
    ensures refused { (found : FoundMethod) → IsMethod (program_of image.now) method found
        → RefusesWith (program_of image.now) image.now.prefix (typed_heap image.now heap.now.heap) r found.class result }
    ensures some { result ≡ None → r ≡ 0 → ⊥ }
    ensures none { IfSome result (IsThere (program_of image.now)) }
{
    if r == 0 {
        return Some(Chosen::Null);
    }
    if image.sub_type(heap.class_of(r), image.method(method).class) {
        None
    } else {
        Some(Chosen::Link)
    }
}

// What is taken of the methods of a receiver's class.
fn choose_selected(image: &Image, heap: &Heap, method: MethodId, r: u32) -> Chosen
    requires there { method.number < length (all_methods (program_of image.now)) }
    requires numbered { AreNumbered image.now heap.now.heap }
    requires object { IsObject heap.now.heap r }
    ensures there { IsThere (program_of image.now) result }
    ensures chosen { (m : Member) (resolved : FoundMethod) → resolve_method (program_of image.now) image.now.prefix m ≡ Some resolved → IsMethod (program_of image.now) method resolved
        → IsChosen (program_of image.now) result (virtual_choice (program_of image.now) image.now.prefix (typed_heap image.now heap.now.heap) resolved r) }
{
    match refuse(image, heap, method, r) {
        Some(refused) => refused,
        None => method_or_link(image.select(method, heap.class_of(r))),
    }
}

// The method that invokespecial takes in a class.
fn special(image: &Image, own: u32, method: MethodId) -> Option<MethodId>
    requires there { method.number < length (all_methods (program_of image.now)) }
    requires own { own < length (program_of image.now) }
    ensures there { IfSome result (IsNumber (program_of image.now)) }
    ensures taken { (m : Member) (resolved : FoundMethod) → resolve_method (program_of image.now) image.now.prefix m ≡ Some resolved → IsMethod (program_of image.now) method resolved
        → IsMethodOrNone (program_of image.now) result (special_method (program_of image.now) (class_name (program_of image.now) own) resolved) }
{
    image.special(method, own)
}

// What invokespecial takes in a class.
fn choose_special(image: &Image, heap: &Heap, own: u32, method: MethodId, r: u32) -> Chosen
    requires there { method.number < length (all_methods (program_of image.now)) }
    requires own { own < length (program_of image.now) }
    requires numbered { AreNumbered image.now heap.now.heap }
    requires object { IsObject heap.now.heap r }
    ensures there { IsThere (program_of image.now) result }
    ensures chosen { (m : Member) (resolved : FoundMethod) → resolve_method (program_of image.now) image.now.prefix m ≡ Some resolved → IsMethod (program_of image.now) method resolved
        → IsChosen (program_of image.now) result (special_choice (program_of image.now) image.now.prefix (typed_heap image.now heap.now.heap) resolved r
        (special_method (program_of image.now) (class_name (program_of image.now) own) resolved)) }
{
    let found = special(image, own, method);
    match refuse(image, heap, found.unwrap_or(method), r) {
        Some(refused) => refused,
        None => method_or_link(found),
    }
}

/// What a call of a method in a class takes, with a receiver, which a static method doesn't have.
pub fn choose(image: &Image, heap: &Heap, mode: Mode, own: u32, method: MethodId, r: u32) -> Chosen
    requires there { method.number < length (all_methods (program_of image.now)) }
    requires own { own < length (program_of image.now) }
    requires numbered { AreNumbered image.now heap.now.heap }
    requires object { IsObject heap.now.heap r }
    ensures there { IsThere (program_of image.now) result }
    ensures chosen { (called : model.Mode) (m : Member) (resolved : FoundMethod) → reported_mode called ≡ mode → resolve_method (program_of image.now) image.now.prefix m ≡ Some resolved
        → IsMethod (program_of image.now) method resolved
        → IsChosen (program_of image.now) result (choice_of (program_of image.now) image.now.prefix (typed_heap image.now heap.now.heap) (class_name (program_of image.now) own) called resolved r) }
{
    match mode {
        Mode::Static => Chosen::Method(method),
        Mode::Special => choose_special(image, heap, own, method, r),
        Mode::Virtual | Mode::Interface => choose_selected(image, heap, method, r),
    }
}
