use dj_image::Image;
use dj_member_effects::Holders;

/// The classes of an image by their superclasses: one look shows which of them have the fields that a class declares.
#[derive(Clone, Copy)]
pub struct Superclasses<'i> {
    /// The image.
    pub image: &'i Image,
}

impl Holders for Superclasses<'_> {
    ghost use Rattle.std.specs.Prelude.{length};
    ghost use Rattle.dj_numbering.specs.Typed.{types_of};
    ghost use Rattle.dj_image.specs.Imaged.{typed_of};
    ghost use Rattle.dj_field_holders.specs.Holders.{holds};

    ghost count = { λ classes. length (types_of (typed_of classes.image.now)) };

    ghost has = { λ classes declaring class. holds classes.image.now declaring class };

    fn has_fields(&self, class: u32, declaring: u32) -> bool {
        let image = self.image;
        image.are_settled();
        let linker = image.linker();
        let count = linker.classes().class_count();
        if count <= class {
            return false;
        }
        if count <= declaring {
            return false;
        }
        linker.is_own_or_superclass(class, declaring)
    }
}
