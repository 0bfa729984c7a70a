ghost use Rattle.dj_image.specs.Imaged.{typed_of, IsNumbered};
ghost use Rattle.dj_image.specs.Numbering.{AreSettled};

use crate::image::Image;
use dj_library_types::Classes;

impl Image {
    /// A law: each class has one number, no class's name begins as an array's descriptor does, and the arrays that have numbers are of base types
    /// and of classes that are there, with all that are elements of others.
    pub fn are_settled(&self)
        ensures { AreSettled (typed_of self.now) }
    {
        self.types.are_arrays();
        self.types.are_plain();
        self.types.linker().classes().names_differ();
    }

    /// A law: the arrays and the texts that have numbers are exactly those that the program uses, and each text has one number.
    pub fn is_numbered(&self)
        ensures { IsNumbered self.now }
    {
        let _ = &self.texts;
    }
}

impl Classes for Image {
    ghost use Rattle.dj_numbering.specs.Typed.{types_of};
    ghost use Rattle.dj_image.specs.Imaged.{program_of, typed_of};

    ghost types = { λ image. types_of (typed_of image) };

    ghost program = { λ image. program_of image };

    ghost prefix = { λ image. image.prefix };

    fn name_of(&self, class: u32) -> &[u8] {
        self.are_settled();
        Image::name_of(self, class)
    }

    fn super_of(&self, class: u32) -> Option<u32> {
        self.are_settled();
        Image::super_of(self, class)
    }

    fn component(&self, class: u32) -> Option<u32> {
        self.are_settled();
        Image::component(self, class)
    }

    fn sub_type(&self, a: u32, b: u32) -> bool {
        Image::sub_type(self, a, b)
    }

    fn string(&self) -> u32 {
        self.are_settled();
        Image::string(self)
    }

    fn chars(&self) -> u32 {
        self.are_settled();
        Image::chars(self)
    }

    fn stop(&self) -> Option<u32> {
        self.are_settled();
        Image::stop(self)
    }

    fn are_plain(&self) {
        self.are_settled();
    }

    fn have_components(&self) {
        self.are_settled();
    }
}
