//! What instructions do that name a field or a class (JVMS 6.5): fields, casts, new objects and thrown ones.
#![tactic(auto)]

mod fields;
mod holders;
mod literals;
mod objects;
mod statics;
mod values;

pub use fields::{FieldAccess, get_field, put_field};
pub use holders::Holders;
pub use literals::{Kept, Literals, keep_text, push_text};
pub use objects::{Thrown, check_cast, instance_of, new_object, throw_top};
pub use statics::{Statics, get_static, put_static};
pub use values::field_bits;
