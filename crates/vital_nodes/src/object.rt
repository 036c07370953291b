//! Declared objects.

ghost use Rattle.std.specs.Prelude.{◌≡◌};
ghost use Rattle.vital_nodes.specs.Objects as spec;

use crate::decl::{Object, ObjectClass};

/// Whether an object is a constant.
pub fn is_constant(object: &Object) -> bool
    ensures { result ≡ spec.is_constant object.now }
{
    object.class == ObjectClass::Constant
}
