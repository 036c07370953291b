//! Values that those share which are declared together.

ghost use Rattle.std.specs.Prelude.{◌≡◌, IfOk};

use std::alloc::{AllocError, Global};
use vital_nodes::Shared;

/// A value with its first owner, if there is one.
pub fn first_owner<T: Drop>(
    alloc: Global,
    value: Option<T>,
) -> Result<Option<Shared<T>>, AllocError>
    ensures { IfOk result (λ shared. shared ≡ value) }
{
    match value {
        Some(value) => Ok(Some(Shared::new(alloc, value)?)),
        None => Ok(None),
    }
}

/// One more owner of a value, if there is one.
pub fn next_owner<T: Drop>(value: &Option<Shared<T>>) -> Result<Option<Shared<T>>, AllocError>
    ensures { IfOk result (λ shared. shared ≡ value.now) }
{
    match value {
        Some(value) => Ok(Some(value.share()?)),
        None => Ok(None),
    }
}
