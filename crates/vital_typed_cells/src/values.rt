//! The delays that the timing generics of a cell begin with.

ghost use Rattle.std.specs.Prelude.{◌≡◌, IfOk};
ghost use Rattle.vital_typed_cells.specs.Answers as spec;
ghost use Rattle.vital_typed_cells.specs.Fits.{FitsCell};

use crate::checked::Checked;
use std::alloc::{AllocError, Global};
use vital_base::List;
use vital_timing::Delay;

/// The delays of the timing generics of a cell, in their order, one for each.
pub type Values = List<Delay>;

/// The default of each timing generic: 0 for every change where it has none. They fit the cell.
pub fn default_values(alloc: Global, checked: &Checked) -> Result<Values, AllocError>
    ensures values { IfOk result (λ values. values ≡ spec.default_values checked.now) }
    ensures fit { IfOk result (λ values. FitsCell checked.now values) }
{
    let mut values = Vec::new(alloc);
    for generic in checked.cell().generics.as_slice() {
        values.push(generic.default)?;
    }
    Ok(List::new(values))
}
