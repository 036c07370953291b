//! The numbers of entities by their names.

ghost use Rattle.std.specs.Prelude.{◌≡◌, ◌+◌, ◌≤◌, ℕ, List, [], ◌∷◌, length, Some, None, IfOk, OnOk, if◌then◌else◌};
ghost use Rattle.std.specs.List.{position_from};
ghost use Rattle.std.specs.Option.{option_or};
ghost use Rattle.std.specs.Str.{bytes_eq};
ghost use Rattle.vital_library.specs.Numbers.{is_named, number_of};
ghost use Rattle.vital_library.specs.Positions.{units_in};
ghost use Rattle.vital_library.specs.Units.{entities_among};

use crate::unit_at::UnitAt;
use std::alloc::{AllocError, Global};
use std::collections::HashMap;
use vital_nodes::Unit;

/// The numbers of the entities among units by copies of their names. The first of a name is meant.
pub fn numbers<'a>(
    alloc: Global,
    units: &'a [UnitAt<'a>],
) -> Result<HashMap<Vec<u8>, usize>, AllocError>
    requires { length units.now ≤ 4096 }
    ensures { IfOk result (λ numbers. (name : List ℕ) → number_of numbers name ≡ position_from (is_named name) 0 (entities_among (units_in units.now))) }
{
    let mut numbers: HashMap<Vec<u8>, usize> = HashMap::new(alloc);
    let mut count = 0usize;
    for at in units {
        count = put_unit(alloc, &mut numbers, count, at.unit)?;
    }
    Ok(numbers)
}

/// Puts the number of a unit under its name if it is an entity, and gives that of the next one.
fn put_unit(
    alloc: Global,
    numbers: &mut HashMap<Vec<u8>, usize>,
    number: usize,
    unit: &Unit,
) -> Result<usize, AllocError>
    requires { number ≤ 4096 }
    ensures numbers { OnOk result ((name : List ℕ) → number_of numbers.new name ≡ option_or (number_of numbers.old name) (position_from (is_named name) number (entities_among (unit.now ∷ [])))) }
    ensures next { IfOk result (λ next. next ≡ number + length (entities_among (unit.now ∷ []))) }
{
    match unit {
        Unit::Entity(entity) => {
            put_number(alloc, numbers, entity.identifier.name.as_slice(), number)?;
            Ok(number + 1)
        }
        _ => Ok(number),
    }
}

/// Puts a number under a name if there is none.
pub fn put_number(
    alloc: Global,
    numbers: &mut HashMap<Vec<u8>, usize>,
    name: &[u8],
    number: usize,
) -> Result<(), AllocError>
    ensures { OnOk result ((q : List ℕ) → number_of numbers.new q ≡ option_or (number_of numbers.old q) (if bytes_eq name.now q then Some number else None)) }
{
    if !numbers.contains_key(name) {
        numbers.insert(Vec::from_slice(alloc, name)?, number)?;
    }
    Ok(())
}
