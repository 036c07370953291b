//! Maps in which the first of a name is found by the name.

ghost use Rattle.std.specs.Prelude.{◌≡◌, ℕ, List, map, Some, None, IfOk, OnOk, if◌then◌else◌};
ghost use Rattle.std.specs.Option.{option_map, option_or};
ghost use Rattle.std.specs.Str.{bytes_eq};
ghost use Rattle.vital_names.specs.Declarations.{first_named, lent};
ghost use Rattle.vital_names.specs.FirstNames.{first_in};

use crate::declared::Declared;
use std::alloc::{AllocError, Global};
use std::collections::HashMap;

/// What is declared first for each name, borrowed.
pub type FirstNames<'a> = HashMap<&'a [u8], Declared<'a>>;

/// Puts a value under a name if there is none.
pub fn put_first<'a, V: Copy>(
    names: &mut HashMap<&'a [u8], V>,
    name: &'a [u8],
    value: V,
) -> Result<(), AllocError>
    ensures { OnOk result ((q : List ℕ) → first_in names.new q ≡ option_or (first_in names.old q) (if bytes_eq name.now q then Some value else None)) }
{
    if !names.contains_key(name) {
        names.insert(name, value)?;
    }
    Ok(())
}

/// The first of each name among what is declared.
pub fn first_names<'a>(
    alloc: Global,
    declared: &[Declared<'a>],
) -> Result<FirstNames<'a>, AllocError>
    ensures { IfOk result (λ names. (name : List ℕ) → option_map lent (first_in names name) ≡ first_named name (map lent declared.now)) }
{
    let mut names: FirstNames<'a> = HashMap::new(alloc);
    for one in declared {
        put_first(&mut names, one.identifier().name.as_slice(), *one)?;
    }
    Ok(names)
}
