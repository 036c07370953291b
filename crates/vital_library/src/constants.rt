//! The constants of packages.

ghost use Rattle.std.specs.Prelude.{◌≡◌, ◌++◌, ℕ, List, [], ◌∷◌, IfOk, OnOk};
ghost use Rattle.std.specs.List.{filter_map, flat_map, position_from};
ghost use Rattle.vital_library.specs.Constants.{as_constant, constants_in, constants_of, has_name, lent};
ghost use Rattle.vital_library.specs.Kept.{HasConstants};
ghost use Rattle.vital_library.specs.Numbers.{number_of};

use crate::numbers::put_number;
use std::alloc::{AllocError, Global};
use std::collections::HashMap;
use vital_nodes::{Decl, Object, ObjectClass, Unit, Units};

/// The constants of all packages of files, in order.
pub fn constants_of<'a>(alloc: Global, files: &'a [Units]) -> Result<Vec<&'a Object>, AllocError>
    ensures { IfOk result (λ constants. lent constants.items ≡ constants_of files.now) }
{
    let mut constants: Vec<&'a Object> = Vec::new(alloc);
    for file in files {
        put_file(&mut constants, file.units.as_slice())?;
    }
    Ok(constants)
}

/// The numbers of the constants of all packages of files by copies of their names. The first of a name is meant.
pub fn constant_numbers(
    alloc: Global,
    files: &[Units],
) -> Result<HashMap<Vec<u8>, usize>, AllocError>
    ensures { IfOk result (λ numbers. HasConstants numbers files.now) }
{
    let constants = constants_of(alloc, files)?;
    let numbers = numbers_of(alloc, &constants)?;
    Ok(numbers)
}

/// The numbers of constants by copies of their names. The first of a name is meant.
fn numbers_of<'a>(
    alloc: Global,
    constants: &'a [&'a Object],
) -> Result<HashMap<Vec<u8>, usize>, AllocError>
    ensures { IfOk result (λ numbers. (name : List ℕ) → number_of numbers name ≡ position_from (has_name name) 0 (lent constants.now)) }
{
    let mut numbers: HashMap<Vec<u8>, usize> = HashMap::new(alloc);
    for (number, constant) in constants.iter().enumerate() {
        put_number(
            alloc,
            &mut numbers,
            constant.identifier.name.as_slice(),
            number,
        )?;
    }
    Ok(numbers)
}

/// Puts the constants of the units of a file at the end.
fn put_file<'a>(constants: &mut Vec<&'a Object>, units: &'a [Unit]) -> Result<(), AllocError>
    ensures { OnOk result (lent constants.new.items ≡ lent constants.old.items ++ flat_map constants_in units.now) }
{
    for unit in units {
        put_unit(constants, unit)?;
    }
    Ok(())
}

/// Puts the constants of a unit at the end if it is a package.
fn put_unit<'a>(constants: &mut Vec<&'a Object>, unit: &'a Unit) -> Result<(), AllocError>
    ensures { OnOk result (lent constants.new.items ≡ lent constants.old.items ++ constants_in unit.now) }
{
    match unit {
        Unit::Pack(pack) => put_constants(constants, pack.declarations.as_slice()),
        _ => Ok(()),
    }
}

/// Puts the constants among declarations at the end.
fn put_constants<'a>(
    constants: &mut Vec<&'a Object>,
    declarations: &'a [Decl],
) -> Result<(), AllocError>
    ensures { OnOk result (lent constants.new.items ≡ lent constants.old.items ++ filter_map as_constant declarations.now) }
{
    for declaration in declarations {
        put_constant(constants, declaration)?;
    }
    Ok(())
}

/// Puts a declaration at the end if it is a constant.
fn put_constant<'a>(
    constants: &mut Vec<&'a Object>,
    declaration: &'a Decl,
) -> Result<(), AllocError>
    ensures { OnOk result (lent constants.new.items ≡ lent constants.old.items ++ filter_map as_constant (declaration.now ∷ [])) }
{
    match declaration {
        Decl::Object(object) => match object.class {
            ObjectClass::Constant => Ok(constants.push(object)?),
            _ => Ok(()),
        },
        _ => Ok(()),
    }
}
