//! The limit of a cell.

ghost use Rattle.std.specs.Prelude.{◌≡◌, ◌∷◌, [], ◌++◌, map, IfOk, OnOk};
ghost use Rattle.std.specs.List.{flat_map};
ghost use Rattle.std.specs.Option.{option_map};
ghost use Rattle.vital_limits.specs.CellLimits as spec;
ghost use Rattle.vital_limits.specs.ConstantLimits.{constant_limits};
ghost use Rattle.vital_uses.specs.Asked.{lent_asked};

use crate::node_limits::put_if;
use crate::packages::{ConstantLimits, constant_meant, limits_at};
use crate::passed::{CellLimit, PassedLimit, earliest};
use crate::text_limits::own_limits;
use std::alloc::{AllocError, Global};
use vital_base::Place;
use vital_uses::{Asked, CellStatements, CellUses, ProcessUses, asked_apart};

/// The first limit that a cell passes by place, and at one place in the order of the limits: by its text, whatever clauses it
/// breaks, or by a constant of a package that it names. These are the statements of the cell, and the limits of the constants of
/// packages. It takes time in proportion to the text of the cell.
pub fn cell_limit<'a>(
    alloc: Global,
    uses: &CellUses<'a>,
    statements: &'a CellStatements<'a>,
    constants: &[ConstantLimits],
) -> Result<Option<PassedLimit>, AllocError>
    requires statements { statements.now ≡ uses.now.arch }
    requires constants { constants.now ≡ constant_limits uses.now.files }
    ensures { IfOk result (λ limit. limit ≡ spec.cell_limit uses.now) }
{
    let names = uses.names();
    let mut limits = own_limits(alloc, names)?;
    put_of_asked(&mut limits, constants, uses.asked_outside())?;
    put_of_processes(&mut limits, constants, uses.processes())?;
    let apart = asked_apart(alloc, names, statements)?;
    put_of_asked(&mut limits, constants, &apart)?;
    Ok(earliest(&limits))
}

/// Puts the limits of a constant, which stand at a name of it, at the end.
fn put_at_name(
    limits: &mut Vec<PassedLimit>,
    place: Place,
    constant: ConstantLimits,
) -> Result<(), AllocError>
    ensures { OnOk result (limits.new.items ≡ limits.old.items ++ spec.limits_at_name place constant) }
{
    put_if(limits, constant.rows, CellLimit::Rows, place)?;
    put_if(limits, constant.columns, CellLimit::Columns, place)?;
    put_if(limits, constant.delay, CellLimit::Delay, place)
}

/// Puts the limits of the constant of a package that an identifier means at the end, if it means one.
fn put_of_name(
    limits: &mut Vec<PassedLimit>,
    constants: &[ConstantLimits],
    asked: &Asked<'_>,
) -> Result<(), AllocError>
    ensures { OnOk result (limits.new.items ≡ limits.old.items ++ spec.limits_of_asked constants.now (lent_asked asked.now)) }
{
    match constant_meant(asked.meaning) {
        Some(number) => put_at_name(limits, asked.identifier.place, limits_at(constants, number)),
        None => Ok(()),
    }
}

/// Puts the limits of the constants of packages that identifiers mean at the end.
fn put_of_asked(
    limits: &mut Vec<PassedLimit>,
    constants: &[ConstantLimits],
    asked: &[Asked<'_>],
) -> Result<(), AllocError>
    ensures { OnOk result (limits.new.items ≡ limits.old.items ++ flat_map (spec.limits_of_asked constants.now) (map lent_asked asked.now)) }
{
    for asked in asked {
        put_of_name(limits, constants, asked)?;
    }
    Ok(())
}

/// Puts the limits of the constants of packages that processes name at the end.
fn put_of_processes(
    limits: &mut Vec<PassedLimit>,
    constants: &[ConstantLimits],
    processes: &[ProcessUses<'_>],
) -> Result<(), AllocError>
    ensures { OnOk result (limits.new.items ≡ limits.old.items ++ flat_map (spec.limits_of_process constants.now) processes.now) }
{
    for process in processes {
        put_of_process(limits, constants, process)?;
    }
    Ok(())
}

/// Puts the limits of the constants of packages that a process names at the end.
fn put_of_process(
    limits: &mut Vec<PassedLimit>,
    constants: &[ConstantLimits],
    process: &ProcessUses<'_>,
) -> Result<(), AllocError>
    ensures { OnOk result (limits.new.items ≡ limits.old.items ++ spec.limits_of_process constants.now process.now) }
{
    put_of_asked(limits, constants, process.asked())
}
