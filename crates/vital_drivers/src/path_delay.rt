//! Calls of path delays.

ghost use Rattle.std.specs.Prelude.{◌≡◌, ◌++◌, map, IfOk, OnOk};
ghost use Rattle.std.specs.List.{filter_map};
ghost use Rattle.std.specs.Option.{option_and_then, option_copied, option_map, option_to_list};
ghost use Rattle.vital_calls.specs.Calls as calls;
ghost use Rattle.vital_drivers.specs.PathDelays as spec;

use crate::named::means_driven_port;
use std::alloc::{AllocError, Global};
use vital_base::Place;
use vital_calls::{Call, actual_of, formals_of_procedure};
use vital_names::{CellNames, Procedure, ProcessNames};
use vital_nodes::{
    Conc, HasPlace, Identifier, Item, Process, Stmt, actual, all_concurrent, all_sequential,
    identifier_of,
};
use vital_statements::{as_process, call_of_conc, call_of_stmt, procedure_of, statements_of};

/// A call of a path delay.
#[derive(Clone, Copy)]
pub struct PathDelay<'a> {
    /// The place of the statement.
    pub place: Place,
    /// The item that is given to OutSignal, if one is.
    pub out_signal: Option<&'a Item>,
    /// The identifier of the out, inout or buffer port that it drives, if it drives one, as it stands in the call.
    pub port: Option<&'a Identifier>,
}

/// All calls of path delays of a cell, in the order of the text: in processes, also in `if`s, and concurrent ones, also in blocks.
pub fn path_delays<'a>(
    alloc: Global,
    names: &CellNames<'a>,
) -> Result<Vec<PathDelay<'a>>, AllocError>
    ensures { IfOk result (λ delays. map spec.lent delays.items ≡ spec.path_delays names.now) }
{
    let concs = all_concurrent(alloc, statements_of(names))?;
    let mut delays = Vec::new(alloc);
    for conc in &concs {
        put_path_delays(alloc, &mut delays, names, *conc)?;
    }
    Ok(delays)
}

/// Puts those in a concurrent statement at the end.
fn put_path_delays<'a>(
    alloc: Global,
    delays: &mut Vec<PathDelay<'a>>,
    names: &CellNames<'_>,
    conc: &'a Conc,
) -> Result<(), AllocError>
    ensures { OnOk result (map spec.lent delays.new.items ≡ map spec.lent delays.old.items ++ spec.path_delays_in names.now conc.now) }
{
    match as_process(conc) {
        Some(process) => put_in_process(alloc, delays, names, process),
        None => put_delay(delays, path_delay_of_conc(names, conc)),
    }
}

/// Puts those in a process at the end.
fn put_in_process<'a>(
    alloc: Global,
    delays: &mut Vec<PathDelay<'a>>,
    names: &CellNames<'_>,
    process: &'a Process,
) -> Result<(), AllocError>
    ensures { OnOk result (map spec.lent delays.new.items ≡ map spec.lent delays.old.items ++ spec.path_delays_in_process names.now process.now) }
{
    let process_names = ProcessNames::new(alloc, process)?;
    let statements = all_sequential(alloc, process.statements.as_slice())?;
    put_sequential(delays, names, &process_names, &statements)
}

/// Puts those among statements of a process at the end.
fn put_sequential<'a>(
    delays: &mut Vec<PathDelay<'a>>,
    names: &CellNames<'_>,
    process: &ProcessNames<'_>,
    statements: &[&'a Stmt],
) -> Result<(), AllocError>
    ensures { OnOk result (map spec.lent delays.new.items ≡ map spec.lent delays.old.items ++ filter_map (spec.path_delay_of_stmt names.now process.now) (map (λ s. s.now) statements.now)) }
{
    for stmt in statements {
        put_delay(delays, path_delay_of_stmt(names, process, *stmt))?;
    }
    Ok(())
}

/// Puts a call of a path delay at the end, if it is there.
fn put_delay<'a>(
    delays: &mut Vec<PathDelay<'a>>,
    delay: Option<PathDelay<'a>>,
) -> Result<(), AllocError>
    ensures { OnOk result (map spec.lent delays.new.items ≡ map spec.lent delays.old.items ++ option_to_list (option_map spec.lent delay.entry)) }
{
    match delay {
        Some(delay) => Ok(delays.push(delay)?),
        None => Ok(()),
    }
}

/// The call of a path delay that a concurrent statement is.
fn path_delay_of_conc<'a>(names: &CellNames<'_>, conc: &'a Conc) -> Option<PathDelay<'a>>
    ensures { option_map spec.lent result ≡ spec.path_delay_of_conc names.now conc.now }
{
    path_delay(names, None, conc.place(), call_of_conc(conc)?)
}

/// The call of a path delay that a statement of a process is.
fn path_delay_of_stmt<'a>(
    names: &CellNames<'_>,
    process: &ProcessNames<'_>,
    stmt: &'a Stmt,
) -> Option<PathDelay<'a>>
    ensures { option_map spec.lent result ≡ spec.path_delay_of_stmt names.now process.now stmt.now }
{
    path_delay(names, Some(process), stmt.place(), call_of_stmt(stmt)?)
}

/// The call of a path delay that a call is, in a statement at a place.
fn path_delay<'a>(
    names: &CellNames<'_>,
    process: Option<&ProcessNames<'_>>,
    place: Place,
    call: Call<'a>,
) -> Option<PathDelay<'a>>
    ensures { option_map spec.lent result ≡ spec.path_delay names.now (option_copied process.entry) place (calls.lent call.entry) }
{
    let procedure = procedure_of(names, process, call)?;
    match procedure {
        Procedure::PathDelay(_) => {
            let out_signal = given_out_signal(procedure, call.items);
            Some(PathDelay {
                place,
                out_signal,
                port: port_driven(names, process, out_signal),
            })
        }
        _ => None,
    }
}

/// The item that is given to OutSignal of a procedure.
fn given_out_signal(procedure: Procedure, items: &[Item]) -> Option<&Item>
    ensures { option_copied result ≡ spec.given_out_signal procedure items.now }
{
    actual_of(items, formals_of_procedure(procedure, false), b"outsignal")
}

/// The out, inout or buffer port that the plain name in an item means.
fn port_driven<'a>(
    names: &CellNames<'_>,
    process: Option<&ProcessNames<'_>>,
    out_signal: Option<&'a Item>,
) -> Option<&'a Identifier>
    ensures { option_copied result ≡ option_and_then (spec.port_driven names.now (option_copied process.entry)) (option_copied out_signal.entry) }
{
    let identifier = identifier_of(actual(out_signal?)?)?;
    if means_driven_port(names, process, identifier) {
        Some(identifier)
    } else {
        None
    }
}
