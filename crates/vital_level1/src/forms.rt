//! Where statements, values and defaults are not of the form or type that is asked of them, and the tables that calls use.

ghost use Rattle.std.specs.Prelude.{◌≡◌, ◌++◌, map, OnOk};
ghost use Rattle.std.specs.List.{flat_map};
ghost use Rattle.vital_declaration_clauses.specs.Regions.{regions as regions'};
ghost use Rattle.vital_level1.specs.Forms as spec;
ghost use Rattle.vital_typed_statements.specs.Statements.{concurrent_call};
ghost use Rattle.vital_uses.specs.Nodes.{nodes_of_statements};
ghost use Rattle.vital_uses.specs.Sited.{lent_node};
ghost use Rattle.vital_uses.specs.Statements.{processes as processes'};
ghost use Rattle.vital_nodes.specs.Statements.{all_sequential};

use crate::uses::{put_of_interface, put_of_regions, put_truth_uses, put_truth_uses_at};
use std::alloc::{AllocError, Global};
use vital_base::Place;
use vital_declaration_clauses::Region;
use vital_expr::Reader;
use vital_names::{CellNames, CellUnit, ProcessNames};
use vital_nodes::{Conc, Node, Reference, Stmt, call, nodes_of};
use vital_operands::{Faults, Position};
use vital_table_uses::TableUse;
use vital_typed_declarations::{put_broken_in_interface, put_broken_in_regions};
use vital_typed_statements::{read_call, read_statement};
use vital_uses::{CellStatements, ProcessUses, SitedNode};

/// Puts where a concurrent call is not of its form at the end, and the tables that it uses.
fn put_of_call<'a>(
    alloc: Global,
    names: &'a CellNames<'a>,
    faults: &'a Faults<'a>,
    name: &'a Reference,
    broken: &mut Vec<Place>,
    tables: &mut Vec<TableUse>,
) -> Result<(), AllocError>
    ensures broken { OnOk result (broken.new.items ≡ broken.old.items ++ (concurrent_call names.now faults.now name.now).places) }
    ensures tables { OnOk result (tables.new.items ≡ tables.old.items ++ spec.uses_of_call names.now faults.now name.now) }
{
    let reader = Reader {
        alloc,
        position: Position::Statement(names, CellUnit::Architecture, None),
        faults,
    };
    read_call(&reader, names, None, name, broken, tables)?;
    let nodes = nodes_of(alloc, Node::Name(name))?;
    put_truth_uses(&reader, &nodes, tables)
}

/// The same, of a concurrent statement.
fn put_of_concurrent<'a>(
    alloc: Global,
    names: &'a CellNames<'a>,
    faults: &'a Faults<'a>,
    conc: &'a Conc,
    broken: &mut Vec<Place>,
    tables: &mut Vec<TableUse>,
) -> Result<(), AllocError>
    ensures broken { OnOk result (broken.new.items ≡ broken.old.items ++ spec.broken_concurrent names.now faults.now conc.now) }
    ensures tables { OnOk result (tables.new.items ≡ tables.old.items ++ spec.uses_of_concurrent names.now faults.now conc.now) }
{
    match call(conc) {
        Some(name) => put_of_call(alloc, names, faults, name, broken, tables),
        None => Ok(()),
    }
}

/// The same, of all concurrent statements.
fn put_of_all_concurrent<'a>(
    alloc: Global,
    names: &'a CellNames<'a>,
    faults: &'a Faults<'a>,
    statements: &[&'a Conc],
    broken: &mut Vec<Place>,
    tables: &mut Vec<TableUse>,
) -> Result<(), AllocError>
    ensures broken { OnOk result (broken.new.items ≡ broken.old.items ++ flat_map (spec.broken_concurrent names.now faults.now) (map (λ c. c.now) statements.now)) }
    ensures tables { OnOk result (tables.new.items ≡ tables.old.items ++ flat_map (spec.uses_of_concurrent names.now faults.now) (map (λ c. c.now) statements.now)) }
{
    for conc in statements {
        put_of_concurrent(alloc, names, faults, conc, broken, tables)?;
    }
    Ok(())
}

/// The same, of a statement of a process.
fn put_of_statement<'a>(
    alloc: Global,
    names: &'a CellNames<'a>,
    faults: &'a Faults<'a>,
    process: &'a ProcessNames<'a>,
    stmt: &Stmt,
    broken: &mut Vec<Place>,
    tables: &mut Vec<TableUse>,
) -> Result<(), AllocError>
    ensures broken { OnOk result (broken.new.items ≡ broken.old.items ++ spec.broken_statement names.now faults.now process.now stmt.now) }
    ensures tables { OnOk result (tables.new.items ≡ tables.old.items ++ spec.uses_of_statement names.now faults.now process.now stmt.now) }
{
    let reader = Reader {
        alloc,
        position: Position::Statement(names, CellUnit::Architecture, Some(process)),
        faults,
    };
    read_statement(&reader, names, Some(process), stmt, broken, tables)?;
    Ok(())
}

/// The same, of all statements of a process.
fn put_of_statements<'a>(
    alloc: Global,
    names: &'a CellNames<'a>,
    faults: &'a Faults<'a>,
    process: &'a ProcessNames<'a>,
    statements: &[&Stmt],
    broken: &mut Vec<Place>,
    tables: &mut Vec<TableUse>,
) -> Result<(), AllocError>
    ensures broken { OnOk result (broken.new.items ≡ broken.old.items ++ flat_map (spec.broken_statement names.now faults.now process.now) (map (λ s. s.now) statements.now)) }
    ensures tables { OnOk result (tables.new.items ≡ tables.old.items ++ flat_map (spec.uses_of_statement names.now faults.now process.now) (map (λ s. s.now) statements.now)) }
{
    for stmt in statements {
        put_of_statement(alloc, names, faults, process, stmt, broken, tables)?;
    }
    Ok(())
}

/// Puts the truth tables that a process uses at the end, of which these are the nodes of the statements.
fn put_truth_uses_of_process<'a>(
    alloc: Global,
    names: &'a CellNames<'a>,
    faults: &'a Faults<'a>,
    process: &'a ProcessNames<'a>,
    nodes: &[SitedNode<'_>],
    tables: &mut Vec<TableUse>,
) -> Result<(), AllocError>
    requires { map lent_node nodes.now ≡ nodes_of_statements process.now }
    ensures { OnOk result (tables.new.items ≡ tables.old.items ++ spec.truth_uses_of_process names.now faults.now process.now) }
{
    let reader = Reader {
        alloc,
        position: Position::Statement(names, CellUnit::Architecture, Some(process)),
        faults,
    };
    put_truth_uses_at(&reader, nodes, tables)
}

/// Puts where the statements of a process are not of their forms at the end, and the tables that they use. These are all its
/// statements and their nodes.
fn put_of_process_with<'a>(
    alloc: Global,
    names: &'a CellNames<'a>,
    faults: &'a Faults<'a>,
    process: &'a ProcessNames<'a>,
    statements: &[&Stmt],
    nodes: &[SitedNode<'_>],
    broken: &mut Vec<Place>,
    tables: &mut Vec<TableUse>,
) -> Result<(), AllocError>
    requires statements { map (λ s. s.now) statements.now ≡ all_sequential process.now.statements }
    requires nodes { map lent_node nodes.now ≡ nodes_of_statements process.now }
    ensures broken { OnOk result (broken.new.items ≡ broken.old.items ++ spec.broken_in_process names.now faults.now process.now) }
    ensures tables { OnOk result (tables.new.items ≡ tables.old.items ++ spec.uses_of_process names.now faults.now process.now) }
{
    put_of_statements(alloc, names, faults, process, statements, broken, tables)?;
    put_truth_uses_of_process(alloc, names, faults, process, nodes, tables)
}

/// The same, of a process with what its names mean.
fn put_of_process(
    alloc: Global,
    faults: &Faults<'_>,
    process: &ProcessUses<'_>,
    broken: &mut Vec<Place>,
    tables: &mut Vec<TableUse>,
) -> Result<(), AllocError>
    ensures broken { OnOk result (broken.new.items ≡ broken.old.items ++ spec.broken_in_process process.now.0 faults.now process.now.1) }
    ensures tables { OnOk result (tables.new.items ≡ tables.old.items ++ spec.uses_of_process process.now.0 faults.now process.now.1) }
{
    put_of_process_with(
        alloc,
        process.names(),
        faults,
        process.process(),
        process.statements(),
        process.nodes_of_statements(),
        broken,
        tables,
    )
}

/// The same, of processes with what their names mean.
fn put_of_processes(
    alloc: Global,
    faults: &Faults<'_>,
    processes: &[ProcessUses<'_>],
    broken: &mut Vec<Place>,
    tables: &mut Vec<TableUse>,
) -> Result<(), AllocError>
    ensures broken { OnOk result (broken.new.items ≡ broken.old.items ++ flat_map (λ u. spec.broken_in_process u.0 faults.now u.1) processes.now) }
    ensures tables { OnOk result (tables.new.items ≡ tables.old.items ++ flat_map (λ u. spec.uses_of_process u.0 faults.now u.1) processes.now) }
{
    for process in processes {
        put_of_process(alloc, faults, process, broken, tables)?;
    }
    Ok(())
}

/// The same, of all processes of a cell.
fn put_of_all_processes(
    alloc: Global,
    names: &CellNames<'_>,
    faults: &Faults<'_>,
    processes: &[ProcessUses<'_>],
    broken: &mut Vec<Place>,
    tables: &mut Vec<TableUse>,
) -> Result<(), AllocError>
    requires { processes.now ≡ map (λ p. (names.now, p)) (processes' names.now.arch) }
    ensures broken { OnOk result (broken.new.items ≡ broken.old.items ++ flat_map (spec.broken_in_process names.now faults.now) (processes' names.now.arch)) }
    ensures tables { OnOk result (tables.new.items ≡ tables.old.items ++ flat_map (spec.uses_of_process names.now faults.now) (processes' names.now.arch)) }
{
    put_of_processes(alloc, faults, processes, broken, tables)
}

/// Puts where the statements, values and defaults of a cell are not of their forms at the end, and the tables that they use. These are
/// its processes with what their names mean. It takes time in proportion to its text, and for a call of a truth table in the inputs of
/// another one more for each that it stands in.
pub fn put_forms<'a>(
    alloc: Global,
    names: &'a CellNames<'a>,
    statements: &'a CellStatements<'a>,
    processes: &[ProcessUses<'_>],
    regions: &'a [Region<'a>],
    faults: &'a Faults<'a>,
    broken: &mut Vec<Place>,
    tables: &mut Vec<TableUse>,
) -> Result<(), AllocError>
    requires statements { statements.now ≡ names.now.arch }
    requires processes { processes.now ≡ map (λ p. (names.now, p)) (processes' names.now.arch) }
    requires regions { regions.now ≡ regions' names.now.arch }
    ensures broken { OnOk result (broken.new.items ≡ broken.old.items ++ spec.broken_forms names.now faults.now) }
    ensures tables { OnOk result (tables.new.items ≡ tables.old.items ++ spec.table_uses names.now faults.now) }
{
    put_broken_in_interface(alloc, names, faults, broken)?;
    put_broken_in_regions(alloc, names, faults, regions, broken)?;
    put_of_interface(alloc, names, faults, tables)?;
    put_of_regions(alloc, names, faults, regions, tables)?;
    put_of_all_concurrent(
        alloc,
        names,
        faults,
        statements.statements(),
        broken,
        tables,
    )?;
    put_of_all_processes(alloc, names, faults, processes, broken, tables)
}
