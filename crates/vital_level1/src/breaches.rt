//! All breaches of the clauses of Level 1 in a cell, and the first of them.

ghost use Rattle.std.specs.Prelude.{◌≡◌, ◌++◌, map, IfOk, OnOk};
ghost use Rattle.std.specs.List.{reduce};
ghost use Rattle.vital_declaration_clauses.specs.Regions.{regions as regions'};
ghost use Rattle.vital_level1.specs.Breaches as spec;
ghost use Rattle.vital_uses.specs.Statements.{processes as processes'};

use crate::faults::{faults, name_breaches, put_broken, put_package_breaches};
use crate::forms::put_forms;
use crate::package_names::{NamedConstant, named_constants};
use crate::packages::Packages;
use crate::symbols::wrong_symbols;
use std::alloc::{AllocError, Global};
use vital_base::{Breach, Place};
use vital_declaration_clauses::{
    Region, clause_2, clause_3, clause_4, clause_9, clause_17, clause_18, regions,
};
use vital_drivers::{clause_6, clause_12};
use vital_names::CellNames;
use vital_operands::Faults;
use vital_statements::{clause_1, clause_5, clause_7, clause_10, clause_11};
use vital_uses::{CellStatements, CellUses, ProcessUses};

/// Puts the breaches of the clauses that speak of the declarations of regions at the end.
fn put_region_breaches<'a>(
    alloc: Global,
    all: &mut Vec<Breach>,
    names: &'a CellNames<'a>,
    regions: &'a [Region<'a>],
) -> Result<(), AllocError>
    requires { regions.now ≡ regions' names.now.arch }
    ensures { OnOk result (all.new.items ≡ all.old.items ++ spec.region_breaches names.now) }
{
    put_broken(all, 3, &clause_3(alloc, names, regions)?)?;
    put_broken(all, 4, &clause_4(alloc, names, regions)?)?;
    put_broken(all, 9, &clause_9(alloc, names, regions)?)?;
    put_broken(all, 17, &clause_17(alloc, names, regions)?)
}

/// Puts the breaches of the clauses that speak of other declarations at the end.
fn put_declaration_breaches(
    alloc: Global,
    all: &mut Vec<Breach>,
    names: &CellNames<'_>,
) -> Result<(), AllocError>
    ensures { OnOk result (all.new.items ≡ all.old.items ++ spec.declaration_breaches names.now) }
{
    put_broken(all, 2, &clause_2(alloc, names)?)?;
    put_broken(all, 18, &clause_18(alloc, names)?)
}

/// Puts the breaches of the clauses that speak of the kinds and the order of statements, and of what they drive, at the end.
fn put_statement_breaches<'a>(
    alloc: Global,
    all: &mut Vec<Breach>,
    names: &'a CellNames<'a>,
) -> Result<(), AllocError>
    ensures { OnOk result (all.new.items ≡ all.old.items ++ spec.statement_breaches names.now) }
{
    put_broken(all, 1, &clause_1(alloc, names)?)?;
    put_broken(all, 5, &clause_5(alloc, names)?)?;
    put_broken(all, 6, &clause_6(alloc, names)?)?;
    put_broken(all, 7, &clause_7(alloc, names)?)
}

/// Puts the breaches of the clauses that speak of the statements of processes at the end.
fn put_process_breaches<'a>(
    alloc: Global,
    all: &mut Vec<Breach>,
    names: &'a CellNames<'a>,
) -> Result<(), AllocError>
    ensures { OnOk result (all.new.items ≡ all.old.items ++ spec.process_breaches names.now) }
{
    put_broken(all, 10, &clause_10(alloc, names)?)?;
    put_broken(all, 11, &clause_11(alloc, names)?)?;
    put_broken(all, 12, &clause_12(alloc, names)?)
}

/// Puts the breaches of the clauses that speak of declarations, statements and drivers alone at the end.
fn put_plain_breaches<'a>(
    alloc: Global,
    all: &mut Vec<Breach>,
    names: &'a CellNames<'a>,
    regions: &'a [Region<'a>],
) -> Result<(), AllocError>
    requires { regions.now ≡ regions' names.now.arch }
    ensures { OnOk result (all.new.items ≡ all.old.items ++ spec.plain_breaches names.now) }
{
    put_region_breaches(alloc, all, names, regions)?;
    put_declaration_breaches(alloc, all, names)?;
    put_statement_breaches(alloc, all, names)?;
    put_process_breaches(alloc, all, names)?;
    Ok(())
}

/// Puts the breaches of the clauses that speak of symbols of tables and of forms at the end.
fn put_form_breaches<'a>(
    alloc: Global,
    all: &mut Vec<Breach>,
    names: &'a CellNames<'a>,
    statements: &'a CellStatements<'a>,
    processes: &[ProcessUses<'_>],
    regions: &'a [Region<'a>],
    named: &[NamedConstant],
    faults: &'a [Place],
) -> Result<(), AllocError>
    requires statements { statements.now ≡ names.now.arch }
    requires processes { processes.now ≡ map (λ p. (names.now, p)) (processes' names.now.arch) }
    requires regions { regions.now ≡ regions' names.now.arch }
    ensures { OnOk result (all.new.items ≡ all.old.items ++ spec.form_breaches_by names.now named.now faults.now) }
{
    let faults = Faults::new(alloc, faults)?;
    let mut broken = Vec::new(alloc);
    let mut tables = Vec::new(alloc);
    put_forms(
        alloc,
        &*names,
        &*statements,
        processes,
        &*regions,
        &faults,
        &mut broken,
        &mut tables,
    )?;
    put_broken(
        all,
        3,
        &wrong_symbols(alloc, names, regions, named, &tables)?,
    )?;
    put_broken(all, 15, &broken)
}

/// Of two breaches the one that comes first by place, and at one place by clause.
fn first_of(first: Breach, breach: Breach) -> Breach
    ensures { result ≡ spec.first_of first breach }
{
    if breach < first { breach } else { first }
}

/// The first of breaches by place, and at one place by clause, if there is one.
fn earliest(breaches: &[Breach]) -> Option<Breach>
    ensures { result ≡ reduce spec.first_of breaches.now }
{
    breaches
        .iter()
        .copied()
        .reduce(|first, breach| first_of(first, breach))
}

/// The first breach of Level 1 in a cell. It takes time in proportion to its text.
pub fn first_breach<'a>(
    alloc: Global,
    packages: &Packages<'_>,
    names: &'a CellNames<'a>,
    statements: &'a CellStatements<'a>,
    uses: &CellUses<'a>,
) -> Result<Option<Breach>, AllocError>
    requires packages { packages.now ≡ names.now.files }
    requires statements { statements.now ≡ names.now.arch }
    requires uses { uses.now ≡ names.now }
    ensures { IfOk result (λ first. first ≡ spec.first_breach names.now) }
{
    let mut all = Vec::new(alloc);
    let regions = regions(alloc, names)?;
    put_plain_breaches(alloc, &mut all, &*names, &regions)?;
    let of_names = name_breaches(alloc, statements, uses)?;
    all.extend_from_slice(&of_names)?;
    let named = named_constants(alloc, uses)?;
    let constants = packages.breaches();
    put_package_breaches(alloc, &mut all, &named, constants)?;
    let faults = faults(alloc, &named, constants, &of_names)?;
    put_form_breaches(
        alloc,
        &mut all,
        &*names,
        &*statements,
        uses.processes(),
        &regions,
        &named,
        &faults,
    )?;
    Ok(earliest(&all))
}
