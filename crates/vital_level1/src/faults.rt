//! Where names and calls break clauses that speak of them, in a cell and by the constants of packages that it names.

ghost use Rattle.std.specs.Prelude.{◌≡◌, ◌++◌, IfOk, OnOk};
ghost use Rattle.vital_level1.specs.Breaches as spec;
ghost use Rattle.vital_level1.specs.Packages.{breaks, places_where};

use crate::package_names::{NamedConstant, PackageClause, names_that_break};
use std::alloc::{AllocError, Global};
use vital_base::{Breach, Clause, Place};
use vital_call_clauses::clause_14;
use vital_package_constants::ConstantBreaches;
use vital_uses::{CellStatements, CellUses};
use vital_variables::clause_13;

/// Puts the breaches of the clause of a number at these places at the end.
pub fn put_broken(all: &mut Vec<Breach>, number: u8, places: &[Place]) -> Result<(), AllocError>
    ensures { OnOk result (all.new.items ≡ all.old.items ++ spec.broken number places.now) }
{
    for place in places {
        all.push(Breach {
            place: *place,
            clause: Clause { level: 1, number },
        })?;
    }
    Ok(())
}

/// The breaches of the clauses that speak of names and calls.
pub fn name_breaches<'a>(
    alloc: Global,
    statements: &CellStatements<'a>,
    uses: &CellUses<'a>,
) -> Result<Vec<Breach>, AllocError>
    requires { statements.now ≡ uses.now.arch }
    ensures { IfOk result (λ breaches. breaches.items ≡ spec.name_breaches uses.now) }
{
    let mut all = Vec::new(alloc);
    put_broken(&mut all, 8, &uses.clause_8(alloc)?)?;
    put_broken(&mut all, 13, &clause_13(alloc, uses)?)?;
    put_broken(&mut all, 14, &clause_14(alloc, uses, statements)?)?;
    put_broken(&mut all, 16, &uses.clause_16(alloc)?)?;
    Ok(all)
}

/// Puts the breach of a clause at the end wherever a constant of a package is named that breaks it.
fn put_of_packages(
    alloc: Global,
    all: &mut Vec<Breach>,
    number: u8,
    named: &[NamedConstant],
    clause: PackageClause,
    constants: &[ConstantBreaches],
) -> Result<(), AllocError>
    ensures { OnOk result (all.new.items ≡ all.old.items ++ spec.broken number (places_where (breaks clause constants.now) named.now)) }
{
    put_broken(
        all,
        number,
        &names_that_break(alloc, named, clause, constants)?,
    )
}

/// Puts what constants of packages break at the end, at each name of them.
pub fn put_package_breaches(
    alloc: Global,
    all: &mut Vec<Breach>,
    named: &[NamedConstant],
    constants: &[ConstantBreaches],
) -> Result<(), AllocError>
    ensures { OnOk result (all.new.items ≡ all.old.items ++ spec.package_breaches_by named.now constants.now) }
{
    put_of_packages(alloc, all, 3, named, PackageClause::Constants, constants)?;
    put_of_packages(alloc, all, 14, named, PackageClause::Calls, constants)?;
    put_of_packages(alloc, all, 15, named, PackageClause::Forms, constants)?;
    put_of_packages(alloc, all, 16, named, PackageClause::Names, constants)
}

/// Where names and calls break one of these clauses. An expression with such a name in it breaks no clause that speaks of forms.
pub fn faults(
    alloc: Global,
    named: &[NamedConstant],
    constants: &[ConstantBreaches],
    breaches: &[Breach],
) -> Result<Vec<Place>, AllocError>
    ensures { IfOk result (λ places. places.items ≡ spec.faults_by named.now constants.now breaches.now) }
{
    let mut places = names_that_break(alloc, named, PackageClause::Any, constants)?;
    for breach in breaches {
        places.push(breach.place)?;
    }
    Ok(places)
}
