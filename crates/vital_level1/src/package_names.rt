//! The names of constants of packages in a cell, and at which of them clauses are broken.

ghost use Rattle.std.specs.Prelude.{◌≡◌, [], ◌∷◌, ◌++◌, map, IfOk, OnOk};
ghost use Rattle.std.specs.List.{flat_map};
ghost use Rattle.std.specs.BTreeSet.{contains};
ghost use Rattle.std.specs.Ordering.{nat_cmp};
ghost use Rattle.vital_level1.specs.Packages as spec;
ghost use Rattle.vital_uses.specs.Asked.{lent_asked};

use std::alloc::{AllocError, Global};
use std::collections::BTreeSet;
use vital_base::Place;
use vital_limits::constant_meant;
use vital_package_constants::{ConstantBreaches, breaches_at};
use vital_uses::{Asked, CellUses, ProcessUses};

/// A name in a cell that means a constant of a package.
#[derive(Clone, Copy, PartialEq, Eq)]
pub struct NamedConstant {
    /// The number of the constant among those of all packages of the library.
    pub number: usize,
    /// Where the name stands.
    pub place: Place,
}

/// Puts a name at the end if it means a constant of a package.
fn put_if_named(named: &mut Vec<NamedConstant>, one: &Asked<'_>) -> Result<(), AllocError>
    ensures { OnOk result (named.new.items ≡ named.old.items ++ spec.named_in (lent_asked one.now ∷ [])) }
{
    if let Some(number) = constant_meant(one.meaning) {
        named.push(NamedConstant {
            number,
            place: one.identifier.place,
        })?;
    }
    Ok(())
}

/// Puts those names at the end that mean a constant of a package.
fn put_named(named: &mut Vec<NamedConstant>, asked: &[Asked<'_>]) -> Result<(), AllocError>
    ensures { OnOk result (named.new.items ≡ named.old.items ++ spec.named_in (map lent_asked asked.now)) }
{
    for one in asked {
        put_if_named(named, one)?;
    }
    Ok(())
}

/// Puts those of a process at the end.
fn put_named_in_process(
    named: &mut Vec<NamedConstant>,
    process: &ProcessUses<'_>,
) -> Result<(), AllocError>
    ensures { OnOk result (named.new.items ≡ named.old.items ++ spec.named_in_process process.now.0 process.now.1) }
{
    put_named(named, process.asked())
}

/// Puts those of processes at the end.
fn put_named_in_processes(
    named: &mut Vec<NamedConstant>,
    processes: &[ProcessUses<'_>],
) -> Result<(), AllocError>
    ensures { OnOk result (named.new.items ≡ named.old.items ++ flat_map (λ u. spec.named_in_process u.0 u.1) processes.now) }
{
    for process in processes {
        put_named_in_process(named, process)?;
    }
    Ok(())
}

/// The names in a cell that mean a constant of a package: those outside of processes, and then those of each process.
pub fn named_constants(alloc: Global, uses: &CellUses<'_>) -> Result<Vec<NamedConstant>, AllocError>
    ensures { IfOk result (λ named. named.items ≡ spec.named_constants uses.now) }
{
    let mut named = Vec::new(alloc);
    put_named(&mut named, uses.asked_outside())?;
    put_named_in_processes(&mut named, uses.processes())?;
    Ok(named)
}

/// A clause that constants of packages may break.
#[derive(Clone, Copy, PartialEq, Eq)]
pub enum PackageClause {
    /// Any of these.
    Any,
    /// L1.3.
    Constants,
    /// L1.14.
    Calls,
    /// L1.15.
    Forms,
    /// L1.16.
    Names,
}

impl PackageClause {
    /// Whether it is among some breaches.
    fn is_broken_by(self, breaches: ConstantBreaches) -> bool
        ensures { result ≡ spec.is_broken_by self breaches }
    {
        match self {
            PackageClause::Any => breaches.breaks_any(),
            PackageClause::Constants => breaches.clause_3,
            PackageClause::Calls => breaches.clause_14,
            PackageClause::Forms => breaches.clause_15,
            PackageClause::Names => breaches.clause_16,
        }
    }
}

/// Puts the place of a name at the end, if the constant breaks a clause.
fn put_if_breaks(
    places: &mut Vec<Place>,
    clause: PackageClause,
    breaches: &[ConstantBreaches],
    one: NamedConstant,
) -> Result<(), AllocError>
    ensures { OnOk result (places.new.items ≡ places.old.items ++ spec.places_where (spec.breaks clause breaches.now) (one ∷ [])) }
{
    if clause.is_broken_by(breaches_at(breaches, one.number)) {
        places.push(one.place)?;
    }
    Ok(())
}

/// Where constants of packages are named that break a clause.
pub fn names_that_break(
    alloc: Global,
    named: &[NamedConstant],
    clause: PackageClause,
    breaches: &[ConstantBreaches],
) -> Result<Vec<Place>, AllocError>
    ensures { IfOk result (λ places. places.items ≡ spec.places_where (spec.breaks clause breaches.now) named.now) }
{
    let mut places = Vec::new(alloc);
    for one in named {
        put_if_breaks(&mut places, clause, breaches, *one)?;
    }
    Ok(places)
}

/// Puts the place of a name at the end, if the constant is among these numbers.
fn put_if_among(
    places: &mut Vec<Place>,
    numbers: &BTreeSet<usize>,
    one: NamedConstant,
) -> Result<(), AllocError>
    ensures { OnOk result (places.new.items ≡ places.old.items ++ spec.places_where (λ n. contains nat_cmp numbers.now n) (one ∷ [])) }
{
    if numbers.contains(&one.number) {
        places.push(one.place)?;
    }
    Ok(())
}

/// Where constants of packages are named that are among these numbers.
pub fn names_among(
    alloc: Global,
    named: &[NamedConstant],
    numbers: &BTreeSet<usize>,
) -> Result<Vec<Place>, AllocError>
    ensures { IfOk result (λ places. places.items ≡ spec.places_where (λ n. contains nat_cmp numbers.now n) named.now) }
{
    let mut places = Vec::new(alloc);
    for one in named {
        put_if_among(&mut places, numbers, *one)?;
    }
    Ok(places)
}
