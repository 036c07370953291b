//! The names of a cell.

ghost use Rattle.std.specs.Prelude.{◌≡◌, ◌++◌, map, IfOk};
ghost use Rattle.std.specs.Option.{option_and_then, option_copied, option_map, option_or};
ghost use Rattle.vital_base.specs.Places.{is_before};
ghost use Rattle.vital_names.specs.Declarations.{body_of, first_named, identifier_of};
ghost use Rattle.vital_names.specs.Declarations as declarations;
ghost use Rattle.vital_names.specs.Meanings.{declared, declared_in_arch, declared_in_entity, declared_in_process, if_before, lent, meaning};
ghost use Rattle.vital_names.specs.Sites as sites;
ghost use Rattle.vital_names.specs.Words.{predeclared};

use crate::declared::Declared;
use crate::declared_lists::{all_declared, body_of, interface_of};
use crate::first_names::{FirstNames, first_names};
use crate::library_names::LibraryNames;
use crate::meaning::Meaning;
use crate::predeclared::Predeclared;
use crate::site::{CellUnit, Site};
use std::alloc::{AllocError, Global};
use std::marker::Model;
use vital_base::Place;
use vital_nodes::{Arch, Entity};

/// What a cell declares outside of its processes, which is found by its names. It is made once for a cell. Contracts see it as the
/// cell.
#[derive(Drop)]
pub struct CellNames<'a> {
    library: &'a LibraryNames<'a>,
    entity: &'a Entity,
    arch: Option<&'a Arch>,
    /// The first generic or port of each name.
    interface: FirstNames<'a>,
    /// The first of each name among what the architecture declares, and then the generics and ports.
    first: FirstNames<'a>,
}

impl<'a> Model for CellNames<'a> {
    ghost use Rattle.std.specs.Prelude.{◌++◌};
    ghost use Rattle.std.specs.Option.{option_copied};
    ghost use Rattle.vital_names.specs.Declarations.{body_of, interface_of};
    ghost use Rattle.vital_names.specs.Kept.{HasFirst};
    ghost use Rattle.vital_names.specs.Sites.{Cell};
    ghost use Rattle.std.specs.Coded.{codes};
    ghost use Rattle.vital_nodes.specs.contracts.unit.Arch as of_arch;
    ghost use Rattle.vital_nodes.specs.contracts.unit.Entity as of_entity;
    ghost use Rattle.vital_nodes.specs.contracts.unit.Units as of_units;

    ghost Value = { Cell };

    ghost coded = { Prim.hlevel (codes, of_units.the_row.coded, of_entity.the_row.coded, of_arch.the_row.coded) };

    ghost view = { λ names. record { files = names.library.now; entity = names.entity.now; arch = option_copied names.arch } };

    ghost invariant = { λ names. HasFirst names.interface (interface_of names.entity.now) × HasFirst names.first (body_of (option_copied names.arch) ++ interface_of names.entity.now) };
}

/// Whether a declaration stands before a viewpoint.
fn stands_before(declared: Declared<'_>, viewpoint: Place) -> bool
    ensures { result ≡ is_before (identifier_of (declarations.lent declared.entry)).place viewpoint }
{
    declared.identifier().place < viewpoint
}

/// A declaration, if it stands before a viewpoint.
fn if_before<'a>(viewpoint: Place, declared: Option<Declared<'a>>) -> Option<Declared<'a>>
    ensures { option_map declarations.lent result ≡ option_and_then (if_before viewpoint) (option_map declarations.lent declared.entry) }
{
    match declared {
        Some(declared) if stands_before(declared, viewpoint) => Some(declared),
        _ => None,
    }
}

impl<'a> CellNames<'a> {
    /// The names of a cell: an entity of the library, and one of its architectures, if it has one. It takes time and memory in
    /// proportion to their declarations.
    pub fn new(
        alloc: Global,
        library: &'a LibraryNames<'a>,
        entity: &'a Entity,
        arch: Option<&'a Arch>,
    ) -> Result<CellNames<'a>, AllocError>
        ensures { IfOk result (λ names. names ≡ record { files = library.now; entity = entity.now; arch = option_copied arch.entry }) }
    {
        let declared = interface_of(alloc, entity)?;
        let interface = first_names(alloc, &declared)?;
        let declared = all_declared(alloc, entity, arch)?;
        let first = first_names(alloc, &declared)?;
        Ok(CellNames {
            library,
            entity,
            arch,
            interface,
            first,
        })
    }

    /// The library of the cell.
    pub fn library(&self) -> &'a LibraryNames<'a>
        ensures { result.now ≡ self.now.files }
    {
        self.library
    }

    /// The entity of the cell.
    pub fn entity(&self) -> &'a Entity
        ensures { result.now ≡ self.now.entity }
    {
        self.entity
    }

    /// The architecture of the cell, if it has one.
    pub fn arch(&self) -> Option<&'a Arch>
        ensures { option_copied result ≡ self.now.arch }
    {
        self.arch
    }

    /// What a name means at a site of the cell. Names are as identifiers keep them, and are looked up in maps.
    pub fn meaning(&self, name: &[u8], site: &Site<'a>) -> Option<Meaning<'a>>
        ensures { option_map lent result ≡ meaning name.now self.now (sites.lent site.now) }
    {
        match self.declared(name, site) {
            Some(declared) => Some(Meaning::Declared(declared)),
            None => self.library.meaning(name),
        }
    }

    /// What a declaration of the cell declares for a name at a site.
    pub fn declared(&self, name: &[u8], site: &Site<'a>) -> Option<Declared<'a>>
        ensures { option_map declarations.lent result ≡ declared name.now self.now (sites.lent site.now) }
    {
        match in_process(name, site) {
            Some(declared) => Some(declared),
            None => self.outside(site.unit, site.viewpoint, name),
        }
    }

    /// What a name is predeclared as.
    pub fn predeclared(&self, name: &[u8]) -> Option<Predeclared>
        ensures { result ≡ predeclared name.now }
    {
        self.library.predeclared(name)
    }

    /// The generics and then the ports.
    pub(crate) fn interface(&self, alloc: Global) -> Result<Vec<Declared<'a>>, AllocError>
        ensures { IfOk result (λ list. map declarations.lent list.items ≡ declarations.interface_of self.now.entity) }
    {
        interface_of(alloc, self.entity)
    }

    /// What the architecture declares, in order. It is nothing where there is no architecture.
    pub(crate) fn body(&self, alloc: Global) -> Result<Vec<Declared<'a>>, AllocError>
        ensures { IfOk result (λ list. map declarations.lent list.items ≡ declarations.body_of self.now.arch) }
    {
        body_of(alloc, self.arch)
    }

    /// What the architecture declares first for a name, and else the first generic or port of the name.
    fn first(&self, name: &[u8]) -> Option<Declared<'a>>
        ensures { option_map declarations.lent result ≡ first_named name.now (body_of self.now.arch ++ declarations.interface_of self.now.entity) }
    {
        self.first.get(name).copied()
    }

    /// The first generic or port of a name.
    fn generic_or_port(&self, name: &[u8]) -> Option<Declared<'a>>
        ensures { option_map declarations.lent result ≡ first_named name.now (declarations.interface_of self.now.entity) }
    {
        self.interface.get(name).copied()
    }

    /// What is seen of a name in the architecture. Only one that the architecture declares at the viewpoint or behind it is looked up twice.
    fn seen_in_arch(&self, viewpoint: Place, name: &[u8]) -> Option<Declared<'a>>
        ensures { option_map declarations.lent result ≡ option_or (declared_in_arch CellUnit.Architecture viewpoint name.now self.now) (declared_in_entity CellUnit.Architecture viewpoint name.now self.now) }
    {
        match self.first(name) {
            Some(declared) => {
                if stands_before(declared, viewpoint) {
                    Some(declared)
                } else {
                    self.generic_or_port(name)
                }
            }
            None => None,
        }
    }

    /// What the architecture declares for a name, and else the generic or port of the name.
    fn outside(&self, unit: CellUnit, viewpoint: Place, name: &[u8]) -> Option<Declared<'a>>
        ensures { option_map declarations.lent result ≡ option_or (declared_in_arch unit viewpoint name.now self.now) (declared_in_entity unit viewpoint name.now self.now) }
    {
        match unit {
            CellUnit::Entity => if_before(viewpoint, self.generic_or_port(name)),
            CellUnit::Architecture => self.seen_in_arch(viewpoint, name),
        }
    }
}

/// What the process of a site declares for a name.
fn in_process<'a>(name: &[u8], site: &Site<'a>) -> Option<Declared<'a>>
    ensures { option_map declarations.lent result ≡ declared_in_process name.now (sites.lent site.now) }
{
    match site.process {
        Some(process) => if_before(site.viewpoint, process.first(name)),
        None => None,
    }
}
