//! The names that stand in a cell, and the clauses that ask what they mean.

ghost use Rattle.std.specs.Prelude.{◌≡◌, [], ◌∷◌, ◌++◌, map, IfOk, OnOk};
ghost use Rattle.std.specs.List.{flat_map};
ghost use Rattle.std.specs.Option.{option_copied};
ghost use Rattle.vital_uses.specs.Asked.{asked, lent_asked};
ghost use Rattle.vital_uses.specs.Nodes as spec;
ghost use Rattle.vital_uses.specs.Reads.{clause_8, unlisted};
ghost use Rattle.vital_uses.specs.Sited.{lent_node};
ghost use Rattle.vital_uses.specs.Statements as statements;
ghost use Rattle.vital_uses.specs.Undeclared.{clause_16, undeclared_in};

use crate::asked::{Asked, asked_at_nodes};
use crate::nodes::{put_declaration_nodes, put_generic_nodes, put_nodes_outside, put_port_nodes};
use crate::process_uses::ProcessUses;
use crate::sited::SitedNode;
use crate::statements::CellStatements;
use crate::types::{put_declared_types, put_interface_types, put_types_outside};
use crate::undeclared::{put_undeclared, put_unknown_types};
use std::alloc::{AllocError, Global};
use std::marker::Model;
use vital_base::Place;
use vital_names::{CellNames, ProcessNames};
use vital_nodes::{Arch, Conc, Decl, Entity, Reference};

/// The names that stand in a cell, each with what it means, which is looked up once. It is made once for a cell. Contracts see it as
/// the cell.
#[derive(Drop)]
pub struct CellUses<'a> {
    names: &'a CellNames<'a>,
    /// The nodes that stand in no process.
    nodes: Vec<SitedNode<'a>>,
    /// What is asked at the nodes that stand in no process.
    outside: Vec<Asked<'a>>,
    /// The names of types.
    types: Vec<&'a Reference>,
    /// Each process with what its names mean, in order.
    processes: Vec<ProcessUses<'a>>,
}

impl<'a> Model for CellUses<'a> {
    ghost use Rattle.std.specs.Prelude.{◌≡◌, map};
    ghost use Rattle.std.specs.Coded.{codes};
    ghost use Rattle.vital_nodes.specs.contracts.unit.Arch as of_arch;
    ghost use Rattle.vital_nodes.specs.contracts.unit.Entity as of_entity;
    ghost use Rattle.vital_nodes.specs.contracts.unit.Units as of_units;
    ghost use Rattle.vital_names.specs.Sites.{Cell};
    ghost use Rattle.vital_uses.specs.Kept.{HasUses};

    ghost Value = { Cell };

    ghost coded = { Prim.hlevel (codes, of_units.the_row.coded, of_entity.the_row.coded, of_arch.the_row.coded) };

    ghost view = { λ u. u.names.now };

    ghost invariant = { λ u. HasUses u.names.now u.nodes.items u.outside.items u.types.items u.processes.items };
}

impl<'a> CellUses<'a> {
    /// The names of a cell, of which these are the statements. It takes time and memory in proportion to its nodes.
    pub fn new(
        alloc: Global,
        names: &'a CellNames<'a>,
        statements: &'a CellStatements<'a>,
    ) -> Result<CellUses<'a>, AllocError>
        requires { statements.now ≡ names.now.arch }
        ensures { IfOk result (λ uses. uses ≡ names.now) }
    {
        let nodes = nodes_outside_processes(alloc, names, statements)?;
        let outside = asked_at_nodes(alloc, names, &nodes)?;
        let types = types(alloc, names.entity(), names.arch(), statements.statements())?;
        let processes = processes(alloc, names, statements.processes())?;
        Ok(CellUses {
            names,
            nodes,
            outside,
            types,
            processes,
        })
    }

    /// The names of the cell.
    pub fn names(&self) -> &'a CellNames<'a>
        ensures { result.now ≡ self.now }
    {
        self.names
    }

    /// The nodes that stand in no process, in order.
    pub fn nodes_outside(&self) -> &[SitedNode<'a>]
        ensures { map lent_node result.now ≡ spec.nodes_outside_processes self.now }
    {
        self.nodes.as_slice()
    }

    /// What is asked at the nodes that stand in no process, in order.
    pub fn asked_outside(&self) -> &[Asked<'a>]
        ensures { map lent_asked result.now ≡ asked self.now (spec.nodes_outside_processes self.now) }
    {
        self.outside.as_slice()
    }

    /// The names of types in the cell, in order.
    fn types(&self) -> &[&'a Reference]
        ensures { map (λ r. r.now) result.now ≡ spec.types self.now }
    {
        self.types.as_slice()
    }

    /// Each process with what its names mean, in order.
    pub fn processes(&self) -> &[ProcessUses<'a>]
        ensures { result.now ≡ map (λ p. (self.now, p)) (statements.processes self.now.arch) }
    {
        self.processes.as_slice()
    }

    /// The places of signals and ports that are read in a process whose list lacks them, which break clause L1.8.
    pub fn clause_8(&self, alloc: Global) -> Result<Vec<Place>, AllocError>
        ensures { IfOk result (λ places. places.items ≡ clause_8 self.now) }
    {
        let mut places = Vec::new(alloc);
        put_all_unlisted(alloc, &mut places, self.processes())?;
        Ok(places)
    }

    /// The places of names that are neither declared nor predeclared, which break clause L1.16.
    pub fn clause_16(&self, alloc: Global) -> Result<Vec<Place>, AllocError>
        ensures { IfOk result (λ places. places.items ≡ clause_16 self.now) }
    {
        let mut places = Vec::new(alloc);
        put_undeclared(&mut places, self.asked_outside())?;
        put_undeclared_in(&mut places, self.processes())?;
        put_unknown_types(&mut places, self.names(), self.types())?;
        Ok(places)
    }
}

/// Puts the places of names in processes that are neither declared nor predeclared at the end.
fn put_undeclared_in<'a>(
    places: &mut Vec<Place>,
    processes: &[ProcessUses<'a>],
) -> Result<(), AllocError>
    ensures { OnOk result (places.new.items ≡ places.old.items ++ flat_map (λ u. undeclared_in u.0 u.1) processes.now) }
{
    for process in processes {
        put_undeclared_of(places, process)?;
    }
    Ok(())
}

/// Puts the places of names in a process that are neither declared nor predeclared at the end.
fn put_undeclared_of<'a>(
    places: &mut Vec<Place>,
    process: &ProcessUses<'a>,
) -> Result<(), AllocError>
    ensures { OnOk result (places.new.items ≡ places.old.items ++ undeclared_in process.now.0 process.now.1) }
{
    put_undeclared(places, process.asked())
}

/// Puts the places of signals and ports that are read in processes whose lists lack them at the end.
fn put_all_unlisted<'a>(
    alloc: Global,
    places: &mut Vec<Place>,
    processes: &[ProcessUses<'a>],
) -> Result<(), AllocError>
    ensures { OnOk result (places.new.items ≡ places.old.items ++ flat_map (λ u. unlisted u.0 u.1) processes.now) }
{
    for process in processes {
        process.put_unlisted(alloc, places)?;
    }
    Ok(())
}

/// What an architecture declares, if there is one.
pub fn declarations_of<'a>(arch: Option<&'a Arch>) -> &'a [Decl]
    ensures { result.now ≡ spec.declarations_of (option_copied arch.entry) }
{
    match arch {
        Some(arch) => arch.declarations.as_slice(),
        None => &[],
    }
}

/// The nodes of a cell that stand in no process, of which these are the statements.
fn nodes_outside_processes<'a>(
    alloc: Global,
    names: &'a CellNames<'a>,
    statements: &'a CellStatements<'a>,
) -> Result<Vec<SitedNode<'a>>, AllocError>
    requires { statements.now ≡ names.now.arch }
    ensures { IfOk result (λ nodes. map lent_node nodes.items ≡ spec.nodes_outside_processes names.now) }
{
    nodes_outside(alloc, names.entity(), names.arch(), statements.statements())
}

/// The nodes that stand in no process, with these concurrent statements.
fn nodes_outside<'a>(
    alloc: Global,
    entity: &'a Entity,
    arch: Option<&'a Arch>,
    statements: &[&'a Conc],
) -> Result<Vec<SitedNode<'a>>, AllocError>
    ensures { IfOk result (λ nodes. map lent_node nodes.items ≡ spec.nodes_outside_of entity.now (option_copied arch.entry) (map (λ c. c.now) statements.now)) }
{
    let mut nodes: Vec<SitedNode<'a>> = Vec::new(alloc);
    put_generic_nodes(alloc, &mut nodes, entity.generics.as_slice())?;
    put_port_nodes(alloc, &mut nodes, entity.ports.as_slice())?;
    put_declaration_nodes(alloc, &mut nodes, None, declarations_of(arch))?;
    put_nodes_outside(alloc, &mut nodes, statements)?;
    Ok(nodes)
}

/// The names of types in a cell.
fn types<'a>(
    alloc: Global,
    entity: &'a Entity,
    arch: Option<&'a Arch>,
    statements: &[&'a Conc],
) -> Result<Vec<&'a Reference>, AllocError>
    ensures { IfOk result (λ types. map (λ r. r.now) types.items ≡ spec.types_of entity.now (option_copied arch.entry) (map (λ c. c.now) statements.now)) }
{
    let mut types: Vec<&'a Reference> = Vec::new(alloc);
    put_interface_types(&mut types, entity.generics.as_slice())?;
    put_interface_types(&mut types, entity.ports.as_slice())?;
    put_declared_types(&mut types, declarations_of(arch))?;
    put_types_outside(&mut types, statements)?;
    Ok(types)
}

/// Each process of a cell with what its names mean, in order.
fn processes<'a>(
    alloc: Global,
    names: &'a CellNames<'a>,
    processes: &'a [ProcessNames<'a>],
) -> Result<Vec<ProcessUses<'a>>, AllocError>
    ensures { IfOk result (λ all. all.items ≡ map (λ p. (names.now, p)) processes.now) }
{
    let mut all = Vec::new(alloc);
    for process in processes {
        all.push(ProcessUses::new(alloc, names, process)?)?;
    }
    Ok(all)
}
