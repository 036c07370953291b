//! The nodes of a cell in which it is asked what names mean.

ghost use Rattle.std.specs.Prelude.{◌≡◌, [], ◌++◌, None, map, IfOk, OnOk};
ghost use Rattle.std.specs.List.{filter_map, flat_map};
ghost use Rattle.std.specs.Option.{option_copied};
ghost use Rattle.vital_nodes.specs.Nodes.{Concurrent, names, parts_of, sequentials};
ghost use Rattle.vital_nodes.specs.Seen.{seen};
ghost use Rattle.vital_uses.specs.Nodes as spec;
ghost use Rattle.vital_names.specs.Sites as sites;
ghost use Rattle.vital_uses.specs.Sited.{beside, lent_node, seen_from, seen_from_themselves, sited};

use crate::parts::{AskedParts, GenericParts, PartsOf};
use crate::sited::{SitedNode, put_seen_from, put_seen_from_themselves};
use std::alloc::{AllocError, Global};
use vital_base::Place;
use vital_names::{CellUnit, DeclaredTogether, ProcessNames, Site, viewpoints};
use vital_nodes::{Conc, Decl, Iface, Node, Reference, Stmt, put_parts};

/// Puts parts of declarations of a unit, or of a process of it, and all that they hold at the end, each seen from the viewpoint of its
/// declaration.
pub fn put_nodes_in<'a, T: DeclaredTogether, P: PartsOf<T>>(
    alloc: Global,
    nodes: &mut Vec<SitedNode<'a>>,
    parts: &P,
    unit: CellUnit,
    process: Option<&'a ProcessNames<'a>>,
    declarations: &'a [T],
) -> Result<(), AllocError>
    ensures { OnOk result (map lent_node nodes.new.items ≡ map lent_node nodes.old.items ++ spec.nodes_in P.parts_are (sited T.HasPlace.place_is T.last_is unit (option_copied process.entry) declarations.now)) }
{
    let viewpoints = viewpoints(alloc, declarations)?;
    put_nodes_beside(
        alloc,
        nodes,
        parts,
        unit,
        process,
        &viewpoints,
        declarations,
    )
}

/// Puts parts of declarations and all that they hold at the end, each seen from the place that stands beside its declaration.
#[tactic(auto, using(crate::proofs::BesideLemmas::nodes_more))]
fn put_nodes_beside<'a, T, P: PartsOf<T>>(
    alloc: Global,
    nodes: &mut Vec<SitedNode<'a>>,
    parts: &P,
    unit: CellUnit,
    process: Option<&'a ProcessNames<'a>>,
    viewpoints: &[Place],
    declarations: &'a [T],
) -> Result<(), AllocError>
    ensures { OnOk result (map lent_node nodes.new.items ≡ map lent_node nodes.old.items ++ spec.nodes_in P.parts_are (beside unit (option_copied process.entry) viewpoints.now declarations.now)) }
{
    let mut places = viewpoints;
    for declaration in declarations {
        let Some((viewpoint, others)) = places.split_first() else {
            return Ok(());
        };
        let site = Site {
            unit,
            process,
            viewpoint: *viewpoint,
        };
        put_nodes_of(alloc, nodes, parts, site, declaration)?;
        places = others;
    }
    Ok(())
}

/// Puts parts of a declaration and all that they hold at the end, seen from a site.
fn put_nodes_of<'a, T, P: PartsOf<T>>(
    alloc: Global,
    nodes: &mut Vec<SitedNode<'a>>,
    parts: &P,
    site: Site<'a>,
    declaration: &'a T,
) -> Result<(), AllocError>
    ensures { OnOk result (map lent_node nodes.new.items ≡ map lent_node nodes.old.items ++ seen_from (sites.lent site.entry) (P.parts_are declaration.now)) }
{
    let mut taken = Vec::new(alloc);
    parts.put(&mut taken, declaration)?;
    put_seen_from(alloc, nodes, site, taken)?;
    Ok(())
}

/// Puts the nodes in generics at the end.
pub fn put_generic_nodes<'a>(
    alloc: Global,
    nodes: &mut Vec<SitedNode<'a>>,
    generics: &'a [Iface],
) -> Result<(), AllocError>
    ensures { OnOk result (map lent_node nodes.new.items ≡ map lent_node nodes.old.items ++ spec.generic_nodes generics.now) }
{
    put_nodes_in(
        alloc,
        nodes,
        &GenericParts,
        CellUnit::Entity,
        None,
        generics,
    )
}

/// Puts the nodes in ports at the end.
pub fn put_port_nodes<'a>(
    alloc: Global,
    nodes: &mut Vec<SitedNode<'a>>,
    ports: &'a [Iface],
) -> Result<(), AllocError>
    ensures { OnOk result (map lent_node nodes.new.items ≡ map lent_node nodes.old.items ++ spec.port_nodes ports.now) }
{
    put_nodes_in(alloc, nodes, &AskedParts, CellUnit::Entity, None, ports)
}

/// Puts the nodes in declarations of the architecture, or of a process of it, at the end.
pub fn put_declaration_nodes<'a>(
    alloc: Global,
    nodes: &mut Vec<SitedNode<'a>>,
    process: Option<&'a ProcessNames<'a>>,
    declarations: &'a [Decl],
) -> Result<(), AllocError>
    ensures { OnOk result (map lent_node nodes.new.items ≡ map lent_node nodes.old.items ++ spec.declaration_nodes (option_copied process.entry) declarations.now) }
{
    put_nodes_in(
        alloc,
        nodes,
        &AskedParts,
        CellUnit::Architecture,
        process,
        declarations,
    )
}

/// Puts the nodes of concurrent statements that stand in no process at the end.
pub fn put_nodes_outside<'a>(
    alloc: Global,
    nodes: &mut Vec<SitedNode<'a>>,
    statements: &[&'a Conc],
) -> Result<(), AllocError>
    ensures { OnOk result (map lent_node nodes.new.items ≡ map lent_node nodes.old.items ++ flat_map spec.nodes_outside (map (λ c. c.now) statements.now)) }
{
    for conc in statements {
        put_nodes_of_conc(alloc, nodes, conc)?;
    }
    Ok(())
}

/// Puts the nodes of a concurrent statement that stand in no process and in no other statement at the end.
fn put_nodes_of_conc<'a>(
    alloc: Global,
    nodes: &mut Vec<SitedNode<'a>>,
    conc: &'a Conc,
) -> Result<(), AllocError>
    ensures { OnOk result (map lent_node nodes.new.items ≡ map lent_node nodes.old.items ++ spec.nodes_outside conc.now) }
{
    match conc {
        Conc::Process(_, _, _) => Ok(()),
        Conc::Block(_, _, block) => {
            put_declaration_nodes(alloc, nodes, None, block.declarations.as_slice())
        }
        Conc::ComponentInstance(_, _)
        | Conc::Instance(_, _)
        | Conc::Call(_, _)
        | Conc::SignalAssignment(_, _) => put_own_nodes(alloc, nodes, conc),
    }
}

/// Puts all that a concurrent statement holds at the end, each node seen from its own place.
fn put_own_nodes<'a>(
    alloc: Global,
    nodes: &mut Vec<SitedNode<'a>>,
    conc: &'a Conc,
) -> Result<(), AllocError>
    ensures { OnOk result (map lent_node nodes.new.items ≡ map lent_node nodes.old.items ++ seen_from_themselves None (parts_of (Concurrent conc.now))) }
{
    let mut parts = Vec::new(alloc);
    put_parts(&mut parts, Node::Concurrent(conc))?;
    put_seen_from_themselves(alloc, nodes, None, parts)?;
    Ok(())
}

/// The nodes in what a process declares, and of the names of its list.
pub fn nodes_before_statements<'a>(
    alloc: Global,
    process: &'a ProcessNames<'a>,
) -> Result<Vec<SitedNode<'a>>, AllocError>
    ensures { IfOk result (λ nodes. map lent_node nodes.items ≡ spec.nodes_before_statements process.now) }
{
    let stated = process.process();
    let mut nodes = Vec::new(alloc);
    put_declaration_nodes(
        alloc,
        &mut nodes,
        Some(process),
        stated.declarations.as_slice(),
    )?;
    let mut parts = Vec::new(alloc);
    put_names(&mut parts, stated.sensitivity.as_slice())?;
    put_seen_from_themselves(alloc, &mut nodes, Some(process), parts)?;
    Ok(nodes)
}

/// The nodes of the statements of a process.
pub fn nodes_of_statements<'a>(
    alloc: Global,
    process: &'a ProcessNames<'a>,
) -> Result<Vec<SitedNode<'a>>, AllocError>
    ensures { IfOk result (λ nodes. map lent_node nodes.items ≡ spec.nodes_of_statements process.now) }
{
    let mut parts = Vec::new(alloc);
    put_statements(&mut parts, process.process().statements.as_slice())?;
    let mut nodes = Vec::new(alloc);
    put_seen_from_themselves(alloc, &mut nodes, Some(process), parts)?;
    Ok(nodes)
}

/// Puts names at the end.
fn put_names<'a>(nodes: &mut Vec<Node<'a>>, all: &'a [Reference]) -> Result<(), AllocError>
    ensures { OnOk result (map seen nodes.new.items ≡ map seen nodes.old.items ++ names all.now) }
{
    for name in all {
        nodes.push(Node::Name(name))?;
    }
    Ok(())
}

/// Puts statements of a process at the end.
fn put_statements<'a>(nodes: &mut Vec<Node<'a>>, all: &'a [Stmt]) -> Result<(), AllocError>
    ensures { OnOk result (map seen nodes.new.items ≡ map seen nodes.old.items ++ sequentials all.now) }
{
    for stmt in all {
        nodes.push(Node::Sequential(stmt))?;
    }
    Ok(())
}
