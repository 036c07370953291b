//! Where nodes stand in a cell.

ghost use Rattle.std.specs.Prelude.{◌≡◌, ◌++◌, map, OnOk};
ghost use Rattle.std.specs.Option.{option_copied};
ghost use Rattle.vital_nodes.specs.Places.{place_of};
ghost use Rattle.vital_names.specs.Sites as sites;
ghost use Rattle.vital_nodes.specs.Seen.{seen};
ghost use Rattle.vital_uses.specs.Sited.{lent_node, own_site, seen_from, seen_from_themselves};

use std::alloc::{AllocError, Global};
use vital_base::Place;
use vital_names::{CellUnit, ProcessNames, Site};
use vital_nodes::{HasPlace, Node, nodes_of_all};

/// A node and the site from which it is seen.
#[derive(Clone, Copy)]
pub struct SitedNode<'a> {
    pub site: Site<'a>,
    pub node: Node<'a>,
}

/// Puts nodes and all that they hold at the end, seen from one site.
pub fn put_seen_from<'a>(
    alloc: Global,
    all: &mut Vec<SitedNode<'a>>,
    site: Site<'a>,
    parts: Vec<Node<'a>>,
) -> Result<(), AllocError>
    ensures { OnOk result (map lent_node all.new.items ≡ map lent_node all.old.items ++ seen_from (sites.lent site.entry) (map seen parts.entry.items)) }
{
    let nodes = nodes_of_all(alloc, parts)?;
    put_from(all, site, &nodes)?;
    Ok(())
}

/// Puts nodes at the end, seen from one site.
fn put_from<'a>(
    all: &mut Vec<SitedNode<'a>>,
    site: Site<'a>,
    nodes: &[Node<'a>],
) -> Result<(), AllocError>
    ensures { OnOk result (map lent_node all.new.items ≡ map lent_node all.old.items ++ map (λ v. record { site = sites.lent site.entry; node = v }) (map seen nodes.now)) }
{
    for node in nodes {
        all.push(SitedNode { site, node: *node })?;
    }
    Ok(())
}

/// The site of a node of the architecture, or of a process of it, that is seen from its own place.
pub fn own_site<'a>(process: Option<&'a ProcessNames<'a>>, place: Place) -> Site<'a>
    ensures { sites.lent result ≡ own_site (option_copied process.entry) place }
{
    Site {
        unit: CellUnit::Architecture,
        process,
        viewpoint: place,
    }
}

/// Puts nodes and all that they hold at the end, each seen from its own place.
pub fn put_seen_from_themselves<'a>(
    alloc: Global,
    all: &mut Vec<SitedNode<'a>>,
    process: Option<&'a ProcessNames<'a>>,
    parts: Vec<Node<'a>>,
) -> Result<(), AllocError>
    ensures { OnOk result (map lent_node all.new.items ≡ map lent_node all.old.items ++ seen_from_themselves (option_copied process.entry) (map seen parts.entry.items)) }
{
    let nodes = nodes_of_all(alloc, parts)?;
    put_from_themselves(all, process, &nodes)?;
    Ok(())
}

/// Puts nodes at the end, each seen from its own place.
fn put_from_themselves<'a>(
    all: &mut Vec<SitedNode<'a>>,
    process: Option<&'a ProcessNames<'a>>,
    nodes: &[Node<'a>],
) -> Result<(), AllocError>
    ensures { OnOk result (map lent_node all.new.items ≡ map lent_node all.old.items ++ map (λ v. record { site = own_site (option_copied process.entry) (place_of v); node = v }) (map seen nodes.now)) }
{
    for node in nodes {
        let site = own_site(process, node.place());
        all.push(SitedNode { site, node: *node })?;
    }
    Ok(())
}
