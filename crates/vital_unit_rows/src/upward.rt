//! What is made of nodes upwards: where the last node in each value of a constant stands.

ghost use Rattle.std.specs.Prelude.{◌-◌, List, length};
ghost use Rattle.std.specs.List.{slice_get};
ghost use Rattle.std.specs.Option.{option_map_or};
ghost use Rattle.vital_base.specs.declared.place.Place.{Place as Place'};
ghost use Rattle.vital_nodes.specs.Places.{place_of};

use super::words::Lines;
use std::alloc::{AllocError, Global};
use vital_base::Place;
use vital_nodes::{Decl, Expr, HasPlace, Node, Unit, UpwardRule, fold_up};

/// Where the last node in a node stands.
struct LastPlace;

impl<'a> UpwardRule<'a> for LastPlace {
    type Value = Place;

    ghost step = { λ rule v parts. option_map_or (λ place. place) (slice_get parts (length parts - 1)) (place_of v) };

    fn value(&self, node: Node<'a>, parts: &[Place]) -> Result<Place, AllocError> {
        match parts.last() {
            Some(place) => Ok(*place),
            None => Ok(node.place()),
        }
    }
}

fn put_last_place(alloc: Global, out: Lines<'_>, value: &Expr) -> Result<(), AllocError> {
    let Place { line, column, .. } = fold_up(alloc, Node::Expression(value), &LastPlace)?;
    write!(out, "last {line} {column}\n")
}

fn put_of_declarations(
    alloc: Global,
    out: Lines<'_>,
    declarations: &[Decl],
) -> Result<(), AllocError> {
    for declaration in declarations {
        if let Decl::Object(object) = declaration {
            if let Some(value) = &object.parts.get().value {
                put_last_place(alloc, out, value)?;
            }
        }
    }
    Ok(())
}

/// Puts a line for each value of an object that a package declares.
pub fn put_last_places(alloc: Global, out: Lines<'_>, units: &[Unit]) -> Result<(), AllocError> {
    for unit in units {
        if let Unit::Pack(pack) = unit {
            put_of_declarations(alloc, out, pack.declarations.as_slice())?;
        }
    }
    Ok(())
}
