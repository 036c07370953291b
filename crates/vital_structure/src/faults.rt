//! The first fault of what a netlist unit declares.

ghost use Rattle.std.specs.Prelude.{◌≡◌, ℕ, List, ◌||◌, is_some, map, IfOk, OnOk};
ghost use Rattle.std.specs.Option.{option_map};
ghost use Rattle.vital_names.specs.FirstNames.{first_in};
ghost use Rattle.vital_structure.specs.Contents as of_contents;
ghost use Rattle.vital_structure.specs.Faults as spec;
ghost use Rattle.vital_structure.specs.Signals as of_signals;

use crate::content::Content;
use crate::unit_signal::UnitSignal;
use std::alloc::{AllocError, Global};
use std::collections::HashMap;
use vital_base::Place;
use vital_names::put_first;
use vital_nodes::Identifier;

/// A fault of what a netlist unit declares.
#[derive(Clone, Copy)]
pub enum UnitFault<'a> {
    /// A port or a signal has a type or a default that it may not have.
    WrongType(&'a Identifier),
    /// A port or a signal has the name of an earlier one.
    TwiceDeclared(&'a Identifier),
    /// A declaration is none of a netlist.
    NotStructural(Place),
}

/// The names of the ports and signals so far.
type Names<'a> = HashMap<&'a [u8], ()>;

/// Takes the name of a port or a signal. It is a fault if an earlier one has it.
fn take_signal<'a>(
    names: &mut Names<'a>,
    signal: UnitSignal<'a>,
) -> Result<Option<UnitFault<'a>>, AllocError>
    ensures fault { IfOk result (λ fault. option_map spec.lent fault ≡ spec.fault_of_signal (is_some (first_in names.old signal.entry.identifier.now.name)) (of_signals.lent signal.entry)) }
    ensures names { OnOk result ((q : List ℕ) → is_some (first_in names.new q) ≡ (is_some (first_in names.old q) || spec.is_named (of_signals.lent signal.entry) q)) }
{
    let identifier = signal.identifier;
    let name = identifier.name.as_slice();
    let is_twice = names.contains_key(name);
    put_first(names, name, ())?;
    if is_twice {
        Ok(Some(UnitFault::TwiceDeclared(identifier)))
    } else {
        Ok(None)
    }
}

/// Takes what a port or a declaration gives. It may be a fault behind what was taken before.
fn take<'a>(
    names: &mut Names<'a>,
    content: &Content<'a>,
) -> Result<Option<UnitFault<'a>>, AllocError>
    ensures fault { IfOk result (λ fault. option_map spec.lent fault ≡ spec.fault_of (λ q. is_some (first_in names.old q)) (of_contents.lent content.now)) }
    ensures names { OnOk result ((q : List ℕ) → is_some (first_in names.new q) ≡ (is_some (first_in names.old q) || spec.declares (of_contents.lent content.now) q)) }
{
    match content {
        Content::Signal(signal) => take_signal(names, *signal),
        Content::WrongType(identifier) => Ok(Some(UnitFault::WrongType(identifier))),
        Content::NotStructural(place) => Ok(Some(UnitFault::NotStructural(*place))),
        Content::Nothing => Ok(None),
    }
}

/// The first fault among contents.
pub fn first_fault<'a>(
    alloc: Global,
    contents: &[Content<'a>],
) -> Result<Option<UnitFault<'a>>, AllocError>
    ensures { IfOk result (λ fault. option_map spec.lent fault ≡ spec.first_fault (map of_contents.lent contents.now)) }
{
    let mut names: Names<'a> = HashMap::new(alloc);
    for content in contents {
        if let Some(fault) = take(&mut names, content)? {
            return Ok(Some(fault));
        }
    }
    Ok(None)
}
