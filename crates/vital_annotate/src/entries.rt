//! What entries make of the delays.
#![tactic(auto, using(crate::proofs::OutcomeLemmas::no_memory, crate::proofs::OutcomeLemmas::made))]

ghost use Rattle.std.specs.Prelude.{◌≡◌, Some, take, drop, IfOk, OnOk};
ghost use Rattle.vital_annotate.specs.Annotations as spec;
ghost use Rattle.vital_annotate.specs.Generics.{generic_of};
ghost use Rattle.vital_annotate.specs.Names as names;
ghost use Rattle.vital_annotate.specs.Outcomes.{IsOutcome};
ghost use Rattle.vital_annotate.specs.Tries.{tried};

use crate::annotate_error::AnnotateError;
use crate::annotations::Annotations;
use crate::delays::changed;
use crate::how::How;
use crate::instances::CellInstances;
use crate::names::{Edges, put_check_names, put_path_names, put_port_names, put_wire_names};
use crate::note::NoteWhy;
use std::alloc::AllocError;
use vital_sdf::{Timing, TimingKind, Triple};

/// What an entry is for, and how it changes that.
#[derive(Clone, Copy)]
pub struct Meant<'a> {
    pub instances: &'a CellInstances<'a>,
    pub how: How,
    /// The numbers of the instances that it is for, in order.
    pub numbers: &'a [usize],
}

/// Changes a timing generic of an instance.
fn change_number(
    how: &How,
    values: &[Triple],
    instance: usize,
    number: usize,
    annotations: &mut Annotations,
) -> Result<(), AnnotateError>
    ensures { IsOutcome (spec.change_generic how.now values.now instance (Some number) annotations.old) result annotations.new }
{
    let old = annotations.delay(instance, number);
    let new = changed(how.corner, how.mode, values, old);
    if new.is_large {
        return Err(AnnotateError::Limit { place: how.place });
    }
    annotations.put(instance, number, new.delay);
    if !new.is_negative {
        return Ok(());
    }
    annotations.note(how.place, NoteWhy::Negative)?;
    Ok(())
}

/// The same where the instance has it.
fn change_generic(
    how: &How,
    values: &[Triple],
    instance: usize,
    number: Option<usize>,
    annotations: &mut Annotations,
) -> Result<(), AnnotateError>
    ensures { IsOutcome (spec.change_generic how.now values.now instance number annotations.old) result annotations.new }
{
    let Some(number) = number else {
        annotations.note(how.place, NoteWhy::Generic)?;
        return Ok(());
    };
    change_number(how, values, instance, number, annotations)
}

/// The number of the timing generic of an instance that an entry is for. The name stays.
fn number_at(
    instances: &CellInstances<'_>,
    instance: usize,
    name: &mut Vec<u8>,
    edges: Edges,
) -> Result<Option<usize>, AllocError>
    ensures same { OnOk result (name.new.items ≡ name.old.items) }
    ensures number { IfOk result (λ number. number ≡ generic_of (spec.generics_at instances.now instance) (tried name.old.items edges)) }
{
    match instances.cell(instance) {
        Some(cell) => cell.number_tried(name, edges),
        None => Ok(None),
    }
}

/// Changes the generic of one of the names that are tried. The name stays.
fn change_instance(
    meant: &Meant<'_>,
    instance: usize,
    name: &mut Vec<u8>,
    edges: Edges,
    values: &[Triple],
    annotations: &mut Annotations,
) -> Result<(), AnnotateError>
    ensures same { OnOk result (name.new.items ≡ name.old.items) }
    ensures outcome { IsOutcome (spec.change_instance meant.now.instances.now meant.now.how (record { names = tried name.old.items edges; values = values.now }) instance annotations.old) result annotations.new }
{
    let number = number_at(meant.instances, instance, name, edges)?;
    change_generic(&meant.how, values, instance, number, annotations)
}

/// The same at each instance that the entry is for.
fn change_instances(
    meant: &Meant<'_>,
    name: &mut Vec<u8>,
    edges: Edges,
    values: &[Triple],
    annotations: &mut Annotations,
) -> Result<(), AnnotateError>
    ensures { IsOutcome (spec.change_instances meant.now.instances.now meant.now.how meant.now.numbers.now (record { names = tried name.old.items edges; values = values.now }) annotations.old) result annotations.new }
{
    for instance in meant.numbers {
        change_instance(meant, *instance, name, edges, values, annotations)?;
    }
    Ok(())
}

/// Changes the generic of a path.
fn change_path(
    meant: &Meant<'_>,
    timing: &Timing,
    name: &mut Vec<u8>,
    annotations: &mut Annotations,
) -> Result<(), AnnotateError>
    ensures { IsOutcome (spec.each (spec.change_instances meant.now.instances.now meant.now.how meant.now.numbers.now) (names.one_change (names.path_names timing.now) timing.now) annotations.old) result annotations.new }
{
    let edges = put_path_names(name, timing)?;
    change_instances(meant, name, edges, timing.values.as_slice(), annotations)
}

/// Changes the generic of an interconnection.
fn change_wire(
    meant: &Meant<'_>,
    timing: &Timing,
    name: &mut Vec<u8>,
    annotations: &mut Annotations,
) -> Result<(), AnnotateError>
    ensures { IsOutcome (spec.each (spec.change_instances meant.now.instances.now meant.now.how meant.now.numbers.now) (names.one_change (names.wire_names timing.now) timing.now) annotations.old) result annotations.new }
{
    let edges = put_wire_names(name, timing)?;
    change_instances(meant, name, edges, timing.values.as_slice(), annotations)
}

/// Changes the generic of a check of one port.
fn change_port(
    meant: &Meant<'_>,
    prefix: &[u8],
    timing: &Timing,
    name: &mut Vec<u8>,
    annotations: &mut Annotations,
) -> Result<(), AnnotateError>
    ensures { IsOutcome (spec.each (spec.change_instances meant.now.instances.now meant.now.how meant.now.numbers.now) (names.one_change (names.port_names prefix.now timing.now) timing.now) annotations.old) result annotations.new }
{
    let edges = put_port_names(name, prefix, timing)?;
    change_instances(meant, name, edges, timing.values.as_slice(), annotations)
}

/// Changes the generic of a check of two ports by some values.
fn change_by(
    meant: &Meant<'_>,
    prefix: &[u8],
    timing: &Timing,
    values: &[Triple],
    name: &mut Vec<u8>,
    annotations: &mut Annotations,
) -> Result<(), AnnotateError>
    ensures { IsOutcome (spec.change_instances meant.now.instances.now meant.now.how meant.now.numbers.now (record { names = names.check_names prefix.now timing.now; values = values.now }) annotations.old) result annotations.new }
{
    let edges = put_check_names(name, prefix, timing)?;
    change_instances(meant, name, edges, values, annotations)
}

/// Changes the generic of a check of two ports.
fn change_check(
    meant: &Meant<'_>,
    prefix: &[u8],
    timing: &Timing,
    name: &mut Vec<u8>,
    annotations: &mut Annotations,
) -> Result<(), AnnotateError>
    ensures { IsOutcome (spec.each (spec.change_instances meant.now.instances.now meant.now.how meant.now.numbers.now) (names.one_change (names.check_names prefix.now timing.now) timing.now) annotations.old) result annotations.new }
{
    let values = timing.values.as_slice();
    change_by(meant, prefix, timing, values, name, annotations)
}

/// The first of some values, if there is one.
fn first_value(values: &[Triple]) -> &[Triple]
    ensures { result.now ≡ take 1 values.now }
{
    if values.is_empty() {
        return values;
    }
    &values[..1]
}

/// Those behind it.
fn later_values(values: &[Triple]) -> &[Triple]
    ensures { result.now ≡ drop 1 values.now }
{
    if values.is_empty() {
        return values;
    }
    &values[1..]
}

/// Changes two generics of a check of two ports: the first by the first value, and the second by the second one.
fn change_two(
    meant: &Meant<'_>,
    first: &[u8],
    second: &[u8],
    timing: &Timing,
    name: &mut Vec<u8>,
    annotations: &mut Annotations,
) -> Result<(), AnnotateError>
    ensures { IsOutcome (spec.each (spec.change_instances meant.now.instances.now meant.now.how meant.now.numbers.now) (names.two_changes (names.check_names first.now timing.now) (names.check_names second.now timing.now) timing.now) annotations.old) result annotations.new }
{
    let values = timing.values.as_slice();
    change_by(meant, first, timing, first_value(values), name, annotations)?;
    change_by(
        meant,
        second,
        timing,
        later_values(values),
        name,
        annotations,
    )
}

/// Changes what an entry changes.
fn change_all(
    meant: &Meant<'_>,
    timing: &Timing,
    name: &mut Vec<u8>,
    annotations: &mut Annotations,
) -> Result<(), AnnotateError>
    ensures { IsOutcome (spec.each (spec.change_instances meant.now.instances.now meant.now.how meant.now.numbers.now) (names.changes timing.now) annotations.old) result annotations.new }
{
    match timing.kind {
        TimingKind::IoPath => change_path(meant, timing, name, annotations),
        TimingKind::Port => change_wire(meant, timing, name, annotations),
        TimingKind::Setup => change_check(meant, b"tsetup", timing, name, annotations),
        TimingKind::Hold => change_check(meant, b"thold", timing, name, annotations),
        TimingKind::Recovery => change_check(meant, b"trecovery", timing, name, annotations),
        TimingKind::Removal => change_check(meant, b"tremoval", timing, name, annotations),
        TimingKind::SetupHold => {
            change_two(meant, b"tsetup", b"thold", timing, name, annotations)
        }
        TimingKind::RecRem => {
            change_two(meant, b"trecovery", b"tremoval", timing, name, annotations)
        }
        TimingKind::Period => change_port(meant, b"tperiod", timing, name, annotations),
        TimingKind::Width => change_port(meant, b"tpw", timing, name, annotations),
    }
}

/// Changes what an entry changes, where it is for an instance. What was in the buffer is written over.
pub fn enter_timing(
    meant: &Meant<'_>,
    timing: &Timing,
    name: &mut Vec<u8>,
    annotations: &mut Annotations,
) -> Result<(), AnnotateError>
    ensures { IsOutcome (spec.timed meant.now.instances.now meant.now.how (names.changes timing.now) meant.now.numbers.now annotations.old) result annotations.new }
{
    if meant.numbers.is_empty() {
        annotations.note(meant.how.place, NoteWhy::Instance)?;
        return Ok(());
    }
    change_all(meant, timing, name, annotations)
}
