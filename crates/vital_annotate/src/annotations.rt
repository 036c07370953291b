//! The delays of a design's instances, and the notes, as far as they have come.

ghost use Rattle.std.specs.Prelude.{◌≡◌, [], map, IfOk, OnOk};
ghost use Rattle.vital_annotate.specs.Annotations as spec;

use crate::annotating::Annotated;
use crate::note::{Note, NoteWhy};
use std::alloc::{AllocError, Global};
use std::marker::Model;
use vital_base::{List, Place};
use vital_timing::Delay;

/// The delays of the timing generics of each instance, and the notes so far.
#[derive(Drop)]
pub struct Annotations {
    values: Vec<Vec<Delay>>,
    notes: Vec<Note>,
}

impl Model for Annotations {
    ghost use Rattle.std.specs.Coded.{codes};
    ghost use Rattle.std.specs.Prelude.{map};
    ghost use Rattle.vital_annotate.specs.contracts.note.Note as note;
    ghost use Rattle.vital_annotate.specs.Annotations.{Annotated};
    ghost use Rattle.vital_timing.specs.contracts.delay.Delay as delay;

    ghost Value = { Annotated };

    ghost coded = { Prim.hlevel (codes, delay.the_row.coded, note.the_row.coded) };

    ghost view = { λ a. record { values = map (λ delays. delays.items) a.values.items; notes = a.notes.items } };
}

/// Delays as lists.
fn lists_of(alloc: Global, values: Vec<Vec<Delay>>) -> Result<Vec<List<Delay>>, AllocError>
    ensures { IfOk result (λ lists. lists.items ≡ map (λ delays. delays.items) values.items) }
{
    let mut lists = Vec::with_capacity(alloc, values.len())?;
    for delays in values {
        lists.push(List::new(delays))?;
    }
    Ok(lists)
}

/// Puts a delay in the place of another, if it is there.
fn put_at(values: &mut Vec<Vec<Delay>>, instance: usize, number: usize, delay: Delay)
    ensures { map (λ delays. delays.items) values.new.items ≡ spec.with_delay instance number delay (map (λ delays. delays.items) values.old.items) }
{
    if instance < values.len() && number < values[instance].len() {
        values[instance][number] = delay;
    }
}

impl Annotations {
    /// These delays, and no notes.
    pub fn new(alloc: Global, values: Vec<Vec<Delay>>) -> Annotations
        ensures { result ≡ record { values = map (λ delays. delays.items) values.items; notes = [] } }
    {
        Annotations {
            values,
            notes: Vec::new(alloc),
        }
    }

    /// Puts a note at the end.
    pub fn note(&mut self, place: Place, why: NoteWhy) -> Result<(), AllocError>
        ensures { OnOk result (self.new ≡ spec.noted place why self.old) }
    {
        self.notes.push(Note { place, why })?;
        Ok(())
    }

    /// The delay of a timing generic of an instance.
    pub fn delay(&self, instance: usize, number: usize) -> Delay
        ensures { result ≡ spec.delay_at self.now.values instance number }
    {
        match self.values.get(instance) {
            Some(delays) => match delays.get(number) {
                Some(delay) => *delay,
                None => Delay::One(0),
            },
            None => Delay::One(0),
        }
    }

    /// Puts a delay in its place.
    pub fn put(&mut self, instance: usize, number: usize, delay: Delay)
        ensures { self.new ≡ spec.put_delay instance number delay self.old }
    {
        put_at(&mut self.values, instance, number, delay);
    }

    /// The delays and the notes as lists.
    pub fn into_annotated(self, alloc: Global) -> Result<Annotated, AllocError>
        ensures values { IfOk result (λ a. a.values ≡ self.values) }
        ensures notes { IfOk result (λ a. a.notes ≡ self.notes) }
    {
        let Annotations { values, notes } = self;
        Ok(Annotated {
            values: List::new(lists_of(alloc, values)?),
            notes: List::new(notes),
        })
    }
}
