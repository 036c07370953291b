//! One association.

ghost use Rattle.std.specs.Prelude.{◌≡◌, ◌||◌, not, true, List, length, IfOk, OnOk};
ghost use Rattle.std.specs.Option.{option_map};
ghost use Rattle.vital_associations.specs.Actuals as actuals;
ghost use Rattle.vital_associations.specs.Associations as spec;
ghost use Rattle.vital_associations.specs.Formals.{shape_at};
ghost use Rattle.vital_associations.specs.Spans.{AreApart, HasSpans, Span, is_met, takes, takes_of};
ghost use Rattle.vital_structure.specs.Shapes.{lent_part};

use crate::actual::{Actual, given, is_read_only, shape_of};
use crate::formals::Formals;
use crate::given::formal_name;
use crate::misfit::{Misfit, drives, misfit_of_shapes};
use crate::span::span_of;
use crate::spans::{Spans, is_met, put_span};
use std::alloc::AllocError;
use vital_nodes::Item;
use vital_structure::{Part, Structure};

/// A port of an instance or a part of it, with what it is associated with.
#[derive(Clone, Copy)]
pub struct Association<'a> {
    /// The number of the port.
    pub port: usize,
    pub part: Part<'a>,
    pub actual: Actual<'a>,
}

/// The port map of an instance in a unit: how many of its items come by their positions before any other.
#[derive(Clone, Copy)]
pub struct PortMap<'a, 'b> {
    pub structure: &'b Structure<'a>,
    pub formals: &'b Formals<'a>,
    pub leading: usize,
}

impl<'a, 'b> PortMap<'a, 'b> {
    /// The port at a position, as a whole.
    fn port_at(&self, position: usize) -> Option<(usize, Part<'a>)>
        ensures { option_map (λ f. (f.0, lent_part f.1)) result ≡ spec.port_at (spec.port_map self.now) position }
    {
        if position < self.formals.ports().len() {
            Some((position, Part::Whole))
        } else {
            None
        }
    }

    /// The formal of the item at a position.
    fn formal_of(&self, position: usize, item: &'a Item) -> Option<(usize, Part<'a>)>
        ensures { option_map (λ f. (f.0, lent_part f.1)) result ≡ spec.formal_of (spec.port_map self.now) position item.now }
    {
        if position < self.leading {
            return self.port_at(position);
        }
        match formal_name(item) {
            Some(name) => self.formals.named(name),
            None => None,
        }
    }

    /// Takes the bits of a part of a port, and answers whether none of them was taken before.
    fn take(&self, spans: &mut Spans<'a>, port: usize, part: Part<'a>) -> Result<bool, AllocError>
        requires { AreApart spans.old.entries }
        ensures apart { OnOk result (AreApart spans.new.entries) }
        ensures free { IfOk result (λ free. (earlier : List spec.Association) → HasSpans (spec.port_map self.now) earlier spans.old.entries → free ≡ not (spec.is_taken (shape_at self.now.formals.now port) port (lent_part part.entry) earlier)) }
        ensures taken { IfOk result (λ free. free ≡ true → (s : Span) → is_met spans.new.entries s ≡ (is_met spans.old.entries s || takes s (shape_at self.now.formals.now port) port (lent_part part.entry))) }
    {
        let Some(span) = span_of(self.formals.shape(port), port, part) else {
            return Ok(true);
        };
        if is_met(spans, span) {
            return Ok(false);
        }
        put_span(spans, span)?;
        Ok(true)
    }

    /// Why an actual may not be associated with a part of a port by what the two are.
    fn misfit_by_shape(&self, port: usize, part: Part<'a>, actual: Actual<'a>) -> Option<Misfit>
        ensures { result ≡ spec.misfit_by_shape (spec.port_map self.now) port (lent_part part.entry) (actuals.lent actual.entry) }
    {
        match shape_of(self.structure, actual) {
            Some(shape) => misfit_of_shapes(self.formals.shape(port).part(part), shape),
            None => None,
        }
    }

    /// Why an actual may not be associated with a port by its mode.
    fn misfit_by_mode(&self, port: usize, actual: Actual<'a>) -> Option<Misfit>
        ensures { result ≡ spec.misfit_by_mode (spec.port_map self.now) port (actuals.lent actual.entry) }
    {
        if drives(self.formals.mode(port)) && is_read_only(self.structure, actual) {
            Some(Misfit::Mode)
        } else {
            None
        }
    }

    /// Why an actual may not be associated with a part of a port.
    fn misfit_of(&self, port: usize, part: Part<'a>, actual: Actual<'a>) -> Option<Misfit>
        ensures { result ≡ spec.misfit_of (spec.port_map self.now) port (lent_part part.entry) (actuals.lent actual.entry) }
    {
        match self.misfit_by_shape(port, part, actual) {
            Some(misfit) => Some(misfit),
            None => self.misfit_by_mode(port, actual),
        }
    }

    /// The association of a part of a port with what an item gives.
    fn with_actual(
        &self,
        port: usize,
        part: Part<'a>,
        actual: Option<Actual<'a>>,
    ) -> Result<Association<'a>, Misfit>
        ensures association { spec.lent_result result ≡ spec.with_actual (spec.port_map self.now) port (lent_part part.entry) (option_map actuals.lent actual.entry) }
        ensures part { IfOk result (λ a. (a.port ≡ port) × (lent_part a.part ≡ lent_part part.entry)) }
    {
        let Some(actual) = actual else {
            return Err(Misfit::UnknownSignal);
        };
        match self.misfit_of(port, part, actual) {
            Some(misfit) => Err(misfit),
            None => Ok(Association { port, part, actual }),
        }
    }

    /// The association of the item at a position behind earlier ones, or the first test that it fails. The spans are the bits that the
    /// earlier ones take, and then that it takes too.
    pub fn association_of(
        &self,
        spans: &mut Spans<'a>,
        position: usize,
        item: &'a Item,
    ) -> Result<Result<Association<'a>, Misfit>, AllocError>
        requires { AreApart spans.old.entries }
        ensures apart { OnOk result (AreApart spans.new.entries) }
        ensures association { IfOk result (λ r. (earlier : List spec.Association) → HasSpans (spec.port_map self.now) earlier spans.old.entries → length earlier ≡ position → spec.lent_result r ≡ spec.association_of (spec.port_map self.now) earlier item.now) }
        ensures taken { IfOk result (λ r. IfOk r (λ a. (s : Span) → is_met spans.new.entries s ≡ (is_met spans.old.entries s || takes_of (spec.port_map self.now) s (spec.lent a)))) }
    {
        let Some((port, part)) = self.formal_of(position, item) else {
            return Ok(Err(Misfit::UnknownPort));
        };
        if self.take(spans, port, part)? {
            Ok(self.with_actual(port, part, given(self.structure, item)))
        } else {
            Ok(Err(Misfit::Twice))
        }
    }
}
