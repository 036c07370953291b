//! Names in a design, one after another in one text.

ghost use Rattle.std.specs.Prelude.{◌≡◌, [], OnOk};
ghost use Rattle.vital_netlist.specs.Designs as designs;
ghost use Rattle.vital_netlist.specs.Names.{with_dots};
ghost use Rattle.vital_netlist.specs.Trees as spec;

use crate::design::Design;
use crate::design_lists::DesignSignal;
use crate::names::{put_bit, put_dots, put_path};
use std::alloc::{AllocError, Global};
use std::marker::Model;

/// The name of an instance or of a signal of a design as it is printed, which is written over by the next one. The labels on the path of an
/// instance are written once for its signals that come one after another. Contracts see it as the design and the name.
#[derive(Drop)]
pub struct NameText<'b, 'a> {
    design: &'b Design<'a>,
    /// The number of an instance.
    instance: usize,
    /// How long the labels on the path of that instance are, with a dot behind each. The text begins with them.
    prefix: usize,
    text: Vec<u8>,
}

impl<'b, 'a> Model for NameText<'b, 'a> {
    ghost use Rattle.std.specs.Prelude.{◌≡◌, length, take};
    ghost use Rattle.std.specs.Coded.{codes};
    ghost use Rattle.vital_base.specs.contracts.ports.PortBit as port_bit;
    ghost use Rattle.vital_logic.specs.contracts.level.Level as level;
    ghost use Rattle.vital_netlist.specs.contracts.design_lists.DesignDriver as driver;
    ghost use Rattle.vital_netlist.specs.Designs as designs;
    ghost use Rattle.vital_netlist.specs.Names.{with_dots};
    ghost use Rattle.vital_netlist.specs.Trees.{NameText as NameText'};
    ghost use Rattle.vital_typed_cells.specs.contracts.typed_cell.TypedCell as tree;

    ghost Value = { NameText' };

    ghost coded = { Prim.hlevel (codes, driver.the_row.coded, level.the_row.coded, port_bit.the_row.coded, tree.the_row.coded) };

    ghost view = { λ t. record { design = t.design.now; name = t.text.items } };

    ghost invariant = { λ t. (length (with_dots (designs.labels t.design.now t.instance)) ≡ t.prefix) × (take t.prefix t.text.items ≡ with_dots (designs.labels t.design.now t.instance)) };
}

impl<'b, 'a> NameText<'b, 'a> {
    /// No name yet. It takes no memory.
    pub fn new(alloc: Global, design: &'b Design<'a>) -> NameText<'b, 'a>
        ensures { result ≡ record { design = design.now; name = [] } }
    {
        NameText {
            design,
            instance: 0,
            prefix: 0,
            text: Vec::new(alloc),
        }
    }

    /// The name that was written last.
    pub fn as_slice(&self) -> &[u8]
        ensures { result.now ≡ self.now.name }
    {
        &self.text
    }

    /// Takes all away.
    fn clear(&mut self)
        ensures { self.new ≡ record { design = self.old.design; name = [] } }
    {
        self.instance = 0;
        self.prefix = 0;
        self.text.clear();
    }

    /// Writes the path of the instance of a number: its labels with dots between them, and a dash for the top.
    pub fn write_path(&mut self, alloc: Global, instance: usize) -> Result<(), AllocError>
        ensures same { self.new.design ≡ self.old.design }
        ensures path { OnOk result (self.new.name ≡ spec.path_of self.old.design instance) }
    {
        let labels = self.design.labels(alloc, instance)?;
        self.clear();
        put_path(&mut self.text, &labels)
    }

    /// Writes the labels on the path of the instance of a number, a dot behind each.
    fn write_labels(&mut self, alloc: Global, instance: usize) -> Result<(), AllocError>
        ensures same { self.new.design ≡ self.old.design }
        ensures labels { OnOk result (self.new.name ≡ with_dots (designs.labels self.old.design instance)) }
    {
        if self.instance == instance {
            self.text.truncate(self.prefix);
            return Ok(());
        }
        let labels = self.design.labels(alloc, instance)?;
        self.clear();
        put_dots(&mut self.text, &labels)?;
        self.instance = instance;
        self.prefix = self.text.len();
        Ok(())
    }

    /// Writes the name of a signal: the labels on the path of its instance, a dot behind each, and then its identifier with its index.
    pub fn write_signal(
        &mut self,
        alloc: Global,
        signal: &DesignSignal<'_>,
    ) -> Result<(), AllocError>
        ensures same { self.new.design ≡ self.old.design }
        ensures name { OnOk result (self.new.name ≡ spec.name_of self.old.design (designs.lent_signal signal.now)) }
    {
        self.write_labels(alloc, signal.instance)?;
        let written = put_bit(alloc, &mut self.text, signal.identifier, &signal.index);
        if written.is_err() {
            // Nothing is known of the text then. The top has no labels.
            self.instance = 0;
            self.prefix = 0;
        }
        written
    }
}
