//! What the names in the typed trees of a cell mean.

ghost use Rattle.std.specs.Prelude.{◌≡◌, slice_get, unwrap_or};
ghost use Rattle.std.specs.Option.{option_map};
ghost use Rattle.vital_cell.specs.Environments.{constant_of, delay_named};
ghost use Rattle.vital_operands.specs.declared.tree.ConstantName.TheVariants as constant;
ghost use Rattle.vital_cell.specs.Scopes as spec;
ghost use Rattle.vital_cell.specs.Worths.{lent as lent_worth};
ghost use Rattle.vital_timing.specs.declared.delay.Delay.TheVariants as delay;

use crate::name_numbers::NameNumbers;
use crate::variable_numbers::VariableNumbers;
use crate::worth::Worth;
use std::alloc::Global;
use vital_operands::{ConstantName, Control};
use vital_timing::Delay;

/// What the controls of a cell are.
#[derive(Clone, Copy)]
pub struct ControlTruths {
    pub timing_checks_on: bool,
    pub x_on: bool,
    pub msg_on: bool,
}

/// What the names in typed trees mean: the numbers of bits and of variables, and what constants and generics are worth.
#[derive(Clone, Copy)]
pub struct Scope<'s, 'a> {
    pub alloc: Global,
    /// The bits of the ports and of the internal signals.
    pub bits: &'s NameNumbers<'a>,
    /// The variables of the process.
    pub variables: &'s VariableNumbers<'a>,
    /// The constants of the cell, of which the first ones are worth these.
    pub constants: &'s NameNumbers<'a>,
    pub worths: &'s [Worth<'a>],
    /// What the constants of packages are worth, by their numbers.
    pub packages: &'s [Option<Worth<'a>>],
    /// The generics, with their delays.
    pub generics: &'s NameNumbers<'a>,
    pub delays: &'s [Delay],
    pub controls: ControlTruths,
}

impl<'s, 'a> Scope<'s, 'a> {
    /// What the constant of a number among those of the cell is worth.
    fn worth_at(&self, number: usize) -> Option<Worth<'a>>
        ensures { option_map lent_worth result ≡ option_map lent_worth (slice_get self.now.worths.now number) }
    {
        match self.worths.get(number) {
            Some(worth) => Some(*worth),
            None => None,
        }
    }

    /// What a constant of the cell is worth.
    fn own_worth(&self, name: &[u8]) -> Option<Worth<'a>>
        ensures { option_map lent_worth result ≡ constant_of (spec.lent self.now).constants (spec.lent self.now).packages (constant.Cell name.now) }
    {
        match self.constants.number(name) {
            Some(number) => self.worth_at(number),
            None => None,
        }
    }

    /// What the constant of a number among those of packages is worth.
    fn package_worth(&self, number: usize) -> Option<Worth<'a>>
        ensures { option_map lent_worth result ≡ constant_of (spec.lent self.now).constants (spec.lent self.now).packages (constant.Package number) }
    {
        match self.packages.get(number) {
            Some(worth) => *worth,
            None => None,
        }
    }

    /// What a constant is worth.
    pub fn worth(&self, name: &ConstantName) -> Option<Worth<'a>>
        ensures { option_map lent_worth result ≡ constant_of (spec.lent self.now).constants (spec.lent self.now).packages name.now }
    {
        match name {
            ConstantName::Cell(name) => self.own_worth(name.as_slice()),
            ConstantName::Package(number) => self.package_worth(*number),
        }
    }

    /// The delay of the generic of a number; 0 where there is none.
    fn delay_at(&self, number: usize) -> Delay
        ensures { result ≡ unwrap_or (slice_get self.now.delays.now number) (delay.One 0) }
    {
        match self.delays.get(number) {
            Some(delay) => *delay,
            None => Delay::One(0),
        }
    }

    /// The delay of a generic; 0 where there is none of the name.
    pub fn delay(&self, name: &[u8]) -> Delay
        ensures { result ≡ delay_named (spec.lent self.now).generics name.now }
    {
        match self.generics.number(name) {
            Some(number) => self.delay_at(number),
            None => Delay::One(0),
        }
    }

    /// What a control is.
    pub fn control(&self, control: Control) -> bool
        ensures { result ≡ (spec.lent self.now).controls control }
    {
        match control {
            Control::TimingChecksOn => self.controls.timing_checks_on,
            Control::XOn => self.controls.x_on,
            Control::MsgOn => self.controls.msg_on,
        }
    }
}
