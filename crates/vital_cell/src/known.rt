//! What the names of a cell mean that is compiled.

ghost use Rattle.std.specs.Prelude.{◌≡◌, ◌++◌, [], IfOk, OnOk, map};
ghost use Rattle.std.specs.Option.{option_map};
ghost use Rattle.vital_cell.specs.Compiled.{AreKnown};
ghost use Rattle.vital_cell.specs.Environments.{control_of, control_worth};
ghost use Rattle.vital_typed_cells.specs.SoundDeclarations.{AreSoundPackages};
ghost use Rattle.vital_cell.specs.Scopes as scopes;
ghost use Rattle.vital_cell.specs.Worths as worths;
ghost use Rattle.vital_typed_cells.specs.Bits.{names_of};
ghost use Rattle.vital_typed_cells.specs.PackageWorths as package_worths';

use crate::constants::package_worths;
use crate::name_numbers::NameNumbers;
use crate::scope::ControlTruths;
use crate::variable_numbers::VariableNumbers;
use crate::worth::{Worth, truth_of};
use std::alloc::{AllocError, Global};
use vital_objects::{Constant, ControlValue, Controls, PlainGeneric, Port, Signal, TimingGeneric};
use vital_timing::Delay;
use vital_typed_cells::TypedCell;

/// Puts the names of ports at the end.
fn put_ports<'a>(ports: &'a [Port], names: &mut Vec<&'a [u8]>) -> Result<(), AllocError>
    ensures { OnOk result (map (λ name. name.now) names.new.items ≡ map (λ name. name.now) names.old.items ++ map (λ p. p.name) ports.now) }
{
    for port in ports {
        names.push(port.name.as_slice())?;
    }
    Ok(())
}

/// Puts the names of signals at the end.
fn put_signals<'a>(signals: &'a [Signal], names: &mut Vec<&'a [u8]>) -> Result<(), AllocError>
    ensures { OnOk result (map (λ name. name.now) names.new.items ≡ map (λ name. name.now) names.old.items ++ map (λ s. s.name) signals.now) }
{
    for signal in signals {
        names.push(signal.name.as_slice())?;
    }
    Ok(())
}

/// The names of bits, in order.
fn names_of_bits<'a>(
    alloc: Global,
    ports: &'a [Port],
    signals: &'a [Signal],
) -> Result<Vec<&'a [u8]>, AllocError>
    ensures { IfOk result (λ names. map (λ name. name.now) names.items ≡ names_of ports.now signals.now) }
{
    let mut names: Vec<&'a [u8]> = Vec::new(alloc);
    put_ports(ports, &mut names)?;
    put_signals(signals, &mut names)?;
    Ok(names)
}

/// Puts the names of timing generics at the end.
fn put_timing<'a>(
    generics: &'a [TimingGeneric],
    names: &mut Vec<&'a [u8]>,
) -> Result<(), AllocError>
    ensures { OnOk result (map (λ name. name.now) names.new.items ≡ map (λ name. name.now) names.old.items ++ map (λ g. g.name) generics.now) }
{
    for generic in generics {
        names.push(generic.name.as_slice())?;
    }
    Ok(())
}

/// Puts the names of other generics at the end.
fn put_plain<'a>(generics: &'a [PlainGeneric], names: &mut Vec<&'a [u8]>) -> Result<(), AllocError>
    ensures { OnOk result (map (λ name. name.now) names.new.items ≡ map (λ name. name.now) names.old.items ++ map (λ g. g.name) generics.now) }
{
    for generic in generics {
        names.push(generic.name.as_slice())?;
    }
    Ok(())
}

/// The names of generics, in order: the timing generics and then the others.
fn names_of_generics<'a>(
    alloc: Global,
    timing: &'a [TimingGeneric],
    plain: &'a [PlainGeneric],
) -> Result<Vec<&'a [u8]>, AllocError>
    ensures { IfOk result (λ names. map (λ name. name.now) names.items ≡ map (λ g. g.name) timing.now ++ map (λ g. g.name) plain.now) }
{
    let mut names: Vec<&'a [u8]> = Vec::new(alloc);
    put_timing(timing, &mut names)?;
    put_plain(plain, &mut names)?;
    Ok(names)
}

/// The delays of generics, in their order: the given ones and then the defaults of the others.
fn delays_of_generics(
    alloc: Global,
    values: &[Delay],
    plain: &[PlainGeneric],
) -> Result<Vec<Delay>, AllocError>
    ensures { IfOk result (λ delays. delays.items ≡ values.now ++ map (λ g. g.default) plain.now) }
{
    let mut delays = Vec::from_slice(alloc, values)?;
    for generic in plain {
        delays.push(generic.default)?;
    }
    Ok(delays)
}

/// Puts the names of constants at the end.
pub(crate) fn put_names<'a>(
    constants: &'a [Constant],
    names: &mut Vec<&'a [u8]>,
) -> Result<(), AllocError>
    ensures { OnOk result (map (λ name. name.now) names.new.items ≡ map (λ name. name.now) names.old.items ++ map (λ c. c.name) constants.now) }
{
    for constant in constants {
        names.push(constant.name.as_slice())?;
    }
    Ok(())
}

/// The names of constants, in order.
fn names_of_constants<'a>(
    alloc: Global,
    constants: &'a [Constant],
) -> Result<Vec<&'a [u8]>, AllocError>
    ensures { IfOk result (λ names. map (λ name. name.now) names.items ≡ map (λ c. c.name) constants.now) }
{
    let mut names: Vec<&'a [u8]> = Vec::new(alloc);
    put_names(constants, &mut names)?;
    Ok(names)
}

/// What the constant of a number among those of packages is worth.
fn worth_at<'a>(packages: &[Option<Worth<'a>>], number: usize) -> Option<Worth<'a>>
    ensures { option_map worths.lent result ≡ package_worths'.worth_at (scopes.package_worths packages.now) number }
{
    match packages.get(number) {
        Some(worth) => *worth,
        None => None,
    }
}

/// What a control is.
fn control_truth(packages: &[Option<Worth<'_>>], control: ControlValue) -> bool
    ensures { result ≡ control_worth (scopes.package_worths packages.now) control }
{
    match control {
        ControlValue::Literal(truth) => truth,
        ControlValue::Constant(number) => truth_of(worth_at(packages, number)),
    }
}

/// What the controls of a cell are.
pub(crate) fn control_truths(packages: &[Option<Worth<'_>>], controls: Controls) -> ControlTruths
    ensures { scopes.truth_of result ≡ control_of (scopes.package_worths packages.now) controls }
{
    ControlTruths {
        timing_checks_on: control_truth(packages, controls.timing_checks_on),
        x_on: control_truth(packages, controls.x_on),
        msg_on: control_truth(packages, controls.msg_on),
    }
}

/// What the names of a cell mean that is compiled.
#[derive(Drop)]
pub(crate) struct KnownNames<'a> {
    pub(crate) bits: NameNumbers<'a>,
    pub(crate) no_variables: VariableNumbers<'a>,
    pub(crate) constants: NameNumbers<'a>,
    pub(crate) packages: Vec<Option<Worth<'a>>>,
    pub(crate) generics: NameNumbers<'a>,
    pub(crate) delays: Vec<Delay>,
}

/// What the names of a cell mean whose timing generics have these delays.
pub(crate) fn known_names<'a>(
    alloc: Global,
    cell: &'a TypedCell,
    values: &[Delay],
) -> Result<KnownNames<'a>, AllocError>
    requires { AreSoundPackages [] cell.now.packages }
    ensures { IfOk result (λ known. AreKnown cell.now values.now known) }
{
    let timing = cell.generics.as_slice();
    let plain = cell.plain_generics.as_slice();
    let bits = names_of_bits(alloc, cell.ports.as_slice(), cell.signals.as_slice())?;
    let constants = names_of_constants(alloc, cell.constants.as_slice())?;
    let generics = names_of_generics(alloc, timing, plain)?;
    Ok(KnownNames {
        bits: NameNumbers::new(alloc, bits)?,
        no_variables: VariableNumbers::new(alloc, &[])?,
        constants: NameNumbers::new(alloc, constants)?,
        packages: package_worths(alloc, cell.packages.get().as_slice())?,
        generics: NameNumbers::new(alloc, generics)?,
        delays: delays_of_generics(alloc, values, plain)?,
    })
}
