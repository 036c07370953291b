//! The controls of a cell's checks and messages.

ghost use Rattle.std.specs.Prelude.{◌≡◌, find, map, IfOk};
ghost use Rattle.std.specs.Option.{option_and_then, option_copied};
ghost use Rattle.vital_objects.specs.Controls as spec;
ghost use Rattle.vital_operands.specs.declared.tree.BooleanExpr.TheViews.{out-BooleanExpr};
ghost use Rattle.vital_typed_declarations.specs.Declarations.{lent_sited};
ghost use Rattle.vital_uses.specs.Nodes.{sited_interface};

use crate::cell_reader::CellReader;
use std::alloc::AllocError;
use vital_names::CellUnit;
use vital_nodes::Iface;
use vital_operands::BooleanExpr;
use vital_typed_declarations::{
    SitedDeclaration, TypedValue, read_generic_default, sited_declarations,
};

/// What a control is.
#[derive(Clone, Copy, Debug, PartialEq, Eq)]
pub enum ControlValue {
    Literal(bool),
    /// The constant of type BOOLEAN of a package that is its default, by its number among the constants of all packages of the library,
    /// from 0.
    Constant(usize),
}

/// The controls of a cell's checks and messages (IEEE 1076.4). Each is TRUE where it is not declared or has no default.
#[derive(Clone, Copy, PartialEq, Eq)]
pub struct Controls {
    /// Whether timing checks are executed.
    pub timing_checks_on: ControlValue,
    /// What the name XOn means in expressions.
    pub x_on: ControlValue,
    /// What the name MsgOn means in expressions.
    pub msg_on: ControlValue,
}

/// The literal that a truth value is, as a control.
fn literal_in(truth: &BooleanExpr) -> Option<ControlValue>
    ensures { result ≡ spec.literal_in (out-BooleanExpr truth.now) }
{
    match truth {
        BooleanExpr::Literal(truth) => Some(ControlValue::Literal(*truth)),
        _ => None,
    }
}

/// A control that a typed value is.
fn control_in(value: &TypedValue) -> Option<ControlValue>
    ensures { result ≡ spec.control_in value.now }
{
    match value {
        TypedValue::Boolean(truth) => literal_in(truth),
        TypedValue::PackageBoolean(number) => Some(ControlValue::Constant(*number)),
        _ => None,
    }
}

/// The default of a control, if it has one.
fn default_control<'a>(
    reader: &CellReader<'a>,
    generic: &SitedDeclaration<'a, Iface>,
) -> Result<Option<ControlValue>, AllocError>
    ensures { IfOk result (λ control. control ≡ spec.default_control reader.now.names.now reader.now.faults.now (lent_sited generic.now)) }
{
    let mut broken = Vec::new(reader.alloc);
    let within = reader.in_interface(generic.site);
    match read_generic_default(&within, generic.declaration, &mut broken)? {
        Some(value) => {
            let control = control_in(&value);
            drop(value);
            Ok(control)
        }
        None => Ok(None),
    }
}

/// The generic of a name.
fn generic_named<'g, 'a>(
    generics: &'g [SitedDeclaration<'a, Iface>],
    name: &[u8],
) -> Option<&'g SitedDeclaration<'a, Iface>>
    ensures { option_copied result ≡ find (λ i. spec.is_named name.now (lent_sited i)) generics.now }
{
    generics.iter().find(|generic| generic.declaration.identifier.name.as_slice() == name)
}

/// The default of the control of a name, if it has one.
fn default_named<'a>(
    reader: &CellReader<'a>,
    generics: &[SitedDeclaration<'a, Iface>],
    name: &[u8],
) -> Result<Option<ControlValue>, AllocError>
    ensures { IfOk result (λ control. control ≡ option_and_then (spec.default_control reader.now.names.now reader.now.faults.now) (find (spec.is_named name.now) (map lent_sited generics.now))) }
{
    match generic_named(generics, name) {
        Some(generic) => {
            let control = default_control(reader, generic)?;
            Ok(control)
        }
        None => Ok(None),
    }
}

/// What the control of a name is, where these are the generics of the cell.
fn control_named<'a>(
    reader: &CellReader<'a>,
    generics: &[SitedDeclaration<'a, Iface>],
    name: &[u8],
) -> Result<ControlValue, AllocError>
    requires generics { map lent_sited generics.now ≡ sited_interface reader.now.names.now.entity.generics }
    ensures { IfOk result (λ control. control ≡ spec.control_named reader.now.names.now reader.now.faults.now name.now) }
{
    let default = default_named(reader, generics, name)?;
    Ok(default.unwrap_or(ControlValue::Literal(true)))
}

/// The controls of a cell. It takes time in proportion to its generics.
pub fn read_controls<'a>(reader: &CellReader<'a>) -> Result<Controls, AllocError>
    ensures { IfOk result (λ controls. controls ≡ spec.controls reader.now.names.now reader.now.faults.now) }
{
    let generics = reader.names.entity().generics.as_slice();
    let sited = sited_declarations(reader.alloc, CellUnit::Entity, None, generics)?;
    Ok(Controls {
        timing_checks_on: control_named(reader, &sited, b"timingcheckson")?,
        x_on: control_named(reader, &sited, b"xon")?,
        msg_on: control_named(reader, &sited, b"msgon")?,
    })
}
