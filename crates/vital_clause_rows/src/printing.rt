//! Typed trees as lines of text.

use std::alloc::AllocError;
use vital_actuals::{Path, Target};
use vital_base::Name;
use vital_nodes::Shared;
use vital_objects::{Constant, ConstantValue, PackageValue, Variable, VariableKind};
use vital_operands::{BooleanExpr, ConstantName, DelayExpr, LevelExpr, TimeExpr, VectorExpr};
use vital_sections::{
    CheckParts, FunctionalStatement, PathDelay, ReferenceParts, StateTable, TimingCheck,
};
use vital_tables::Table;
use vital_typed_cells::{CellProcess, TypedCell};
use vital_typed_statements::Value;

/// Puts a name behind a blank.
fn put_name(text: &mut String, name: &Name) -> Result<(), AllocError> {
    text.push(' ')?;
    for byte in name.as_slice() {
        text.push(char::from(*byte))?;
    }
    Ok(())
}

fn put_constant_name(text: &mut String, name: &ConstantName) -> Result<(), AllocError> {
    match name {
        ConstantName::Cell(name) => put_name(text, name),
        ConstantName::Package(number) => write!(text, " package({number})"),
    }
}

// ---- expressions, down to one layer

fn put_level(text: &mut String, level: &LevelExpr) -> Result<(), AllocError> {
    match level {
        LevelExpr::Literal(level) => write!(text, " '{level:?}'"),
        LevelExpr::Signal(name) | LevelExpr::Variable(name) => put_name(text, name),
        LevelExpr::Element(name, offset) => {
            put_name(text, name)?;
            write!(text, "({offset})")
        }
        LevelExpr::Constant(name) => put_constant_name(text, name),
        LevelExpr::Logical(operator, levels) => write!(text, " {operator:?}/{}", levels.len()),
        LevelExpr::Primitive(primitive, levels) => write!(text, " {primitive:?}/{}", levels.len()),
        _ => text.push_str(" .."),
    }
}

fn put_vector(text: &mut String, vector: &VectorExpr) -> Result<(), AllocError> {
    match vector {
        VectorExpr::Variable(name, length) => {
            put_name(text, name)?;
            write!(text, "/{length}")
        }
        VectorExpr::Levels(levels) => {
            text.push_str(" (")?;
            for level in levels.as_slice() {
                put_level(text, level)?;
            }
            text.push_str(" )")
        }
        VectorExpr::Others(level, length) => {
            put_level(text, level.get())?;
            write!(text, "*{length}")
        }
        VectorExpr::Literal(levels) => {
            for level in levels.as_slice() {
                write!(text, " '{level:?}'")?;
            }
            Ok(())
        }
        VectorExpr::TruthTable(_, length) => write!(text, " table/{length}"),
    }
}

fn put_truth(text: &mut String, truth: &BooleanExpr) -> Result<(), AllocError> {
    match truth {
        BooleanExpr::Literal(truth) => write!(text, " {truth}"),
        BooleanExpr::Control(control) => write!(text, " {control:?}"),
        BooleanExpr::SameLevels(left, right) => {
            put_level(text, left)?;
            text.push_str(" =")?;
            put_level(text, right)
        }
        BooleanExpr::OtherLevels(left, right) => {
            put_level(text, left)?;
            text.push_str(" /=")?;
            put_level(text, right)
        }
        _ => text.push_str(" .."),
    }
}

fn put_time(text: &mut String, time: &TimeExpr) -> Result<(), AllocError> {
    match time {
        TimeExpr::Literal(time) => write!(text, " {time}"),
        TimeExpr::Generic(name) => put_name(text, name),
        TimeExpr::Constant(name) => put_constant_name(text, name),
    }
}

fn put_delay(text: &mut String, delay: &DelayExpr) -> Result<(), AllocError> {
    match delay {
        DelayExpr::Literal(delay) => write!(text, " {delay:?}"),
        DelayExpr::Generic(name) => put_name(text, name),
        DelayExpr::Constant(name) => put_constant_name(text, name),
    }
}

fn put_target(text: &mut String, target: &Target) -> Result<(), AllocError> {
    match target {
        Target::Level(name) => put_name(text, name),
        Target::Element(name, offset) => {
            put_name(text, name)?;
            write!(text, "({offset})")
        }
        Target::Vector(name, length) => {
            put_name(text, name)?;
            write!(text, "/{length}")
        }
    }
}

// ---- declarations

/// Puts each row of a table behind a blank.
fn put_table(text: &mut String, table: &Table) -> Result<(), AllocError> {
    for row in table.rows() {
        text.push(' ')?;
        for symbol in row.as_slice() {
            text.push(char::from(*symbol))?;
        }
    }
    Ok(())
}

fn put_constant(text: &mut String, constant: &Constant) -> Result<(), AllocError> {
    text.push_str("constant")?;
    put_name(text, &constant.name)?;
    match constant.value.get() {
        ConstantValue::Level(level) => put_level(text, level)?,
        ConstantValue::Boolean(truth) => put_truth(text, truth)?,
        ConstantValue::Time(time) => put_time(text, time)?,
        ConstantValue::Delay(delay_type, delay) => {
            write!(text, " {delay_type:?}")?;
            put_delay(text, delay)?;
        }
        ConstantValue::Table(table) => put_table(text, table)?,
    }
    text.push_str("\n")
}

fn put_worth(text: &mut String, value: &PackageValue) -> Result<(), AllocError> {
    match value {
        PackageValue::Level(level) => put_level(text, level),
        PackageValue::Boolean(truth) => put_truth(text, truth),
        PackageValue::Time(time) => write!(text, " {time}"),
        PackageValue::Delay(delay) => write!(text, " {delay:?}"),
        PackageValue::Table(_) => text.push_str(" table"),
    }
}

fn put_package_value(
    text: &mut String,
    value: &Option<Shared<PackageValue>>,
) -> Result<(), AllocError> {
    text.push_str("package")?;
    match value {
        Some(value) => put_worth(text, value.get())?,
        None => text.push_str(" nothing")?,
    }
    text.push_str("\n")
}

fn put_variable(text: &mut String, variable: &Variable) -> Result<(), AllocError> {
    text.push_str("variable")?;
    put_name(text, &variable.name)?;
    match variable.kind.get() {
        VariableKind::Level(default) => {
            text.push_str(" level")?;
            put_default(text, default)?;
        }
        VariableKind::X01(default) => {
            text.push_str(" x01")?;
            put_default(text, default)?;
        }
        VariableKind::Vector(length, default) => {
            write!(text, " vector/{length}")?;
            match default {
                Some(vector) => put_vector(text, vector)?,
                None => text.push_str(" -")?,
            }
        }
        VariableKind::GlitchData => text.push_str(" glitch data")?,
        VariableKind::TimingData => text.push_str(" timing data")?,
        VariableKind::PeriodData => text.push_str(" period data")?,
    }
    text.push_str("\n")
}

fn put_default(text: &mut String, default: &Option<LevelExpr>) -> Result<(), AllocError> {
    match default {
        Some(level) => put_level(text, level),
        None => text.push_str(" -"),
    }
}

fn put_shared(text: &mut String, default: &Option<Shared<LevelExpr>>) -> Result<(), AllocError> {
    match default {
        Some(level) => put_level(text, level.get()),
        None => text.push_str(" -"),
    }
}

// ---- statements

fn put_parts(text: &mut String, parts: &CheckParts) -> Result<(), AllocError> {
    put_name(text, &parts.violation)?;
    put_name(text, &parts.test_signal)?;
    put_truth(text, &parts.check_enabled)?;
    put_truth(text, &parts.x_on)?;
    put_truth(text, &parts.msg_on)
}

fn put_reference(text: &mut String, reference: &ReferenceParts) -> Result<(), AllocError> {
    put_name(text, &reference.timing_data)?;
    put_name(text, &reference.ref_signal)?;
    write!(text, " {}", char::from(reference.ref_transition))
}

fn put_check(text: &mut String, check: &TimingCheck) -> Result<(), AllocError> {
    match check {
        TimingCheck::SetupHold(check) => {
            text.push_str("setup hold")?;
            put_parts(text, &check.parts)?;
            put_reference(text, &check.reference)?;
            put_time(text, &check.setup_high)?;
            put_time(text, &check.setup_low)?;
            put_time(text, &check.hold_high)?;
            put_time(text, &check.hold_low)?;
        }
        TimingCheck::RecoveryRemoval(check) => {
            text.push_str("recovery removal")?;
            put_parts(text, &check.parts)?;
            put_reference(text, &check.reference)?;
            put_time(text, &check.recovery)?;
            put_time(text, &check.removal)?;
            put_truth(text, &check.active_low)?;
        }
        TimingCheck::PeriodPulse(check) => {
            text.push_str("period pulse")?;
            put_parts(text, &check.parts)?;
            put_name(text, &check.period_data)?;
            put_time(text, &check.period)?;
            put_time(text, &check.pulse_width_high)?;
            put_time(text, &check.pulse_width_low)?;
        }
    }
    text.push_str("\n")
}

fn put_state_table(text: &mut String, table: &StateTable) -> Result<(), AllocError> {
    text.push_str("state table")?;
    put_constant_name(text, &table.table)?;
    put_vector(text, &table.data_in)?;
    put_target(text, &table.result)?;
    write!(text, " {}", table.num_states)?;
    put_name(text, &table.previous_data_in)
}

fn put_functional(text: &mut String, statement: &FunctionalStatement) -> Result<(), AllocError> {
    match statement {
        FunctionalStatement::Assignment(target, value) => {
            text.push_str("assign")?;
            put_target(text, target)?;
            match value {
                Value::Level(level) => put_level(text, level)?,
                Value::Vector(vector) => put_vector(text, vector)?,
            }
        }
        FunctionalStatement::StateTable(table) => put_state_table(text, table)?,
    }
    text.push_str("\n")
}

fn put_path(text: &mut String, path: &Path) -> Result<(), AllocError> {
    text.push_str("  path")?;
    put_name(text, &path.signal)?;
    put_delay(text, &path.delay)?;
    put_truth(text, &path.condition)?;
    text.push_str("\n")
}

fn put_path_delay(text: &mut String, delay: &PathDelay) -> Result<(), AllocError> {
    text.push_str("path delay")?;
    write!(text, " {:?}", delay.delay_type)?;
    put_name(text, &delay.out_signal)?;
    put_name(text, &delay.glitch_data)?;
    put_level(text, &delay.out_temp)?;
    put_delay(text, &delay.default_delay)?;
    write!(text, " {:?}", delay.mode)?;
    put_truth(text, &delay.x_on)?;
    put_truth(text, &delay.msg_on)?;
    text.push_str("\n")?;
    for path in delay.paths.as_slice() {
        put_path(text, path)?;
    }
    Ok(())
}

fn put_process(text: &mut String, process: &CellProcess) -> Result<(), AllocError> {
    text.push_str("process")?;
    for number in process.sensitivity.as_slice() {
        write!(text, " {number}")?;
    }
    text.push_str("\n")?;
    for constant in process.constants.as_slice() {
        put_constant(text, constant)?;
    }
    for variable in process.variables.as_slice() {
        put_variable(text, variable)?;
    }
    for check in process.sections.checks.as_slice() {
        put_check(text, check)?;
    }
    for statement in process.sections.functionality.as_slice() {
        put_functional(text, statement)?;
    }
    for delay in process.sections.path_delays.as_slice() {
        put_path_delay(text, delay)?;
    }
    Ok(())
}

// ---- cells

/// Puts the ports, generics and controls of a cell.
fn put_interface(text: &mut String, cell: &TypedCell) -> Result<(), AllocError> {
    for port in cell.ports.as_slice() {
        text.push_str("port")?;
        put_name(text, &port.name)?;
        write!(text, " {} {:?}", port.place.line, port.mode)?;
        write!(text, " {}", port.is_resolved)?;
        put_shared(text, &port.default)?;
        text.push_str("\n")?;
    }
    for generic in cell.generics.as_slice() {
        text.push_str("generic")?;
        put_name(text, &generic.name)?;
        let parts = generic.parts;
        write!(text, " {:?} {} {:?}", parts.kind, parts.first, parts.second)?;
        write!(text, " {:?}\n", generic.default)?;
    }
    for generic in cell.plain_generics.as_slice() {
        text.push_str("plain")?;
        put_name(text, &generic.name)?;
        write!(text, " {:?}\n", generic.default)?;
    }
    let controls = cell.controls;
    write!(
        text,
        "controls {:?} {:?}",
        controls.timing_checks_on, controls.x_on
    )?;
    write!(text, " {:?}\n", controls.msg_on)
}

/// Puts a cell, one line for each part.
pub fn put_cell(text: &mut String, cell: &TypedCell) -> Result<(), AllocError> {
    put_interface(text, cell)?;
    for signal in cell.signals.as_slice() {
        text.push_str("signal")?;
        put_name(text, &signal.name)?;
        write!(
            text,
            " {} {} {:?}\n",
            signal.place.line, signal.is_resolved, signal.initial
        )?;
    }
    for constant in cell.constants.as_slice() {
        put_constant(text, constant)?;
    }
    for value in cell.packages.get().as_slice() {
        put_package_value(text, value)?;
    }
    write!(text, "before wires {}\n", cell.processes_before_wires)?;
    for wire in cell.wires.as_slice() {
        text.push_str("wire")?;
        put_name(text, &wire.signal)?;
        put_name(text, &wire.port)?;
        put_name(text, &wire.generic)?;
        text.push_str("\n")?;
    }
    for process in cell.processes.as_slice() {
        put_process(text, process)?;
    }
    Ok(())
}
