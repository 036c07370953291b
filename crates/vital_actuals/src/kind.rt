//! What a formal asks of what a name stands for.

ghost use Rattle.std.specs.Prelude.{◌≡◌, IfOk};
ghost use Rattle.vital_actuals.specs.Kinds as spec;
ghost use Rattle.vital_declarations.specs.Operands as kinds;
ghost use Rattle.vital_declarations.specs.Types as types;
ghost use Rattle.vital_operands.specs.Named.{is_read_mode as is_read_mode'};
ghost use Rattle.vital_operands.specs.Seen.{lent, lent_standing};

use std::alloc::{AllocError, Global};
use vital_base::Name;
use vital_calls::ActualForm;
use vital_declarations::{DeclaredType, OperandKind, VariableType, is_level};
use vital_names::TypeName;
use vital_nodes::{Identifier, Mode};
use vital_operands::{Position, Standing};

/// What is declared, as an operand. Where nothing is, it is none.
fn operand_in(standing: Standing<'_>) -> OperandKind<'_>
    ensures { kinds.lent result ≡ spec.operand_in (lent_standing standing.entry) }
{
    match standing {
        Standing::Operand(kind) => kind,
        Standing::Constant(_) | Standing::Word(_) | Standing::Nothing => OperandKind::Other,
    }
}

/// What a name stands for at a position, as an operand.
pub fn operand_named<'a>(position: &Position<'a>, identifier: &Identifier) -> OperandKind<'a>
    ensures { kinds.lent result ≡ spec.operand_named (lent position.now) identifier.now }
{
    operand_in(position.standing(identifier))
}

/// Whether a port with a mode is read.
fn is_read_mode(mode: Mode) -> bool
    ensures { result ≡ is_read_mode' mode }
{
    matches!(mode, Mode::In | Mode::Inout)
}

/// Whether a port with a mode is driven by its cell.
fn is_driven_mode(mode: Mode) -> bool
    ensures { result ≡ spec.is_driven_mode mode }
{
    matches!(mode, Mode::Out | Mode::Inout | Mode::Buffer)
}

/// Whether an operand is an internal signal.
fn is_internal_signal(kind: OperandKind<'_>) -> bool
    ensures { result ≡ spec.is_internal_signal (kinds.lent kind.entry) }
{
    matches!(kind, OperandKind::Signal)
}

/// Whether an operand is an internal signal, or an in or inout port of levels.
fn is_signal(kind: OperandKind<'_>) -> bool
    ensures { result ≡ spec.is_signal (kinds.lent kind.entry) }
{
    match kind {
        OperandKind::Signal => true,
        OperandKind::Port(mode, declared) => is_read_mode(mode) && is_level(declared),
        _ => false,
    }
}

/// Whether an operand is an out, inout or buffer port of levels.
fn is_out_port(kind: OperandKind<'_>) -> bool
    ensures { result ≡ spec.is_out_port (kinds.lent kind.entry) }
{
    match kind {
        OperandKind::Port(mode, declared) => is_driven_mode(mode) && is_level(declared),
        _ => false,
    }
}

/// Whether an operand is a variable that keeps what a path delay knows of glitches.
fn keeps_glitch_data(kind: OperandKind<'_>) -> bool
    ensures { result ≡ spec.keeps_glitch_data (kinds.lent kind.entry) }
{
    matches!(kind, OperandKind::Variable(VariableType::GlitchData))
}

/// Whether an operand is a variable that keeps what a check of two signals knows.
fn keeps_timing_data(kind: OperandKind<'_>) -> bool
    ensures { result ≡ spec.keeps_timing_data (kinds.lent kind.entry) }
{
    matches!(kind, OperandKind::Variable(VariableType::TimingData))
}

/// Whether an operand is a variable that keeps what a check of one signal knows.
fn keeps_period_data(kind: OperandKind<'_>) -> bool
    ensures { result ≡ spec.keeps_period_data (kinds.lent kind.entry) }
{
    matches!(kind, OperandKind::Variable(VariableType::PeriodData))
}

/// Whether an operand is a variable of type X01 itself, and no alias of one.
fn is_violation(kind: OperandKind<'_>) -> bool
    ensures { result ≡ spec.is_violation (kinds.lent kind.entry) }
{
    matches!(kind, OperandKind::Variable(VariableType::X01))
}

/// Whether a type is one of delays.
fn is_of_delay(declared: DeclaredType<'_>) -> bool
    ensures { result ≡ spec.is_of_delay (types.lent declared.entry) }
{
    matches!(declared, DeclaredType::Plain(TypeName::Delay(_)))
}

/// Whether an operand is a generic of a type of delays.
fn is_delay_generic(kind: OperandKind<'_>) -> bool
    ensures { result ≡ spec.is_delay_generic (kinds.lent kind.entry) }
{
    match kind {
        OperandKind::Generic(declared) => is_of_delay(declared),
        _ => false,
    }
}

/// Whether what is declared is what a form asks of a name.
fn fits(form: ActualForm, kind: OperandKind<'_>) -> bool
    ensures { result ≡ spec.fits form (kinds.lent kind.entry) }
{
    match form {
        ActualForm::InternalSignal => is_internal_signal(kind),
        ActualForm::Signal => is_signal(kind),
        ActualForm::OutPort => is_out_port(kind),
        ActualForm::GlitchData => keeps_glitch_data(kind),
        ActualForm::TimingData => keeps_timing_data(kind),
        ActualForm::PeriodData => keeps_period_data(kind),
        ActualForm::Violation => is_violation(kind),
        ActualForm::WireDelay => is_delay_generic(kind),
        _ => false,
    }
}

/// The name of an identifier.
pub fn name_of(alloc: Global, identifier: &Identifier) -> Result<Name, AllocError>
    ensures { IfOk result (λ name. name ≡ identifier.now.name) }
{
    Ok(Name::new(Vec::from_slice(alloc, identifier.name.as_slice())?))
}

/// The name of an identifier that stands for what a form asks.
pub fn name_for(
    alloc: Global,
    position: &Position<'_>,
    form: ActualForm,
    identifier: &Identifier,
) -> Result<Option<Name>, AllocError>
    ensures { IfOk result (λ name. name ≡ spec.name_for (lent position.now) form identifier.now) }
{
    if fits(form, operand_named(position, identifier)) {
        Ok(Some(name_of(alloc, identifier)?))
    } else {
        Ok(None)
    }
}
