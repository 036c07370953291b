//! Calls of timing checks.

ghost use Rattle.std.specs.Prelude.{◌≡◌, IfOk};
ghost use Rattle.vital_names.specs.declared.predeclared.Check.TheVariants as check;
ghost use Rattle.vital_sections.specs.Given.{lent};
ghost use Rattle.vital_sections.specs.TimingChecks as spec;

use crate::given::GivenCall;
use std::alloc::AllocError;
use vital_base::Name;
use vital_calls::ActualForm;
use vital_names::Check;
use vital_operands::{BooleanExpr, TimeExpr};

/// What every timing check has. Names of signals, headers and severities have no effect.
#[derive(Drop)]
pub struct CheckParts {
    /// The X01 variable that says whether a violation was found.
    pub violation: Name,
    /// The internal signal, or the in or inout port, that is tested.
    pub test_signal: Name,
    /// Whether it is tested: TRUE where it is not given.
    pub check_enabled: BooleanExpr,
    /// Whether a violation makes the variable unknown: TRUE where it is not given.
    pub x_on: BooleanExpr,
    /// Whether a message of a violation is made: TRUE where it is not given.
    pub msg_on: BooleanExpr,
}

/// What a check of two signals has besides.
#[derive(Drop)]
pub struct ReferenceParts {
    /// The variable that keeps what it knows.
    pub timing_data: Name,
    /// The internal signal, or the in or inout port, that the tested one is compared with.
    pub ref_signal: Name,
    /// The symbol of the changes of that signal at which it is tested.
    pub ref_transition: u8,
}

/// A call of VitalSetupHoldCheck. Each time is 0 where it is not given.
#[derive(Drop)]
pub struct SetupHoldCheck {
    pub parts: CheckParts,
    pub reference: ReferenceParts,
    pub setup_high: TimeExpr,
    pub setup_low: TimeExpr,
    pub hold_high: TimeExpr,
    pub hold_low: TimeExpr,
}

/// A call of VitalRecoveryRemovalCheck. Each time is 0 where it is not given.
#[derive(Drop)]
pub struct RecoveryRemovalCheck {
    pub parts: CheckParts,
    pub reference: ReferenceParts,
    pub recovery: TimeExpr,
    pub removal: TimeExpr,
    /// Whether 0 is the active level, and not 1: TRUE where it is not given.
    pub active_low: BooleanExpr,
}

/// A call of VitalPeriodPulseCheck. Each time is 0 where it is not given.
#[derive(Drop)]
pub struct PeriodPulseCheck {
    pub parts: CheckParts,
    /// The variable that keeps what it knows.
    pub period_data: Name,
    pub period: TimeExpr,
    pub pulse_width_high: TimeExpr,
    pub pulse_width_low: TimeExpr,
}

/// A call of a timing check (IEEE 1076.4, package VITAL_Timing).
#[derive(Drop)]
pub enum TimingCheck {
    SetupHold(SetupHoldCheck),
    RecoveryRemoval(RecoveryRemovalCheck),
    PeriodPulse(PeriodPulseCheck),
}

/// What a check has whose variable and whose signal are these.
fn parts_with(
    call: &GivenCall<'_>,
    violation: Name,
    test_signal: Name,
) -> Result<CheckParts, AllocError>
    ensures { IfOk result (λ parts. parts ≡ spec.parts_with (lent call.now) violation test_signal) }
{
    Ok(CheckParts {
        violation,
        test_signal,
        check_enabled: call.truth(b"checkenabled")?,
        x_on: call.truth(b"xon")?,
        msg_on: call.truth(b"msgon")?,
    })
}

/// What a check has whose variable is this.
fn with_test(call: &GivenCall<'_>, violation: Name) -> Result<Option<CheckParts>, AllocError>
    ensures { IfOk result (λ parts. parts ≡ spec.with_test (lent call.now) violation) }
{
    match call.name(b"testsignal", ActualForm::Signal)? {
        Some(test_signal) => Ok(Some(parts_with(call, violation, test_signal)?)),
        None => Ok(None),
    }
}

/// What every check has.
fn parts(call: &GivenCall<'_>) -> Result<Option<CheckParts>, AllocError>
    ensures { IfOk result (λ parts. parts ≡ spec.parts (lent call.now)) }
{
    match call.name(b"violation", ActualForm::Violation)? {
        Some(violation) => with_test(call, violation),
        None => Ok(None),
    }
}

/// What a check of two signals has besides.
fn reference(call: &GivenCall<'_>) -> Result<Option<ReferenceParts>, AllocError>
    ensures { IfOk result (λ reference. reference ≡ spec.reference (lent call.now)) }
{
    let Some(timing_data) = call.name(b"timingdata", ActualForm::TimingData)? else {
        return Ok(None);
    };
    let Some(ref_signal) = call.name(b"refsignal", ActualForm::Signal)? else {
        return Ok(None);
    };
    let Some(ref_transition) = call.edge()? else {
        return Ok(None);
    };
    Ok(Some(ReferenceParts {
        timing_data,
        ref_signal,
        ref_transition,
    }))
}

/// A call of VitalSetupHoldCheck.
fn setup_hold(call: &GivenCall<'_>, parts: CheckParts) -> Result<Option<TimingCheck>, AllocError>
    ensures { IfOk result (λ found. found ≡ spec.check_with (lent call.now) check.SetupHold parts) }
{
    let Some(reference) = reference(call)? else {
        return Ok(None);
    };
    let setup_high = call.time(b"setuphigh")?;
    let setup_low = call.time(b"setuplow")?;
    let hold_high = call.time(b"holdhigh")?;
    let hold_low = call.time(b"holdlow")?;
    Ok(Some(TimingCheck::SetupHold(SetupHoldCheck {
        parts,
        reference,
        setup_high,
        setup_low,
        hold_high,
        hold_low,
    })))
}

/// A call of VitalRecoveryRemovalCheck.
fn recovery_removal(
    call: &GivenCall<'_>,
    parts: CheckParts,
) -> Result<Option<TimingCheck>, AllocError>
    ensures { IfOk result (λ found. found ≡ spec.check_with (lent call.now) check.RecoveryRemoval parts) }
{
    let Some(reference) = reference(call)? else {
        return Ok(None);
    };
    let recovery = call.time(b"recovery")?;
    let removal = call.time(b"removal")?;
    let active_low = call.truth(b"activelow")?;
    Ok(Some(TimingCheck::RecoveryRemoval(RecoveryRemovalCheck {
        parts,
        reference,
        recovery,
        removal,
        active_low,
    })))
}

/// A call of VitalPeriodPulseCheck.
fn period_pulse(call: &GivenCall<'_>, parts: CheckParts) -> Result<Option<TimingCheck>, AllocError>
    ensures { IfOk result (λ found. found ≡ spec.check_with (lent call.now) check.PeriodPulse parts) }
{
    let Some(period_data) = call.name(b"perioddata", ActualForm::PeriodData)? else {
        return Ok(None);
    };
    let period = call.time(b"period")?;
    let pulse_width_high = call.time(b"pulsewidthhigh")?;
    let pulse_width_low = call.time(b"pulsewidthlow")?;
    Ok(Some(TimingCheck::PeriodPulse(PeriodPulseCheck {
        parts,
        period_data,
        period,
        pulse_width_high,
        pulse_width_low,
    })))
}

/// A call of a check. It takes time in proportion to the call.
pub fn timing_check(call: &GivenCall<'_>, check: Check) -> Result<Option<TimingCheck>, AllocError>
    ensures { IfOk result (λ found. found ≡ spec.timing_check (lent call.now) check) }
{
    let Some(parts) = parts(call)? else {
        return Ok(None);
    };
    match check {
        Check::SetupHold => setup_hold(call, parts),
        Check::RecoveryRemoval => recovery_removal(call, parts),
        Check::PeriodPulse => period_pulse(call, parts),
    }
}
