//! The formals of the functions and procedures of VITAL that have names (IEEE 1076.4), as data.

use crate::actual_form::ActualForm;
use crate::formal::Formal;
use vital_timing::DelayType;

/// A formal for which each call must have an actual.
macro_rules! required {
    ($name:literal, $form:expr) => {
        Formal {
            name: $name,
            form: $form,
            is_required: true,
        }
    };
}

/// A formal that a call may leave out.
macro_rules! optional {
    ($name:literal, $form:expr) => {
        Formal {
            name: $name,
            form: $form,
            is_required: false,
        }
    };
}

/// The formals of the path delay whose delays are of a type.
macro_rules! path_delay_formals {
    ($delay_type:expr) => {
        [
            required!(b"outsignal", ActualForm::OutPort),
            required!(b"outtemp", ActualForm::Level),
            required!(b"paths", ActualForm::Paths($delay_type)),
            required!(b"glitchdata", ActualForm::GlitchData),
            optional!(b"outsignalname", ActualForm::Text),
            optional!(b"defaultdelay", ActualForm::Delay($delay_type)),
            optional!(b"mode", ActualForm::Mode),
            optional!(b"xon", ActualForm::Boolean),
            optional!(b"msgon", ActualForm::Boolean),
            optional!(b"msgseverity", ActualForm::Severity),
            optional!(b"ignoredefaultdelay", ActualForm::OnlyFalse),
            optional!(b"rejectfastpath", ActualForm::OnlyFalse),
            optional!(b"negpreempton", ActualForm::OnlyFalse),
        ]
    };
}

/// VitalPathDelay.
pub static PATH_DELAY: [Formal; 13] = path_delay_formals!(DelayType::One);

/// VitalPathDelay01.
pub static PATH_DELAY01: [Formal; 13] = path_delay_formals!(DelayType::Two);

/// VitalPathDelay01Z.
pub static PATH_DELAY01Z: [Formal; 13] = path_delay_formals!(DelayType::Six);

/// VitalWireDelay.
pub static WIRE_DELAY: [Formal; 3] = [
    required!(b"outsig", ActualForm::InternalSignal),
    required!(b"insig", ActualForm::Signal),
    required!(b"twire", ActualForm::WireDelay),
];

/// VitalTruthTable.
pub static TRUTH_TABLE: [Formal; 2] = [
    required!(b"truthtable", ActualForm::TruthTable),
    required!(b"datain", ActualForm::Inputs),
];

/// VitalStateTable with one result.
pub static STATE_TABLE: [Formal; 4] = [
    required!(b"statetable", ActualForm::StateTable),
    required!(b"datain", ActualForm::Inputs),
    required!(b"result", ActualForm::Result),
    required!(b"previousdatain", ActualForm::PreviousData),
];

/// VitalStateTable whose results are a vector.
pub static VECTOR_STATE_TABLE: [Formal; 5] = [
    required!(b"statetable", ActualForm::StateTable),
    required!(b"datain", ActualForm::Inputs),
    required!(b"numstates", ActualForm::StateCount),
    required!(b"result", ActualForm::Result),
    required!(b"previousdatain", ActualForm::PreviousData),
];

/// VitalSetupHoldCheck.
pub static SETUP_HOLD_CHECK: [Formal; 22] = [
    required!(b"violation", ActualForm::Violation),
    required!(b"timingdata", ActualForm::TimingData),
    required!(b"testsignal", ActualForm::Signal),
    required!(b"refsignal", ActualForm::Signal),
    required!(b"reftransition", ActualForm::EdgeSymbol),
    optional!(b"testsignalname", ActualForm::Text),
    optional!(b"refsignalname", ActualForm::Text),
    optional!(b"headermsg", ActualForm::Text),
    optional!(b"setuphigh", ActualForm::Time),
    optional!(b"setuplow", ActualForm::Time),
    optional!(b"holdhigh", ActualForm::Time),
    optional!(b"holdlow", ActualForm::Time),
    optional!(b"checkenabled", ActualForm::Boolean),
    optional!(b"xon", ActualForm::Boolean),
    optional!(b"msgon", ActualForm::Boolean),
    optional!(b"msgseverity", ActualForm::Severity),
    optional!(b"testdelay", ActualForm::OnlyZero),
    optional!(b"refdelay", ActualForm::OnlyZero),
    optional!(b"enablesetupontest", ActualForm::OnlyTrue),
    optional!(b"enablesetuponref", ActualForm::OnlyTrue),
    optional!(b"enableholdonref", ActualForm::OnlyTrue),
    optional!(b"enableholdontest", ActualForm::OnlyTrue),
];

/// VitalRecoveryRemovalCheck.
pub static RECOVERY_REMOVAL_CHECK: [Formal; 21] = [
    required!(b"violation", ActualForm::Violation),
    required!(b"timingdata", ActualForm::TimingData),
    required!(b"testsignal", ActualForm::Signal),
    required!(b"refsignal", ActualForm::Signal),
    required!(b"reftransition", ActualForm::EdgeSymbol),
    optional!(b"testsignalname", ActualForm::Text),
    optional!(b"refsignalname", ActualForm::Text),
    optional!(b"headermsg", ActualForm::Text),
    optional!(b"recovery", ActualForm::Time),
    optional!(b"removal", ActualForm::Time),
    optional!(b"activelow", ActualForm::Boolean),
    optional!(b"checkenabled", ActualForm::Boolean),
    optional!(b"xon", ActualForm::Boolean),
    optional!(b"msgon", ActualForm::Boolean),
    optional!(b"msgseverity", ActualForm::Severity),
    optional!(b"testdelay", ActualForm::OnlyZero),
    optional!(b"refdelay", ActualForm::OnlyZero),
    optional!(b"enablesetupontest", ActualForm::OnlyTrue),
    optional!(b"enablesetuponref", ActualForm::OnlyTrue),
    optional!(b"enableholdonref", ActualForm::OnlyTrue),
    optional!(b"enableholdontest", ActualForm::OnlyTrue),
];

/// VitalPeriodPulseCheck.
pub static PERIOD_PULSE_CHECK: [Formal; 13] = [
    required!(b"violation", ActualForm::Violation),
    required!(b"perioddata", ActualForm::PeriodData),
    required!(b"testsignal", ActualForm::Signal),
    optional!(b"testsignalname", ActualForm::Text),
    optional!(b"headermsg", ActualForm::Text),
    optional!(b"period", ActualForm::Time),
    optional!(b"pulsewidthhigh", ActualForm::Time),
    optional!(b"pulsewidthlow", ActualForm::Time),
    optional!(b"checkenabled", ActualForm::Boolean),
    optional!(b"xon", ActualForm::Boolean),
    optional!(b"msgon", ActualForm::Boolean),
    optional!(b"msgseverity", ActualForm::Severity),
    optional!(b"testdelay", ActualForm::OnlyZero),
];
