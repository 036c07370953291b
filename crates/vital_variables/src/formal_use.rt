//! What procedures do with what is given to their formals.

ghost use Rattle.std.specs.Prelude.{◌≡◌};
ghost use Rattle.vital_variables.specs.FormalUses as spec;

use vital_calls::ActualForm;

/// What a procedure does with what is given to a formal.
#[derive(Clone, Copy, PartialEq, Eq)]
pub enum FormalUse {
    /// It keeps its state there from call to call: the formals GlitchData, TimingData and PeriodData.
    State,
    /// It tells there whether it found a violation: the formal Violation.
    Violation,
    /// It is a check or a state table and assigns it: the formals Violation, Result and PreviousDataIn.
    Assigned,
}

impl FormalUse {
    /// Whether this is done with the actual of a formal that asks for a form.
    pub fn is_of(self, form: ActualForm) -> bool
        ensures { result ≡ spec.is_of self form }
    {
        match self {
            FormalUse::State => keeps_state(form),
            FormalUse::Violation => tells_violation(form),
            FormalUse::Assigned => is_assigned(form),
        }
    }
}

/// Whether a state is kept in what has a form.
fn keeps_state(form: ActualForm) -> bool
    ensures { result ≡ spec.keeps_state form }
{
    matches!(
        form,
        ActualForm::GlitchData | ActualForm::TimingData | ActualForm::PeriodData
    )
}

/// Whether what has a form tells whether a violation was found.
fn tells_violation(form: ActualForm) -> bool
    ensures { result ≡ spec.tells_violation form }
{
    matches!(form, ActualForm::Violation)
}

/// Whether a check or a state table assigns what has a form.
fn is_assigned(form: ActualForm) -> bool
    ensures { result ≡ spec.is_assigned form }
{
    matches!(
        form,
        ActualForm::Violation | ActualForm::Result | ActualForm::PreviousData
    )
}
