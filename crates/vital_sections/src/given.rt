//! What the items of a call give for its formals.

ghost use Rattle.std.specs.Prelude.{◌≡◌, IfOk};
ghost use Rattle.vital_sections.specs.Given as spec;
ghost use Rattle.vital_sections.specs.Given.{lent};

use crate::kinds_of_actuals::{
    count_in, delay_in, edge_in, inputs_in, level_in, mode_in, name_in, paths_in, table_in,
    target_in, time_in, truth_in,
};
use sqlite_items::Items;
use std::alloc::AllocError;
use vital_actuals::{Actual, Path, Target, read_actual};
use vital_base::Name;
use vital_calls::{ActualForm, Formals, actual_of};
use vital_expr::Reader;
use vital_nodes::Item;
use vital_operands::{
    BooleanExpr, ConstantName, DelayExpr, LevelExpr, TimeExpr, VectorExpr, even_delay,
};
use vital_timing::{DelayType, GlitchMode};

/// A call where it stands: what its expressions are read by, the formals of what is called, and its items.
#[derive(Clone, Copy)]
pub struct GivenCall<'a> {
    pub reader: Reader<'a>,
    pub formals: Formals,
    pub items: &'a [Item],
}

impl<'a> GivenCall<'a> {
    /// What is given for the formal of a name, as an actual of a form.
    #[tactic(auto, unfolding(crate::specs::Given::given))]
    fn given(&self, name: &[u8], form: ActualForm) -> Result<Option<Actual>, AllocError>
        ensures { IfOk result (λ actual. actual ≡ spec.given (lent self.now) name.now form) }
    {
        match actual_of(self.items, self.formals, name) {
            Some(item) => {
                let mut unused = Vec::new(self.reader.alloc);
                read_actual(&self.reader, form, item, &mut unused)
            }
            None => Ok(None),
        }
    }

    // ---- formals that each call must have

    /// The name that is given for a formal.
    pub fn name(&self, name: &[u8], form: ActualForm) -> Result<Option<Name>, AllocError>
        ensures { IfOk result (λ given. given ≡ spec.name_given (lent self.now) name.now form) }
    {
        match self.given(name, form)? {
            Some(actual) => Ok(name_in(actual)),
            None => Ok(None),
        }
    }

    /// What results are put to, if that is given for a formal.
    fn target(&self, name: &[u8], form: ActualForm) -> Result<Option<Target>, AllocError>
        ensures { IfOk result (λ given. given ≡ spec.target_given (lent self.now) name.now form) }
    {
        match self.given(name, form)? {
            Some(actual) => Ok(target_in(actual)),
            None => Ok(None),
        }
    }

    /// What the results of a state table are put to.
    pub fn result(&self) -> Result<Option<Target>, AllocError>
        ensures { IfOk result (λ given. given ≡ spec.result_given (lent self.now)) }
    {
        self.target(b"result", ActualForm::Result)
    }

    /// What keeps the inputs of a state table.
    pub fn kept(&self) -> Result<Option<Target>, AllocError>
        ensures { IfOk result (λ given. given ≡ spec.kept_given (lent self.now)) }
    {
        self.target(b"previousdatain", ActualForm::PreviousData)
    }

    /// The state table.
    pub fn table(&self) -> Result<Option<ConstantName>, AllocError>
        ensures { IfOk result (λ given. given ≡ spec.table_given (lent self.now)) }
    {
        match self.given(b"statetable", ActualForm::StateTable)? {
            Some(actual) => Ok(table_in(actual)),
            None => Ok(None),
        }
    }

    /// The inputs of a table.
    pub fn inputs(&self) -> Result<Option<VectorExpr>, AllocError>
        ensures { IfOk result (λ given. given ≡ spec.inputs_given (lent self.now)) }
    {
        match self.given(b"datain", ActualForm::Inputs)? {
            Some(actual) => Ok(inputs_in(actual)),
            None => Ok(None),
        }
    }

    /// The number of states.
    pub fn count(&self) -> Result<Option<usize>, AllocError>
        ensures { IfOk result (λ given. given ≡ spec.count_given (lent self.now)) }
    {
        match self.given(b"numstates", ActualForm::StateCount)? {
            Some(actual) => {
                let count = count_in(&actual);
                drop(actual);
                Ok(count)
            }
            None => Ok(None),
        }
    }

    /// The level that is given for a formal.
    pub fn level(&self, name: &[u8]) -> Result<Option<LevelExpr>, AllocError>
        ensures { IfOk result (λ given. given ≡ spec.level_given (lent self.now) name.now) }
    {
        match self.given(name, ActualForm::Level)? {
            Some(actual) => Ok(level_in(actual)),
            None => Ok(None),
        }
    }

    /// The symbol of the changes at which a check tests.
    pub fn edge(&self) -> Result<Option<u8>, AllocError>
        ensures { IfOk result (λ given. given ≡ spec.edge_given (lent self.now)) }
    {
        match self.given(b"reftransition", ActualForm::EdgeSymbol)? {
            Some(actual) => {
                let edge = edge_in(&actual);
                drop(actual);
                Ok(edge)
            }
            None => Ok(None),
        }
    }

    /// The paths, whose delays are of a type.
    pub fn paths(&self, delay_type: DelayType) -> Result<Option<Items<Path>>, AllocError>
        ensures { IfOk result (λ given. given ≡ spec.paths_given (lent self.now) delay_type) }
    {
        match self.given(b"paths", ActualForm::Paths(delay_type))? {
            Some(actual) => Ok(paths_in(actual)),
            None => Ok(None),
        }
    }

    // ---- formals that a call may leave out

    /// The truth value that is given for a formal, or TRUE.
    pub fn truth(&self, name: &[u8]) -> Result<BooleanExpr, AllocError>
        ensures { IfOk result (λ given. given ≡ spec.truth_given (lent self.now) name.now) }
    {
        let given = match self.given(name, ActualForm::Boolean)? {
            Some(actual) => truth_in(actual),
            None => None,
        };
        Ok(given.unwrap_or(BooleanExpr::Literal(true)))
    }

    /// The time that is given for a formal, or 0.
    pub fn time(&self, name: &[u8]) -> Result<TimeExpr, AllocError>
        ensures { IfOk result (λ given. given ≡ spec.time_given (lent self.now) name.now) }
    {
        let given = match self.given(name, ActualForm::Time)? {
            Some(actual) => time_in(actual),
            None => None,
        };
        Ok(given.unwrap_or(TimeExpr::Literal(0)))
    }

    /// The delay of a type that is given for a formal, or 0 for every change.
    pub fn delay(&self, name: &[u8], delay_type: DelayType) -> Result<DelayExpr, AllocError>
        ensures { IfOk result (λ given. given ≡ spec.delay_given (lent self.now) name.now delay_type) }
    {
        let given = match self.given(name, ActualForm::Delay(delay_type))? {
            Some(actual) => delay_in(actual),
            None => None,
        };
        Ok(given.unwrap_or(DelayExpr::Literal(even_delay(delay_type, 0))))
    }

    /// How glitches are treated, or OnEvent.
    pub fn mode(&self) -> Result<GlitchMode, AllocError>
        ensures { IfOk result (λ given. given ≡ spec.mode_given (lent self.now)) }
    {
        match self.given(b"mode", ActualForm::Mode)? {
            Some(actual) => {
                let mode = mode_in(&actual);
                drop(actual);
                Ok(mode.unwrap_or(GlitchMode::OnEvent))
            }
            None => Ok(GlitchMode::OnEvent),
        }
    }
}
