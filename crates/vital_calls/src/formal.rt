//! The formals of functions and procedures.

use crate::actual_form::ActualForm;

/// A formal of a function or a procedure.
#[derive(Clone, Copy, PartialEq, Eq)]
pub struct Formal {
    /// Its name in lower case, as identifiers keep names.
    pub name: &'static [u8],
    /// What its actual must be.
    pub form: ActualForm,
    /// Whether each call must have an actual for it.
    pub is_required: bool,
}

/// The formals of a function or a procedure, and how calls may give their actuals (IEEE 1076-1993, 4.3.2.2).
#[derive(Clone, Copy, PartialEq, Eq)]
pub enum Formals {
    /// So many levels, each by its position.
    Levels(usize),
    /// Formals whose actuals come by their positions or by their names.
    PositionsOrNames(&'static [Formal]),
    /// Formals whose actuals come by their names.
    Names(&'static [Formal]),
}
