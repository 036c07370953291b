//! Literals that formals ask for.

ghost use Rattle.std.specs.Prelude.{◌≡◌};
ghost use Rattle.vital_actuals.specs.Literals as spec;
ghost use Rattle.vital_operands.specs.Seen.{lent, lent_standing};

use vital_declarations::{character, literal_value};
use vital_names::{Predeclared, Severity};
use vital_nodes::{Expr, Identifier, literal_integer};
use vital_operands::{Position, Standing};
use vital_tables::is_edge_symbol;
use vital_timing::GlitchMode;

/// No table has more states than a vector has elements.
const MOST_STATES: usize = 256;

/// The number that a literal writes, if it is not too great.
fn small_number(literal: &[u8]) -> Option<usize>
    ensures { result ≡ spec.small_number literal.now }
{
    match literal_value(literal) {
        Some(number) if number <= MOST_STATES => Some(number),
        _ => None,
    }
}

/// The number of states that an expression is.
pub fn state_count(expr: &Expr) -> Option<usize>
    ensures { result ≡ spec.state_count expr.now }
{
    small_number(literal_integer(expr)?.as_slice())
}

/// The character of an expression, if it stands for a set of changes.
pub fn edge_symbol(expr: &Expr) -> Option<u8>
    ensures { result ≡ spec.edge_symbol expr.now }
{
    let byte = character(expr)?;
    if is_edge_symbol(byte) {
        Some(byte)
    } else {
        None
    }
}

/// What is predeclared for a name.
fn word_in(standing: Standing<'_>) -> Option<Predeclared>
    ensures { result ≡ spec.word_in (lent_standing standing.entry) }
{
    match standing {
        Standing::Word(word) => Some(word),
        _ => None,
    }
}

/// The mode that an identifier means.
pub fn mode_named(position: &Position<'_>, identifier: &Identifier) -> Option<GlitchMode>
    ensures { result ≡ spec.mode_named (lent position.now) identifier.now }
{
    match word_in(position.standing(identifier)) {
        Some(Predeclared::GlitchMode(mode)) => Some(mode),
        _ => None,
    }
}

/// The severity that an identifier means.
pub fn severity_named(position: &Position<'_>, identifier: &Identifier) -> Option<Severity>
    ensures { result ≡ spec.severity_named (lent position.now) identifier.now }
{
    match word_in(position.standing(identifier)) {
        Some(Predeclared::Severity(severity)) => Some(severity),
        _ => None,
    }
}
