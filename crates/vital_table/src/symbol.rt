//! The symbols of tables.

ghost use Rattle.std.specs.Prelude.{◌≡◌};
ghost use Rattle.vital_table.specs.Matches as matches;
ghost use Rattle.vital_table.specs.Results as results;
ghost use Rattle.vital_table.specs.Symbols as spec;

use vital_edges::edges_of;
use vital_logic::{Level, from_byte, to_byte};

/// The symbols that levels are compared with.
const LEVEL_SYMBOLS: &[u8] = b"X01-B";

/// The symbols that stand for sets of changes.
const EDGE_SYMBOLS: &[u8] = b"/\\rf^vPNpnRFEAD*";

/// Whether a symbol is one of these.
fn is_among(symbols: &[u8], symbol: u8) -> bool
    ensures { result ≡ spec.is_among symbols.now symbol }
{
    symbols.contains(&symbol)
}

/// Whether an input may have a symbol.
fn allows_input(symbol: u8) -> bool
    ensures { result ≡ spec.is_among spec.input_symbols symbol }
{
    is_among(LEVEL_SYMBOLS, symbol) || symbol == b'S' || is_among(EDGE_SYMBOLS, symbol)
}

/// Whether a column may have a symbol, where so many columns are inputs and so many behind them are states.
pub(crate) fn allows_symbol(inputs: usize, states: usize, column: usize, symbol: u8) -> bool
    ensures { result ≡ spec.allows_symbol inputs states column symbol }
{
    if column < inputs {
        allows_input(symbol)
    } else if column - inputs < states {
        is_among(LEVEL_SYMBOLS, symbol)
    } else {
        is_among(b"X01Z-S", symbol)
    }
}

/// Whether two levels are the same.
fn same_level(a: Level, b: Level) -> bool
    ensures { result ≡ matches.same_level a b }
{
    to_byte(a) == to_byte(b)
}

/// Whether a symbol matches a level, which is X, 0 or 1.
pub(crate) fn level_matches(symbol: u8, level: Level) -> bool
    ensures { result ≡ matches.level_matches symbol level }
{
    match symbol {
        b'-' => true,
        b'B' => !same_level(level, Level::X),
        _ => symbol == to_byte(level),
    }
}

/// Whether a symbol matches the previous and the present level of an input, which are X, 0 or 1.
pub(crate) fn input_matches(symbol: u8, old: Level, new: Level) -> bool
    ensures { result ≡ matches.input_matches symbol old new }
{
    if symbol == b'S' {
        return same_level(old, new);
    }
    match edges_of(symbol) {
        Some(edges) => edges.holds(old, new),
        None => level_matches(symbol, new),
    }
}

/// What a symbol gives for what a result was before.
pub(crate) fn result_of(symbol: u8, before: Level) -> Level
    ensures { result ≡ results.result_of symbol before }
{
    match symbol {
        b'S' => before,
        b'-' => Level::X,
        _ => from_byte(symbol).unwrap_or(Level::X),
    }
}
