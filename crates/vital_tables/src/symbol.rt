//! The symbols that the columns of tables may have.

ghost use Rattle.std.specs.Prelude.{◌≡◌};
ghost use Rattle.vital_tables.specs.Symbols as spec;

use vital_declarations::TableType;

/// The symbols that levels are compared with.
const LEVEL_SYMBOLS: &[u8] = b"X01-B";

/// The symbols that stand for sets of changes.
const EDGE_SYMBOLS: &[u8] = b"/\\rf^vPNpnRFEAD*";

/// Whether a symbol is one of these.
pub fn is_among(symbols: &[u8], symbol: u8) -> bool
    ensures { result ≡ spec.is_among symbols.now symbol }
{
    symbols.contains(&symbol)
}

/// Whether a symbol stands for a set of changes.
pub fn is_edge_symbol(symbol: u8) -> bool
    ensures { result ≡ spec.is_among spec.edge_symbols symbol }
{
    is_among(EDGE_SYMBOLS, symbol)
}

/// Whether an input of tables of a kind may have a symbol.
fn allows_input(kind: TableType, symbol: u8) -> bool
    ensures { result ≡ spec.is_among (spec.input_symbols kind) symbol }
{
    match kind {
        TableType::Truth => is_among(LEVEL_SYMBOLS, symbol),
        TableType::State => {
            is_among(LEVEL_SYMBOLS, symbol) || symbol == b'S' || is_edge_symbol(symbol)
        }
    }
}

/// Whether a result of tables of a kind may have a symbol.
fn allows_result(kind: TableType, symbol: u8) -> bool
    ensures { result ≡ spec.is_among (spec.result_symbols kind) symbol }
{
    match kind {
        TableType::Truth => is_among(b"X01Z-", symbol),
        TableType::State => is_among(b"X01Z-S", symbol),
    }
}

/// Whether a column may have a symbol, where so many columns are inputs and so many behind them are states.
pub fn allows_symbol(
    kind: TableType,
    inputs: usize,
    states: usize,
    column: usize,
    symbol: u8,
) -> bool
    ensures { result ≡ spec.allows_symbol kind inputs states column symbol }
{
    if column < inputs {
        allows_input(kind, symbol)
    } else if column - inputs < states {
        is_among(LEVEL_SYMBOLS, symbol)
    } else {
        allows_result(kind, symbol)
    }
}
