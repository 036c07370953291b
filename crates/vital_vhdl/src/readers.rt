//! The functions that read, one for each rule of the grammar.

mod chains;
mod concurrent;
mod declarations;
mod expressions;
mod identifiers;
mod interfaces;
mod items;
mod lists;
mod literals;
mod operators;
mod outermost;
mod statements;
pub(crate) mod units;
