//! Natural numbers of any size: the bounds and indices that literals write, and what is counted by them. Those that
//! fit a machine word are kept in one.
#![tactic(auto)]

mod digits;
mod natural;
mod word;

pub use natural::Natural;
