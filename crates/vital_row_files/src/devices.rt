//! How a row's devices behave.

use serde::Deserialize;

/// The greatest number of bytes that a call of a shelf or of a sink moves, and the numbers of the calls that fail, from 1.
#[derive(Drop, Deserialize)]
pub struct Device {
    pub piece: u32,
    #[serde(default)]
    pub fails: Vec<u32>,
}
