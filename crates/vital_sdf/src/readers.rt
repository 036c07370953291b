//! Reading, rule by rule of the grammar. Each function reads from a cursor what the definition of its name says.

pub(crate) mod cells;
pub(crate) mod conditions;
pub(crate) mod delays;
pub(crate) mod files;
pub(crate) mod headers;
pub(crate) mod lists;
pub(crate) mod ports;
pub(crate) mod timing_checks;
pub(crate) mod values;
