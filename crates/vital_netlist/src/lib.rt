//! Elaboration (IEEE 1076-1993, clause 12): the cells of a library under a top, the net of each bit, and the design, which is what
//! simulation asks of a design, or its first fault; and the names of what is in a design.
#![tactic(auto)]

mod bit;
mod bit_index;
mod bit_search;
mod cell_laws;
mod cells;
mod connection_table;
mod design;
mod design_lists;
mod design_parts;
mod driven;
mod elaboration;
mod found;
mod labels;
mod laws;
mod name_text;
mod names;
mod net_fault;
mod netlist;
mod object;
mod ports;
mod refusal;
mod signals;
mod unit;
mod unit_table;
mod wiring;

pub use bit::Bit;
pub use cell_laws::ports_of_cells_are_bits;
pub use cells::Cells;
pub use design::Design;
pub use design_lists::{
    DesignDriver, DesignInstance, DesignLists, DesignSignal, Site, driver_counts,
};
pub use design_parts::DesignParts;
pub use driven::driven_numbers;
pub use elaboration::elaborate;
pub use name_text::NameText;
pub use names::bit_name;
pub use net_fault::{ElabError, Mark, NetFault, NetLimit};
pub use netlist::Netlist;
pub use object::objects_of_cell;
pub use refusal::refusal_of;
pub use signals::{Signals, SignalsError};
