//! Worked rows as data: files in TOML that say what is asked, of which texts, and what is answered. A program goes over them and prints how many
//! passed; how it answers is its own.
#![tactic(auto)]

mod answer;
mod devices;
mod passing;
mod program;
mod row;
mod texts;

pub use answer::{Answer, Answers, GivenFile};
pub use devices::Device;
pub use passing::{Passing, pass};
pub use program::go_over;
pub use row::{FileText, Repeat, Row, Rows};
