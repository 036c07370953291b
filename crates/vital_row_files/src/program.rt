//! A program over files of rows.

use super::answer::Answers;
use super::passing::pass;
use std::test::Fail;
use std::{env, fs};

/// Goes over the files of rows that the program's words name, each of which `A` answers, and prints for each how many rows passed, behind what is said
/// of the others. Returns whether all passed.
pub fn go_over<A: Answers>(rt: &HostRuntime) -> Result<bool, Fail> {
    let mut is_well = true;
    for name in env::args(rt)?.skip(1) {
        let text = fs::read_to_string(rt, name.as_str())?;
        let passing = pass::<A>(rt.alloc(), text.as_str())?;
        println!(rt;
            "{}{}: {} of {} rows",
            passing.said, name, passing.passed, passing.rows
        )?;
        is_well = is_well && passing.passed == passing.rows;
    }
    Ok(is_well)
}
