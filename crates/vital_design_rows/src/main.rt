//! Worked rows of elaboration: what netlist units declare, what their ports are associated with, and the instances, cells and designs under tops. The
//! words of a row name a view, the files of a library and a top.
#![tactic(auto)]

mod associations;
mod cells;
mod connections;
mod designs;
mod faults;
mod instances;
mod library;
mod ranges;
mod structures;
mod under_tops;
mod views;
mod words;
mod worths;

use self::views::Views;
use std::process::ExitCode;
use std::test::Fail;
use vital_row_files::go_over;

fn main(rt: HostRuntime) -> Result<ExitCode, Fail> {
    let is_well = go_over::<Views>(&rt)?;
    Ok(if is_well {
        ExitCode::SUCCESS
    } else {
        ExitCode::FAILURE
    })
}
