//! Worked rows of the clauses and limits of cells, of calls, of expressions and of typed trees: what the program answers to a row is a view of one
//! part below the whole check.
#![tactic(auto)]

mod calls;
mod clauses;
mod expressions;
mod library;
mod limits;
mod meanings;
mod printing;
mod typed_cells;
mod views;

use self::views::Views;
use std::process::ExitCode;
use std::test::Fail;
use vital_row_files::go_over;

fn main(rt: HostRuntime) -> Result<ExitCode, Fail> {
    Ok(if go_over::<Views>(&rt)? {
        ExitCode::SUCCESS
    } else {
        ExitCode::FAILURE
    })
}
