//! Goes over the worked rows of the whole program. The words of a row are those of a run over devices in memory; behind `opened` they are those of a
//! run whose opened files are shown, and behind `job` those that are read into a job. `parts` runs stimuli part by part.
#![tactic(auto)]

mod noted_shelf;
mod noted_sink;
mod other_devices;
mod parts;
mod program;
mod views;

use self::other_devices::answer_of_run;
use self::parts::parts_of_run;
use self::program::{opened_by_run, words_of};
use self::views::view;
use std::alloc::{AllocError, Global};
use std::fs;
use std::process::ExitCode;
use std::test::Fail;
use vital_row_files::{Answer, Answers, GivenFile, Passing, Row, go_over, pass};

/// What answers the rows: the views and the program.
struct WorkedRows;

impl Answers for WorkedRows {
    fn answer(
        alloc: Global,
        words: &[String],
        files: &[GivenFile],
        row: &Row,
    ) -> Result<Answer, AllocError> {
        if let [first, others @ ..] = words {
            match first.as_str() {
                "opened" => {
                    let words = words_of(alloc, others, files)?;
                    return opened_by_run(alloc, &words, files, row);
                }
                "parts" => return parts_of_run(alloc, files, row),
                _ => {}
            }
        }
        let words = words_of(alloc, words, files)?;
        match view(alloc, words.as_slice())? {
            Some(text) => Ok(Answer {
                bytes: text.into_bytes(),
                status: 0,
            }),
            None => answer_of_run(alloc, &words, files, row),
        }
    }
}

/// Prints what is said of rows that are wrong, and how many pass.
fn show_wrong_rows(rt: &HostRuntime) -> Result<(), Fail> {
    let text = fs::read_to_string(rt, "wrong.toml")?;
    let Passing { rows, passed, said } = pass::<WorkedRows>(rt.alloc(), text.as_str())?;
    print!(rt; "{said}wrong.toml: {passed} of {rows} rows\n")?;
    Ok(())
}

fn main(rt: HostRuntime) -> Result<ExitCode, Fail> {
    show_wrong_rows(&rt)?;
    Ok(if go_over::<WorkedRows>(&rt)? {
        ExitCode::SUCCESS
    } else {
        ExitCode::FAILURE
    })
}
