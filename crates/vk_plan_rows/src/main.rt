//! Answers rows about projects over catalogues in memory: which instances are off by default, what
//! a project requires, with its reasons, or what is wrong with the files that it needs, what it
//! comes to: its plan, or the faults that stand; whether a report is the defined one, and its
//! reasons a certificate; and how large the closure and the plan of large projects are, with the
//! times that they take on standard error.
#![tactic(auto)]

mod chains;
mod checks;
mod closings;
mod loads;
mod outcomes;
mod pages;
mod parts;
mod rings;
mod rows;
mod sessions;
mod settings;
mod sides;
mod timings;

use rows::Rows;
use sessions::Session;
use std::io::Eprint;
use std::process::ExitCode;
use std::rt::Clock;
use vk_row_text::answer_rows;

fn answer<R: Eprint + Clock + Drop>(rt: &HostRuntime, rows: &mut Rows<R>) -> ExitCode {
    match answer_rows(rt, rows) {
        Ok(0) => ExitCode::SUCCESS,
        _ => ExitCode::FAILURE,
    }
}

fn answer_with<R: Eprint + Clock + Drop>(rt: &HostRuntime, clock: R, session: Session) -> ExitCode {
    let mut rows = Rows { rt: clock, session };
    let status = answer(rt, &mut rows);
    drop(rows);
    status
}

fn begin<R: Eprint + Clock + Drop>(rt: &HostRuntime, clock: R) -> ExitCode {
    match Session::new(rt.alloc()) {
        Ok(session) => answer_with(rt, clock, session),
        Err(_) => ExitCode::FAILURE,
    }
}

fn main(rt: HostRuntime) -> ExitCode {
    match rt.clone() {
        Ok(clock) => begin(&rt, clock),
        Err(_) => ExitCode::FAILURE,
    }
}
