//! Answers rows about projects whose files are in memory: what opening them tells, what their
//! worlds are asked, and how the planner runs over them; about trees, sinks and catalogues in
//! memory; and about each call of a tree, and of a cache, over files in memory and over the host's
//! files in the folder that the program runs in.
#![tactic(auto)]

mod asks;
mod caches;
mod changes;
mod lines;
mod looks;
mod openings;
mod page_rows;
mod projects;
mod rows;
mod runs;
mod sessions;
mod sink_rows;
mod tree_calls;
mod tree_rows;
mod walks;
mod workspaces;

use rows::Rows;
use std::alloc::Global;
use std::os::unix::fs::FileExt;
use std::process::ExitCode;
use std::rt::Files;
use vk_row_text::answer_rows;

fn answer<R: Files + Alloc<A = Global> + Clone + Drop>(
    rt: &HostRuntime,
    rows: &mut Rows<R>,
) -> ExitCode
where
    R::File: FileExt,
{
    match answer_rows(rt, rows) {
        Ok(0) => ExitCode::SUCCESS,
        _ => ExitCode::FAILURE,
    }
}

fn begin<R: Files + Alloc<A = Global> + Clone + Drop>(rt: &HostRuntime, host: R) -> ExitCode
where
    R::File: FileExt,
{
    match Rows::new(host) {
        Ok(mut rows) => {
            let status = answer(rt, &mut rows);
            drop(rows);
            status
        }
        Err(_) => ExitCode::FAILURE,
    }
}

fn main(rt: HostRuntime) -> ExitCode {
    match rt.clone() {
        Ok(host) => begin(&rt, host),
        Err(_) => ExitCode::FAILURE,
    }
}
