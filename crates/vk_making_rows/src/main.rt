//! Answers rows about the making of packages over a cache in memory: which calls an installer makes
//! and what it comes to, alone and beside others, in every order of their calls that is asked for;
//! what is left in the cache; and what comes of damaged entries, of limits and of calls that fail.
#![tactic(auto)]

mod caches;
mod items;
mod orders;
mod picks;
mod plays;
mod quiet_trees;
mod sessions;
mod starts;
mod tells;
mod turns;

use sessions::Session;
use std::process::ExitCode;
use vk_row_text::answer_rows;

fn answer(rt: &HostRuntime, session: Session) -> ExitCode {
    let mut session = session;
    let told = answer_rows(rt, &mut session);
    drop(session);
    match told {
        Ok(0) => ExitCode::SUCCESS,
        _ => ExitCode::FAILURE,
    }
}

fn main(rt: HostRuntime) -> ExitCode {
    match Session::new(rt.alloc()) {
        Ok(session) => answer(&rt, session),
        Err(_) => ExitCode::FAILURE,
    }
}
