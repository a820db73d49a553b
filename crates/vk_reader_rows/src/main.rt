//! Answers rows about what is read of one text: names, paths, tokens, digests, decimals, versions,
//! platform expressions, triplet files, JSON documents and what is read of those, the words of
//! command lines, and reports; and rows about packages: contents lists, recorded builds and what they
//! make, ABI texts, and the texts of a plan over files in memory.
#![tactic(auto)]

mod builds;
mod command_lines;
mod configurations;
mod contents;
mod digests;
mod documents;
mod expressions;
mod fields;
mod jobs;
mod kinds;
mod large;
mod manifests;
mod names;
mod packages;
mod paths;
mod plans;
mod recipes;
mod registries;
mod reports;
mod rows;
mod shows;
mod texts;
mod tokens;
mod triplets;
mod versions;
mod wrongs;

use rows::Rows;
use std::process::ExitCode;
use vk_row_text::answer_rows;

fn main(rt: HostRuntime) -> ExitCode {
    match answer_rows(&rt, &mut Rows) {
        Ok(0) => ExitCode::SUCCESS,
        _ => ExitCode::FAILURE,
    }
}
