//! The top call: from the words to the status.
ghost use Rattle.std.specs.Prelude.{◌<◌, ◌^◌, length};
ghost use Rattle.vk_words.specs.WordViews.{words_view};
ghost use Rattle.vk_app.specs.Ends.{EndsAs, end_view};
ghost use Rattle.vk_app.specs.Requests.{request_of};
ghost use Rattle.vk_app.specs.Runs.{RunsAs};

use crate::endings::end_of_words;
use crate::ends::{Ended, tell};
use crate::requests::read_request;
use crate::tasks::done;
use std::alloc::Global;
use vk_base::{List, Stop, Word};
use vk_model::Outcome;
use vk_tree::{Sink, Tree};
use vk_worklist::CloseFault;
use vk_world::Readings;

/// How a run ended, and the tree as it stands.
#[derive(Drop)]
pub struct Ran<T> {
    /// 0: done. 1: refused. 2: a malformed command line. 3: out of memory. 4: the tree failed.
    /// 5: a sink stopped. 6: a limit was passed.
    pub status: u8,
    /// The tree that was moved in.
    pub tree: T,
    /// What the run made and is done with.
    pub spent: Spent,
}

/// What a run read and what it came to. A program that ends need not free it.
#[derive(Drop)]
pub struct Spent {
    _read: Option<Readings>,
    _outcome: Option<Result<Outcome, Stop<CloseFault>>>,
}

// How the words end over a tree.
fn end_of<T: Tree>(alloc: Global, words: &List<Word>, tree: T) -> Ended<T>
    requires { length words.now < 2 ^ 32 }
    ensures { EndsAs (request_of (words_view words.now)) (end_view result.end) (T.state tree)
        (T.state result.tree) }
{
    match read_request(alloc, words) {
        Ok(task) => {
            let ended = done(alloc, &task, tree);
            drop(task);
            ended
        }
        Err(unread) => Ended {
            end: end_of_words(alloc, unread),
            tree,
            read: None,
            outcome: None,
        },
    }
}

/// Does what the words ask for, over a tree that is moved in and handed back. `plan` prints the
/// report of the project on `out`: its plan with the reasons, or the faults that stand. `abi`
/// prints the ABI text of an instance in that plan, or that it isn't planned, and the report where
/// there is no plan. `check` prints whether the report in a file is the one that `plan` prints, or
/// else the first line that differs. `self-load` plans a load in memory and prints its figures; the
/// tree isn't asked for anything. Other ends have a line on `err`: 2 for a malformed command line,
/// 3 when out of memory, 4 where a call of the tree failed, 5 where a sink stopped, 6 where a limit
/// was passed.
pub fn run<T: Tree, O: Sink, E: Sink>(
    alloc: Global,
    words: &List<Word>,
    tree: T,
    out: &mut O,
    err: &mut E,
) -> Ran<T>
    requires { length words.now < 2 ^ 32 }
    ensures { RunsAs (request_of (words_view words.now)) result.status
        (record { tree = T.state tree; out = O.state out.old; err = E.state err.old })
        (record { tree = T.state result.tree; out = O.state out.new; err = E.state err.new }) }
{
    let Ended {
        end,
        tree,
        read,
        outcome,
    } = end_of(alloc, words, tree);
    let status = tell(&end, out, err);
    Ran {
        status,
        tree,
        spent: Spent {
            _read: read,
            _outcome: outcome,
        },
    }
}
