//! The rows, each a question and its words:
//! - `forget`: no common files from here on; `group TITLE`, `case TITLE`: a new tree with the
//!   common ones;
//! - `common PATH FILE`, `file PATH FILE`, `blanks PATH N`, `fails N ..`: the files of the tree,
//!   and the calls at which it fails;
//! - `room OUT ERR`, `run WORD ..`: how many bytes the two sinks take, and a run with these words;
//! - `open FOLDER TARGET HOST PORTS TRIPLETS`: opens a project with these folders of ports and of
//!   triplet files, each a list with commas, or `-`; the world is then the one that is asked;
//! - `store INSTALLED CACHE`: where projects that are opened later in the case keep packages;
//! - `given PORT`, `version PORT ASK`, `manifest PORT ASK`, `at PORT`, `folder PORT VERSION`: asks
//!   the world;
//! - `log`: ends the world, and tells the paths that its tree was asked for;
//! - `tree ..`, `sink ..`, `pages ..`: asks a tree, a sink or a catalogue in memory.

ghost use Rattle.std.specs.Prelude.{◌<◌, ◌^◌, length};

use crate::asks::ask;
use crate::lines::tell_paths;
use crate::openings::{Opening, folder, open_on};
use crate::projects::{project_of, store_of};
use crate::runs::{ROOM, Room, Sinks, room_of, tell_ended, words_of};
use crate::workspaces::{Workspace, done};
use crate::{page_rows, sink_rows, tree_rows};
use std::alloc::Global;
use std::mem::replace;
use vk_app::{Ran, run};
use vk_base::{List, Memory, Unread, Word};
use vk_catalogue::MemCatalogue;
use vk_model::{Project, Store};
use vk_row_text::{Answering, NoRow, Reply, cut};
use vk_tree::{MemSink, MemTree};
use vk_world::World;

/// Files in memory, the world of a project that was opened on them, and what else rows ask.
#[derive(Drop)]
pub struct Session {
    files: Workspace,
    world: Option<World<MemTree>>,
    store: Option<Store>,
    pages: MemCatalogue,
    sink: MemSink,
    room: Room,
}

// How many words a row's run has at most.
const MOST_WORDS: usize = 1000;

impl Session {
    /// No files, and no world.
    pub fn new(alloc: Global) -> Result<Session, Memory> {
        let sink = MemSink::new(alloc, 0)?;
        let pages = MemCatalogue::new(alloc)?;
        let files = Workspace::new(alloc)?;
        Ok(Session {
            files,
            world: None,
            store: None,
            pages,
            sink,
            room: ROOM,
        })
    }

    // Ends the world: its tree is the one that rows put files into.
    fn close(&mut self) {
        if let Some(world) = self.world.take() {
            drop(replace(&mut self.files.tree, world.into_tree()));
        }
    }

    fn restart(&mut self, alloc: Global) -> Result<(), Unread<NoRow>> {
        self.room = ROOM;
        drop(self.store.take());
        drop(replace(&mut self.pages, MemCatalogue::new(alloc)?));
        self.files.restart(alloc)
    }

    // Keeps the world, or the tree, that opening gave.
    fn keep(&mut self, opening: Opening) {
        match opening {
            Opening::World(world) => drop(replace(&mut self.world, Some(world))),
            Opening::Refused(tree) => drop(replace(&mut self.files.tree, tree)),
        }
    }

    fn open_project(&mut self, project: &Project, reply: &mut Reply) {
        match self.files.take_tree(reply.alloc()) {
            Ok(tree) => {
                let opening = open_on(reply.alloc(), tree, project, self.store.as_ref(), reply);
                self.keep(opening);
            }
            Err(memory) => reply.lack(memory),
        }
    }

    fn open(&mut self, row: &str, reply: &mut Reply) {
        let Some(project) = project_of(row, reply) else {
            return;
        };
        if !reply.is_stopped() {
            self.open_project(&project, reply);
        }
        drop(project);
    }

    // Runs the planner over a tree, which is the one that rows put files into afterwards.
    fn run_over(
        &mut self,
        alloc: Global,
        words: &List<Word>,
        tree: MemTree,
        sinks: &mut Sinks,
    ) -> u8
        requires { length words.now < 2 ^ 32 }
    {
        let Ran {
            status,
            tree,
            spent,
        } = run(alloc, words, tree, &mut sinks.out, &mut sinks.err);
        drop(spent);
        drop(replace(&mut self.files.tree, tree));
        status
    }

    // Runs the planner, and answers its status.
    fn run_with(
        &mut self,
        alloc: Global,
        words: &List<Word>,
        sinks: &mut Sinks,
    ) -> Result<u8, Unread<NoRow>> {
        if words.len() > MOST_WORDS {
            return Err(Unread::Fault(NoRow));
        }
        let tree = self.files.take_tree(alloc)?;
        Ok(self.run_over(alloc, words, tree, sinks))
    }

    fn run_words(&mut self, words: &List<Word>, reply: &mut Reply) {
        let sinks = Sinks::new(reply.alloc(), self.room).map_err(Unread::from);
        let Some(mut sinks) = reply.needed::<Sinks, NoRow>(sinks) else {
            return;
        };
        let status = self.run_with(reply.alloc(), words, &mut sinks);
        if let Some(status) = reply.needed(status) {
            tell_ended(status, &sinks, reply);
        }
    }

    fn run(&mut self, row: &str, reply: &mut Reply) {
        let words = words_of(reply.alloc(), row);
        if let Some(words) = reply.needed(words) {
            self.run_words(&words, reply);
        }
    }

    fn set_room(&mut self, row: &str, reply: &mut Reply) {
        reply.silence();
        self.room = room_of(row, reply);
    }

    fn set_store(&mut self, row: &str, reply: &mut Reply) {
        reply.silence();
        drop(replace(&mut self.store, Some(store_of(row, reply))));
    }

    // Begins a group or a case, or sets files, a store or room.
    fn set(&mut self, what: &str, row: &str, reply: &mut Reply) {
        let alloc = reply.alloc();
        match what {
            "group" | "case" => done(reply, self.restart(alloc)),
            "forget" => done(reply, self.files.forget(alloc)),
            "common" => done(reply, self.files.share(alloc, row)),
            "file" => done(reply, self.files.put(alloc, row)),
            "blanks" => done(reply, self.files.put_blanks(alloc, row)),
            "fails" => done(reply, self.files.fail_at(alloc, row)),
            "room" => self.set_room(row, reply),
            "store" => self.set_store(row, reply),
            _ => reply.refuse(),
        }
    }

    // What a row that isn't asked of the world does.
    fn outside(&mut self, question: &str, row: &str, reply: &mut Reply) {
        self.close();
        match question {
            "open" => self.open(row, reply),
            "run" => self.run(row, reply),
            "log" => tell_paths(self.files.tree.logged(), reply),
            "tree" => tree_rows::answer(&mut self.files.tree, row, reply),
            "sink" => sink_rows::answer(&mut self.sink, row, reply),
            "pages" => page_rows::answer(&mut self.pages, row, reply),
            _ => self.set(question, row, reply),
        }
    }

    // Asks the world, where there is one.
    fn inside(&mut self, question: &str, row: &str, reply: &mut Reply) {
        match &mut self.world {
            Some(world) if question == "folder" => folder(world, row, reply),
            Some(world) => ask(world, question, row, reply),
            None => reply.refuse(),
        }
    }
}

impl Answering for Session {
    fn answer(&mut self, row: &str, reply: &mut Reply) {
        let (question, rest) = cut(row);
        match question {
            "given" | "version" | "manifest" | "at" | "folder" => {
                self.inside(question, rest, reply);
            }
            _ => self.outside(question, rest, reply),
        }
    }
}
