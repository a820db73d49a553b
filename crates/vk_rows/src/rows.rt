//! All rows: those about calls of a tree, and the others.

use crate::sessions::Session;
use crate::tree_calls::TreeCalls;
use std::alloc::Global;
use std::os::unix::fs::FileExt;
use std::rt::Files;
use vk_base::Memory;
use vk_row_text::{Answering, Reply, cut};

/// Projects in memory, and a tree in memory beside the host's files.
#[derive(Drop)]
pub struct Rows<R> {
    projects: Session,
    trees: TreeCalls<R>,
}

impl<R: Files + Alloc<A = Global> + Clone + Drop> Rows<R>
where
    R::File: FileExt,
{
    /// No project, no files in memory, and those of the host.
    pub fn new(rt: R) -> Result<Rows<R>, Memory> {
        let alloc = rt.alloc();
        let trees = TreeCalls::new(rt)?;
        match Session::new(alloc) {
            Ok(projects) => Ok(Rows { projects, trees }),
            Err(memory) => {
                drop(trees);
                Err(memory)
            }
        }
    }
}

impl<R: Files + Alloc<A = Global> + Clone + Drop> Answering for Rows<R>
where
    R::File: FileExt,
{
    fn answer(&mut self, row: &str, reply: &mut Reply) {
        match cut(row).0 {
            "mem" | "host" | "both" | "each" => self.trees.answer(row, reply),
            _ => self.projects.answer(row, reply),
        }
    }
}
