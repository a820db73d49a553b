//! What a case begins with: files, the items of plans, and agents with their plans.

use crate::items::Item;
use crate::quiet_trees::QuietTree;
use crate::turns::Now;
use std::alloc::Global;
use vk_base::{AgentName, List, Memory, TreePath, Unread};
use vk_row_text::{NoRow, Reply, cut};
use vk_shared::{Making, Task};
use vk_tree::MemTree;

// A path, and the bytes that stand there.
#[derive(Drop)]
struct File {
    path: TreePath,
    bytes: List<u8>,
}

/// An installer: its name, how many bytes packages may have, and the items of its plan.
#[derive(Drop)]
pub struct Agent {
    /// Its name.
    pub name: AgentName,
    most: u64,
    /// Which items its plan has, by their places among those of the case.
    pub plan: List<usize>,
}

/// What a case begins with.
#[derive(Drop)]
pub struct Start {
    /// The folder of the cache.
    pub cache: TreePath,
    files: Vec<File>,
    /// The items that plans may have.
    pub items: Vec<Item>,
    /// Who installs.
    pub agents: Vec<Agent>,
}

fn put(tree: &mut MemTree, file: &File) -> Result<(), Unread<NoRow>> {
    if !tree.has_room(&file.path) {
        return Err(Unread::Fault(NoRow));
    }
    Ok(tree.put(&file.path, file.bytes.as_slice())?)
}

fn put_all(tree: &mut MemTree, files: &[File]) -> Result<(), Unread<NoRow>> {
    for file in files {
        put(tree, file)?;
    }
    Ok(())
}

fn tree_of(alloc: Global, files: &[File]) -> Result<QuietTree, Unread<NoRow>> {
    let mut tree = QuietTree::new(alloc)?;
    put_all(&mut tree.mem, files)?;
    Ok(tree)
}

fn push_task(items: &[Item], place: usize, tasks: &mut List<Task>) -> Result<(), Memory> {
    if let Some(item) = items.get(place) {
        tasks.push(item.task()?)?;
    }
    Ok(())
}

fn tasks_of(alloc: Global, items: &[Item], plan: &[usize]) -> Result<List<Task>, Memory> {
    let mut tasks = List::new(alloc);
    for place in plan {
        push_task(items, *place, &mut tasks)?;
    }
    Ok(tasks)
}

/// A new making of the packages of an agent's plan.
fn making_of(
    alloc: Global,
    cache: &TreePath,
    items: &[Item],
    agent: &Agent,
) -> Result<Making, Memory> {
    let tasks = tasks_of(alloc, items, agent.plan.as_slice())?;
    Making::new(alloc, cache, &agent.name, tasks, agent.most)
}

impl Start {
    /// No files, no items and no agents.
    pub fn new(alloc: Global) -> Result<Start, Memory> {
        let cache = TreePath::new(alloc).child(alloc, "cache")?;
        Ok(Start {
            cache,
            files: Vec::new(alloc),
            items: Vec::new(alloc),
            agents: Vec::new(alloc),
        })
    }

    fn makings(&self, alloc: Global) -> Result<Vec<Making>, Memory> {
        let mut makings = Vec::new(alloc);
        for agent in self.agents.iter() {
            makings.push(making_of(alloc, &self.cache, self.items.as_slice(), agent)?)?;
        }
        Ok(makings)
    }

    /// The beginning: no call was made.
    pub fn begin(&self, alloc: Global) -> Result<Now, Unread<NoRow>> {
        let tree = tree_of(alloc, self.files.as_slice())?;
        match self.makings(alloc) {
            Ok(makings) => Ok(Now { tree, makings }),
            Err(memory) => {
                drop(tree);
                Err(Unread::Memory(memory))
            }
        }
    }

    /// The place of an agent.
    pub fn agent(&self, name: &str) -> Option<usize> {
        self.agents
            .iter()
            .position(|agent| agent.name.as_str() == name)
    }

    /// The place of an item.
    pub fn item(&self, name: &str) -> Option<usize> {
        self.items.iter().position(|item| item.name.is(name))
    }

    /// The item at a place of an agent's plan.
    pub fn planned(&self, agent: usize, place: usize) -> Option<&Item> {
        let plan = &self.agents.get(agent)?.plan;
        self.items.get(*plan.get(place)?)
    }

    fn push_file(&mut self, path: TreePath, bytes: List<u8>, reply: &mut Reply) {
        if let Err(lack) = self.files.push(File { path, bytes }) {
            reply.lack(Memory::from(lack));
        }
    }

    // `PATH BYTES`: one file more.
    fn file(&mut self, row: &str, reply: &mut Reply) {
        let (path, bytes) = cut(row);
        let path = reply.path(path);
        let bytes = reply.bytes(bytes);
        self.push_file(path, bytes, reply);
    }

    // A file whose path is a front with four digits behind it.
    fn numbered(&mut self, front: &str, number: u32, reply: &mut Reply) {
        match format!(in reply.alloc(); "{front}-{number:04}") {
            Ok(path) => {
                let path = reply.path(path.as_str());
                let bytes = List::new(reply.alloc());
                self.push_file(path, bytes, reply);
            }
            Err(lack) => reply.lack(Memory::from(lack)),
        }
    }

    // `FRONT N`: so many empty files more, from `FRONT-0000` on.
    fn fill(&mut self, row: &str, reply: &mut Reply) {
        let (front, count) = cut(row);
        let count: u32 = reply.number(count);
        for number in 0..count {
            self.numbered(front, number, reply);
        }
    }

    fn plan_of(&self, words: &str, reply: &mut Reply) -> List<usize> {
        let mut plan = List::new(reply.alloc());
        for word in words.split(' ') {
            match self.item(word) {
                Some(place) => push_place(&mut plan, place, reply),
                None if word.is_empty() => {}
                None => reply.refuse(),
            }
        }
        plan
    }

    fn push_agent(&mut self, name: AgentName, most: u64, plan: List<usize>, reply: &mut Reply) {
        if let Err(lack) = self.agents.push(Agent { name, most, plan }) {
            reply.lack(Memory::from(lack));
        }
    }

    // `NAME MOST ITEM ..`: an agent, how many bytes packages may have, and the items of its plan.
    fn add_agent(&mut self, row: &str, reply: &mut Reply) {
        let (name, row) = cut(row);
        let (most, words) = cut(row);
        let most = reply.number(most);
        let plan = self.plan_of(words, reply);
        let name = AgentName::read(reply.alloc(), name);
        match reply.needed(name) {
            Some(name) => self.push_agent(name, most, plan, reply),
            None => drop(plan),
        }
    }

    // One item more.
    fn add_item(&mut self, item: Item, reply: &mut Reply) {
        if let Err(lack) = self.items.push(item) {
            reply.lack(Memory::from(lack));
        }
    }

    /// `file ..`, `fill ..`, `item ..`, `agent ..`: adds to what a case begins with.
    pub fn set(&mut self, what: &str, row: &str, reply: &mut Reply) {
        reply.silence();
        match what {
            "file" => self.file(row, reply),
            "fill" => self.fill(row, reply),
            "item" => {
                let item = crate::items::item_of(row, reply);
                self.add_item(item, reply);
            }
            "agent" => self.add_agent(row, reply),
            _ => reply.refuse(),
        }
    }
}

fn push_place(plan: &mut List<usize>, place: usize, reply: &mut Reply) {
    if let Err(lack) = plan.push(place) {
        reply.lack(Memory::from(lack));
    }
}
