//! What the words ask for.
ghost use Rattle.std.specs.Prelude.{◌≡◌, ◌∷◌, ◌<◌, ◌^◌, [], IfOk, codes, length, unwrap_or};
ghost use Rattle.vk_spec.specs.Reading.{Gives};
ghost use Rattle.vk_base.specs.Stops.{fault_in};
ghost use Rattle.vk_words.specs.WordViews.{words_view};
ghost use Rattle.vk_words.specs.declared.commands.Command.TheVariants as command;
ghost use Rattle.vk_app.specs.Requests.{load_project, project_of, request_of, task_in};

use std::alloc::Global;
use vk_base::{Instance, List, Memory, PortName, TreePath, TripletName, Unread, Word};
use vk_model::{Builder, Project};
use vk_words::{Command, WordFault, read_words};

/// What a run is to do.
#[derive(Drop)]
pub enum Task {
    /// Print the plan of a project.
    Plan(Project),
    /// Print the ABI text of an instance in the plan of a project.
    Abi(Project, Instance),
    /// Check the report in a file against what a project comes to.
    Check(Project, TreePath),
    /// Plan a load of a size, from 1 to 2,000, which is made for it, with the project of a load.
    SelfLoad(u32, Project),
}

impl Task {
    /// The project that it is about.
    pub fn project(&self) -> &Project
        ensures { result.now ≡ project_of self.now }
    {
        match self {
            Task::Plan(project) => project,
            Task::Abi(project, _) => project,
            Task::Check(project, _) => project,
            Task::SelfLoad(_, project) => project,
        }
    }
}

// The triplet that is named, or else the target's.
fn or_target(named: Option<TripletName>, project: &Project) -> Result<TripletName, Memory>
    ensures { IfOk result (λ name. name ≡ unwrap_or named project.now.target) }
{
    match named {
        Some(name) => Ok(name),
        None => Ok(project.target.clone()?),
    }
}

// The task of an ABI text.
fn abi_task(
    project: Project,
    port: PortName,
    named: Option<TripletName>,
) -> Result<Task, Unread<WordFault>>
    ensures { Gives (λ t. t) fault_in result (task_in (command.Abi project port named)) }
{
    match or_target(named, &project) {
        Ok(triplet) => Ok(Task::Abi(project, Instance { port, triplet })),
        Err(memory) => {
            drop(project);
            drop(port);
            Err(Unread::Memory(memory))
        }
    }
}

// The triplet of a load.
fn load_triplet(alloc: Global) -> Result<TripletName, Memory>
    ensures { IfOk result (λ name. name ≡ codes "x64-linux") }
{
    match TripletName::read(alloc, "x64-linux") {
        Ok(name) => Ok(name),
        Err(Unread::Fault(_)) => unreachable!(),
        Err(Unread::Memory(memory)) => Err(memory),
    }
}

// The folder with the triplet of a load.
fn load_triplets(alloc: Global) -> Result<List<TreePath>, Memory>
    ensures { IfOk result (λ folders. folders ≡ (codes "." ∷ codes "triplets" ∷ []) ∷ []) }
{
    let mut folders = List::new(alloc);
    folders.push(TreePath::new(alloc).child(alloc, "triplets")?)?;
    Ok(folders)
}

// The project of a load.
fn load_project(alloc: Global) -> Result<Project, Memory>
    ensures { IfOk result (λ project. project ≡ load_project) }
{
    let target = load_triplet(alloc)?;
    let host = load_triplet(alloc)?;
    let overlay_triplets = load_triplets(alloc)?;
    let builder = Builder::recorded(alloc)?;
    Ok(Project {
        folder: TreePath::new(alloc),
        target,
        host,
        features: List::new(alloc),
        defaults: true,
        overlay_ports: List::new(alloc),
        overlay_triplets,
        max_facts: 1_000_000,
        max_bytes: 536_870_912,
        builder,
    })
}

// The task of a load.
fn load_task(alloc: Global, size: u32) -> Result<Task, Unread<WordFault>>
    ensures { Gives (λ t. t) fault_in result (task_in (command.SelfLoad size)) }
{
    match load_project(alloc) {
        Ok(project) => Ok(Task::SelfLoad(size, project)),
        Err(memory) => Err(Unread::Memory(memory)),
    }
}

// The task of a command that is built.
fn task_in(alloc: Global, command: Command) -> Result<Task, Unread<WordFault>>
    ensures { Gives (λ t. t) fault_in result (task_in command) }
{
    match command {
        Command::Plan(project) => Ok(Task::Plan(project)),
        Command::Abi(project, port, triplet) => abi_task(project, port, triplet),
        Command::Install(project, store) => {
            drop(project);
            drop(store);
            Err(Unread::Fault(WordFault::Unknown(1)))
        }
        Command::Check(project, report) => Ok(Task::Check(project, report)),
        Command::SelfLoad(size) => load_task(alloc, size),
    }
}

/// The task that the words ask for, or their first fault. A command that isn't built yet is
/// `Unknown` at its word, where its own words have no fault.
#[tactic(auto, unfolding(crate::specs::Requests::request_of))]
pub fn read_request(alloc: Global, words: &List<Word>) -> Result<Task, Unread<WordFault>>
    requires { length words.now < 2 ^ 32 }
    ensures { Gives (λ t. t) fault_in result (request_of (words_view words.now)) }
{
    let command = read_words(alloc, words)?;
    task_in(alloc, command)
}
