//! The packages that are to be made, in the order of the plan.
ghost use Rattle.std.specs.Prelude.{◌≡◌, ◌++◌, [], IfOk, OnOk, map};
ghost use Rattle.vk_make.specs.Makes.{planned_after};
ghost use Rattle.vk_shared.specs.Tasks.{IsNoted, IsPut, PopsTask, planned_view, task_view};

use indexmap::IndexSet;
use std::alloc::Global;
use std::marker::Model;
use vk_base::{List, Memory, TreePath};
use vk_digest::Digest;

/// A package to make.
#[derive(Drop)]
pub struct Task {
    /// The digest of its text.
    pub digest: Digest,
    /// Its text.
    pub text: List<u8>,
    /// The folder of its port.
    pub folder: TreePath,
}

// A task, and whether an earlier one has its digest.
#[derive(Drop)]
pub(crate) struct PlannedTask {
    pub(crate) task: Task,
    pub(crate) repeated: bool,
}

// Tasks in order.
#[derive(Drop)]
pub(crate) struct Tasks {
    // The next one last.
    todo: List<PlannedTask>,
}

impl Model for Tasks {
    ghost use Rattle.std.specs.Prelude.{List, map, reverse};
    ghost use Rattle.vk_make.specs.Makes.{Planned};
    ghost use Rattle.vk_shared.specs.Tasks.{planned_view};

    ghost Value = { List Planned };

    ghost view = { λ l. map planned_view (reverse l.todo) };
}

// Notes a digest, and answers whether it was there.
fn note(digests: &mut IndexSet<Digest>, digest: Digest) -> Result<bool, Memory>
    ensures { IfOk result (IsNoted digests.old.keys digest digests.new.keys) }
{
    let new = digests.insert(digest)?;
    Ok(!new)
}

// Puts a task behind the others, marked whether its digest was there.
fn put(
    digests: &mut IndexSet<Digest>,
    todo: &mut Vec<PlannedTask>,
    task: Task,
) -> Result<(), Memory>
    ensures { OnOk result (IsPut digests.old.keys todo.old.items task digests.new.keys
        todo.new.items) }
{
    let repeated = note(digests, task.digest)?;
    todo.push(PlannedTask { task, repeated })?;
    Ok(())
}

// Puts tasks behind the others, each marked whether one of them before it has its digest.
fn put_all(alloc: Global, todo: &mut Vec<PlannedTask>, tasks: List<Task>) -> Result<(), Memory>
    ensures { OnOk result (map planned_view todo.new.items
        ≡ map planned_view todo.old.items ++ planned_after [] (map task_view tasks)) }
{
    let mut digests = IndexSet::new(alloc);
    for task in tasks.into_vec() {
        put(&mut digests, todo, task)?;
    }
    Ok(())
}

impl Tasks {
    // These tasks.
    pub(crate) fn of(alloc: Global, tasks: List<Task>) -> Result<Tasks, Memory>
        ensures { IfOk result (λ l. l ≡ planned_after [] (map task_view tasks)) }
    {
        let mut todo = Vec::with_capacity(alloc, tasks.len())?;
        put_all(alloc, &mut todo, tasks)?;
        todo.reverse();
        Ok(Tasks {
            todo: List::from_vec(todo),
        })
    }

    // Takes the next one.
    pub(crate) fn pop(&mut self) -> Option<PlannedTask>
        ensures { PopsTask self.old result self.new }
    {
        self.todo.pop()
    }
}
