//! The publishing of an entry, one call after the other.
ghost use Rattle.std.specs.Prelude.{◌≡◌, ◌++◌, ◌∷◌, [], None, IfOk, drop, map};
ghost use Rattle.vk_spec.specs.States.{Ends};
ghost use Rattle.vk_spec.specs.Standing.{OnFiles};
ghost use Rattle.vk_base.specs.Stops.{has_failed};
ghost use Rattle.vk_spec.specs.Calls.{CanMake};
ghost use Rattle.vk_base.specs.Names.{name_fault, word_rule};
ghost use Rattle.vk_base.specs.declared.limits.Limit.TheVariants as limit;
ghost use Rattle.vk_tree.specs.Answers.{entries_of, list_refusal, move_refusal};
ghost use Rattle.vk_entry.specs.PackageViews.{file_view};
ghost use Rattle.vk_entry.specs.Contents.{content_of, contents_text};
ghost use Rattle.vk_protocol.specs.Asking.{DoneSays, split, reply_by};
ghost use Rattle.vk_protocol.specs.Protocols.{ends};
ghost use Rattle.vk_protocol.specs.Runs.{Asked, CanAsk, CanRunOn, IsAtEnd, NextIs, Ran};
ghost use Rattle.vk_places.specs.Places.{contents_at, file_at, text_at, tmp_at};
ghost use Rattle.vk_publish.specs.Names.{free_of};
ghost use Rattle.vk_publish.specs.declared.publishing.PublishNow.TheVariants as next;
ghost use Rattle.vk_publish.specs.Entries.{AreApart, entry_files, last_files, placed_file};
ghost use Rattle.vk_publish.specs.Publish.{publish_of, published_by};
ghost use Rattle.vk_publish.specs.Outcomes.{Between, IsClear, PublishKeeps, PublishSays};
ghost use Rattle.vk_publish.specs.PublishMachine.{whole_of, write_left, files_left, goes_on};
ghost use Rattle.vk_publish.specs.PublishMachine.{publish_left, write_call};

use crate::answers::Published;
use crate::jobs::{PublishJob, Target};
use crate::names::{free_number, known};
use std::alloc::Global;
use vk_base::{Limit, List, Memory, Outage, Stop, TreePath};
use vk_digest::Digest;
use vk_entry::{Package, PackageFile, contents_of, write_contents};
use vk_places::{contents_in, entry_in, file_in, text_in, tmp_folder, tmp_in};
use vk_protocol::{Machine, ask_list, ask_rename, ask_write, joined, run};
use vk_tree::{ListFault, Listed, MoveFault, Tree};

/// What a publishing does next.
#[derive(Clone, Copy)]
pub enum PublishNow {
    /// It lists what is being made.
    Lists,
    /// It writes the file at this place of the package below the name with this number, or the list
    /// of what the package contains where no file is left.
    Files { number: u32, next: usize },
    /// It writes the text.
    Text { number: u32 },
    /// It moves all that was written to the entry.
    Moves { number: u32 },
    /// It came to its end.
    Ended(Published),
    /// A limit was passed.
    Over(Limit),
}

/// A publishing that has come so far.
#[derive(Clone, Copy)]
pub struct Publishing<'a> {
    /// What is published.
    pub job: PublishJob<'a>,
    /// What it does next.
    pub at: PublishNow,
}

// Goes on with the number of the least free name.
#[tactic(auto, unfolding(crate::specs::PublishMachine::publish_left))]
fn begun(job: &PublishJob<'_>, reply: Result<List<Listed>, ListFault>) -> Result<PublishNow, Memory>
    ensures { IfOk result (λ at. publish_left job.now at ≡ goes_on job.now
        (free_of limit.Tmp job.now.target.agent.now (reply_by entries_of list_refusal reply))) }
{
    match free_number(job.target.alloc, job.target.agent, Limit::Tmp, reply)? {
        Ok(number) => Ok(PublishNow::Files { number, next: 0 }),
        Err(over) => Ok(PublishNow::Over(over)),
    }
}

// Lists what is being made.
#[tactic(auto, unfolding(crate::specs::Publish::publish_of))]
fn list_names<T: Tree>(job: &PublishJob<'_>, tree: &mut T) -> Result<PublishNow, Outage>
    ensures { NextIs (whole_of job.now) (publish_left job.now) result (T.state tree.old)
        (T.state tree.new) }
{
    let folder = tmp_folder(job.target.alloc, job.target.cache)?;
    let reply = ask_list(tree, &folder)?;
    Ok(begun(job, reply)?)
}

// The folder in which the entry is made.
fn made_in(target: &Target<'_>, number: u32) -> Result<TreePath, Memory>
    ensures { IfOk result (λ p. p ≡ tmp_at target.now.cache.now target.now.agent.now number) }
{
    known(target);
    tmp_in(target.alloc, target.cache, target.agent, number)
}

fn file_place(target: &Target<'_>, number: u32, path: &TreePath) -> Result<TreePath, Memory>
    ensures { IfOk result (λ p. p ≡ file_at (tmp_at target.now.cache.now target.now.agent.now number)
        path.now) }
{
    let at = made_in(target, number)?;
    file_in(target.alloc, &at, path)
}

// Writes one file of the package.
fn write_file<T: Tree>(
    job: &PublishJob<'_>,
    number: u32,
    file: &PackageFile,
    tree: &mut T,
) -> Result<(), Outage>
    requires { OnFiles (CanMake (write_call job.now number (placed_file (file_view file.now))))
        (T.state tree.old) }
    ensures { Asked (write_call job.now number (placed_file (file_view file.now))) DoneSays result
        (T.state tree.old) (T.state tree.new) }
{
    let place = file_place(&job.target, number, &file.path)?;
    ask_write(tree, &place, file.bytes.as_slice())
}

// The list of what a package contains.
fn list_text(alloc: Global, package: &Package) -> Result<List<u8>, Memory>
    ensures { IfOk result (λ bytes. bytes ≡ contents_text (map content_of «package».now)) }
{
    let lines = contents_of(alloc, package)?;
    write_contents(alloc, &lines)
}

fn list_place(target: &Target<'_>, number: u32) -> Result<TreePath, Memory>
    ensures { IfOk result (λ p. p
        ≡ contents_at (tmp_at target.now.cache.now target.now.agent.now number)) }
{
    let at = made_in(target, number)?;
    contents_in(target.alloc, &at)
}

// Writes the list of what the package contains.
#[tactic(auto, unfolding(crate::specs::PublishMachine::publish_left))]
fn write_list<T: Tree>(
    job: &PublishJob<'_>,
    number: u32,
    tree: &mut T,
) -> Result<PublishNow, Outage>
    requires { OnFiles (CanAsk (write_left job.now number
        (last_files job.now.text.now job.now.built.now))) (T.state tree.old) }
    ensures { NextIs (write_left job.now number (last_files job.now.text.now job.now.built.now))
        (publish_left job.now) result (T.state tree.old) (T.state tree.new) }
{
    let place = list_place(&job.target, number)?;
    let bytes = list_text(job.target.alloc, job.built)?;
    ask_write(tree, &place, bytes.as_slice())?;
    Ok(PublishNow::Text { number })
}

fn text_place(target: &Target<'_>, number: u32) -> Result<TreePath, Memory>
    ensures { IfOk result (λ p. p
        ≡ text_at (tmp_at target.now.cache.now target.now.agent.now number)) }
{
    let at = made_in(target, number)?;
    text_in(target.alloc, &at)
}

// Writes the text.
#[tactic(auto, unfolding(crate::specs::PublishMachine::publish_left))]
fn write_text<T: Tree>(
    job: &PublishJob<'_>,
    number: u32,
    tree: &mut T,
) -> Result<PublishNow, Outage>
    requires { OnFiles (CanAsk (publish_left job.now (next.Text number))) (T.state tree.old) }
    ensures { NextIs (publish_left job.now (next.Text number)) (publish_left job.now) result
        (T.state tree.old) (T.state tree.new) }
{
    let place = text_place(&job.target, number)?;
    ask_write(tree, &place, job.text)?;
    Ok(PublishNow::Moves { number })
}

fn moved(reply: Result<(), MoveFault>) -> Published
    ensures { result ≡ published_by (reply_by (λ u. u) move_refusal reply) }
{
    match reply {
        Ok(_) => Published::Now,
        Err(MoveFault::Missing) => Published::Gone,
        Err(MoveFault::Exists) => Published::Already,
    }
}

// Moves all that was written to the entry.
#[tactic(auto, unfolding(crate::specs::PublishMachine::publish_left))]
fn move_in<T: Tree>(job: &PublishJob<'_>, number: u32, tree: &mut T) -> Result<PublishNow, Outage>
    requires { OnFiles (CanAsk (publish_left job.now (next.Moves number))) (T.state tree.old) }
    ensures { NextIs (publish_left job.now (next.Moves number)) (publish_left job.now) result
        (T.state tree.old) (T.state tree.new) }
{
    let at = made_in(&job.target, number)?;
    let entry = entry_in(job.target.alloc, job.target.cache, job.target.digest)?;
    let reply = ask_rename(tree, &at, &entry)?;
    Ok(PublishNow::Ended(moved(reply)))
}

// Writes the next file of the package, or the list where none is left.
fn write_next<T: Tree>(
    job: &PublishJob<'_>,
    number: u32,
    next: usize,
    tree: &mut T,
) -> Result<PublishNow, Outage>
    requires { OnFiles (CanAsk (files_left job.now number next)) (T.state tree.old) }
    ensures { NextIs (files_left job.now number next) (publish_left job.now) result
        (T.state tree.old) (T.state tree.new) }
{
    match job.built.files().get(next) {
        Some(file) => {
            write_file(job, number, file, tree)?;
            Ok(PublishNow::Files {
                number,
                next: next + 1,
            })
        }
        None => write_list(job, number, tree),
    }
}

/// Makes the call that comes next. What follows is what is left to do.
#[tactic(auto, unfolding(crate::specs::PublishMachine::publish_left))]
pub fn publish_step<T: Tree>(
    job: &PublishJob<'_>,
    at: PublishNow,
    tree: &mut T,
) -> Result<PublishNow, Outage>
    requires { OnFiles (CanAsk (publish_left job.now at)) (T.state tree.old) }
    ensures { NextIs (publish_left job.now at) (publish_left job.now) result (T.state tree.old)
        (T.state tree.new) }
{
    match at {
        PublishNow::Lists => list_names(job, tree),
        PublishNow::Files { number, next } => write_next(job, number, next, tree),
        PublishNow::Text { number } => write_text(job, number, tree),
        PublishNow::Moves { number } => move_in(job, number, tree),
        PublishNow::Ended(_) => Err(Outage::Memory(Memory::without_allocation())),
        PublishNow::Over(_) => Err(Outage::Memory(Memory::without_allocation())),
    }
}

impl Machine for Publishing<'_> {
    ghost use Rattle.std.specs.Prelude.{Result};
    ghost use Rattle.vk_base.specs.declared.limits.Limit.{Limit};
    ghost use Rattle.vk_publish.specs.declared.answers.Published.{Published};
    ghost use Rattle.vk_publish.specs.PublishMachine.{publish_means};

    ghost Out = { Result Published Limit };

    ghost means = { publish_means };

    #[tactic(auto, unfolding(crate::specs::PublishMachine::publish_left))]
    fn asks(&self) -> bool {
        match self.at {
            PublishNow::Lists => true,
            PublishNow::Files { .. } => true,
            PublishNow::Text { .. } => true,
            PublishNow::Moves { .. } => true,
            PublishNow::Ended(_) => false,
            PublishNow::Over(_) => false,
        }
    }

    fn step<T: Tree>(&mut self, tree: &mut T) -> Result<(), Outage> {
        self.at = publish_step(&self.job, self.at, tree)?;
        Ok(())
    }
}

// What it came to.
#[tactic(auto, unfolding(crate::specs::Publish::publish_of, crate::specs::PublishMachine::publish_left))]
fn came_to(job: &PublishJob<'_>, at: PublishNow) -> Result<Published, Limit>
    requires { IsAtEnd (publish_left job.now at) }
    ensures { publish_left job.now at ≡ ends result }
{
    match at {
        PublishNow::Ended(published) => Ok(published),
        PublishNow::Over(over) => Err(over),
        PublishNow::Lists => unreachable!(),
        PublishNow::Files { .. } => unreachable!(),
        PublishNow::Text { .. } => unreachable!(),
        PublishNow::Moves { .. } => unreachable!(),
    }
}

// Makes all calls of a publishing.
fn publish_job<T: Tree>(
    job: PublishJob<'_>,
    tree: &mut T,
) -> Result<Result<Published, Limit>, Outage>
    requires { CanRunOn (whole_of job) (T.state tree.old) }
    ensures { Ran (whole_of job.entry) result (T.state tree.old) (T.state tree.new) }
{
    let mut publishing = Publishing {
        job,
        at: PublishNow::Lists,
    };
    run(&mut publishing, tree)?;
    Ok(came_to(&publishing.job, publishing.at))
}

/// Publishes an entry: its files are written below the least free name of the agent's in `tmp`,
/// which one rename moves to the entry. `Already` exactly where something stands at the entry's path
/// or below it, and `Gone` never, where the tree tells its files. `Entries` exactly where `tmp` has
/// too many entries to list, and else `Tmp` where all names of the agent's are taken there; nothing
/// was changed then. `Failed` only where the tree's count of faults may have increased. Wherever it
/// stops, the entry is as it was or whole, and all else stays but what is below that name.
pub fn publish<'a, T: Tree>(
    alloc: Global,
    tree: &mut T,
    cache: &'a TreePath,
    agent: &'a str,
    digest: &'a Digest,
    text: &'a [u8],
    built: &'a Package,
) -> Result<Published, Stop<Limit>>
    requires named { name_fault word_rule agent.now ≡ None }
    requires apart { AreApart built.now }
    requires clear { OnFiles (IsClear cache.now) (T.state tree.old) }
    ensures ran { Ran (publish_of cache.now agent.now digest.now.bytes
        (entry_files text.now built.now)) (split result) (T.state tree.old) (T.state tree.new) }
    ensures counts { Ends (has_failed result) (T.state tree.old) (T.state tree.new) }
    ensures keeps { Between (PublishKeeps cache.now agent.now digest.now.bytes
        (entry_files text.now built.now)) (T.state tree.old) (T.state tree.new) }
    ensures says { Between (λ f g. IfOk (split result) (λ x. PublishSays cache.now agent.now
        digest.now.bytes (entry_files text.now built.now) x f g)) (T.state tree.old)
        (T.state tree.new) }
{
    let target = Target {
        alloc,
        cache,
        agent,
        digest,
    };
    let job = PublishJob {
        target,
        text,
        built,
    };
    joined(publish_job(job, tree))
}
