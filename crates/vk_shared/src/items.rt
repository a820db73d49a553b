//! The making of one package: a step makes one call.
ghost use Rattle.std.specs.Prelude.{◌≡◌, IfOk};
ghost use Rattle.vk_spec.specs.Standing.{OnFiles};
ghost use Rattle.vk_protocol.specs.Runs.{CanAsk, NextIs};
ghost use Rattle.vk_looking.specs.LookMachine.{now_means};
ghost use Rattle.vk_make.specs.Makes.{Supplies, build_item, looked, wanted_for};
ghost use Rattle.vk_shared.specs.ItemMachine.{IsNoEarlier, aside_now, item_left, job_item};
ghost use Rattle.vk_shared.specs.ItemMachine.{job_work};
ghost use Rattle.vk_shared.specs.ItemMachine.{next_left, publish_now};
ghost use Rattle.vk_shared.specs.declared.items.ItemNow.TheVariants as now;

use crate::stocks::MadePackage;
use crate::tasks::Task;
use std::alloc::Global;
use vk_base::{AgentName, Limit, Memory, Outage, TreePath};
use vk_entry::Package;
use vk_gather::{Gathering, gathered_by};
use vk_look::{Harm, Look};
use vk_looking::{LookFor, LookNow};
use vk_make::{MakeEnd, Mark};
use vk_places::entry_in;
use vk_protocol::Machine;
use vk_publish::{AsideNow, PublishJob, PublishNow, Target, aside_step, publish_step};
use vk_tree::Tree;

/// What an item is made for.
#[derive(Clone, Copy)]
pub(crate) struct ItemJob<'a> {
    pub(crate) alloc: Global,
    pub(crate) cache: &'a TreePath,
    pub(crate) agent: &'a AgentName,
    pub(crate) task: &'a Task,
    /// How many bytes a port's folder may have, and all packages together.
    pub(crate) most: u64,
    /// Its place in the plan.
    pub(crate) place: u32,
    /// How many bytes its package may have.
    pub(crate) room: u64,
}

/// What the making of an item does next.
#[derive(Drop)]
pub(crate) enum ItemNow {
    /// It looks at the entry.
    Looks(LookNow),
    /// It sets the entry aside.
    SetsAside {
        harm: Harm,
        at: AsideNow,
    },
    /// It gathers the files of the port's folder.
    Gathers {
        mark: Mark,
        gathering: Gathering,
    },
    /// It publishes the package.
    Publishes {
        mark: Mark,
        built: Package,
        at: PublishNow,
    },
}

/// What follows a call.
#[derive(Drop)]
pub(crate) enum ItemNext {
    /// Another one.
    Goes(ItemNow),
    /// A package has to be supplied; these are the files of the port's folder.
    Waits { mark: Mark, folder: Package },
    /// The package is made.
    Made(MadePackage),
    /// There is none.
    Ends(MakeEnd),
}

impl<'a> ItemJob<'a> {
    // The entry, and the agent that works on it.
    fn target(&self) -> Target<'a>
        ensures cache { result.cache.now ≡ self.now.cache.now }
        ensures agent { result.agent.now ≡ self.now.agent.now }
        ensures digest { result.digest.now ≡ self.now.task.now.digest }
    {
        Target {
            alloc: self.alloc,
            cache: self.cache,
            agent: self.agent.as_str(),
            digest: &self.task.digest,
        }
    }
}

// ---- the look

fn begin_gathering(job: &ItemJob<'_>, mark: Mark) -> Result<ItemNow, Memory>
    ensures { IfOk result (λ at. (s : Supplies) → item_left (job_work s job.now) (job_item job.now) at
        ≡ build_item (job_work s job.now) (job_item job.now) mark) }
{
    let folder = job.task.folder.clone()?;
    Ok(ItemNow::Gathers {
        mark,
        gathering: Gathering::new(job.alloc, folder, job.most),
    })
}

fn build(job: &ItemJob<'_>, mark: Mark) -> Result<ItemNext, Memory>
    ensures { IfOk result (λ at. (s : Supplies) → next_left (job_work s job.now) (job_item job.now) at
        ≡ build_item (job_work s job.now) (job_item job.now) mark) }
{
    Ok(ItemNext::Goes(begin_gathering(job, mark)?))
}

// What follows a look that has come to its end.
fn looked_next(job: &ItemJob<'_>, found: Result<Look, Limit>) -> Result<ItemNext, Memory>
    ensures { IfOk result (λ at. (s : Supplies) → next_left (job_work s job.now) (job_item job.now) at
        ≡ looked (job_work s job.now) (job_item job.now) found) }
{
    match found {
        Ok(Look::Hit(built)) => Ok(ItemNext::Made(MadePackage {
            mark: Mark::Restored,
            built,
        })),
        Ok(Look::Absent) => build(job, Mark::Built),
        Ok(Look::Damaged(harm)) => Ok(ItemNext::Goes(ItemNow::SetsAside {
            harm,
            at: AsideNow::Lists,
        })),
        Ok(Look::Collision(kept)) => {
            drop(kept);
            Ok(ItemNext::Ends(MakeEnd::Collision { item: job.place }))
        }
        Err(_) => Ok(ItemNext::Ends(MakeEnd::Limit(Limit::Bytes(job.most)))),
    }
}

// What follows a call of the look.
fn look_next(job: &ItemJob<'_>, at: LookNow) -> Result<ItemNext, Memory>
    ensures { IfOk result (λ next. (s : Supplies) → next_left (job_work s job.now) (job_item job.now) next
        ≡ item_left (job_work s job.now) (job_item job.now) (now.Looks at)) }
{
    match at {
        LookNow::Ended(looked) => looked_next(job, looked),
        at => Ok(ItemNext::Goes(ItemNow::Looks(at))),
    }
}

// One call of the look.
fn look_call<T: Tree>(job: &ItemJob<'_>, at: LookNow, tree: &mut T) -> Result<LookNow, Outage>
    ensures { (s : Supplies) → NextIs (now_means (wanted_for (job_work s job.now) (job_item job.now)) at)
        (now_means (wanted_for (job_work s job.now) (job_item job.now))) result (T.state tree.old)
        (T.state tree.new) }
{
    match entry_in(job.alloc, job.cache, &job.task.digest) {
        Ok(folder) => {
            let wanted = LookFor {
                folder: &folder,
                digest: &job.task.digest,
                text: job.task.text.as_slice(),
                most: job.room,
            };
            at.next(job.alloc, &wanted, tree)
        }
        Err(memory) => {
            drop(at);
            Err(Outage::Memory(memory))
        }
    }
}

fn look_on<T: Tree>(job: &ItemJob<'_>, at: LookNow, tree: &mut T) -> Result<ItemNext, Outage>
    ensures { (s : Supplies) → NextIs (item_left (job_work s job.now) (job_item job.now) (now.Looks at))
        (next_left (job_work s job.now) (job_item job.now)) result (T.state tree.old)
        (T.state tree.new) }
{
    let at = look_call(job, at, tree)?;
    Ok(look_next(job, at)?)
}

// ---- the setting aside

// What follows a call of the setting aside.
fn aside_next(job: &ItemJob<'_>, harm: Harm, at: AsideNow) -> Result<ItemNext, Memory>
    ensures { IfOk result (λ next. (s : Supplies) → next_left (job_work s job.now) (job_item job.now) next
        ≡ item_left (job_work s job.now) (job_item job.now) (now.SetsAside harm at)) }
{
    match at {
        AsideNow::Ended(_) => build(job, Mark::Rebuilt(harm)),
        AsideNow::Over(over) => Ok(ItemNext::Ends(MakeEnd::Limit(over))),
        AsideNow::Lists => Ok(ItemNext::Goes(ItemNow::SetsAside { harm, at })),
        AsideNow::Moves { .. } => Ok(ItemNext::Goes(ItemNow::SetsAside { harm, at })),
    }
}

// One call of the setting aside.
fn aside_call<T: Tree>(job: &ItemJob<'_>, at: AsideNow, tree: &mut T) -> Result<AsideNow, Outage>
    requires { OnFiles (λ d. (s : Supplies) × CanAsk (aside_now (job_work s job.now) (job_item job.now) at) d)
        (T.state tree.old) }
    ensures { (s : Supplies) → NextIs (aside_now (job_work s job.now) (job_item job.now) at)
        (aside_now (job_work s job.now) (job_item job.now)) result (T.state tree.old)
        (T.state tree.new) }
{
    aside_step(&job.target(), at, tree)
}

fn aside_on<T: Tree>(
    job: &ItemJob<'_>,
    harm: Harm,
    at: AsideNow,
    tree: &mut T,
) -> Result<ItemNext, Outage>
    requires { OnFiles (λ d. (s : Supplies) × CanAsk (item_left (job_work s job.now) (job_item job.now)
        (now.SetsAside harm at)) d) (T.state tree.old) }
    ensures { (s : Supplies) → NextIs (item_left (job_work s job.now) (job_item job.now)
        (now.SetsAside harm at)) (next_left (job_work s job.now) (job_item job.now)) result
        (T.state tree.old) (T.state tree.new) }
{
    let at = aside_call(job, at, tree)?;
    Ok(aside_next(job, harm, at)?)
}

// ---- the gathering

// What follows a call of the gathering.
fn gather_next(mark: Mark, gathering: Gathering) -> ItemNext
    ensures { (s : Supplies) (job : ItemJob) → next_left (job_work s job) (job_item job) result
        ≡ item_left (job_work s job) (job_item job) (now.Gathers mark gathering) }
{
    if gathering.asks() {
        return ItemNext::Goes(ItemNow::Gathers { mark, gathering });
    }
    match gathered_by(gathering) {
        Ok(folder) => ItemNext::Waits { mark, folder },
        Err(over) => ItemNext::Ends(MakeEnd::Limit(over)),
    }
}

fn gather_on<T: Tree>(
    job: &ItemJob<'_>,
    mark: Mark,
    gathering: Gathering,
    tree: &mut T,
) -> Result<ItemNext, Outage>
    ensures { (s : Supplies) → NextIs (item_left (job_work s job.now) (job_item job.now)
        (now.Gathers mark gathering)) (next_left (job_work s job.now) (job_item job.now)) result
        (T.state tree.old) (T.state tree.new) }
{
    let mut gathering = gathering;
    match gathering.step(tree) {
        Ok(()) => Ok(gather_next(mark, gathering)),
        Err(outage) => {
            drop(gathering);
            Err(outage)
        }
    }
}

// ---- the publishing

// What follows a call of the publishing.
fn publish_next(mark: Mark, built: Package, at: PublishNow) -> ItemNext
    ensures left { (s : Supplies) (job : ItemJob) → next_left (job_work s job) (job_item job) result
        ≡ item_left (job_work s job) (job_item job) (now.Publishes mark built at) }
    ensures waits { IsNoEarlier (now.Publishes mark built at) result }
{
    match at {
        PublishNow::Ended(_) => ItemNext::Made(MadePackage { mark, built }),
        PublishNow::Over(over) => {
            drop(built);
            ItemNext::Ends(MakeEnd::Limit(over))
        }
        PublishNow::Lists => ItemNext::Goes(ItemNow::Publishes { mark, built, at }),
        PublishNow::Files { .. } => ItemNext::Goes(ItemNow::Publishes { mark, built, at }),
        PublishNow::Text { .. } => ItemNext::Goes(ItemNow::Publishes { mark, built, at }),
        PublishNow::Moves { .. } => ItemNext::Goes(ItemNow::Publishes { mark, built, at }),
    }
}

// One call of the publishing.
fn publish_call<T: Tree>(
    job: &ItemJob<'_>,
    built: &Package,
    at: PublishNow,
    tree: &mut T,
) -> Result<PublishNow, Outage>
    requires { OnFiles (λ d. (s : Supplies) × CanAsk (publish_now (job_work s job.now) (job_item job.now)
        built.now at) d) (T.state tree.old) }
    ensures { (s : Supplies) → NextIs (publish_now (job_work s job.now) (job_item job.now) built.now at)
        (publish_now (job_work s job.now) (job_item job.now) built.now) result (T.state tree.old)
        (T.state tree.new) }
{
    let job = PublishJob {
        target: job.target(),
        text: job.task.text.as_slice(),
        built,
    };
    publish_step(&job, at, tree)
}

fn publish_on<T: Tree>(
    job: &ItemJob<'_>,
    mark: Mark,
    built: Package,
    at: PublishNow,
    tree: &mut T,
) -> Result<ItemNext, Outage>
    requires { OnFiles (λ d. (s : Supplies) × CanAsk (item_left (job_work s job.now) (job_item job.now)
        (now.Publishes mark built at)) d) (T.state tree.old) }
    ensures steps { (s : Supplies) → NextIs (item_left (job_work s job.now) (job_item job.now)
        (now.Publishes mark built at)) (next_left (job_work s job.now) (job_item job.now)) result
        (T.state tree.old) (T.state tree.new) }
    ensures waits { IfOk result (IsNoEarlier (now.Publishes mark built at)) }
{
    match publish_call(job, &built, at, tree) {
        Ok(at) => Ok(publish_next(mark, built, at)),
        Err(outage) => {
            drop(built);
            Err(outage)
        }
    }
}

// ---- the whole

/// Makes the call that comes next, and all that is worked out up to the one after it.
pub(crate) fn item_step<T: Tree>(
    job: &ItemJob<'_>,
    at: ItemNow,
    tree: &mut T,
) -> Result<ItemNext, Outage>
    requires { OnFiles (λ d. (s : Supplies) × CanAsk (item_left (job_work s job.now) (job_item job.now)
        at) d) (T.state tree.old) }
    ensures steps { (s : Supplies) → NextIs (item_left (job_work s job.now) (job_item job.now) at)
        (next_left (job_work s job.now) (job_item job.now)) result (T.state tree.old)
        (T.state tree.new) }
    ensures waits { IfOk result (IsNoEarlier at) }
{
    match at {
        ItemNow::Looks(at) => look_on(job, at, tree),
        ItemNow::SetsAside { harm, at } => aside_on(job, harm, at, tree),
        ItemNow::Gathers { mark, gathering } => gather_on(job, mark, gathering, tree),
        ItemNow::Publishes { mark, built, at } => publish_on(job, mark, built, at, tree),
    }
}
