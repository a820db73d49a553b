//! The making of a plan's packages: a step makes one call.
ghost use Rattle.std.specs.Prelude.{◌≡◌, ◌≤◌, ◌<◌, ◌+◌, ◌-◌, ◌^◌, List, IfOk, IfErr, Some, None, Ok};
ghost use Rattle.std.specs.Prelude.{length, map, slice_get};
ghost use Rattle.std.specs.Option.{option_copied};
ghost use Rattle.vk_spec.specs.Standing.{OnFiles};
ghost use Rattle.vk_base.specs.Stops.{stop_of};
ghost use Rattle.vk_base.specs.declared.stops.Stop.TheVariants.{Fault};
ghost use Rattle.vk_protocol.specs.Protocols.{ends};
ghost use Rattle.vk_protocol.specs.Runs.{CanAsk, NextIs};
ghost use Rattle.vk_protocol.specs.Turns.{goes};
ghost use Rattle.vk_make.specs.declared.answers.MakeEnd.TheVariants.{Refused};
ghost use Rattle.vk_make.specs.Makes.{Planned, Supplies, Work, make_from, make_of, next_item};
ghost use Rattle.vk_make.specs.Makes.{none_yet, supplied, with_item};
ghost use Rattle.vk_shared.specs.Tasks.{task_view};
ghost use Rattle.vk_shared.specs.Stocks.{GrowsTo, made_view};
ghost use Rattle.vk_shared.specs.ItemMachine.{IsNoEarlier, after_waiting, item_left, next_left};
ghost use Rattle.vk_shared.specs.ItemMachine.{job_item, job_work, next_waits};
ghost use Rattle.vk_shared.specs.MakeMachine.{CanGo, GoesOn, GoesTo, IsWaiting, MakesOn};
ghost use Rattle.vk_shared.specs.MakeMachine.{calls_left, end_of, folder_at, folder_of, make_left};
ghost use Rattle.vk_shared.specs.MakeMachine.{new_work, now_left, packages_of, place_of, shop_work};
ghost use Rattle.vk_shared.specs.MakeMachine.{stage_at, stage_of, then_later, waits_from};
ghost use Rattle.vk_shared.specs.MakeMachine.{waits_from_at};
ghost use Rattle.vk_shared.specs.declared.makings.Stage.TheVariants as stage;

use crate::items::{ItemJob, ItemNext, ItemNow, item_step};
use crate::stocks::{MadePackage, Stock, room_left};
use crate::tasks::{Task, Tasks};
use std::alloc::Global;
use std::mem;
use vk_base::{AgentName, Limit, List, Memory, Outage, Stop, TreePath};
use vk_entry::Package;
use vk_looking::LookNow;
use vk_make::{MakeEnd, MakeItems, Mark};
use vk_publish::PublishNow;
use vk_tree::Tree;

/// What a making is to do next.
#[derive(Clone, Copy, Debug, PartialEq, Eq)]
pub enum Stage {
    /// It makes a call.
    Calls,
    /// The item with this place in the plan, counted from 0, waits for its package.
    Builds(u32),
    /// All packages are made.
    Done,
    /// It came to an end before that.
    Ended,
}

// Where packages are made, and by whom.
#[derive(Drop)]
pub(crate) struct Shop {
    alloc: Global,
    cache: TreePath,
    agent: AgentName,
    most: u64,
}

// What it does next.
#[derive(Drop)]
pub(crate) enum MakeNow {
    // It makes the calls of an item.
    Makes {
        task: Task,
        at: ItemNow,
    },
    // An item waits for its package; these are the files of its port's folder.
    Waits {
        task: Task,
        mark: Mark,
        folder: Package,
    },
    Done,
    Ended(Stop<MakeEnd>),
}

/// The making of a plan's packages that has come so far. It takes as much memory as these packages
/// and one entry.
#[derive(Drop)]
pub struct Making {
    shop: Shop,
    have: Stock,
    later: Tasks,
    left: u64,
    at: MakeNow,
}

impl Shop {
    // What the item of a task is made for.
    fn job<'a>(&'a self, task: &'a Task, have: &Stock) -> ItemJob<'a>
        ensures work { (s : Supplies) → job_work s result ≡ shop_work s self.now }
        ensures item { job_item result ≡ next_item (task_view task.now) have.now }
    {
        ItemJob {
            alloc: self.alloc,
            cache: &self.cache,
            agent: &self.agent,
            task,
            most: self.most,
            place: have.place(),
            room: have.room(),
        }
    }
}

fn shop_of(alloc: Global, cache: &TreePath, agent: &AgentName, most: u64) -> Result<Shop, Memory>
    ensures { IfOk result (λ shop. (s : Supplies) → shop_work s shop
        ≡ new_work s cache.now agent.now most) }
{
    let cache = cache.clone()?;
    let agent = agent.clone()?;
    Ok(Shop {
        alloc,
        cache,
        agent,
        most,
    })
}

// A making that has made nothing.
#[tactic(auto, unfolding(crate::specs::MakeMachine::make_left))]
fn begun(shop: Shop, later: Tasks) -> Making
    ensures left { (s : Supplies) → make_left s result
        ≡ goes (make_from (shop_work s shop) later (none_yet shop.most)) }
    ensures calls { calls_left result ≡ 2 ^ 64 - 1 }
{
    let mut later = later;
    let have = Stock::new(shop.alloc, shop.most);
    let at = begin_next(&mut later, &have);
    Making {
        shop,
        have,
        later,
        left: u64::MAX,
        at,
    }
}

// Begins with the next item, where there is one.
#[tactic(auto, unfolding(vk_make::specs::Makes::item_of))]
fn begin_next(later: &mut Tasks, have: &Stock) -> MakeNow
    ensures left { (w : Work) → now_left w later.new have.now result
        ≡ goes (make_from w later.old have.now) }
    ensures waits { length have.now.items.packages ≤ waits_from_at (length have.now.items.packages) result }
{
    let Some(next) = later.pop() else {
        return MakeNow::Done;
    };
    if next.repeated {
        drop(next);
        return MakeNow::Ended(Stop::Fault(MakeEnd::Collision { item: have.place() }));
    }
    MakeNow::Makes {
        task: next.task,
        at: ItemNow::Looks(LookNow::Kind),
    }
}

// One call of an item.
fn item_call<T: Tree>(
    shop: &Shop,
    have: &Stock,
    task: &Task,
    at: ItemNow,
    tree: &mut T,
) -> Result<ItemNext, Outage>
    requires { OnFiles (λ d. (s : Supplies) × CanAsk (item_left (shop_work s shop.now)
        (next_item (task_view task.now) have.now) at) d) (T.state tree.old) }
    ensures steps { (s : Supplies) → NextIs (item_left (shop_work s shop.now)
        (next_item (task_view task.now) have.now) at) (next_left (shop_work s shop.now)
        (next_item (task_view task.now) have.now)) result (T.state tree.old) (T.state tree.new) }
    ensures waits { IfOk result (IsNoEarlier at) }
{
    item_step(&shop.job(task, have), at, tree)
}

// One package more, and what follows it.
fn take(later: &mut Tasks, have: &mut Stock, made: MadePackage) -> Result<MakeNow, Memory>
    ensures left { IfOk result (λ at. (w : Work) → now_left w later.new have.new at
        ≡ goes (make_from w later.old (with_item have.old (made_view made)))) }
    ensures waits { IfOk result (λ at. length have.old.items.packages + 1
        ≤ waits_from_at (length have.new.items.packages) at) }
    ensures grows { GrowsTo have.old.items.packages have.new.items.packages }
{
    have.add(made)?;
    Ok(begin_next(later, have))
}

// What follows a call of an item.
fn follow(
    later: &mut Tasks,
    have: &mut Stock,
    task: Task,
    next: ItemNext,
) -> Result<MakeNow, Memory>
    ensures left { IfOk result (λ at. (w : Work) → now_left w later.new have.new at
        ≡ goes (then_later w later.old have.old (next_left w (next_item (task_view task) have.old) next))) }
    ensures waits { IfOk result (λ at. next_waits (length have.old.items.packages) next
        ≤ waits_from_at (length have.new.items.packages) at) }
    ensures grows { GrowsTo have.old.items.packages have.new.items.packages }
{
    match next {
        ItemNext::Goes(at) => Ok(MakeNow::Makes { task, at }),
        ItemNext::Waits { mark, folder } => Ok(MakeNow::Waits { task, mark, folder }),
        ItemNext::Made(made) => {
            drop(task);
            take(later, have, made)
        }
        ItemNext::Ends(why) => {
            drop(task);
            Ok(MakeNow::Ended(Stop::Fault(why)))
        }
    }
}

// What follows the next call of an item.
fn make_call<T: Tree>(
    shop: &Shop,
    later: &mut Tasks,
    have: &mut Stock,
    task: Task,
    at: ItemNow,
    tree: &mut T,
) -> Result<MakeNow, Outage>
    requires { OnFiles (λ d. (s : Supplies) × CanAsk (item_left (shop_work s shop.now)
        (next_item (task_view task) have.old) at) d) (T.state tree.old) }
    ensures steps { (s : Supplies) → MakesOn (then_later (shop_work s shop.now) later.old have.old
        (item_left (shop_work s shop.now) (next_item (task_view task) have.old) at))
        (now_left (shop_work s shop.now) later.new have.new) result (T.state tree.old)
        (T.state tree.new) }
    ensures waits { IfOk result (λ next. after_waiting (length have.old.items.packages) at
        ≤ waits_from_at (length have.new.items.packages) next) }
    ensures grows { GrowsTo have.old.items.packages have.new.items.packages }
{
    match item_call(shop, have, &task, at, tree) {
        Ok(next) => Ok(follow(later, have, task, next)?),
        Err(outage) => {
            drop(task);
            Err(outage)
        }
    }
}

impl Making {
    /// The making of the packages of these tasks on a cache, none of which is made yet. A port's
    /// folder, and all packages together, may have `max_bytes` bytes. It makes fewer than 2^64 calls.
    pub fn new(
        alloc: Global,
        cache: &TreePath,
        agent: &AgentName,
        tasks: List<Task>,
        max_bytes: u64,
    ) -> Result<Making, Memory>
        ensures left { IfOk result (λ m. (s : Supplies) → make_left s m
            ≡ goes (make_of (new_work s cache.now agent.now max_bytes) (map task_view tasks))) }
        ensures calls { IfOk result (λ m. calls_left m ≡ 2 ^ 64 - 1) }
    {
        let later = Tasks::of(alloc, tasks)?;
        match shop_of(alloc, cache, agent, max_bytes) {
            Ok(shop) => Ok(begun(shop, later)),
            Err(memory) => {
                drop(later);
                Err(memory)
            }
        }
    }

    /// What it is to do next. Takes no memory.
    pub fn state(&self) -> Stage
        ensures { result ≡ stage_of self.now }
    {
        match &self.at {
            MakeNow::Makes { .. } => Stage::Calls,
            MakeNow::Waits { .. } => Stage::Builds(self.have.place()),
            MakeNow::Done => Stage::Done,
            MakeNow::Ended(_) => Stage::Ended,
        }
    }

    // Makes a call, and answers what is to be done next.
    fn go_on<T: Tree>(&mut self, tree: &mut T) -> Result<MakeNow, Outage>
        requires calls { stage_of self.old ≡ stage.Calls }
        requires may { OnFiles (λ d. (s : Supplies) × CanGo (make_left s self.old) d)
            (T.state tree.old) }
        ensures steps { (s : Supplies) → GoesTo (make_left s self.old) result (now_left
            (shop_work s self.new.shop) self.new.later self.new.have) (T.state tree.old)
            (T.state tree.new) }
        ensures fewer { IfOk result (λ next. self.new.left + 1 ≡ calls_left self.old) }
        ensures waits { IfOk result (λ next. waits_from self.old
            ≤ waits_from_at (place_of self.new) next) }
        ensures within { waits_from self.old ≤ place_of self.new + 1 }
        ensures grows { GrowsTo (packages_of self.old) (packages_of self.new) }
    {
        match mem::replace(&mut self.at, MakeNow::Done) {
            MakeNow::Makes { task, at } => {
                let Some(left) = self.left.checked_sub(1) else {
                    drop(task);
                    drop(at);
                    return Err(Outage::Memory(Memory::without_allocation()));
                };
                self.left = left;
                make_call(&self.shop, &mut self.later, &mut self.have, task, at, tree)
            }
            other => {
                drop(other);
                Err(Outage::Memory(Memory::without_allocation()))
            }
        }
    }

    /// Makes the next call. What follows it was worked out when it answers; where it stops, the
    /// making has ended. `Failed` only where this call failed, and `Memory` after at most one call.
    pub fn step<T: Tree>(&mut self, tree: &mut T) -> Result<(), Outage>
        requires calls { stage_of self.old ≡ stage.Calls }
        requires may { OnFiles (λ d. (s : Supplies) × CanGo (make_left s self.old) d)
            (T.state tree.old) }
        ensures steps { (s : Supplies) → GoesOn (make_left s self.old) result
            (make_left s self.new) (T.state tree.old) (T.state tree.new) }
        ensures fewer { IfOk result (λ u. calls_left self.new + 1 ≡ calls_left self.old) }
        ensures waits { waits_from self.old ≤ waits_from self.new }
        ensures packages { GrowsTo (packages_of self.old) (packages_of self.new) }
        ensures end { IfErr result (λ e. end_of self.new ≡ Some (stop_of e)) }
    {
        match self.go_on(tree) {
            Ok(at) => {
                drop(mem::replace(&mut self.at, at));
                Ok(())
            }
            Err(outage) => {
                drop(mem::replace(&mut self.at, MakeNow::Ended(Stop::from(outage))));
                Err(outage)
            }
        }
    }

    /// The files of the port's folder of the item that waits. Takes no memory.
    pub fn folder(&self) -> &Package
        requires { IsWaiting (stage_of self.now) }
        ensures { result.now ≡ folder_of self.now }
    {
        match &self.at {
            MakeNow::Waits { folder, .. } => folder,
            MakeNow::Makes { .. } => unreachable!(),
            MakeNow::Done => unreachable!(),
            MakeNow::Ended(_) => unreachable!(),
        }
    }

    /// The package of an item that is made already. Takes no memory.
    pub fn made_package(&self, item: u32) -> &Package
        requires { item < place_of self.now }
        ensures { Some result.now ≡ slice_get (packages_of self.now) item }
    {
        self.have.get(item)
    }

    /// Supplies the package of the item that waits. Takes no memory. It ends with `Bytes` where the
    /// packages have more bytes together than they may have.
    pub fn supply(&mut self, built: Package)
        requires { IsWaiting (stage_of self.old) }
        ensures left { (s : Supplies) → s (place_of self.old) (folder_of self.old) ≡ Some built
            → make_left s self.new ≡ make_left s self.old }
        ensures calls { calls_left self.new ≡ calls_left self.old }
        ensures waits { place_of self.old + 1 ≤ waits_from self.new }
        ensures on { IsWaiting (stage_of self.new) → ⊥ }
        ensures packages { packages_of self.new ≡ packages_of self.old }
    {
        let at = mem::replace(&mut self.at, MakeNow::Done);
        drop(mem::replace(&mut self.at, supply_at(&self.shop, &self.have, at, built)));
    }

    /// Says that there is no package for the item that waits. Takes no memory.
    #[tactic(auto, unfolding(crate::specs::MakeMachine::make_left))]
    pub fn refuse(&mut self)
        requires { IsWaiting (stage_of self.old) }
        ensures left { (s : Supplies) → s (place_of self.old) (folder_of self.old) ≡ None
            → make_left s self.new ≡ make_left s self.old }
        ensures end { end_of self.new ≡ Some (Fault Refused) }
        ensures on { IsWaiting (stage_of self.new) → ⊥ }
        ensures calls { calls_left self.new ≡ calls_left self.old }
        ensures packages { packages_of self.new ≡ packages_of self.old }
    {
        let at = MakeNow::Ended(Stop::Fault(MakeEnd::Refused));
        drop(mem::replace(&mut self.at, at));
    }

    /// Why it came to an end before all packages were made; `None` exactly where it hasn't.
    pub fn end(&self) -> Option<&Stop<MakeEnd>>
        ensures { option_copied result ≡ end_of self.now }
    {
        match &self.at {
            MakeNow::Ended(why) => Some(why),
            MakeNow::Makes { .. } => None,
            MakeNow::Waits { .. } => None,
            MakeNow::Done => None,
        }
    }

    /// The packages, and how each was had, once all are made.
    #[tactic(auto, unfolding(crate::specs::MakeMachine::make_left))]
    pub fn results(self) -> MakeItems
        requires { stage_of self ≡ stage.Done }
        ensures { (s : Supplies) → make_left s self ≡ goes (ends (Ok result)) }
    {
        let mut making = self;
        let have = mem::replace(&mut making.have, Stock::new(making.shop.alloc, 0));
        drop(making);
        have.into_items()
    }
}

// What follows where a package is supplied.
fn supply_at(shop: &Shop, have: &Stock, at: MakeNow, built: Package) -> MakeNow
    requires { IsWaiting (stage_at (length have.now.items.packages) at) }
    ensures left { (s : Supplies) (later : List Planned)
        → s (length have.now.items.packages) (folder_at at) ≡ Some built
        → now_left (shop_work s shop.now) later have.now result
        ≡ now_left (shop_work s shop.now) later have.now at }
    ensures waits { length have.now.items.packages + 1
        ≤ waits_from_at (length have.now.items.packages) result }
    ensures on { IsWaiting (stage_at (length have.now.items.packages) result) → ⊥ }
{
    match at {
        MakeNow::Waits { task, mark, folder } => {
            drop(folder);
            publishes(shop, have, task, mark, built)
        }
        MakeNow::Makes { .. } => unreachable!(),
        MakeNow::Done => unreachable!(),
        MakeNow::Ended(_) => unreachable!(),
    }
}

// A package is published, where there is room for it.
fn publishes(shop: &Shop, have: &Stock, task: Task, mark: Mark, built: Package) -> MakeNow
    ensures left { (s : Supplies) (later : List Planned)
        → now_left (shop_work s shop.now) later have.now result
        ≡ goes (then_later (shop_work s shop.now) later have.now (supplied (shop_work s shop.now)
        (next_item (task_view task) have.now) mark (Some built))) }
    ensures waits { length have.now.items.packages + 1
        ≤ waits_from_at (length have.now.items.packages) result }
    ensures on { IsWaiting (stage_at (length have.now.items.packages) result) → ⊥ }
{
    if room_left(built.files(), have.room()).is_none() {
        drop(task);
        drop(built);
        return MakeNow::Ended(Stop::Fault(MakeEnd::Limit(Limit::Bytes(shop.most))));
    }
    MakeNow::Makes {
        task,
        at: ItemNow::Publishes {
            mark,
            built,
            at: PublishNow::Lists,
        },
    }
}
