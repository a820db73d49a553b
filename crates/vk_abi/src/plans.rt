//! The ABI texts of a plan.
ghost use Rattle.std.specs.Prelude.{◌≡◌, length, map, option_map, slice_get, IfOk, OnOk};
ghost use Rattle.std.specs.List.{zip};
ghost use Rattle.vk_spec.specs.Lists.{NoRepeats};
ghost use Rattle.vk_spec.specs.Paths.{Begins};
ghost use Rattle.vk_spec.specs.States.{IsNarrow};
ghost use Rattle.vk_spec.specs.Standing.{OnFiles};
ghost use Rattle.vk_base.specs.Stops.{has_failed};
ghost use Rattle.vk_resolution.specs.Planning.{order_of};
ghost use Rattle.vk_model.specs.FaultViews.{item_view};
ghost use Rattle.vk_model.specs.SettingViews.{instance_view, setting_view};
ghost use Rattle.vk_triplet.specs.Meanings.{meaning_of};
ghost use Rattle.vk_folder.specs.Folders.{IsFolderLimit, OnLimit, ReadsOnly};
ghost use Rattle.vk_abi_text.specs.Views.{dep_view, file_view, source_view};
ghost use Rattle.vk_abi.specs.Plans.{HaveTheirFeatures, IsBelowSome, OfRightNodes, TextsTold};
ghost use Rattle.vk_abi.specs.Plans.{pair_view, triplet_named};
ghost use Rattle.vk_abi.specs.Written.{IsRightItem, PairTold, dep_by, deps_by, input_by, pair_by, shared_in};

use std::alloc::Global;
use vk_abi_text::{AbiSource, DepDigest, abi_hash, abi_text};
use vk_base::{Limit, List, Memory, Stop, TreePath, TripletName};
use vk_digest::Digest;
use vk_folder::{FileDigest, folder_digests};
use vk_model::{Builder, Item, Plan, Setting};
use vk_tree::Tree;
use vk_triplet::Triplet;

/// An ABI text and its SHA-256 (FIPS 180-4).
#[derive(Drop)]
pub struct AbiPair {
    /// The text.
    pub text: List<u8>,
    /// Its digest.
    pub digest: Digest,
}

/// The ABI texts of a plan's items, in their order, where the ports stand in these folders: for
/// each item that of its build by this builder, which keeps the rules of all its parts where each
/// item has the features that every plan gives it. Files are read in pieces of at most 65,536
/// bytes, and none but at these folders' paths or below them. A limit comes exactly where a folder
/// passes it, the first in the order of the plan: `Entries`, `Files` and `Depth` as a walk of the
/// folder passes them, and `Bytes(max_bytes)` where its files have more than so many bytes
/// together. Over any tree no other limit comes. `Failed` comes only where the tree's count of
/// faults may have increased.
pub fn texts<T: Tree>(
    alloc: Global,
    tree: &mut T,
    plan: &Plan,
    folders: &List<TreePath>,
    setting: &Setting,
    builder: &Builder,
    max_bytes: u64,
) -> Result<List<AbiPair>, Stop<Limit>>
    requires { length folders.now ≡ length plan.now.items }
    ensures is { NoRepeats (order_of (map item_view plan.now.items)) → OnFiles (TextsTold
        (record { builder = builder.now; setting = setting_view setting.now; most = max_bytes })
        (zip (map item_view plan.now.items) folders.now) result) (T.state tree.old) }
    ensures right { NoRepeats (order_of (map item_view plan.now.items))
        → HaveTheirFeatures (map item_view plan.now.items) → OnFiles (OfRightNodes
        (record { builder = builder.now; setting = setting_view setting.now; most = max_bytes })
        (zip (map item_view plan.now.items) folders.now) result) (T.state tree.old) }
    ensures limits { OnLimit result (IsFolderLimit max_bytes) }
    ensures reads { ReadsOnly (IsBelowSome folders.now) (has_failed result) (T.state tree.old)
        (T.state tree.new) }
    ensures narrow { IsNarrow 65536 (T.state tree.old) (T.state tree.new) }
{
    let job = Job {
        items: plan.items.as_slice(),
        folders: folders.as_slice(),
        setting,
        builder,
        most: max_bytes,
    };
    let mut pairs = List::new(alloc);
    for at in 0..job.items.len() {
        let pair = pair_at(
            alloc,
            tree,
            job,
            &job.items[at],
            &job.folders[at],
            pairs.as_slice(),
        )?;
        pairs.push(pair)?;
    }
    Ok(pairs)
}

// A plan, the folders of its ports, and what all its builds share.
#[derive(Clone, Copy)]
struct Job<'a> {
    items: &'a [Item],
    folders: &'a [TreePath],
    setting: &'a Setting,
    builder: &'a Builder,
    most: u64,
}

// The text of an item whose port stands in a folder, by the texts of those before it.
fn pair_at<T: Tree>(
    alloc: Global,
    tree: &mut T,
    job: Job<'_>,
    item: &Item,
    folder: &TreePath,
    done: &[AbiPair],
) -> Result<AbiPair, Stop<Limit>>
    ensures is { OnFiles (PairTold (shared_in job.entry)
        (map (λ i. instance_view i.inst) job.entry.items.now) (item_view item.now, folder.now)
        (map pair_view done.now) result) (T.state tree.old) }
    ensures limits { OnLimit result (IsFolderLimit job.entry.most) }
    ensures reads { ReadsOnly (Begins folder.now) (has_failed result) (T.state tree.old)
        (T.state tree.new) }
    ensures narrow { IsNarrow 65536 (T.state tree.old) (T.state tree.new) }
{
    let files = folder_digests(alloc, tree, folder, job.most)?;
    Ok(pair_of(alloc, job, item, done, files.as_slice())?)
}

// The text of an item whose folder has files with these digests.
fn pair_of(
    alloc: Global,
    job: Job<'_>,
    item: &Item,
    done: &[AbiPair],
    files: &[FileDigest],
) -> Result<AbiPair, Memory>
    ensures pair { IfOk result (λ p. pair_view p ≡ pair_by (shared_in job.entry)
        (map (λ i. instance_view i.inst) job.entry.items.now) (map pair_view done.now)
        (item_view item.now) (map file_view files.now)) }
    ensures right { OnOk result (IsRightItem (shared_in job.entry) (item_view item.now)
        (map file_view files.now)) }
{
    let deps = deps_at(alloc, job.items, done, item.needs.as_slice())?;
    let text = abi_text(alloc, &source_of(job, item, files, deps.as_slice()))?;
    Ok(AbiPair {
        digest: abi_hash(text.as_slice()),
        text,
    })
}

// What is written of an item.
fn source_of<'a>(
    job: Job<'a>,
    item: &'a Item,
    files: &'a [FileDigest],
    deps: &'a [DepDigest],
) -> AbiSource<'a>
    ensures { source_view result ≡ input_by (shared_in job.entry) (item_view item.now)
        (map file_view files.now) (map dep_view deps.now) }
{
    let triplet = triplet_named(job.setting, &item.inst.triplet);
    AbiSource {
        builder: job.builder,
        port: &item.inst.port,
        version: &item.version,
        features: item.features.as_slice(),
        triplet: &item.inst.triplet,
        triplet_digest: Digest::of(triplet.bytes()),
        native: item.inst.triplet == *job.setting.host.name(),
        files,
        deps,
    }
}

// The triplet of this name, which is the target's or the host's.
fn triplet_named<'a>(setting: &'a Setting, name: &TripletName) -> &'a Triplet
    ensures { meaning_of result.now ≡ triplet_named (setting_view setting.now) name.now }
{
    if *name == *setting.target.name() {
        &setting.target
    } else {
        &setting.host
    }
}

// What stands at these places, and the digests of the texts there.
fn deps_at(
    alloc: Global,
    items: &[Item],
    done: &[AbiPair],
    needs: &[u32],
) -> Result<List<DepDigest>, Memory>
    ensures { IfOk result (λ ds. map dep_view ds ≡ deps_by
        (map (λ i. instance_view i.inst) items.now) (map pair_view done.now) needs.now) }
{
    let mut deps = List::new(alloc);
    for need in needs {
        if let Some(dep) = dep_at(items, done, *need as usize)? {
            deps.push(dep)?;
        }
    }
    Ok(deps)
}

// What stands at a place, and the digest of the text there.
fn dep_at(items: &[Item], done: &[AbiPair], at: usize) -> Result<Option<DepDigest>, Memory>
    ensures { IfOk result (λ d. option_map dep_view d ≡ dep_by
        (slice_get (map (λ i. instance_view i.inst) items.now) at)
        (slice_get (map pair_view done.now) at)) }
{
    let (Some(item), Some(pair)) = (items.get(at), done.get(at)) else {
        return Ok(None);
    };
    Ok(Some(DepDigest {
        inst: item.inst.clone()?,
        digest: pair.digest,
    }))
}
