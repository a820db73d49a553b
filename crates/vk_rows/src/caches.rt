//! What is told of a cache.
ghost use Rattle.std.specs.Prelude.{◌≡◌, ◌++◌, ◌∷◌, [], IfOk, IsTrue, codes, false, map};
ghost use Rattle.std.specs.List.{Contains};
ghost use Rattle.vk_spec.specs.Files.{HasRoomFor};
ghost use Rattle.vk_spec.specs.Paths.{Begins};
ghost use Rattle.vk_spec.specs.Standing.{OnFiles, Stands, disk_of};
ghost use Rattle.vk_base.specs.Paths.{is_part, parts_of};
ghost use Rattle.vk_tree.specs.MemTrees.{mem_files};
ghost use Rattle.vk_entry.specs.Packages.{File};
ghost use Rattle.vk_entry.specs.PackageViews.{file_view};
ghost use Rattle.vk_places.specs.Places.{entry_at};
ghost use Rattle.vk_publish.specs.Entries.{AreApart};
ghost use Rattle.vk_publish.specs.Outcomes.{IsClear};

use crate::changes::bytes_of;
use std::alloc::Global;
use std::os::unix::fs::FileExt;
use std::rt::Files;
use vk_base::{AgentName, Limit, List, Memory, Stop, TreePath};
use vk_digest::Digest;
use vk_entry::{Package, PackageFile, is_package_path};
use vk_look::{Harm, Look};
use vk_looking::look;
use vk_places::{entry_in, text_in};
use vk_publish::{Moved, Published, publish, set_aside};
use vk_real::FileTree;
use vk_row_text::{Reply, cut};
use vk_tree::{MemTree, Tree};

fn harm_word(harm: Harm) -> &'static str {
    match harm {
        Harm::Text => "text",
        Harm::Contents => "contents",
        Harm::Extra => "extra",
        Harm::Missing => "missing",
        Harm::Size => "size",
        Harm::Hash => "hash",
    }
}

fn tell_limit(limit: Limit, reply: &mut Reply) {
    match limit {
        Limit::Entries => reply.push("limit entries"),
        Limit::Tmp => reply.push("limit tmp"),
        Limit::Damaged => reply.push("limit damaged"),
        Limit::Bytes(most) => {
            reply.push("limit bytes ");
            reply.push_number(most);
        }
        _ => reply.refuse(),
    }
}

// Tells why there is no answer.
fn stopped(stop: Stop<Limit>, reply: &mut Reply) {
    match stop {
        Stop::Fault(limit) => tell_limit(limit, reply),
        Stop::Failed => reply.push("failed"),
        Stop::Memory(memory) => reply.lack(memory),
    }
}

fn tell_file(file: &PackageFile, reply: &mut Reply) {
    reply.push(" ");
    reply.push_path(&file.path);
    reply.push("=");
    reply.push_token(file.bytes.as_slice());
}

fn tell_hit(package: &Package, reply: &mut Reply) {
    reply.push("hit");
    for file in package.files() {
        tell_file(file, reply);
    }
}

fn tell_look(found: Look, reply: &mut Reply) {
    match found {
        Look::Hit(package) => tell_hit(&package, reply),
        Look::Absent => reply.push("absent"),
        Look::Damaged(harm) => {
            reply.push("damaged ");
            reply.push(harm_word(harm));
        }
        Look::Collision(text) => {
            reply.push("collision ");
            reply.push_token(text.as_slice());
        }
    }
}

// The digest of the text that a word stands for.
fn digest_of(word: &str, reply: &mut Reply) -> Digest {
    let text = reply.bytes(word);
    Digest::of(text.as_slice())
}

/// `look CACHE KEY TEXT MOST`: what a cache has for a text at the entry of the digest of a key, by
/// at most so many bytes.
pub fn answer<T: Tree>(tree: &mut T, row: &str, reply: &mut Reply) {
    let (cache, row) = cut(row);
    let (key, row) = cut(row);
    let (text, most) = cut(row);
    let cache = reply.path(cache);
    let hash = digest_of(key, reply);
    let text = bytes_of(text, reply);
    let most = reply.number(most);
    let found = look(reply.alloc(), tree, &cache, &hash, text.as_slice(), most);
    match found {
        Ok(found) => tell_look(found, reply),
        Err(stop) => stopped(stop, reply),
    }
}

// What is to be published, where and by whom.
#[derive(Drop)]
struct Job {
    cache: TreePath,
    agent: AgentName,
    digest: Digest,
    text: List<u8>,
    built: Package,
}

fn put(package: &mut Package, path: &str, bytes: &str, reply: &mut Reply) {
    let path = reply.path(path);
    let bytes = bytes_of(bytes, reply);
    match package.put(path, bytes) {
        Ok(true) => {}
        Ok(false) => reply.refuse(),
        Err(memory) => reply.lack(memory),
    }
}

fn package_of(words: &str, reply: &mut Reply) -> Package {
    let mut package = Package::new(reply.alloc());
    for word in words.split(' ') {
        if let Some((path, bytes)) = word.split_once('=') {
            put(&mut package, path, bytes, reply);
        }
    }
    package
}

fn job_of(row: &str, reply: &mut Reply) -> Option<Job> {
    let (cache, row) = cut(row);
    let (agent, row) = cut(row);
    let (text, files) = cut(row);
    let cache = reply.path(cache);
    let digest = digest_of(text, reply);
    let text = reply.bytes(text);
    let built = package_of(files, reply);
    let agent = AgentName::read(reply.alloc(), agent);
    match reply.needed(agent) {
        Some(agent) => Some(Job {
            cache,
            agent,
            digest,
            text,
            built,
        }),
        None => None,
    }
}

// Whether a file may be put into a folder of a cache.
fn has_room_in(
    alloc: Global,
    tree: &MemTree,
    cache: &TreePath,
    folder: &str,
) -> Result<bool, Memory>
    requires { IsTrue (is_part folder.now) }
    ensures { IfOk result (λ room. IsTrue room
        → HasRoomFor ((cache.now ++ folder.now ∷ []) ++ codes "-" ∷ []) (mem_files tree.now)) }
{
    let file = cache.child(alloc, folder)?.child(alloc, "-")?;
    Ok(tree.has_room(&file))
}

// Whether no file stands at a cache or above it, nor where it has its folders.
#[tactic(auto, using(crate::proofs::CacheLemmas::clear_from))]
fn is_clear(alloc: Global, tree: &MemTree, cache: &TreePath) -> Result<bool, Memory>
    ensures { IfOk result (λ clear. IsTrue clear
        → IsClear cache.now (disk_of (mem_files tree.now))) }
{
    if !has_room_in(alloc, tree, cache, "abi2")? {
        return Ok(false);
    }
    if !has_room_in(alloc, tree, cache, "tmp")? {
        return Ok(false);
    }
    has_room_in(alloc, tree, cache, "damaged")
}

// Whether a file is below a path, and not at it.
fn is_below(path: &TreePath, file: &PackageFile) -> bool
    ensures { result ≡ false → Begins path.now file.now.path → path.now ≡ file.now.path }
{
    path.begins(&file.path) && *path != file.path
}

// Whether a path begins none of these, but for itself.
fn begins_none(path: &TreePath, files: &[PackageFile]) -> bool
    ensures { IsTrue result → (file : File) → Contains (map file_view files.now) file
        → Begins path.now file.path → path.now ≡ file.path }
{
    for file in files {
        if is_below(path, file) {
            return false;
        }
    }
    true
}

// Whether a path is one that a package may have, and where its parts stand in it.
fn is_plain(path: &TreePath) -> bool
    ensures { IsTrue result → path.now ≡ (46 ∷ []) ∷ parts_of path.now }
{
    let _ = path.parts();
    is_package_path(path)
}

// Whether no file of these is below another, nor has a path that no package has.
fn are_apart(files: &[PackageFile]) -> bool
    ensures { IsTrue result → AreApart (map file_view files.now) }
{
    for file in files {
        if !is_plain(&file.path) || !begins_none(&file.path, files) {
            return false;
        }
    }
    true
}

fn told_publish(answer: Result<Published, Stop<Limit>>, reply: &mut Reply) {
    match answer {
        Ok(Published::Now) => reply.push("now"),
        Ok(Published::Already) => reply.push("already"),
        Ok(Published::Gone) => reply.push("gone"),
        Err(stop) => stopped(stop, reply),
    }
}

fn told_aside(answer: Result<Moved, Stop<Limit>>, reply: &mut Reply) {
    match answer {
        Ok(Moved::Done) => reply.push("done"),
        Ok(Moved::Gone) => reply.push("gone"),
        Ok(Moved::Taken) => reply.push("taken"),
        Err(stop) => stopped(stop, reply),
    }
}

fn publish_job<T: Tree>(tree: &mut T, job: &Job, reply: &mut Reply)
    requires apart { AreApart job.now.built }
    requires clear { OnFiles (IsClear job.now.cache) (T.state tree.old) }
{
    let answer = publish(
        reply.alloc(),
        tree,
        &job.cache,
        job.agent.as_str(),
        &job.digest,
        job.text.as_slice(),
        &job.built,
    );
    told_publish(answer, reply);
}

// Publishes in memory, where that may be done.
fn publish_where_it_may(tree: &mut MemTree, job: &Job, reply: &mut Reply) -> Result<(), Memory> {
    if !is_clear(reply.alloc(), tree, &job.cache)? || !are_apart(job.built.files()) {
        reply.push("no room");
        return Ok(());
    }
    publish_job(tree, job, reply);
    Ok(())
}

/// `publish CACHE AGENT TEXT PATH=BYTES ..`: what a publishing to a cache in memory came to; `no
/// room` where a file is in its way, or one of the package is below another.
pub fn publish_in_memory(tree: &mut MemTree, row: &str, reply: &mut Reply) {
    if let Some(job) = job_of(row, reply)
        && let Err(memory) = publish_where_it_may(tree, &job, reply)
    {
        reply.lack(memory);
    }
}

/// The same on the host.
pub fn publish_on_host<R: Files + Alloc<A = Global> + Clone + Drop>(
    tree: &mut FileTree<R>,
    row: &str,
    reply: &mut Reply,
)
where
    R::File: FileExt,
{
    let Some(job) = job_of(row, reply) else {
        return;
    };
    if are_apart(job.built.files()) {
        publish_job(tree, &job, reply);
    } else {
        reply.push("no room");
    }
}

// Whose entry is set aside, and by whom.
#[derive(Drop)]
struct Target {
    cache: TreePath,
    agent: AgentName,
    digest: Digest,
}

fn target_of(row: &str, reply: &mut Reply) -> Option<Target> {
    let (cache, row) = cut(row);
    let (agent, key) = cut(row);
    let cache = reply.path(cache);
    let digest = digest_of(key, reply);
    let agent = AgentName::read(reply.alloc(), agent);
    match reply.needed(agent) {
        Some(agent) => Some(Target {
            cache,
            agent,
            digest,
        }),
        None => None,
    }
}

fn aside_target<T: Tree>(tree: &mut T, target: &Target, reply: &mut Reply)
    requires clear { OnFiles (IsClear target.now.cache) (T.state tree.old) }
    requires stands { OnFiles (λ d. Stands d (entry_at target.now.cache target.now.digest.bytes))
        (T.state tree.old) }
{
    let answer = set_aside(
        reply.alloc(),
        tree,
        &target.cache,
        target.agent.as_str(),
        &target.digest,
    );
    told_aside(answer, reply);
}

// Whether something stands at a path or below it.
fn stands(tree: &MemTree, path: &TreePath) -> bool
    ensures { IsTrue result → Stands (disk_of (mem_files tree.now)) path.now }
{
    tree.file(path).is_some()
}

// Whether an entry has its text.
fn has_text(alloc: Global, tree: &MemTree, target: &Target) -> Result<bool, Memory>
    ensures { IfOk result (λ has. IsTrue has
        → Stands (disk_of (mem_files tree.now)) (entry_at target.now.cache target.now.digest.bytes)) }
{
    let entry = entry_in(alloc, &target.cache, &target.digest)?;
    let text = text_in(alloc, &entry)?;
    Ok(stands(tree, &text))
}

// Sets an entry aside in memory, where that may be done.
fn aside_where_it_may(
    tree: &mut MemTree,
    target: &Target,
    reply: &mut Reply,
) -> Result<(), Memory> {
    if !is_clear(reply.alloc(), tree, &target.cache)? || !has_text(reply.alloc(), tree, target)? {
        reply.push("nothing there");
        return Ok(());
    }
    aside_target(tree, target, reply);
    Ok(())
}

/// `aside CACHE AGENT TEXT`: what came of setting the entry of a text aside in a cache in memory;
/// `nothing there` where the entry has no text, or a file is in the way.
pub fn aside_in_memory(tree: &mut MemTree, row: &str, reply: &mut Reply) {
    if let Some(target) = target_of(row, reply)
        && let Err(memory) = aside_where_it_may(tree, &target, reply)
    {
        reply.lack(memory);
    }
}

/// The same on the host, where nothing is asked beforehand.
pub fn aside_on_host<R: Files + Alloc<A = Global> + Clone + Drop>(
    tree: &mut FileTree<R>,
    row: &str,
    reply: &mut Reply,
)
where
    R::File: FileExt,
{
    if let Some(target) = target_of(row, reply) {
        aside_target(tree, &target, reply);
    }
}
