//! The ABI texts of plans.

use crate::jobs::{TARGET, instance_of, item_of, triplet_of};
use vk_abi::{AbiPair, texts};
use vk_base::{Instance, Limit, List, Stop, TreePath};
use vk_expr::Expr;
use vk_model::{Builder, Item, Manifest, Plan, PortFeatures, Setting};
use vk_row_text::{Reply, cut};
use vk_tree::MemTree;
use vk_triplet::Triplet;

// A plan, and the folders of its ports.
#[derive(Drop)]
struct Project {
    plan: Plan,
    folders: List<TreePath>,
}

// A root that asks for nothing.
fn empty_root(reply: &Reply) -> Manifest {
    Manifest {
        name: None,
        version: None,
        supports: Expr::Always,
        dependencies: List::new(reply.alloc()),
        default_features: List::new(reply.alloc()),
        features: PortFeatures::none(reply.alloc()),
        overrides: List::new(reply.alloc()),
    }
}

fn setting_with(target: Triplet, host: Triplet, reply: &Reply) -> Setting {
    Setting {
        root: empty_root(reply),
        target,
        host,
        features: List::new(reply.alloc()),
        defaults: true,
        off: List::new(reply.alloc()),
        max_facts: 1000,
    }
}

fn setting_of(host: &str, reply: &mut Reply) -> Option<Setting> {
    let target = triplet_of(TARGET, reply);
    let host = triplet_of(host, reply);
    match (target, host) {
        (Some(target), Some(host)) => Some(setting_with(target, host, reply)),
        (_, _) => None,
    }
}

fn put(tree: &mut MemTree, path: &TreePath, bytes: &[u8], reply: &mut Reply) {
    if !tree.has_room(path) {
        return reply.refuse();
    }
    if let Err(memory) = tree.put(path, bytes) {
        reply.lack(memory);
    }
}

fn put_text(tree: &mut MemTree, path: &str, bytes: &str, reply: &mut Reply) {
    let path = reply.path(path);
    let bytes = reply.bytes(bytes);
    put(tree, &path, bytes.as_slice(), reply);
}

// The bytes 0 to 250 over and over, so many together.
fn counted(count: u32, reply: &mut Reply) -> List<u8> {
    let mut bytes = List::new(reply.alloc());
    for n in 0..count {
        if let Err(lack) = bytes.push((n % 251) as u8) {
            reply.lack(lack.into());
        }
    }
    bytes
}

fn put_counted(tree: &mut MemTree, path: &str, count: &str, reply: &mut Reply) {
    let path = reply.path(path);
    let count = reply.number(count);
    let bytes = counted(count, reply);
    put(tree, &path, bytes.as_slice(), reply);
}

fn put_file(tree: &mut MemTree, word: &str, reply: &mut Reply) {
    if let Some((path, bytes)) = word.split_once('=') {
        put_text(tree, path, bytes, reply);
    } else if let Some((path, count)) = word.split_once('*') {
        put_counted(tree, path, count, reply);
    } else {
        reply.refuse();
    }
}

fn put_files(tree: &mut MemTree, words: &str, reply: &mut Reply) {
    for word in words.split(' ') {
        put_file(tree, word, reply);
    }
}

// As many items as a row's plan may have.
const MOST_ITEMS: usize = 1000;

fn push_need(needs: &mut List<u32>, need: u32, reply: &mut Reply) {
    if let Err(lack) = needs.push(need) {
        reply.lack(lack.into());
    }
}

// The needs of an item: the one before it, if there is one.
fn needs_of(before: usize, reply: &mut Reply) -> List<u32> {
    let mut needs = List::new(reply.alloc());
    match before {
        0 => {}
        1..=MOST_ITEMS => push_need(&mut needs, (before - 1) as u32, reply),
        _ => reply.refuse(),
    }
    needs
}

// Puts an item at the end, with the folder of its port's name.
fn push(project: &mut Project, item: Item, port: &str, reply: &mut Reply) {
    let folder = reply.path(port);
    if let Err(lack) = project.folders.push(folder) {
        reply.lack(lack.into());
    }
    if let Err(lack) = project.plan.items.push(item) {
        reply.lack(lack.into());
    }
}

fn push_instance(project: &mut Project, inst: Instance, port: &str, reply: &mut Reply) {
    let needs = needs_of(project.plan.items.len(), reply);
    if let Some(item) = item_of(inst, "core", needs, reply) {
        push(project, item, port, reply);
    }
}

fn push_item(project: &mut Project, word: &str, reply: &mut Reply) {
    let (port, triplet) = word.split_once(':').unwrap_or((word, TARGET));
    if let Some(inst) = instance_of(port, triplet, reply) {
        push_instance(project, inst, port, reply);
    }
}

fn project_of(word: &str, reply: &mut Reply) -> Project {
    let items = List::new(reply.alloc());
    let folders = List::new(reply.alloc());
    let mut project = Project {
        plan: Plan { items },
        folders,
    };
    for word in word.split(',') {
        push_item(&mut project, word, reply);
    }
    project
}

fn tell_text(pair: &AbiPair, reply: &mut Reply) {
    if !reply.is_empty() {
        reply.push("\n");
    }
    match str::from_utf8(pair.text.as_slice()) {
        Ok(text) => reply.push(text.strip_suffix('\n').unwrap_or(text)),
        Err(_) => reply.refuse(),
    }
}

fn tell_texts(pairs: &[AbiPair], reply: &mut Reply) {
    for pair in pairs {
        tell_text(pair, reply);
    }
}

fn tell_limit(limit: Limit, reply: &mut Reply) {
    match limit {
        Limit::Bytes(most) => {
            reply.push("limit bytes ");
            reply.push_number(most);
        }
        Limit::Entries => reply.push("limit entries"),
        Limit::Files => reply.push("limit files"),
        Limit::Depth => reply.push("limit depth"),
        _ => reply.refuse(),
    }
}

fn refused(stop: Stop<Limit>, reply: &mut Reply) {
    match stop {
        Stop::Fault(limit) => tell_limit(limit, reply),
        Stop::Failed => reply.push("failed"),
        Stop::Memory(memory) => reply.lack(memory),
    }
}

fn tell(told: Result<List<AbiPair>, Stop<Limit>>, reply: &mut Reply) {
    match told {
        Ok(pairs) => tell_texts(pairs.as_slice(), reply),
        Err(stop) => refused(stop, reply),
    }
}

// What is asked of the texts of a plan.
#[derive(Clone, Copy)]
struct Question<'a> {
    project: &'a Project,
    setting: &'a Setting,
    most: u64,
}

fn with_builder(tree: &mut MemTree, question: Question<'_>, builder: &Builder, reply: &mut Reply) {
    let plan = &question.project.plan;
    let folders = &question.project.folders;
    if folders.len() != plan.items.len() {
        return reply.refuse();
    }
    let (setting, most) = (question.setting, question.most);
    let told = texts(reply.alloc(), tree, plan, folders, setting, builder, most);
    tell(told, reply);
}

fn ask(tree: &mut MemTree, question: Question<'_>, reply: &mut Reply) {
    match Builder::recorded(reply.alloc()) {
        Ok(builder) => with_builder(tree, question, &builder, reply),
        Err(memory) => reply.lack(memory),
    }
}

fn with_setting(tree: &mut MemTree, setting: &Setting, most: u64, row: &str, reply: &mut Reply) {
    let (items, files) = cut(row);
    put_files(tree, files, reply);
    let project = project_of(items, reply);
    let question = Question {
        project: &project,
        setting,
        most,
    };
    ask(tree, question, reply);
}

fn with_most(tree: &mut MemTree, most: u64, row: &str, reply: &mut Reply) {
    let (host, row) = cut(row);
    if let Some(setting) = setting_of(host, reply) {
        with_setting(tree, &setting, most, row, reply);
    }
}

/// `texts MOST HOST ITEM,.. FILE ..`: the texts of a plan by `recorded@1`, or the limit that is
/// passed. An item is `PORT` or `PORT:TRIPLET`, and needs the one before it; its folder is that of
/// the port's name. A file is `PATH=BYTES`, or `PATH*N` for N bytes that count from 0 to 250 over
/// and over.
pub fn answer(row: &str, reply: &mut Reply) {
    let (most, row) = cut(row);
    let most = reply.number(most);
    match MemTree::new(reply.alloc()) {
        Ok(mut tree) => with_most(&mut tree, most, row, reply),
        Err(memory) => reply.lack(memory),
    }
}
