//! The words of a command line, and what they ask for. Each word of a row is the token of a word's
//! bytes, which may be no UTF-8; a row without any has no words.

use crate::shows::{Show, tell};
use std::alloc::Global;
use vk_base::{List, Text, TripletName, Unread, Word, read_token};
use vk_model::{Builder, Project, Store};
use vk_row_text::{NoRow, Reply};
use vk_words::{Command, WordFault, fault_text, read_words};

// As many words as a command line may have.
const MOST_WORDS: usize = 4_294_967_295;

fn word_from(bytes: List<u8>) -> Word {
    match String::from_utf8(bytes.into_vec()) {
        Ok(text) => Word::Text(Text::from_string(text)),
        Err(_) => Word::NotText,
    }
}

fn word_of(alloc: Global, token: &str) -> Result<Word, Unread<NoRow>> {
    match read_token(alloc, token)? {
        Some(bytes) => Ok(word_from(bytes)),
        None => Err(Unread::Fault(NoRow)),
    }
}

fn push_words(alloc: Global, words: &mut List<Word>, row: &str) -> Result<(), Unread<NoRow>> {
    if row.is_empty() {
        return Ok(());
    }
    for token in row.split(' ') {
        words.push(word_of(alloc, token)?)?;
    }
    Ok(())
}

// Puts items at the end, between braces.
fn push_braced<T: Show>(reply: &mut Reply, items: &List<T>) {
    reply.push(" {");
    items.show(reply);
    reply.push("}");
}

// Puts a value at the end, behind its title.
fn push_titled<T: Show>(reply: &mut Reply, title: &str, value: &T) {
    reply.push(title);
    value.show(reply);
}

impl Show for Builder {
    fn show(&self, reply: &mut Reply) {
        reply.push(self.name.as_str());
        reply.push("@");
        reply.push_token(self.text.as_str().as_bytes());
    }
}

impl Show for u64 {
    fn show(&self, reply: &mut Reply) {
        reply.push_number(*self);
    }
}

// The folder, the target, the host, features, folders of ports, folders of triplets, both limits,
// and the builder.
impl Show for Project {
    fn show(&self, reply: &mut Reply) {
        push_titled(reply, " ", &self.folder);
        push_titled(reply, " ", &self.target);
        push_titled(reply, " ", &self.host);
        push_braced(reply, &self.features);
        reply.push(if self.defaults {
            " defaults"
        } else {
            " no-defaults"
        });
        push_braced(reply, &self.overlay_ports);
        push_braced(reply, &self.overlay_triplets);
        push_titled(reply, " ", &self.max_facts);
        push_titled(reply, " ", &self.max_bytes);
        push_titled(reply, " ", &self.builder);
    }
}

impl Show for Store {
    fn show(&self, reply: &mut Reply) {
        push_titled(reply, " into ", &self.installed);
        push_titled(reply, " cache ", &self.cache);
        push_titled(reply, " agent ", &self.agent);
        push_titled(reply, " bytes ", &self.max_bytes);
    }
}

// Puts the triplet of a port at the end, or a hyphen.
fn push_triplet(reply: &mut Reply, triplet: &Option<TripletName>) {
    match triplet {
        Some(name) => push_titled(reply, " triplet ", name),
        None => reply.push(" triplet -"),
    }
}

impl Show for Command {
    fn show(&self, reply: &mut Reply) {
        match self {
            Command::Plan(project) => push_titled(reply, "plan", project),
            Command::Abi(project, port, triplet) => {
                push_titled(reply, "abi", project);
                push_titled(reply, " port ", port);
                push_triplet(reply, triplet);
            }
            Command::Install(project, store) => {
                push_titled(reply, "install", project);
                store.show(reply);
            }
            Command::Check(project, report) => {
                push_titled(reply, "check", project);
                push_titled(reply, " report ", report);
            }
            Command::SelfLoad(size) => push_titled(reply, "self-load ", size),
        }
    }
}

impl Show for WordFault {
    fn show(&self, reply: &mut Reply) {
        reply.push("words: ");
        let told = fault_text(reply.alloc(), self);
        reply.push_made(told);
    }
}

/// - `words read WORD ..`: the command that the words ask for, with every value, or the fault.
pub fn answer(rest: &str, reply: &mut Reply) {
    let mut words = List::new(reply.alloc());
    let pushed = push_words(reply.alloc(), &mut words, rest);
    reply.needed(pushed);
    if words.len() > MOST_WORDS {
        return reply.refuse();
    }
    let read = read_words(reply.alloc(), &words);
    tell(read, reply);
}
