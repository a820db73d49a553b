//! Names of ports, triplets and features, and of instances, `PORT:TRIPLET`.

use crate::shows::{tell, tell_order};
use vk_base::{FeatureName, Instance, PortName, TripletName};
use vk_row_text::{Reply, cut};

/// What is asked of names.
#[derive(Clone, Copy)]
pub enum Question {
    Port,
    Triplet,
    Feature,
    Triplets,
    Features,
    Instances,
}

/// The port of a row that has to have it.
pub fn port_of(word: &str, reply: &mut Reply) -> Option<PortName> {
    let read = PortName::read(reply.alloc(), word);
    reply.needed(read)
}

fn triplet_of(word: &str, reply: &mut Reply) -> Option<TripletName> {
    let read = TripletName::read(reply.alloc(), word);
    reply.needed(read)
}

fn feature_of(word: &str, reply: &mut Reply) -> Option<FeatureName> {
    match word {
        "core" => Some(FeatureName::Core),
        "default" => Some(FeatureName::Default),
        _ => {
            let read = FeatureName::read(reply.alloc(), word);
            reply.needed(read)
        }
    }
}

fn instance_of(word: &str, reply: &mut Reply) -> Option<Instance> {
    let (port, triplet) = word.split_once(':')?;
    let port = port_of(port, reply)?;
    let triplet = triplet_of(triplet, reply)?;
    Some(Instance { port, triplet })
}

fn compare_with<T: Ord + Drop>(one: &T, other: Option<T>, reply: &mut Reply) {
    match other {
        Some(other) => tell_order(Some(one.cmp(&other)), reply),
        None => reply.refuse(),
    }
}

// Compares what two words stand for.
fn compare<T: Ord + Drop>(one: Option<T>, other: Option<T>, reply: &mut Reply) {
    match one {
        Some(one) => compare_with(&one, other, reply),
        None => reply.refuse(),
    }
}

fn triplets(rest: &str, reply: &mut Reply) {
    let (one, other) = cut(rest);
    let one = triplet_of(one, reply);
    let other = triplet_of(other, reply);
    compare(one, other, reply);
}

fn features(rest: &str, reply: &mut Reply) {
    let (one, other) = cut(rest);
    let one = feature_of(one, reply);
    let other = feature_of(other, reply);
    compare(one, other, reply);
}

fn instances(rest: &str, reply: &mut Reply) {
    let (one, other) = cut(rest);
    let one = instance_of(one, reply);
    let other = instance_of(other, reply);
    compare(one, other, reply);
}

fn port(rest: &str, reply: &mut Reply) {
    let text = reply.texts(rest);
    tell(PortName::read(reply.alloc(), text.as_str()), reply);
}

fn triplet(rest: &str, reply: &mut Reply) {
    let text = reply.texts(rest);
    tell(TripletName::read(reply.alloc(), text.as_str()), reply);
}

fn feature(rest: &str, reply: &mut Reply) {
    let text = reply.texts(rest);
    tell(FeatureName::read(reply.alloc(), text.as_str()), reply);
}

/// - `port TEXT`, `triplet TEXT`, `feature TEXT`: the name, or its fault;
/// - `triplets A B`, `features A B`, `instances A B`: how two names are ordered.
pub fn answer(question: Question, rest: &str, reply: &mut Reply) {
    match question {
        Question::Port => port(rest, reply),
        Question::Triplet => triplet(rest, reply),
        Question::Feature => feature(rest, reply),
        Question::Triplets => triplets(rest, reply),
        Question::Features => features(rest, reply),
        Question::Instances => instances(rest, reply),
    }
}
