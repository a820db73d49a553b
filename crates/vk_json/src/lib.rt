//! JSON documents: what `serde_json` reads of the bytes, over texts that are borrowed from them,
//! and getters that answer by the value that was read.
//! It promises upwards that bytes have one value or one fault, and that a getter loses nothing of
//! it.
#![tactic(auto)]

mod documents;
mod faults;
mod getters;
mod new_items;
mod numbers;
mod places;
mod readers;
mod words;

pub use documents::{Doc, document_keys};
pub use faults::{FileFault, Why};
pub use getters::{as_bool, as_number, as_text, is_null, items, keys, member};
pub use json::{Scratch, Value};
pub use new_items::{NewItemReader, each_new_item};
pub use places::{at, in_item, in_member, place_text, under, wrong, wrong_member};
pub use readers::{
    AnyBoolean, AnyText, ListOf, MemberReader, ObjectOf, Reader, SmallNumber, boolean, each_item,
    each_member, number, object, optional, optional_or, text, wanted,
};
pub use words::word_rule;
