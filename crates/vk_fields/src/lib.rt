//! Readers of the texts and keys that several files of a project share: names, paths, platform
//! expressions, asks and versions. Each promises upwards the value that the text or the keys mean,
//! or the first fault with its place and its word.
#![tactic(auto)]

mod texts;
mod versions;
mod wording;

pub use texts::{
    AskText, ExpressionText, FeatureNameText, PathText, PlainText, PortNameText, ask_of,
    expression_of, feature_name_of, path_of, port_name_of,
};
pub use versions::{
    ask_under, key, port_version, scheme, scheme_needed, version, version_needed, written_ask_under,
};
pub use wording::{Worded, said};
