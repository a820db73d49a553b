//! Texts, lists, names, paths, tokens, decimal numbers and a count of steps: what every later crate
//! uses. For fakes, which of their calls are to go wrong.
//! Contracts see a text as its bytes, a list as a list, and a path as its anchor and parts.
//! It promises upwards that each reader answers the value exactly where its rule holds.
#![tactic(auto)]

mod decimals;
mod features;
mod instances;
mod limits;
mod lists;
mod memory;
mod names;
mod parts;
mod path_texts;
mod paths;
mod schedules;
mod shared_texts;
mod short_texts;
mod steps;
mod stops;
mod text_handles;
mod texts;
mod tokens;
mod words;

pub use decimals::{read_u32, read_u64};
pub use features::{FeatureName, NamedFeature, feature_rule};
pub use instances::Instance;
pub use limits::Limit;
pub use lists::List;
pub use memory::Memory;
pub use names::{AgentName, NameFault, PortName, TripletName, name_order, port_rule, triplet_rule};
pub use parts::PathParts;
pub use path_texts::PathToken;
pub use paths::{PathFault, TreePath, path_rule};
pub use schedules::{Schedule, Turn};
pub use shared_texts::SharedText;
pub use steps::Steps;
pub use stops::{Outage, Stop, Unread};
pub use texts::Text;
pub use tokens::{TokenOf, read_token, token, token_rule};
pub use words::Word;
