//! How values are printed in lines, so that they can be read back: names, numbers, texts, versions,
//! paths and words, pairs and choices of them, and lines of bytes.
//! It promises upwards that a text is read exactly where a right value is printed so.
#![tactic(auto)]

mod choices;
mod features;
mod forms;
mod lines;
mod names;
mod pairs;
mod paths;
mod texts;
mod versions;
mod words;

pub use choices::{Either, Or};
pub use features::Features;
pub use forms::Form;
pub use lines::{cut_line, next_line};
pub use names::{Feature, Number, Port, PortOrRoot, Triplet};
pub use pairs::Then;
pub use paths::{Place, ShortPath};
pub use texts::TokenText;
pub use versions::{TextAsk, TextVersion, VersionIfAny};
pub use words::{FieldWord, Known, WhyWord, Word};
