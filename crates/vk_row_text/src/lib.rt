//! What the programs of rows share: a row's words and what they stand for, the answer to a row, and
//! the sheet on which answers are compared with what rows say that they are. It promises upwards
//! that a row is cut at its first blank, and that bytes are those of which a word is the token.
#![tactic(auto)]

mod forms;
mod replies;
mod sheets;
mod wording;

pub use replies::{NoRow, Reply};
pub use sheets::{Answering, answer_rows};
pub use wording::{bytes_of, cut, number_of, path_of, text_of, texts_of};
