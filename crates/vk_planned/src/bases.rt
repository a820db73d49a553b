//! What is planned from.
use vk_choices::Choices;
use vk_model::{Reason, Setting};
use vk_rules::Rules;

/// A setting with its rules, its reasons, and the choices that are made of them.
#[derive(Drop)]
pub(crate) struct Basis<'a> {
    pub(crate) setting: &'a Setting,
    pub(crate) rules: Rules<'a>,
    pub(crate) reasons: &'a [Reason],
    pub(crate) choices: &'a Choices,
}
