//! The forms of paths, versions and faults.

use crate::replies::Reply;
use vk_base::{Text, TreePath};
use vk_json::{Why, place_text};
use vk_version::{Ask, Version};

impl Reply {
    /// Puts the token of a path at the end.
    pub fn push_path(&mut self, path: &TreePath) {
        match path.text(self.alloc()) {
            Ok(text) => self.push_token(text.as_bytes()),
            Err(memory) => self.lack(memory),
        }
    }

    /// Puts an ask at the end: the token of its text, and the port-version behind `#`.
    pub fn push_ask(&mut self, ask: &Ask) {
        self.push_printed(ask);
    }

    /// Puts a version at the end: its class, and the ask that means it.
    pub fn push_version(&mut self, version: &Version) {
        self.push(version.class().word());
        self.push(":");
        self.push_ask(version.ask());
    }

    /// Puts the place and the word of a file's fault at the end.
    pub fn push_fault(&mut self, place: &Text, why: Why) {
        let place = place_text(self.alloc(), place);
        self.push_made(place);
        self.push(" ");
        let word = why.word(self.alloc());
        self.push_made(word);
    }
}
