//! Versions, and the partial order on them.
ghost use Rattle.std.specs.Prelude.{◌≡◌, ◌↔◌, Some, None, Ok};
ghost use Rattle.std.specs.declared.cmp.Ordering.TheVariants.{Less, Equal, Greater};
ghost use Rattle.semver.specs.Identifiers.{pre_text};
ghost use Rattle.vk_spec.specs.Reading.{Gives};
ghost use Rattle.vk_spec.specs.Versions.{ask_of, same_version};
ghost use Rattle.std.specs.Cmp.{partial_equiv_from_equiv};
ghost use Rattle.vk_version.specs.SameVersions.{version_fed, version_hashed, version_laws};
ghost use Rattle.vk_base.specs.Stops.{fault_in};
ghost use Rattle.vk_version.specs.Readings.{IsVersion};
ghost use Rattle.vk_version.specs.Orders.{Below, Unrelated, order_of, rank_cmp, tie_cmp};
ghost use Rattle.vk_version.specs.AskViews.{ask_view};
ghost use Rattle.vk_version.specs.Parsed.{version_of, Keeps};
ghost use Rattle.vk_version.specs.Views.{class_view};

use crate::asks::Ask;
use crate::faults::VersionFault;
use crate::number_lists::Numbers;
use crate::schemes::Class;
use semver::Prerelease;
use std::alloc::{AllocError, Global};
use std::cmp::Ordering;
use std::hash::{Hash, Hasher};
use std::marker::Model;
use vk_base::{SharedText, Unread};

/// A version: a class, a text and a port-version. Two are the same where these three are.
/// It keeps the parsed parts of its text, so that comparing never reads a text again.
#[derive(Drop)]
pub struct Version {
    class: Class,
    /// The text that was read, and the port-version.
    ask: Ask,
    /// Of a date: its year, its month, its day, and then the other numbers.
    numbers: Numbers,
    pre: Prerelease,
}

impl Model for Version {
    ghost use Rattle.vk_spec.specs.Versions.{Version};

    ghost Value = { Version };

    ghost use Rattle.vk_version.specs.Parsed.{version_view, IsParsed};

    ghost view = { version_view };

    ghost invariant = { IsParsed };
}

impl Version {
    /// Which versions it can be compared with.
    pub fn class(&self) -> Class
        ensures { class_view result ≡ self.now.class }
    {
        self.class
    }

    /// The text that was read, as it was written: some scheme reads it.
    pub fn text(&self) -> &SharedText
        ensures text { result.now ≡ self.now.text }
        ensures version { IsVersion self.now }
    {
        &self.ask.text
    }

    /// The port-version.
    pub fn port(&self) -> u32
        ensures { result ≡ self.now.port }
    {
        self.ask.port
    }

    /// The same class and text with this port-version.
    #[tactic(auto, using(crate::proofs::PortLemmas::kept_with_port))]
    pub fn with_port(mut self, port: u32) -> Version
        ensures { result ≡ record self { port = port } }
    {
        self.ask.port = port;
        self
    }

    /// The ask that means it: its text and its port-version. Takes no memory.
    pub fn ask(&self) -> &Ask
        ensures { ask_view result.now ≡ ask_of self.now }
    {
        &self.ask
    }
}

// The version of a text whose parts were read.
pub(crate) fn with_parts(
    alloc: Global,
    class: Class,
    text: &str,
    port: u32,
    numbers: Numbers,
    pre: Prerelease,
) -> Result<Version, Unread<VersionFault>>
    requires { Keeps (version_of (class_view class) text.now port) numbers (pre_text pre) }
    ensures { Gives (λ v. v) fault_in result (Ok (version_of (class_view class) text.now port)) }
{
    let text = SharedText::from_str(alloc, text)?;
    Ok(Version {
        class,
        ask: Ask { text, port },
        numbers,
        pre,
    })
}

impl Clone for Version {
    ghost is_clone = { λ v w. w ≡ v };

    fn clone(&self) -> Result<Version, AllocError> {
        Ok(Version {
            class: self.class,
            ask: self.ask.clone()?,
            numbers: self.numbers.clone()?,
            pre: self.pre.clone()?,
        })
    }
}

impl PartialEq for Version {
    ghost eq = { same_version };

    ghost laws = { partial_equiv_from_equiv version_laws };

    fn eq(&self, other: &Version) -> bool {
        self.class == other.class && self.ask == other.ask
    }
}

impl Eq for Version {
    ghost laws = { version_laws };
}

impl Hash for Version {
    ghost hash_input = { version_fed };

    ghost respects_eq = { version_hashed };

    fn hash<H: Hasher>(&self, state: &mut H) {
        self.ask.hash(state);
    }
}

// Which version comes first by numbers, and then by pre-release.
fn rank(a: &Version, b: &Version) -> Ordering
    ensures { result ≡ rank_cmp a.now b.now }
{
    a.numbers
        .compare(&b.numbers)
        .then_with(|| a.pre.cmp(&b.pre))
}

// How versions of one rank compare: by port-version, where they have the same text.
fn tie(a: &Version, b: &Version) -> Option<Ordering>
    ensures { result ≡ tie_cmp a.now b.now }
{
    if a.ask.text == b.ask.text {
        Some(a.ask.port.cmp(&b.ask.port))
    } else {
        None
    }
}

// Compares by class, then by rank, then within a tie.
fn compare(a: &Version, b: &Version) -> Option<Ordering>
    ensures { result ≡ order_of a.now b.now }
{
    if a.class != b.class {
        return None;
    }
    match rank(a, b) {
        Ordering::Equal => tie(a, b),
        unequal => Some(unequal),
    }
}

/// How a version compares with another; `None` exactly where neither is at most the other.
/// Takes no memory, looks at each part once, and reads no text again.
pub fn order(a: &Version, b: &Version) -> Option<Ordering>
    ensures less { (result ≡ Some Less) ↔ Below a.now b.now }
    ensures equal { (result ≡ Some Equal) ↔ (a.now ≡ b.now) }
    ensures greater { (result ≡ Some Greater) ↔ Below b.now a.now }
    ensures none { (result ≡ None) ↔ Unrelated a.now b.now }
    ensures tested { result ≡ order_of a.now b.now }
{
    compare(a, b)
}
