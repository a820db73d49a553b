//! A version under one of its four keys, with the port-version beside it.
ghost use Rattle.std.specs.Prelude.{◌≡◌, ◌||◌, option_map, Result, bytes_eq};
ghost use Rattle.std.specs.Option.{is_some};
ghost use Rattle.serde_json.specs.Find.{get};
ghost use Rattle.json.specs.Find.{get_member};
ghost use Rattle.json.specs.Value.{members_view};
ghost use Rattle.vk_json.specs.Values.{view};
ghost use Rattle.vk_spec.specs.Reading.{Gives};
ghost use Rattle.vk_spec.specs.Versions as plain;
ghost use Rattle.vk_base.specs.Stops.{fault_in};
ghost use Rattle.vk_version.specs.AskViews.{ask_view};
ghost use Rattle.vk_version.specs.Schemes as plain_scheme;
ghost use Rattle.vk_version.specs.Views.{scheme_view};
ghost use Rattle.vk_fields.specs.TextViews.{written_view};
ghost use Rattle.vk_fields.specs.Versions.{key_of, has_key, no_keys, next_scheme};
ghost use Rattle.vk_fields.specs.Versions.{scheme_by, scheme_in, scheme_needed};
ghost use Rattle.vk_fields.specs.Versions.{port_version_at, version_text_at, version_under};
ghost use Rattle.vk_fields.specs.Versions.{version_if, version_at, version_needed_at, ask_under};
ghost use Rattle.vk_fields.specs.Versions.{with_port_beside, written_ask_under};

use crate::texts::{PlainText, WrittenAsk, WrittenAskText};
use crate::wording::said;
use std::alloc::Global;
use vk_base::Unread;
use vk_json::{
    FileFault, Reader, SmallNumber, Value, Why, optional, optional_or, text, wanted, wrong,
    wrong_member,
};
use vk_version::{Ask, Scheme, Version, read};

/// The key under which a version of a scheme stands.
pub fn key(scheme: Scheme) -> &'static str
    ensures { result.now ≡ key_of (scheme_view scheme) }
{
    match scheme {
        Scheme::Relaxed => "version",
        Scheme::Semver => "version-semver",
        Scheme::Date => "version-date",
        Scheme::Text => "version-string",
    }
}

// Which of the four keys an object has.
#[derive(Clone, Copy)]
struct VersionKeys {
    relaxed: bool,
    semver: bool,
    date: bool,
    text: bool,
}

impl VersionKeys {
    // None of them.
    fn none() -> VersionKeys
        ensures { result ≡ no_keys }
    {
        VersionKeys {
            relaxed: false,
            semver: false,
            date: false,
            text: false,
        }
    }

    // Whether the key of a scheme is there.
    fn has(&self, scheme: Scheme) -> bool
        ensures { result ≡ has_key self.now (scheme_view scheme) }
    {
        match scheme {
            Scheme::Relaxed => self.relaxed,
            Scheme::Semver => self.semver,
            Scheme::Date => self.date,
            Scheme::Text => self.text,
        }
    }

    // Notes a key that is there.
    fn note(&mut self, key: &str)
        ensures { (scheme : plain_scheme.Scheme) → has_key self.new scheme
            ≡ has_key self.old scheme || bytes_eq key.now (key_of scheme) }
    {
        match key {
            "version" => self.relaxed = true,
            "version-semver" => self.semver = true,
            "version-date" => self.date = true,
            "version-string" => self.text = true,
            _ => {}
        }
    }
}

// Which of the four keys are among the members of an object, in one pass.
fn keys_among(object: &[(&str, Value)]) -> VersionKeys
    ensures { (scheme : plain_scheme.Scheme) → has_key result scheme
        ≡ is_some (get_member (key_of scheme) (members_view object.now)) }
{
    let mut keys = VersionKeys::none();
    for (key, _) in object {
        keys.note(key);
    }
    keys
}

// Which of the four keys are there.
fn keys_in(value: &Value) -> VersionKeys
    ensures { (scheme : plain_scheme.Scheme) → has_key result scheme
        ≡ is_some (get (key_of scheme) (view value.now)) }
{
    match value {
        Value::Object(object) => keys_among(object.as_slice()),
        _ => VersionKeys::none(),
    }
}

// The scheme found so far and the next one, which may be there too.
fn next_scheme(
    alloc: Global,
    keys: VersionKeys,
    found: Option<Scheme>,
    next: Scheme,
) -> Result<Option<Scheme>, Unread<FileFault>>
    ensures { Gives (option_map scheme_view) fault_in result
        (next_scheme (has_key keys) (option_map scheme_view found) (scheme_view next)) }
{
    if !keys.has(next) {
        return Ok(found);
    }
    if found.is_none() {
        return Ok(Some(next));
    }
    Err(wrong_member(alloc, key(next), Why::TwoVersions))
}

// The scheme of the one version key, if there is one.
#[tactic(auto, unfolding(crate::specs::Versions::scheme_by))]
fn scheme_of(alloc: Global, keys: VersionKeys) -> Result<Option<Scheme>, Unread<FileFault>>
    ensures { Gives (option_map scheme_view) fault_in result (scheme_by (has_key keys)) }
{
    let first = next_scheme(alloc, keys, None, Scheme::Relaxed)?;
    let second = next_scheme(alloc, keys, first, Scheme::Semver)?;
    let third = next_scheme(alloc, keys, second, Scheme::Date)?;
    next_scheme(alloc, keys, third, Scheme::Text)
}

/// The scheme of the one version key, `None` where there is none. The fault is `TwoVersions` at a
/// second key.
#[tactic(auto, using(crate::proofs::Schemes::by_is_in))]
pub fn scheme(alloc: Global, value: &Value) -> Result<Option<Scheme>, Unread<FileFault>>
    ensures { Gives (option_map scheme_view) fault_in result (scheme_in (view value.now)) }
{
    scheme_of(alloc, keys_in(value))
}

/// The scheme of the one version key, which has to be there. The fault is `NoVersion` where there
/// is none, and `TwoVersions` at a second key.
pub fn scheme_needed(alloc: Global, value: &Value) -> Result<Scheme, Unread<FileFault>>
    ensures { Gives scheme_view fault_in result (scheme_needed (view value.now)) }
{
    match scheme(alloc, value)? {
        Some(scheme) => Ok(scheme),
        None => Err(wrong(alloc, Why::NoVersion)),
    }
}

/// The port-version beside a version, 0 where there is none. The fault is `Number` where it is
/// anything but a whole number from 0 to 2^32 - 1.
pub fn port_version(alloc: Global, value: &Value) -> Result<u32, Unread<FileFault>>
    ensures { Gives (λ port. port) fault_in result (port_version_at (view value.now)) }
{
    optional_or(alloc, value, "port-version", &SmallNumber, 0)
}

// Reads a version's text, without a port-version.
#[derive(Drop)]
struct VersionText(Scheme);

#[tactic(auto, using(crate::proofs::Saying::said_gives))]
impl Reader for VersionText {
    type Out = Version;

    ghost Plain = { plain.Version };

    ghost plain = { λ v. v };

    ghost reads = { λ r. version_text_at (scheme_view r.0) };

    fn read(&self, alloc: Global, value: &Value) -> Result<Version, Unread<FileFault>> {
        said(alloc, read(alloc, self.0, text(alloc, value)?, 0))
    }
}

#[tactic(auto, unfolding(crate::specs::Versions::version_under))]
fn version_under(alloc: Global, value: &Value, scheme: Scheme) -> Result<Version, Unread<FileFault>>
    ensures { Gives (λ v. v) fault_in result (version_under (scheme_view scheme) (view value.now)) }
{
    let version = wanted(alloc, value, key(scheme), &VersionText(scheme))?;
    let port = port_version(alloc, value)?;
    Ok(version.with_port(port))
}

fn version_if(
    alloc: Global,
    value: &Value,
    scheme: Option<Scheme>,
) -> Result<Option<Version>, Unread<FileFault>>
    ensures { Gives (λ v. v) fault_in result
        (version_if (option_map scheme_view scheme) (view value.now)) }
{
    match scheme {
        Some(scheme) => Ok(Some(version_under(alloc, value, scheme)?)),
        None => {
            port_version(alloc, value)?;
            Ok(None)
        }
    }
}

/// The version that an object's keys say, `None` where none of the four keys is there; the
/// port-version is read in any case. The first fault is a second key, then what is wrong with the
/// text, then with the port-version.
#[tactic(auto, unfolding(crate::specs::Versions::version_at))]
pub fn version(alloc: Global, value: &Value) -> Result<Option<Version>, Unread<FileFault>>
    ensures { Gives (λ v. v) fault_in result (version_at (view value.now)) }
{
    let scheme = scheme(alloc, value)?;
    version_if(alloc, value, scheme)
}

/// The version that an object's keys have to say; the fault is `NoVersion` where none of the four
/// keys is there.
#[tactic(auto, unfolding(crate::specs::Versions::version_needed_at))]
pub fn version_needed(alloc: Global, value: &Value) -> Result<Version, Unread<FileFault>>
    ensures { Gives (λ v. v) fault_in result (version_needed_at (view value.now)) }
{
    let scheme = scheme_needed(alloc, value)?;
    version_under(alloc, value, scheme)
}

/// An ask whose text stands under this key, with the port-version beside it. The fault is `Version`
/// for a text with `#`, since the port-version has its own key.
#[tactic(auto, unfolding(crate::specs::Versions::ask_under))]
pub fn ask_under(alloc: Global, value: &Value, key: &str) -> Result<Ask, Unread<FileFault>>
    ensures { Gives ask_view fault_in result (ask_under key.now (view value.now)) }
{
    let text = wanted(alloc, value, key, &PlainText)?;
    let port = port_version(alloc, value)?;
    Ok(Ask { text, port })
}

// The ask with the port-version that stands beside it.
fn with_port_beside(
    alloc: Global,
    written: WrittenAsk,
    port: Option<u32>,
) -> Result<Ask, Unread<FileFault>>
    ensures { Gives ask_view fault_in result (with_port_beside (written_view written) port) }
{
    match port {
        None => Ok(written.ask),
        Some(_) if written.numbered => Err(wrong_member(alloc, "port-version", Why::Twice)),
        Some(port) => Ok(Ask {
            text: written.ask.text,
            port,
        }),
    }
}

/// An ask whose text stands under this key, with its port-version after `#` or beside it. The fault
/// is `Twice` at `port-version` where it stands in both places.
#[tactic(auto, unfolding(crate::specs::Versions::written_ask_under))]
pub fn written_ask_under(alloc: Global, value: &Value, key: &str) -> Result<Ask, Unread<FileFault>>
    ensures { Gives ask_view fault_in result (written_ask_under key.now (view value.now)) }
{
    let written = wanted(alloc, value, key, &WrittenAskText)?;
    let port = optional(alloc, value, "port-version", &SmallNumber)?;
    with_port_beside(alloc, written, port)
}
