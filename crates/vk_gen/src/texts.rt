//! The texts of the load's files.
ghost use Rattle.std.specs.Prelude.{◌≡◌, ◌<◌, ◌≤◌, ◌++◌, IfOk, codes, map, string_bytes};
ghost use Rattle.std.specs.List.{range_with_len};
ghost use Rattle.vk_gen.specs.Json.{with_commas};
ghost use Rattle.vk_gen.specs.Loads.{asks_for, asks_for_newer, older_asks, newer_asks};
ghost use Rattle.vk_gen.specs.Loads.{baseline_entry, baseline_text, table_row, table_text};
ghost use Rattle.vk_gen.specs.Loads.{manifest_text, older_manifest, newer_manifest};

use crate::names::port_name;
use std::alloc::Global;
use vk_base::{Memory, Text};

/// The project's manifest.
pub(crate) const ROOT_MANIFEST: &str = r#"{"dependencies":[{"name":"p0000","version>=":"1.1"}]}"#;

/// The project's configuration.
pub(crate) const CONFIGURATION: &str = r#"{"default-registry":{"kind":"filesystem","path":"reg"}}"#;

/// The file of the triplet `x64-linux`.
pub(crate) const STOCK_TRIPLET: &str = "set(VCPKG_TARGET_ARCHITECTURE x64)\n\
    set(VCPKG_CRT_LINKAGE dynamic)\nset(VCPKG_LIBRARY_LINKAGE static)\n\n\
    set(VCPKG_CMAKE_SYSTEM_NAME Linux)\n";

/// The older version of each port, which is its baseline.
pub(crate) const OLDER: &str = "1.0";

/// The newer version of each port.
pub(crate) const NEWER: &str = "1.1";

// A port as it is asked for, whatever its version.
fn asks_for(alloc: Global, port: u32) -> Result<Text, Memory>
    requires { port < 10000 }
    ensures { IfOk result (λ t. t ≡ asks_for port) }
{
    let name = port_name(alloc, port)?;
    Ok(Text::from_string(format!(in alloc; "\"{name}\"")?))
}

// A port as it is asked for at its newer version.
fn asks_for_newer(alloc: Global, port: u32) -> Result<Text, Memory>
    requires { port < 10000 }
    ensures { IfOk result (λ t. t ≡ asks_for_newer port) }
{
    let name = port_name(alloc, port)?;
    Ok(Text::from_string(format!(in alloc; r#"{{"name":"{name}","version>=":"1.1"}}"#)?))
}

// Two asks with a comma between.
fn both(alloc: Global, one: &Text, other: &Text) -> Result<Text, Memory>
    ensures { IfOk result (λ t. t ≡ one.now ++ codes "," ++ other.now) }
{
    Ok(Text::from_string(format!(in alloc; "{one},{other}")?))
}

// What the older version of a port asks for.
fn older_asks(alloc: Global, size: u32, port: u32) -> Result<Text, Memory>
    requires size { size ≤ 2000 }
    requires port { port < size }
    ensures { IfOk result (λ t. t ≡ with_commas (older_asks size port)) }
{
    if port + 1 >= size {
        return Ok(Text::new(alloc));
    }
    let next = asks_for(alloc, port + 1)?;
    if port == 0 || 2 * port + 1 >= size {
        return Ok(next);
    }
    let far = asks_for(alloc, 2 * port + 1)?;
    both(alloc, &next, &far)
}

// What the newer version of a port asks for.
fn newer_asks(alloc: Global, size: u32, port: u32) -> Result<Text, Memory>
    requires size { size ≤ 2000 }
    requires port { port < size }
    ensures { IfOk result (λ t. t ≡ with_commas (newer_asks size port)) }
{
    if port + 1 < size {
        return asks_for_newer(alloc, port + 1);
    }
    Ok(Text::new(alloc))
}

// The manifest of a version of a port that asks for this.
fn manifest_text(alloc: Global, port: u32, version: &str, asks: &Text) -> Result<Text, Memory>
    requires { port < 10000 }
    ensures { IfOk result (λ t. t ≡ manifest_text port version.now
        (codes "[" ++ asks.now ++ codes "]")) }
{
    let name = port_name(alloc, port)?;
    Ok(Text::from_string(format!(in alloc;
        r#"{{"name":"{name}","version":"{version}","dependencies":[{asks}]}}"#
    )?))
}

/// The manifest of the older version of a port.
#[tactic(auto, unfolding(crate::specs::Loads::older_manifest))]
pub(crate) fn older_manifest(alloc: Global, size: u32, port: u32) -> Result<Text, Memory>
    requires size { size ≤ 2000 }
    requires port { port < size }
    ensures { IfOk result (λ t. t ≡ older_manifest size port) }
{
    let asks = older_asks(alloc, size, port)?;
    manifest_text(alloc, port, OLDER, &asks)
}

/// The manifest of the newer version of a port.
#[tactic(auto, unfolding(crate::specs::Loads::newer_manifest))]
pub(crate) fn newer_manifest(alloc: Global, size: u32, port: u32) -> Result<Text, Memory>
    requires size { size ≤ 2000 }
    requires port { port < size }
    ensures { IfOk result (λ t. t ≡ newer_manifest size port) }
{
    let asks = newer_asks(alloc, size, port)?;
    manifest_text(alloc, port, NEWER, &asks)
}

// A version of a port, and the folder where it stands.
fn table_row(alloc: Global, port: u32, version: &str) -> Result<Text, Memory>
    requires { port < 10000 }
    ensures { IfOk result (λ t. t ≡ table_row port version.now) }
{
    let name = port_name(alloc, port)?;
    Ok(Text::from_string(format!(in alloc;
        r#"{{"version":"{version}","path":"$/ports/{name}/{version}"}}"#
    )?))
}

/// The versions file of a port.
#[tactic(auto, unfolding(crate::specs::Loads::table_text))]
pub(crate) fn table_text(alloc: Global, port: u32) -> Result<Text, Memory>
    requires { port < 10000 }
    ensures { IfOk result (λ t. t ≡ table_text port) }
{
    let older = table_row(alloc, port, OLDER)?;
    let newer = table_row(alloc, port, NEWER)?;
    Ok(Text::from_string(format!(in alloc; r#"{{"versions":[{older},{newer}]}}"#)?))
}

// A port's entry in the baseline.
fn baseline_entry(alloc: Global, port: u32) -> Result<String, Memory>
    requires { port < 10000 }
    ensures { IfOk result (λ t. string_bytes t ≡ baseline_entry port) }
{
    let name = port_name(alloc, port)?;
    Ok(format!(in alloc; r#""{name}":{{"baseline":"1.0"}}"#)?)
}

// The entries of all ports.
fn baseline_entries(alloc: Global, size: u32) -> Result<Vec<String>, Memory>
    requires { size ≤ 10000 }
    ensures { IfOk result (λ es. map string_bytes es.items
        ≡ map baseline_entry (range_with_len 0 size)) }
{
    let mut entries = Vec::new(alloc);
    for port in 0..size {
        entries.push(baseline_entry(alloc, port)?)?;
    }
    Ok(entries)
}

/// The registry's baseline.
#[tactic(auto, unfolding(crate::specs::Loads::baseline_text))]
pub(crate) fn baseline_text(alloc: Global, size: u32) -> Result<Text, Memory>
    requires { size ≤ 10000 }
    ensures { IfOk result (λ t. t ≡ baseline_text size) }
{
    let entries = baseline_entries(alloc, size)?.join(alloc, ",")?;
    Ok(Text::from_string(format!(in alloc; r#"{{"default":{{{entries}}}}}"#)?))
}
