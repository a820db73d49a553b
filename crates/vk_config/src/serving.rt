//! Which registry a port comes from.
ghost use Rattle.std.specs.Prelude.{◌≡◌, ◌↔◌, List, ℕ, None, Some, IfSome, IfNone, map};
ghost use Rattle.vk_config.specs.Configs as plain;
ghost use Rattle.vk_config.specs.Serving.{IsServedAt, IsUnserved, IsBest, NoneTakes};
ghost use Rattle.vk_config.specs.Closeness.{default_place, place_of};
ghost use Rattle.vk_config.specs.Views.{registry_view, config_view};

use crate::configs::Config;
use crate::pattern_indexes::serves_ports;
use vk_base::PortName;

fn default_place(config: &Config) -> Option<usize>
    ensures { result ≡ default_place (config_view config.now) }
{
    match &config.default {
        Some(source) if serves_ports(source) => Some(config.registries.len()),
        _ => None,
    }
}

// The first of the registries with the pattern that takes a port best.
fn pattern_place(config: &Config, port: &[u8]) -> Option<usize>
    ensures best { IfSome result (IsBest (map registry_view config.now.registries) port.now) }
    ensures none { IfNone result (NoneTakes (map registry_view config.now.registries) port.now) }
{
    match config.index.by_name(port) {
        Some(place) => Some(place),
        None => config.index.by_beginning(port),
    }
}

fn place_of(config: &Config, port: &PortName) -> Option<usize>
    ensures { result ≡ place_of (config_view config.now) port.now }
{
    match pattern_place(config, port.as_str().as_bytes()) {
        Some(found) => Some(found),
        None => default_place(config),
    }
}

/// The registry that a port comes from: a place in `registries`, or their number for the default
/// registry. A name beats every beginning, a longer beginning a shorter one, and the earlier of two
/// registries the later one; what no pattern takes goes to the default registry. An artifact
/// registry serves no port. `None` exactly where neither serves the port. The answer may be a
/// registry that the program can't read. Takes no memory.
pub fn registry_of(config: &Config, port: &PortName) -> Option<usize>
    ensures place { result ≡ place_of (config_view config.now) port.now }
    ensures found { IfSome result (IsServedAt (config_view config.now) port.now) }
    ensures none { (result ≡ None) ↔ IsUnserved (config_view config.now) port.now }
{
    place_of(config, port)
}

/// The place that the search finds is the one that a port comes from. A port comes from at most one
/// registry.
pub fn serving_rule()
    ensures place { (config : plain.Config) (port : List ℕ) (place : ℕ)
        → (place_of config port ≡ Some place)
        ↔ IsServedAt config port place }
    ensures none { (config : plain.Config) (port : List ℕ) → (place_of config port ≡ None)
        ↔ IsUnserved config port }
    ensures one { (config : plain.Config) (port : List ℕ) (place other : ℕ)
        → IsServedAt config port place
        → IsServedAt config port other → place ≡ other }
{}
