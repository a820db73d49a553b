//! The first registry that has a pattern, looked up.
ghost use Rattle.std.specs.Prelude.{◌≡◌, Some, None, OnOk, IfOk, IfSome, IfNone, map};
ghost use Rattle.std.specs.Prelude.{if◌then◌else◌};
ghost use Rattle.std.specs.List.{list_any};
ghost use Rattle.std.specs.Option.{option_or};
ghost use Rattle.vk_config.specs.Configs as plain;
ghost use Rattle.vk_config.specs.Serving.{serves_ports, patterns_of};
ghost use Rattle.vk_config.specs.FirstPlaces.{is_same, first_with, IsLongest, NoneBegins};
ghost use Rattle.vk_config.specs.IndexViews.{index_view};
ghost use Rattle.vk_config.specs.RegistryViews.{pattern_view, source_view, registry_view};

use crate::first_places::FirstPlaces;
use crate::patterns::Pattern;
use crate::registries::{Registry, Source};
use std::alloc::Global;
use vk_base::Memory;

pub(crate) fn serves_ports(source: &Source) -> bool
    ensures { result ≡ serves_ports (source_view source.now) }
{
    match source {
        Source::Filesystem { .. } | Source::Git | Source::Builtin => true,
        Source::Artifact => false,
    }
}

// The patterns by which a registry serves ports.
fn patterns_of(registry: &Registry) -> &[Pattern]
    ensures { map pattern_view result.now ≡ patterns_of (registry_view registry.now) }
{
    if serves_ports(&registry.source) {
        return registry.packages.as_slice();
    }
    &[]
}

/// For each pattern the first registry that has it.
#[derive(Drop)]
pub struct PatternIndex {
    names: FirstPlaces,
    beginnings: FirstPlaces,
}

impl PatternIndex {
    /// The index of no registries. Takes no memory.
    pub fn new(alloc: Global) -> PatternIndex
        ensures { (pattern : plain.Pattern) → index_view result pattern ≡ None }
    {
        PatternIndex {
            names: FirstPlaces::new(alloc),
            beginnings: FirstPlaces::new(alloc),
        }
    }

    /// The index of these registries, by their places.
    pub fn of(alloc: Global, registries: &[Registry]) -> Result<PatternIndex, Memory>
        ensures { IfOk result (λ index. (pattern : plain.Pattern)
            → index_view index pattern ≡ first_with (map registry_view registries.now) pattern) }
    {
        let mut index = PatternIndex::new(alloc);
        for (place, registry) in registries.iter().enumerate() {
            index.put_all(alloc, patterns_of(registry), place)?;
        }
        Ok(index)
    }

    fn put_all(&mut self, alloc: Global, patterns: &[Pattern], place: usize) -> Result<(), Memory>
        ensures { OnOk result ((wanted : plain.Pattern) → index_view self.new wanted
            ≡ option_or (index_view self.old wanted)
            (if list_any (is_same wanted) (map pattern_view patterns.now)
            then Some place else None)) }
    {
        for pattern in patterns {
            self.put(alloc, pattern, place)?;
        }
        Ok(())
    }

    fn put(&mut self, alloc: Global, pattern: &Pattern, place: usize) -> Result<(), Memory>
        ensures { OnOk result ((wanted : plain.Pattern) → index_view self.new wanted
            ≡ option_or (index_view self.old wanted)
            (if is_same wanted (pattern_view pattern.now) then Some place else None)) }
    {
        match pattern {
            Pattern::Exact(name) => self.names.put(alloc, name.as_str().as_bytes(), place),
            Pattern::Prefix(text) => self.beginnings.put(alloc, text.as_bytes(), place),
        }
    }

    /// The first registry that has this name among its patterns.
    pub fn by_name(&self, name: &[u8]) -> Option<usize>
        ensures { result ≡ index_view self.now (plain.exact name.now) }
    {
        self.names.get(name)
    }

    /// The first registry that has the longest pattern that begins a port's name.
    pub fn by_beginning(&self, port: &[u8]) -> Option<usize>
        ensures found { IfSome result (IsLongest (index_view self.now) port.now) }
        ensures none { IfNone result (NoneBegins (index_view self.now) port.now) }
    {
        let mut size = port.len();
        loop {
            if let Some(place) = self.beginnings.get(&port[..size]) {
                return Some(place);
            }
            if size == 0 {
                return None;
            }
            size -= 1;
        }
    }
}
