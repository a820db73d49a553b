//! What facts bring up alone, asked of a catalogue.
ghost use Rattle.std.specs.Prelude.{◌≡◌, ◌+◌, ◌≤◌, ◌<◌, ◌++◌, [], true, List, IfOk, OnOk};
ghost use Rattle.std.specs.Prelude.{IfSome, flat_map, is_some, length, map, option_map};
ghost use Rattle.std.specs.Map.{keys_of};
ghost use Rattle.vk_spec.specs.Pages.{manifest_in};
ghost use Rattle.vk_spec.specs.Catalogues.{OnlyAsked, OnPages, ArePages, CanAskManifest};
ghost use Rattle.vk_base.specs.Stops.{was_out};
ghost use Rattle.vk_base.specs.FeatureViews.{feature_view};
ghost use Rattle.vk_version.specs.AskViews.{ask_view};
ghost use Rattle.vk_resolution.specs.Givens.{Pages};
ghost use Rattle.vk_resolution.specs.Settings as plain;
ghost use Rattle.vk_resolution.specs.Asking.{asked_of, need};
ghost use Rattle.vk_resolution.specs.Consequences.{asked_in, is_visited};
ghost use Rattle.vk_resolution.specs.Faults.{floor_troubles, given_troubles};
ghost use Rattle.vk_resolution.specs.Faults.{manifest_troubles, troubles_of};
ghost use Rattle.vk_resolution.specs.Planner.{inputs_of};
ghost use Rattle.vk_spec.specs.Pages.{row_in};
ghost use Rattle.vk_model.specs.Views.{manifest_view};
ghost use Rattle.vk_model.specs.SettingViews.{setting_view, instance_view};
ghost use Rattle.vk_model.specs.FactViews.{fact_view, who_view};
ghost use Rattle.vk_model.specs.WrongViews.{given_view};
ghost use Rattle.vk_close.specs.Kept.{IsKept, Tells, Tracks};
ghost use Rattle.vk_close.specs.Floors.{is_clear, visited_by};
ghost use Rattle.vk_close.specs.Known.{given_in};
ghost use Rattle.vk_close.specs.Steps.{asked_on, given_on};
ghost use Rattle.vk_worklist.specs.Alone.{Follows, alone_at, joins};
ghost use Rattle.vk_worklist.specs.Entries.{reasons_in};
ghost use Rattle.vk_worklist.specs.Places.{IsPlace, IsSeat, IsSeatOf, KeepsSeats};
ghost use Rattle.vk_worklist.specs.Ticks.{tick_of};

use crate::floors::{find, is_base, is_clear, is_visited};
use crate::known::{Known, KnownPort};
use crate::ports::{known_at, see_to_port};
use crate::steps::{push_all, push_given};
use indexmap::IndexMap;
use std::alloc::Global;
use std::sync::ledger::Ledger;
use vk_base::{FeatureName, Instance, Memory, Outage, PortName, Steps};
use vk_catalogue::Catalogue;
use vk_model::{Cause, Fact, Manifest, Setting, Who};
use vk_root::Overrides;
use vk_rules::Rules;
use vk_version::{Ask, Version};
use vk_worklist::Asker;

/// What is asked of a catalogue for the closure of a setting, the given version of each port once.
/// It is clean as long as nothing is wrong with any fact that was asked about.
#[derive(Drop)]
pub struct PageAsker<'a> {
    alloc: Global,
    setting: &'a Setting,
    rules: Rules<'a>,
    overrides: Overrides,
    ports: IndexMap<PortName, KnownPort>,
    clean: bool,
}

// The place of a fact's port, where the fact is joined with others of it, and whether nothing is
// wrong with the fact.
#[derive(Drop)]
struct Seen {
    seat: Option<usize>,
    clear: bool,
}

// The place of a port, where a floor of it is visited.
fn seat_where(visited: bool, place: usize) -> Option<usize>
    ensures seat { IfSome result (λ seat. seat ≡ place) }
    ensures visited { is_some result ≡ visited }
{
    if visited {
        return Some(place);
    }
    None
}

// What is seen of a floor of the port at a place, by what the table has for it.
fn seen_floor(known: &Known, place: usize, ask: &Ask, found: &Option<Version>) -> Seen
    ensures seat { IfSome result.seat (λ seat. seat ≡ place) }
    ensures joined { is_some result.seat ≡ visited_by (option_map given_view known.now.given)
        known.now.base (ask_view ask.now) found.now }
    ensures clear { result.clear ≡ is_clear (option_map given_view known.now.given) found.now }
{
    Seen {
        seat: seat_where(is_visited(known, ask, found), place),
        clear: is_clear(&known.given, found),
    }
}

impl<'a> PageAsker<'a> {
    /// Nothing was asked yet.
    pub(crate) fn new(alloc: Global, setting: &'a Setting) -> Result<PageAsker<'a>, Memory>
        ensures setting { IfOk result (λ a. a.setting.now ≡ setting.now) }
        ensures tracks { IfOk result (λ a. (pages : Pages) → Tracks a pages []) }
    {
        let rules = Rules::new(alloc, setting)?;
        let overrides = Overrides::of(alloc, &setting.root.overrides)?;
        Ok(PageAsker {
            alloc,
            setting,
            rules,
            overrides,
            ports: IndexMap::new(alloc),
            clean: true,
        })
    }

    /// Whether nothing is wrong with any fact that was asked about, where the pages are told.
    pub fn is_clean(&self) -> bool
        ensures { result ≡ self.now.clean }
    {
        self.clean
    }

    // Adds what a feature of a manifest asks for.
    fn ask_rules<C: Catalogue, L: Ledger>(
        &mut self,
        cat: &mut C,
        who: &Who,
        feature: &FeatureName,
        manifest: &Manifest,
        line: u32,
        brought: &mut Vec<(Fact, Cause)>,
        steps: &mut Steps<L>,
    ) -> Result<(), Outage>
        requires kept { OnPages (λ pages. IsKept self.old pages) (C.state cat.old) }
        ensures setting { self.new.setting ≡ self.old.setting }
        ensures clean { self.new.clean ≡ self.old.clean }
        ensures ticks { steps.new ≤ steps.old + 1 }
        ensures asked { OnlyAsked (was_out result) (C.state cat.old) (C.state cat.new) }
        ensures kept { OnOk result (OnPages (λ pages. IsKept self.new pages) (C.state cat.old)) }
        ensures seats { OnOk result
            (KeepsSeats (keys_of self.old.ports.entries) (keys_of self.new.ports.entries)) }
        ensures brought { OnOk result (OnPages (λ pages.
            reasons_in brought.new.items ≡ reasons_in brought.old.items ++ flat_map
            (asked_on (setting_view self.old.setting.now).root.overrides pages line)
            (asked_of (setting_view self.old.setting.now) (who_view who.now)
            (feature_view feature.now) (manifest_view manifest.now)))
            (C.state cat.old)) }
    {
        let facts = self
            .rules
            .consequences(self.alloc, who, feature, manifest, steps)?;
        push_all(&self.overrides, &mut self.ports, cat, facts, line, brought)
    }

    // Sees to it that a port is known, and tells its place.
    fn see_to<C: Catalogue>(&mut self, cat: &mut C, port: &PortName) -> Result<usize, Outage>
        requires kept { OnPages (λ pages. IsKept self.old pages) (C.state cat.old) }
        ensures setting { self.new.setting ≡ self.old.setting }
        ensures clean { self.new.clean ≡ self.old.clean }
        ensures asked { OnlyAsked (was_out result) (C.state cat.old) (C.state cat.new) }
        ensures kept { OnOk result (OnPages (λ pages. IsKept self.new pages) (C.state cat.old)) }
        ensures seats { OnOk result
            (KeepsSeats (keys_of self.old.ports.entries) (keys_of self.new.ports.entries)) }
        ensures there { IfOk result (IsPlace self.new.ports.entries port.now) }
        ensures within { IfOk result (λ place. place < length self.new.ports.entries) }
        ensures seat { IfOk result (IsSeat (keys_of self.new.ports.entries) port.now) }
    {
        see_to_port(&self.overrides, &mut self.ports, cat, port)
    }

    // Sees to it that a port is known where none is: what is known of any shows what every page
    // keeps. A visit comes up after a need and a floor of its port, so it finds ports known.
    fn see_any<C: Catalogue>(&mut self, cat: &mut C, port: &PortName) -> Result<(), Outage>
        requires kept { OnPages (λ pages. IsKept self.old pages) (C.state cat.old) }
        ensures setting { self.new.setting ≡ self.old.setting }
        ensures clean { self.new.clean ≡ self.old.clean }
        ensures asked { OnlyAsked (was_out result) (C.state cat.old) (C.state cat.new) }
        ensures kept { OnOk result (OnPages (λ pages. IsKept self.new pages) (C.state cat.old)) }
        ensures seats { OnOk result
            (KeepsSeats (keys_of self.old.ports.entries) (keys_of self.new.ports.entries)) }
        ensures sound { OnOk result (OnPages ArePages (C.state cat.old)) }
    {
        if self.ports.is_empty() {
            self.see_to(cat, port)?;
        }
        Ok(())
    }

    // Adds the floor of a needed port's given version, and tells the port's place and whether it
    // has a given version.
    fn ask_need<C: Catalogue>(
        &mut self,
        cat: &mut C,
        port: &PortName,
        line: u32,
        brought: &mut Vec<(Fact, Cause)>,
    ) -> Result<Seen, Outage>
        requires kept { OnPages (λ pages. IsKept self.old pages) (C.state cat.old) }
        ensures setting { self.new.setting ≡ self.old.setting }
        ensures clean { self.new.clean ≡ self.old.clean }
        ensures asked { OnlyAsked (was_out result) (C.state cat.old) (C.state cat.new) }
        ensures kept { OnOk result (OnPages (λ pages. IsKept self.new pages) (C.state cat.old)) }
        ensures seats { OnOk result
            (KeepsSeats (keys_of self.old.ports.entries) (keys_of self.new.ports.entries)) }
        ensures brought { OnOk result (OnPages (λ pages.
            reasons_in brought.new.items ≡ reasons_in brought.old.items
            ++ given_on line port.now (given_in (pages port.now).given))
            (C.state cat.old)) }
        ensures seat { IfOk result (λ seen.
            IfSome seen.seat (IsSeat (keys_of self.new.ports.entries) port.now)) }
        ensures joined { IfOk result (λ seen. is_some seen.seat ≡ true) }
        ensures clear { IfOk result (λ seen. OnPages (λ pages.
            Tells seen.clear (given_troubles port.now (pages port.now).given ≡ []))
            (C.state cat.old)) }
    {
        let place = self.see_to(cat, port)?;
        let known = known_at(&self.ports, place);
        push_given(port, &known.given, line, brought)?;
        Ok(Seen {
            seat: Some(place),
            clear: known.given.is_some(),
        })
    }

    // The place of a floor's port, where the version of the floor is visited, and whether the floor
    // lies in the table.
    fn ask_floor<C: Catalogue>(
        &mut self,
        cat: &mut C,
        port: &PortName,
        ask: &Ask,
    ) -> Result<Seen, Outage>
        requires kept { OnPages (λ pages. IsKept self.old pages) (C.state cat.old) }
        ensures setting { self.new.setting ≡ self.old.setting }
        ensures clean { self.new.clean ≡ self.old.clean }
        ensures asked { OnlyAsked (was_out result) (C.state cat.old) (C.state cat.new) }
        ensures kept { OnOk result (OnPages (λ pages. IsKept self.new pages) (C.state cat.old)) }
        ensures seats { OnOk result
            (KeepsSeats (keys_of self.old.ports.entries) (keys_of self.new.ports.entries)) }
        ensures seat { IfOk result (λ seen.
            IfSome seen.seat (IsSeat (keys_of self.new.ports.entries) port.now)) }
        ensures joined { IfOk result (λ seen. OnPages (λ pages. is_some seen.seat ≡ is_visited
            (inputs_of (setting_view self.old.setting.now) pages) port.now (ask_view ask.now))
            (C.state cat.old)) }
        ensures clear { IfOk result (λ seen. OnPages (λ pages.
            Tells seen.clear (floor_troubles port.now (ask_view ask.now)
            (row_in (pages port.now).rows (ask_view ask.now)) (pages port.now).given ≡ []))
            (C.state cat.old)) }
    {
        let place = self.see_to(cat, port)?;
        let known = known_at(&self.ports, place);
        if is_base(&known.given, ask) {
            return Ok(seen_floor(known, place, ask, &known.base));
        }
        let found = find(cat, port, &known.given, ask)?;
        let seen = seen_floor(known, place, ask, &found);
        drop(found);
        Ok(seen)
    }

    // Adds what a feature of an instance asks for, by a manifest that was found.
    fn ask_found<C: Catalogue, L: Ledger>(
        &mut self,
        cat: &mut C,
        inst: &Instance,
        feature: &FeatureName,
        manifest: &Manifest,
        line: u32,
        brought: &mut Vec<(Fact, Cause)>,
        steps: &mut Steps<L>,
    ) -> Result<(), Outage>
        requires kept { OnPages (λ pages. IsKept self.old pages) (C.state cat.old) }
        ensures setting { self.new.setting ≡ self.old.setting }
        ensures clean { self.new.clean ≡ self.old.clean }
        ensures ticks { steps.new ≤ steps.old + 1 }
        ensures asked { OnlyAsked (was_out result) (C.state cat.old) (C.state cat.new) }
        ensures kept { OnOk result (OnPages (λ pages. IsKept self.new pages) (C.state cat.old)) }
        ensures seats { OnOk result
            (KeepsSeats (keys_of self.old.ports.entries) (keys_of self.new.ports.entries)) }
        ensures brought { OnOk result (OnPages (λ pages.
            reasons_in brought.new.items ≡ reasons_in brought.old.items ++ flat_map
            (asked_on (setting_view self.old.setting.now).root.overrides pages line)
            (asked_of (setting_view self.old.setting.now) (plain.inst (instance_view inst.now))
            (feature_view feature.now) (manifest_view manifest.now)))
            (C.state cat.old)) }
    {
        let facts = self
            .rules
            .instance_consequences(self.alloc, inst, feature, manifest, steps)?;
        push_all(&self.overrides, &mut self.ports, cat, facts, line, brought)
    }

    // Adds what a feature of an instance asks for at a version, and tells whether the manifest is
    // readable and agrees.
    fn ask_visit<C: Catalogue, L: Ledger>(
        &mut self,
        cat: &mut C,
        inst: &Instance,
        feature: &FeatureName,
        ask: &Ask,
        line: u32,
        brought: &mut Vec<(Fact, Cause)>,
        steps: &mut Steps<L>,
    ) -> Result<bool, Outage>
        requires kept { OnPages (λ pages. IsKept self.old pages) (C.state cat.old) }
        requires visited { OnPages (λ pages. is_visited
            (inputs_of (setting_view self.old.setting.now) pages) inst.now.port (ask_view ask.now)
            ≡ true) (C.state cat.old) }
        ensures setting { self.new.setting ≡ self.old.setting }
        ensures clean { self.new.clean ≡ self.old.clean }
        ensures ticks { steps.new ≤ steps.old + 1 }
        ensures asked { OnlyAsked (was_out result) (C.state cat.old) (C.state cat.new) }
        ensures kept { OnOk result (OnPages (λ pages. IsKept self.new pages) (C.state cat.old)) }
        ensures seats { OnOk result
            (KeepsSeats (keys_of self.old.ports.entries) (keys_of self.new.ports.entries)) }
        ensures brought { OnOk result (OnPages (λ pages.
            reasons_in brought.new.items ≡ reasons_in brought.old.items ++ flat_map
            (asked_on (setting_view self.old.setting.now).root.overrides pages line)
            (asked_in (setting_view self.old.setting.now) (instance_view inst.now)
            (feature_view feature.now) (manifest_in (pages inst.now.port) (ask_view ask.now))))
            (C.state cat.old)) }
        ensures clear { IfOk result (λ clear. OnPages (λ pages. Tells clear (manifest_troubles
            inst.now.port (manifest_in (pages inst.now.port) (ask_view ask.now)) ≡ []))
            (C.state cat.old)) }
    {
        self.see_any(cat, &inst.port)?;
        match cat.manifest(&inst.port, ask)? {
            Ok(manifest) => {
                let asked = self.ask_found(cat, inst, feature, &manifest, line, brought, steps);
                drop(manifest);
                asked?;
                Ok(true)
            }
            Err(wrong) => {
                drop(wrong);
                Ok(false)
            }
        }
    }

    // Adds what a need brings up, and tells the place of its port, if it is an instance's, and
    // whether nothing is wrong with it.
    fn see_need<C: Catalogue, L: Ledger>(
        &mut self,
        cat: &mut C,
        who: &Who,
        feature: &FeatureName,
        line: u32,
        brought: &mut Vec<(Fact, Cause)>,
        steps: &mut Steps<L>,
    ) -> Result<Seen, Outage>
        requires kept { OnPages (λ pages. IsKept self.old pages) (C.state cat.old) }
        ensures setting { self.new.setting ≡ self.old.setting }
        ensures clean { self.new.clean ≡ self.old.clean }
        ensures ticks { steps.new
            ≤ steps.old + tick_of (need (who_view who.now) (feature_view feature.now)) }
        ensures asked { OnlyAsked (was_out result) (C.state cat.old) (C.state cat.new) }
        ensures kept { OnOk result (OnPages (λ pages. IsKept self.new pages) (C.state cat.old)) }
        ensures seats { OnOk result
            (KeepsSeats (keys_of self.old.ports.entries) (keys_of self.new.ports.entries)) }
        ensures brought { OnOk result (OnPages (λ pages.
            reasons_in brought.new.items ≡ reasons_in brought.old.items
            ++ alone_at (inputs_of (setting_view self.old.setting.now) pages)
            (need (who_view who.now) (feature_view feature.now)) line)
            (C.state cat.old)) }
        ensures seat { IfOk result (λ seen. IfSome seen.seat (IsSeatOf
            (keys_of self.new.ports.entries)
            (need (who_view who.now) (feature_view feature.now)))) }
        ensures joined { IfOk result (λ seen. OnPages (λ pages. is_some seen.seat ≡ joins
            (inputs_of (setting_view self.old.setting.now) pages)
            (need (who_view who.now) (feature_view feature.now))) (C.state cat.old)) }
        ensures clear { IfOk result (λ seen. OnPages (λ pages. Tells seen.clear
            (troubles_of (inputs_of (setting_view self.old.setting.now) pages)
            (need (who_view who.now) (feature_view feature.now)) ≡ [])) (C.state cat.old)) }
    {
        match who {
            Who::Root(_) => {
                let setting = self.setting;
                self.ask_rules(cat, who, feature, &setting.root, line, brought, steps)?;
                Ok(Seen {
                    seat: None,
                    clear: true,
                })
            }
            Who::Inst(inst) => self.ask_need(cat, &inst.port, line, brought),
        }
    }

    // Adds what a fact brings up alone.
    fn see<C: Catalogue, L: Ledger>(
        &mut self,
        cat: &mut C,
        fact: &Fact,
        line: u32,
        brought: &mut Vec<(Fact, Cause)>,
        steps: &mut Steps<L>,
    ) -> Result<Seen, Outage>
        requires kept { OnPages (λ pages. IsKept self.old pages) (C.state cat.old) }
        requires follows { OnPages (λ pages. Follows
            (inputs_of (setting_view self.old.setting.now) pages) (fact_view fact.now))
            (C.state cat.old) }
        ensures setting { self.new.setting ≡ self.old.setting }
        ensures clean { self.new.clean ≡ self.old.clean }
        ensures ticks { steps.new ≤ steps.old + tick_of (fact_view fact.now) }
        ensures asked { OnlyAsked (was_out result) (C.state cat.old) (C.state cat.new) }
        ensures kept { OnOk result (OnPages (λ pages. IsKept self.new pages) (C.state cat.old)) }
        ensures seats { OnOk result
            (KeepsSeats (keys_of self.old.ports.entries) (keys_of self.new.ports.entries)) }
        ensures brought { OnOk result (OnPages (λ pages.
            reasons_in brought.new.items ≡ reasons_in brought.old.items
            ++ alone_at (inputs_of (setting_view self.old.setting.now) pages)
            (fact_view fact.now) line)
            (C.state cat.old)) }
        ensures seat { IfOk result (λ seen. IfSome seen.seat
            (IsSeatOf (keys_of self.new.ports.entries) (fact_view fact.now))) }
        ensures joined { IfOk result (λ seen. OnPages (λ pages. is_some seen.seat ≡ joins
            (inputs_of (setting_view self.old.setting.now) pages) (fact_view fact.now))
            (C.state cat.old)) }
        ensures clear { IfOk result (λ seen. OnPages (λ pages. Tells seen.clear
            (troubles_of (inputs_of (setting_view self.old.setting.now) pages)
            (fact_view fact.now) ≡ [])) (C.state cat.old)) }
    {
        match fact {
            Fact::Need { who, feature } => self.see_need(cat, who, feature, line, brought, steps),
            Fact::Floor { port, ask } => self.ask_floor(cat, port, ask),
            Fact::Visit { inst, feature, ask } => {
                let clear = self.ask_visit(cat, inst, feature, ask, line, brought, steps)?;
                Ok(Seen { seat: None, clear })
            }
        }
    }
}

impl<'a> Asker for PageAsker<'a> {
    ghost use Rattle.std.specs.Map.{keys_of};
    ghost use Rattle.vk_model.specs.SettingViews.{setting_view};
    ghost use Rattle.vk_close.specs.Kept.{Tracks};

    ghost setting = { λ a. setting_view a.setting.now };

    ghost tracks = { Tracks };

    ghost seats = { λ a. keys_of a.ports.entries };

    fn ask<C: Catalogue, L: Ledger>(
        &mut self,
        cat: &mut C,
        lines: &IndexMap<Fact, Cause>,
        n: usize,
        fact: &Fact,
        brought: &mut Vec<(Fact, Cause)>,
        steps: &mut Steps<L>,
    ) -> Result<Option<usize>, Outage> {
        let seen = self.see(cat, fact, n as u32 + 1, brought, steps)?;
        self.clean = self.clean & seen.clear;
        Ok(seen.seat)
    }
}
