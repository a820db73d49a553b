//! The rules of a setting.
ghost use Rattle.std.specs.Prelude.{◌≡◌, ◌++◌, ◌+◌, ℕ, Option, OnOk, IfOk, map, flat_map};
ghost use Rattle.vk_spec.specs.Versions.{Version};
ghost use Rattle.vk_resolution.specs.Settings.{marks_of, triplet_of, is_own, is_off};
ghost use Rattle.vk_resolution.specs.Asking.{asked_by, asked_of, asked_of_other};
ghost use Rattle.vk_resolution.specs.Faults.{judged};
ghost use Rattle.vk_base.specs.FeatureViews.{feature_view};
ghost use Rattle.vk_model.specs.Views.{manifest_view, dependency_view};
ghost use Rattle.vk_model.specs.SettingViews.{instance_view, setting_view};
ghost use Rattle.vk_model.specs.FactViews.{fact_view, who_view};
ghost use Rattle.vk_root.specs.Roots.{instance_at, triplet_for, root_setting};
ghost use Rattle.vk_rules.specs.Asked.{facts_view, asked_where, asked_each};
ghost use Rattle.vk_rules.specs.Flaws.{flaw_faults};
ghost use Rattle.vk_root.specs.Requirers.{requirer_view};
ghost use Rattle.vk_resolution.specs.Settings as plain;

use crate::asking::{push_other, push_own, push_uses};
use crate::flaws::{Flaw, flaw_under};
use indexmap::IndexSet;
use std::alloc::Global;
use std::marker::Model;
use std::sync::ledger::Ledger;
use vk_base::{FeatureName, Instance, List, Memory, PortName, Steps, TripletName};
use vk_expr::{Marks, truth};
use vk_model::{Dependency, Fact, Manifest, Setting, Who};
use vk_root::{Requirer, Root, defaults_of, dependencies_of, set_of};

/// The rules of a setting, ready to be asked: whether an instance is off is a look-up, and marks
/// are those that the triplets keep. Contracts see the setting.
#[derive(Drop)]
pub struct Rules<'a> {
    setting: &'a Setting,
    off: IndexSet<Instance>,
}

impl<'a> Model for Rules<'a> {
    ghost use Rattle.std.specs.Coded.{codes};
    ghost use Rattle.vk_expr.specs.contracts.exprs.Expr as e;
    ghost use Rattle.vk_model.specs.declared.settings.Setting.{Setting};
    ghost use Rattle.vk_root.specs.Offs.{AreOff};

    ghost Value = { Setting };

    ghost coded = { Prim.hlevel (codes, e.the_row.coded) };

    ghost view = { λ r. r.setting.now };

    ghost invariant = { λ r. AreOff r.setting.now.off r.off.keys };
}

// An instance of a port for a triplet.
fn instance_of(port: &PortName, triplet: &TripletName) -> Result<Instance, Memory>
    ensures { IfOk result (λ i. instance_view i ≡ instance_at port.now triplet.now) }
{
    Ok(Instance {
        port: port.clone()?,
        triplet: triplet.clone()?,
    })
}

impl<'a> Rules<'a> {
    /// The rules of a setting.
    pub fn new(alloc: Global, setting: &'a Setting) -> Result<Rules<'a>, Memory>
        ensures { IfOk result (λ r. r ≡ setting.now) }
    {
        let off = set_of(alloc, setting.off.as_slice())?;
        Ok(Rules { setting, off })
    }

    // The root and the triplets.
    fn root(&self) -> Root<'_>
        ensures root { (root_setting result).root ≡ (setting_view self.now).root }
        ensures target { (root_setting result).target ≡ (setting_view self.now).target }
        ensures host { (root_setting result).host ≡ (setting_view self.now).host }
    {
        Root {
            manifest: &self.setting.root,
            target: &self.setting.target,
            host: &self.setting.host,
        }
    }

    // The triplet that a dependency of someone is for.
    fn triplet_for<'b>(&'b self, who: Requirer<'b>, host: bool) -> &'b TripletName
        ensures { result.now ≡ triplet_for (setting_view self.now) (requirer_view who.entry) host }
    {
        self.root().triplet_for(who, host)
    }

    // Whether a port for a triplet is the instance of the one who depends.
    fn is_own(&self, who: Requirer<'_>, port: &PortName, triplet: &TripletName) -> bool
        ensures { result ≡ is_own (setting_view self.now) (requirer_view who.entry)
            (instance_at port.now triplet.now) }
    {
        self.root().is_own(who, port, triplet)
    }

    // Whether default features are never asked for an instance.
    fn is_off(&self, instance: &Instance) -> bool
        ensures { result ≡ is_off (setting_view self.now) (instance_view instance.now) }
    {
        self.off.contains(instance)
    }

    // The same of a port for a triplet. Most settings turn nothing off: then no name is cloned.
    fn is_off_at(&self, port: &PortName, triplet: &TripletName) -> Result<bool, Memory>
        ensures { IfOk result
            (λ off. off ≡ is_off (setting_view self.now) (instance_at port.now triplet.now)) }
    {
        if self.off.is_empty() {
            return Ok(false);
        }
        Ok(self.is_off(&instance_of(port, triplet)?))
    }
}

// What a dependency on another instance, of its port for this triplet, asks for.
fn push_at(
    rules: &Rules<'_>,
    triplet: &TripletName,
    marks: &Marks,
    dependency: &Dependency,
    facts: &mut List<Fact>,
) -> Result<(), Memory>
    ensures { OnOk result (facts_view facts.new ≡ facts_view facts.old
        ++ asked_of_other (setting_view rules.now) marks.now.names
        (instance_at dependency.now.name triplet.now) (dependency_view dependency.now)) }
{
    let off = rules.is_off_at(&dependency.name, triplet)?;
    let other = Requirer::Inst(&dependency.name, triplet);
    push_other(other, off, marks, dependency, facts)
}

// What a dependency asks for.
fn push_asked(
    rules: &Rules<'_>,
    who: Requirer<'_>,
    marks: &Marks,
    dependency: &Dependency,
    facts: &mut List<Fact>,
) -> Result<(), Memory>
    requires { marks.now.names ≡ marks_of (setting_view rules.now)
        (triplet_of (requirer_view who)) }
    ensures { OnOk result (facts_view facts.new ≡ facts_view facts.old
        ++ asked_by (setting_view rules.now) (requirer_view who.entry)
        (dependency_view dependency.now)) }
{
    let triplet = rules.triplet_for(who, dependency.host);
    if rules.is_own(who, &dependency.name, triplet) {
        return push_own(who, marks, dependency, facts);
    }
    push_at(rules, triplet, marks, dependency, facts)
}

fn push_applicable(
    rules: &Rules<'_>,
    who: Requirer<'_>,
    marks: &Marks,
    dependency: &Dependency,
    facts: &mut List<Fact>,
) -> Result<(), Memory>
    requires { marks.now.names ≡ marks_of (setting_view rules.now)
        (triplet_of (requirer_view who)) }
    ensures { OnOk result (facts_view facts.new ≡ facts_view facts.old
        ++ asked_where (setting_view rules.now) (requirer_view who.entry) dependency.now) }
{
    if truth(&dependency.platform, marks) {
        return push_asked(rules, who, marks, dependency, facts);
    }
    Ok(())
}

// What dependencies ask for, where they apply.
fn push_all(
    rules: &Rules<'_>,
    who: Requirer<'_>,
    marks: &Marks,
    dependencies: &[Dependency],
    facts: &mut List<Fact>,
) -> Result<(), Memory>
    requires { marks.now.names ≡ marks_of (setting_view rules.now)
        (triplet_of (requirer_view who)) }
    ensures { OnOk result (facts_view facts.new ≡ facts_view facts.old
        ++ asked_each (setting_view rules.now) (requirer_view who.entry)
        (map dependency_view dependencies.now)) }
{
    for dependency in dependencies {
        push_applicable(rules, who, marks, dependency, facts)?;
    }
    Ok(())
}

// How many facts so many dependencies ask for, if each asks for its port, the port's default
// features and a version. More take more memory, and nothing else.
fn usual_facts(dependencies: usize) -> usize {
    dependencies.saturating_mul(3)
}

// What a feature of a manifest asks for.
fn asked_of(
    alloc: Global,
    rules: &Rules<'_>,
    who: Requirer<'_>,
    feature: &FeatureName,
    manifest: &Manifest,
) -> Result<List<Fact>, Memory>
    ensures { IfOk result (λ l. map fact_view l ≡ asked_of (setting_view rules.now)
        (requirer_view who.entry) (feature_view feature.now) (manifest_view manifest.now)) }
{
    let marks = rules.root().marks(who.triplet());
    let dependencies = dependencies_of(manifest, feature);
    let mut facts = List::with_capacity(alloc, usual_facts(dependencies.len()))?;
    push_all(rules, who, marks, dependencies, &mut facts)?;
    push_uses(who, defaults_of(manifest, feature), marks, &mut facts)?;
    Ok(facts)
}

impl<'a> Rules<'a> {
    /// What a feature of a manifest asks for, in the order of its dependencies, where the manifest
    /// is that of the root or of an instance: each minimum as a floor, also of pinned ports. It is
    /// one step.
    pub fn consequences<L: Ledger>(
        &self,
        alloc: Global,
        who: &Who,
        feature: &FeatureName,
        manifest: &Manifest,
        steps: &mut Steps<L>,
    ) -> Result<List<Fact>, Memory>
        ensures facts { IfOk result (λ l. map fact_view l ≡ asked_of (setting_view self.now)
            (who_view who.now) (feature_view feature.now) (manifest_view manifest.now)) }
        ensures ticks { steps.new ≡ steps.old + 1 }
    {
        steps.tick();
        asked_of(alloc, self, Requirer::of(who), feature, manifest)
    }

    /// The same of an instance, which isn't cloned.
    pub fn instance_consequences<L: Ledger>(
        &self,
        alloc: Global,
        inst: &Instance,
        feature: &FeatureName,
        manifest: &Manifest,
        steps: &mut Steps<L>,
    ) -> Result<List<Fact>, Memory>
        ensures facts { IfOk result (λ l. map fact_view l ≡ asked_of (setting_view self.now)
            (plain.inst (instance_view inst.now)) (feature_view feature.now)
            (manifest_view manifest.now)) }
        ensures ticks { steps.new ≡ steps.old + 1 }
    {
        steps.tick();
        asked_of(alloc, self, Requirer::of_instance(inst), feature, manifest)
    }

    /// What is wrong with a feature of a manifest that is needed of someone: `core` isn't supported
    /// where the manifest isn't; a named feature isn't there, or isn't supported; with `default`
    /// nothing is. Takes no memory.
    pub fn flaw(&self, who: &Who, feature: &FeatureName, manifest: &Manifest) -> Option<Flaw>
        ensures { (v : Option Version) (n : ℕ) → judged (setting_view self.now) (who_view who.now)
            (feature_view feature.now) v (manifest_view manifest.now) n
            ≡ flaw_faults (who_view who.now) (feature_view feature.now) v n result }
    {
        flaw_under(
            self.root().marks(Requirer::of(who).triplet()),
            feature,
            manifest,
        )
    }
}

/// The same for a setting that is asked once.
pub fn consequences<L: Ledger>(
    alloc: Global,
    setting: &Setting,
    who: &Who,
    feature: &FeatureName,
    manifest: &Manifest,
    steps: &mut Steps<L>,
) -> Result<List<Fact>, Memory>
    ensures facts { IfOk result (λ l. map fact_view l ≡ asked_of (setting_view setting.now)
        (who_view who.now) (feature_view feature.now) (manifest_view manifest.now)) }
    ensures ticks { steps.new ≡ steps.old + 1 }
{
    steps.tick();
    let rules = Rules::new(alloc, setting)?;
    asked_of(alloc, &rules, Requirer::of(who), feature, manifest)
}
