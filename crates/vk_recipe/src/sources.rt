//! Which steps apply, and what their files are made of.
ghost use Rattle.std.specs.Prelude.{◌≡◌, ◌++◌, IfOk, List, Some, codes, map, option_map};
ghost use Rattle.std.specs.Prelude.{option_copied, string_bytes};
ghost use Rattle.std.specs.List.{find, list_any};
ghost use Rattle.std.specs.Str.{bytes_eq};
ghost use Rattle.std.specs.Option.{is_some};
ghost use Rattle.vk_base.specs.FeatureViews.{feature_view};
ghost use Rattle.vk_model.specs.Lines.{features_text, more_features_text};
ghost use Rattle.vk_model.specs.SettingViews.{instance_view};
ghost use Rattle.vk_recipe.specs.Builds.{is_planned, applies, is_own, is_other};
ghost use Rattle.vk_recipe.specs.Builds.{own_child, other_child, child_of, info_text, source_of};
ghost use Rattle.vk_recipe.specs.Recipes as plain;
ghost use Rattle.vk_recipe.specs.JobViews.{child_view, job_view};
ghost use Rattle.vk_recipe.specs.RecipeViews.{action_view, step_view};

use crate::jobs::{Child, Job};
use crate::recipes::{Action, Step};
use std::alloc::Global;
use std::fmt;
use vk_base::{FeatureName, Instance, List, Memory, PortName, Text, TokenOf, TreePath};
use vk_expr::truth;
use vk_model::Item;
use vk_model::lines::InstanceTokens;

// Whether one of these features has this name.
fn has_name(features: &[FeatureName], name: &str) -> bool
    ensures { result ≡ list_any (λ f. bytes_eq name.now (feature_view f)) features.now }
{
    features.iter().any(|feature| name == feature.as_str())
}

// Whether a feature that is asked for, if any, is one of these.
fn is_planned(feature: &Option<FeatureName>, features: &[FeatureName]) -> bool
    ensures { result ≡ is_planned (option_map feature_view feature.now)
        (map feature_view features.now) }
{
    match feature {
        None => true,
        Some(feature) => has_name(features, feature.as_str()),
    }
}

/// Whether a step applies: its platform is true, and its feature, if any, is planned.
pub fn applies(job: &Job<'_>, step: &Step) -> bool
    ensures { result ≡ applies (job_view job.now) (step_view step.now) }
{
    truth(&step.platform, job.marks) && is_planned(&step.feature, job.item.features.as_slice())
}

fn is_own(child: &Child<'_>, item: &Instance, port: &PortName) -> bool
    ensures { result ≡ is_own (instance_view item.now) port.now (child_view child.now) }
{
    child.inst.port == *port && child.inst.triplet == item.triplet
}

fn is_other(child: &Child<'_>, item: &Instance, port: &PortName) -> bool
    ensures { result ≡ is_other (instance_view item.now) port.now (child_view child.now) }
{
    child.inst.port == *port && child.inst.triplet != item.triplet
}

fn first_own<'a>(deps: &'a [Child<'a>], item: &Instance, port: &PortName) -> Option<&'a Child<'a>>
    ensures { option_copied result
        ≡ find (λ c. is_own (instance_view item.now) port.now (child_view c)) deps.now }
{
    deps.iter().find(|child| is_own(child, item, port))
}

fn first_other<'a>(deps: &'a [Child<'a>], item: &Instance, port: &PortName) -> Option<&'a Child<'a>>
    ensures { option_copied result
        ≡ find (λ c. is_other (instance_view item.now) port.now (child_view c)) deps.now }
{
    deps.iter().find(|child| is_other(child, item, port))
}

// The dependency on a port for the item's own triplet.
fn own_child<'a>(job: &Job<'a>, port: &PortName) -> Option<&'a Child<'a>>
    ensures { option_map child_view (option_copied result)
        ≡ own_child (job_view job.now) port.now }
{
    first_own(job.deps, &job.item.inst, port)
}

// The dependency on a port for another triplet than the item's own.
fn other_child<'a>(job: &Job<'a>, port: &PortName) -> Option<&'a Child<'a>>
    ensures { option_map child_view (option_copied result)
        ≡ other_child (job_view job.now) port.now }
{
    first_other(job.deps, &job.item.inst, port)
}

// The dependency that a step takes from.
fn child_of<'a>(job: &Job<'a>, port: &PortName, host: bool) -> Option<&'a Child<'a>>
    ensures { option_map child_view (option_copied result)
        ≡ child_of (job_view job.now) port.now host }
{
    if !host {
        return own_child(job, port);
    }
    match other_child(job, port) {
        Some(child) => Some(child),
        None if job.marks.has("native") => own_child(job, port),
        None => None,
    }
}

// The file that a step takes.
fn taken<'a>(job: &Job<'a>, path: &TreePath, port: &PortName, host: bool) -> Option<&'a [u8]>
    ensures { option_map (λ b. b.now) result
        ≡ source_of (job_view job.now) (plain.take path.now port.now host) }
{
    match child_of(job, port, host) {
        Some(child) => child.package.file(path),
        None => None,
    }
}

/// Whether there is something to make a step's file of. Takes no memory.
pub fn has_source(job: &Job<'_>, action: &Action) -> bool
    ensures { result ≡ is_some (source_of (job_view job.now) (action_view action.now)) }
{
    match action {
        Action::Copy(path) => job.folder.file(path).is_some(),
        Action::Take { file, from, host } => taken(job, file, from, *host).is_some(),
        Action::Write(_) | Action::Info => true,
    }
}

// Features, each behind a comma.
#[derive(Clone, Copy)]
struct MoreFeatures<'a>(&'a [FeatureName]);

impl fmt::Display for MoreFeatures<'_> {
    ghost output = { λ fs. Some (more_features_text (map feature_view fs.0.now)) };

    fn fmt<W: fmt::Write>(&self, f: &mut fmt::Formatter<W>) -> fmt::Result {
        for feature in self.0 {
            write!(f, ",{}", TokenOf(feature.as_str().as_bytes()))?;
        }
        Ok(())
    }
}

// Features with commas between.
#[derive(Clone, Copy)]
struct Features<'a>(&'a [FeatureName]);

impl fmt::Display for Features<'_> {
    ghost output = { λ fs. Some (features_text (map feature_view fs.0.now)) };

    fn fmt<W: fmt::Write>(&self, f: &mut fmt::Formatter<W>) -> fmt::Result {
        match self.0.split_first() {
            None => Ok(()),
            Some((first, rest)) => {
                let first = TokenOf(first.as_str().as_bytes());
                write!(f, "{first}{}", MoreFeatures(rest))
            }
        }
    }
}

// The line of an item: its port, triplet, version and features.
fn info_line(alloc: Global, item: &Item) -> Result<Text, Memory>
    ensures { IfOk result (λ line. line ≡ info_text (instance_view item.now.inst)
        item.now.version (map feature_view item.now.features)) }
{
    let instance = InstanceTokens(&item.inst);
    let features = Features(item.features.as_slice());
    let version = item.version.ask();
    Ok(Text::from_string(format!(in alloc; "{instance} {version} {features}\n")?))
}

// A copy of these bytes, if there are any.
fn copied(alloc: Global, bytes: Option<&[u8]>) -> Result<Option<List<u8>>, Memory>
    ensures { IfOk result (λ copy. copy ≡ option_copied bytes.entry) }
{
    match bytes {
        Some(bytes) => Ok(Some(List::from_slice(alloc, bytes)?)),
        None => Ok(None),
    }
}

// The bytes of a text, which gives them away.
fn bytes_of(text: Text) -> List<u8>
    ensures { result ≡ text }
{
    List::from_vec(text.into_string().into_bytes())
}

/// The bytes of a step's file, if there is something to make it of.
pub fn source_of(alloc: Global, job: &Job<'_>, action: Action) -> Result<Option<List<u8>>, Memory>
    ensures { IfOk result (λ bytes. bytes ≡ source_of (job_view job.now) (action_view action)) }
{
    match action {
        Action::Copy(path) => copied(alloc, job.folder.file(&path)),
        Action::Take { file, from, host } => copied(alloc, taken(job, &file, &from, host)),
        Action::Write(text) => Ok(Some(bytes_of(text))),
        Action::Info => Ok(Some(bytes_of(info_line(alloc, job.item)?))),
    }
}
