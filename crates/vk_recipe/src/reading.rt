//! What the bytes of a recorded build mean.
ghost use Rattle.std.specs.Prelude.{◌≡◌, ◌<◌, ◌≤◌, ◌^◌, ℕ, List, Ok, length, map};
ghost use Rattle.std.specs.Option.{is_some};
ghost use Rattle.serde_json.specs.Find.{get};
ghost use Rattle.vk_json.specs.Values.{view};
ghost use Rattle.vk_spec.specs.Conditions.{Condition};
ghost use Rattle.vk_spec.specs.Reading.{Gives};
ghost use Rattle.vk_base.specs.FeatureViews.{feature_view};
ghost use Rattle.vk_base.specs.Stops.{fault_in};
ghost use Rattle.vk_expr.specs.Views.{condition_of};
ghost use Rattle.vk_recipe.specs.Recipes as plain;
ghost use Rattle.vk_recipe.specs.RecipeReading.{key_of, action_in, true_at, terms_in, origin_in};
ghost use Rattle.vk_recipe.specs.RecipeReading.{few_items};
ghost use Rattle.vk_recipe.specs.RecipeReading.{copy_at, write_at, take_at, info_at, step_at};
ghost use Rattle.vk_recipe.specs.RecipeReading.{steps_at, recipe_at, recipe_of};
ghost use Rattle.vk_recipe.specs.RecipeViews.{origin_view, step_view, steps_view, terms_view};

use crate::package_paths::PackagePathText;
use crate::recipes::{Action, Recipe, Step};
use std::alloc::Global;
use vk_base::{FeatureName, List, PortName, Unread};
use vk_expr::Expr;
use vk_fields::{ExpressionText, FeatureNameText, PortNameText};
use vk_json::{
    AnyBoolean, AnyText, Doc, FileFault, Reader, Scratch, Value, Why, boolean, each_item, items,
    member, object, optional, optional_or, wanted, wrong,
};

// Most steps of a recorded build.
const MOST_STEPS: usize = 50_000;

// What a step does, which its key says.
#[derive(Clone, Copy)]
enum ActionKey {
    Copy,
    Write,
    Take,
    Info,
}

fn key(action: ActionKey) -> &'static str
    ensures { result.now ≡ key_of action }
{
    match action {
        ActionKey::Copy => "copy",
        ActionKey::Write => "write",
        ActionKey::Take => "take",
        ActionKey::Info => "info",
    }
}

fn has(value: &Value, action: ActionKey) -> bool
    ensures { result ≡ is_some (get (key_of action) (view value.now)) }
{
    member(value, key(action)).is_some()
}

// The one key of an action that a step has.
fn action_in(alloc: Global, value: &Value) -> Result<ActionKey, Unread<FileFault>>
    ensures { Gives (λ action. action) fault_in result (action_in (view value.now)) }
{
    let copy = has(value, ActionKey::Copy);
    let write = has(value, ActionKey::Write);
    let take = has(value, ActionKey::Take);
    let info = has(value, ActionKey::Info);
    match (copy, write, take, info) {
        (true, false, false, false) => Ok(ActionKey::Copy),
        (false, true, false, false) => Ok(ActionKey::Write),
        (false, false, true, false) => Ok(ActionKey::Take),
        (false, false, false, true) => Ok(ActionKey::Info),
        _ => Err(wrong(alloc, Why::Item)),
    }
}

// Reads `true` alone.
#[derive(Drop)]
struct OnlyTrue;

#[tactic(auto, unfolding(crate::specs::RecipeReading::true_at))]
impl Reader for OnlyTrue {
    type Out = ();

    ghost Plain = { Unit {0} };

    ghost plain = { λ done. tt };

    ghost reads = { λ r. true_at };

    fn read(&self, alloc: Global, value: &Value) -> Result<(), Unread<FileFault>> {
        if boolean(alloc, value)? {
            return Ok(());
        }
        Err(wrong(alloc, Why::Bool))
    }
}

// Where a step applies, and with which feature.
#[derive(Drop)]
struct Terms {
    platform: Expr,
    feature: Option<FeatureName>,
}

#[tactic(auto, unfolding(crate::specs::RecipeReading::terms_in))]
fn read_terms(alloc: Global, value: &Value) -> Result<Terms, Unread<FileFault>>
    ensures { Gives terms_view fault_in result (terms_in (view value.now)) }
{
    let platform = optional_or(alloc, value, "platform", &ExpressionText, Expr::Always)?;
    let feature = optional(alloc, value, "feature", &FeatureNameText)?;
    Ok(Terms { platform, feature })
}

#[tactic(auto, unfolding(crate::specs::RecipeReading::copy_at))]
fn copy(alloc: Global, value: &Value) -> Result<Step, Unread<FileFault>>
    ensures { Gives step_view fault_in result (copy_at (view value.now)) }
{
    let file = wanted(alloc, value, "copy", &PackagePathText)?;
    let to = wanted(alloc, value, "to", &PackagePathText)?;
    let Terms { platform, feature } = read_terms(alloc, value)?;
    Ok(Step {
        action: Action::Copy(file),
        to,
        platform,
        feature,
    })
}

#[tactic(auto, unfolding(crate::specs::RecipeReading::write_at))]
fn write(alloc: Global, value: &Value) -> Result<Step, Unread<FileFault>>
    ensures { Gives step_view fault_in result (write_at (view value.now)) }
{
    let text = wanted(alloc, value, "write", &AnyText)?;
    let to = wanted(alloc, value, "to", &PackagePathText)?;
    let Terms { platform, feature } = read_terms(alloc, value)?;
    Ok(Step {
        action: Action::Write(text),
        to,
        platform,
        feature,
    })
}

// The dependency that a step takes from.
#[derive(Drop)]
struct Origin {
    from: PortName,
    host: bool,
}

#[tactic(auto, unfolding(crate::specs::RecipeReading::origin_in))]
fn read_origin(alloc: Global, value: &Value) -> Result<Origin, Unread<FileFault>>
    ensures { Gives origin_view fault_in result (origin_in (view value.now)) }
{
    let from = wanted(alloc, value, "from", &PortNameText)?;
    let host = optional_or(alloc, value, "host", &AnyBoolean, false)?;
    Ok(Origin { from, host })
}

#[tactic(auto, unfolding(crate::specs::RecipeReading::take_at))]
fn take(alloc: Global, value: &Value) -> Result<Step, Unread<FileFault>>
    ensures { Gives step_view fault_in result (take_at (view value.now)) }
{
    let file = wanted(alloc, value, "take", &PackagePathText)?;
    let to = wanted(alloc, value, "to", &PackagePathText)?;
    let Origin { from, host } = read_origin(alloc, value)?;
    let Terms { platform, feature } = read_terms(alloc, value)?;
    Ok(Step {
        action: Action::Take { file, from, host },
        to,
        platform,
        feature,
    })
}

#[tactic(auto, unfolding(crate::specs::RecipeReading::info_at))]
fn info(alloc: Global, value: &Value) -> Result<Step, Unread<FileFault>>
    ensures { Gives step_view fault_in result (info_at (view value.now)) }
{
    wanted(alloc, value, "info", &OnlyTrue)?;
    let to = wanted(alloc, value, "to", &PackagePathText)?;
    let Terms { platform, feature } = read_terms(alloc, value)?;
    Ok(Step {
        action: Action::Info,
        to,
        platform,
        feature,
    })
}

// Reads a step.
#[derive(Drop)]
struct StepItem;

#[tactic(auto, unfolding(crate::specs::RecipeReading::step_at))]
impl Reader for StepItem {
    type Out = Step;

    ghost Plain = { plain.Step };

    ghost plain = { step_view };

    ghost reads = { λ r. step_at };

    fn read(&self, alloc: Global, value: &Value) -> Result<Step, Unread<FileFault>> {
        match action_in(alloc, value)? {
            ActionKey::Copy => copy(alloc, value),
            ActionKey::Write => write(alloc, value),
            ActionKey::Take => take(alloc, value),
            ActionKey::Info => info(alloc, value),
        }
    }
}

// That a list has no more items than a recorded build may have steps.
fn few_items(alloc: Global, value: &Value) -> Result<(), Unread<FileFault>>
    ensures { Gives (λ done. tt) fault_in result (few_items (view value.now)) }
{
    match items(value) {
        None => Err(wrong(alloc, Why::List)),
        Some(steps) if steps.len() > MOST_STEPS => Err(wrong(alloc, Why::Many)),
        Some(_) => Ok(()),
    }
}

// Reads the steps.
#[derive(Drop)]
struct StepList;

#[tactic(auto, unfolding(crate::specs::RecipeReading::steps_at))]
impl Reader for StepList {
    type Out = List<Step>;

    ghost Plain = { List plain.Step };

    ghost plain = { steps_view };

    ghost reads = { λ r. steps_at };

    fn read(&self, alloc: Global, value: &Value) -> Result<List<Step>, Unread<FileFault>> {
        few_items(alloc, value)?;
        each_item(alloc, value, &StepItem)
    }
}

/// Reads a recorded build. `Missing` and `List` come where `steps` isn't there or is no list,
/// `Many` where it has more than 50,000 items, `Item` at a step that hasn't exactly one of `copy`,
/// `write`, `take` and `info`; else the first fault of the steps, in order.
#[tactic(auto, unfolding(crate::specs::RecipeReading::recipe_at))]
pub fn read_recipe(alloc: Global, bytes: &[u8]) -> Result<Recipe, Unread<FileFault>>
    requires { length bytes.now < 2 ^ 32 }
    ensures { Gives (λ r. steps_view r.steps) fault_in result (recipe_of bytes.now) }
{
    let mut scratch = Scratch::new(alloc);
    let document = Doc::read(alloc, bytes, &mut scratch)?;
    object(alloc, document.value())?;
    let steps = wanted(alloc, document.value(), "steps", &StepList)?;
    Ok(Recipe { steps })
}
