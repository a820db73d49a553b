//! A recorded build is carried out.
ghost use Rattle.std.specs.Prelude.{◌≡◌, ◌<◌, ◌≤◌, ◌+◌, ◌^◌, ◌++◌, ◌∷◌, [], ℕ, List, Ok, Some};
ghost use Rattle.std.specs.Prelude.{IfOk, OnOk, flat_map, length, map, option_map};
ghost use Rattle.vk_spec.specs.Lists.{NoRepeats};
ghost use Rattle.vk_spec.specs.Paths.{Path};
ghost use Rattle.vk_spec.specs.Reading.{Gives, read_after};
ghost use Rattle.vk_base.specs.Stops.{fault_in};
ghost use Rattle.vk_json.specs.Files.{file_of};
ghost use Rattle.vk_resolution.specs.Keys.{in_order};
ghost use Rattle.vk_entry.specs.Packages.{texts_of};
ghost use Rattle.vk_entry.specs.PackageViews.{file_view};
ghost use Rattle.vk_recipe.specs.Recipes as plain;
ghost use Rattle.vk_recipe.specs.RecipeReading.{recipe_of};
ghost use Rattle.vk_recipe.specs.RecipeViews.{action_view, step_view, steps_view};
ghost use Rattle.vk_recipe.specs.Builds.{recipe_from, recipe_in, bad_of, paths_of, done_after};
ghost use Rattle.vk_recipe.specs.Builds.{judged, file_of_step, path_key, text_order};
ghost use Rattle.vk_recipe.specs.Builds.{build_of, made_of, running, source_of};
ghost use Rattle.vk_recipe.specs.JobViews.{job_view, made_view};
ghost use Rattle.vk_recipe.specs.Destinations.{AreTaken};

use crate::destinations::take;
use crate::faults::RecipeFault;
use crate::jobs::Job;
use crate::reading::read_recipe;
use crate::recipes::{Action, Recipe, Step};
use crate::sources::{applies, has_source, source_of};
use std::alloc::Global;
use std::cmp::Ordering;
use std::collections::BTreeSet;
use vk_base::{List, Memory, TreePath, Unread};
use vk_entry::{Package, PackageFile};
use vk_json::{FileFault, Why, wrong};

// The most bytes that a recorded build's file may have.
const MOST_BYTES: usize = 16_777_216;

// What is wrong with the file is wrong with the build.
fn bad(unread: Unread<FileFault>) -> Unread<RecipeFault>
    ensures { fault_in result ≡ option_map bad_of (fault_in unread) }
{
    match unread {
        Unread::Fault(FileFault { place, why }) => Unread::Fault(RecipeFault::Bad { place, why }),
        Unread::Memory(memory) => Unread::Memory(memory),
    }
}

fn read_file(alloc: Global, bytes: &[u8]) -> Result<Recipe, Unread<FileFault>>
    ensures { Gives (λ r. steps_view r.steps) fault_in result
        (file_of 16777216 recipe_of (Some bytes.now)) }
{
    if bytes.len() > MOST_BYTES {
        return Err(wrong(alloc, Why::Large));
    }
    read_recipe(alloc, bytes)
}

fn recipe_from(alloc: Global, file: Option<&[u8]>) -> Result<Recipe, Unread<RecipeFault>>
    ensures { Gives (λ r. steps_view r.steps) fault_in result
        (recipe_from (option_map (λ b. b.now) file.entry)) }
{
    let Some(bytes) = file else {
        return Err(Unread::Fault(RecipeFault::NoRecipe));
    };
    match read_file(alloc, bytes) {
        Ok(recipe) => Ok(recipe),
        Err(unread) => Err(bad(unread)),
    }
}

// The recorded build in a port's folder.
fn recipe_in(alloc: Global, folder: &Package) -> Result<Recipe, Unread<RecipeFault>>
    ensures { Gives (λ r. steps_view r.steps) fault_in result (recipe_in folder.now) }
{
    let path = TreePath::new(alloc).child(alloc, "recorded-build.json")?;
    recipe_from(alloc, folder.file(&path))
}

// That a step that applies, the n-th counted from 0, can be done after those whose files have taken
// these paths; it then takes its own.
fn do_after<'a>(
    job: &Job<'_>,
    n: u32,
    step: &'a Step,
    taken: &mut BTreeSet<&'a TreePath>,
) -> Result<(), Unread<RecipeFault>>
    requires { n < 50000 }
    ensures done { (paths : List Path) → AreTaken paths taken.old.keys
        → Gives (λ done. step_view step.now) fault_in result
        (done_after (job_view job.now) paths n (step_view step.now)) }
    ensures taken { (paths : List Path) → AreTaken paths taken.old.keys
        → OnOk result (AreTaken (paths ++ step.now.to ∷ []) taken.new.keys) }
{
    if !has_source(job, &step.action) {
        return Err(Unread::Fault(RecipeFault::NoSource { step: n + 1 }));
    }
    if !take(taken, &step.to)? {
        return Err(Unread::Fault(RecipeFault::DoublePath { step: n + 1 }));
    }
    Ok(())
}

fn judge<'a>(
    job: &Job<'_>,
    n: u32,
    step: &'a Step,
    taken: &mut BTreeSet<&'a TreePath>,
) -> Result<(), Unread<RecipeFault>>
    requires { n < 50000 }
    ensures judged { (earlier : List plain.Step)
        → AreTaken (paths_of (job_view job.now) earlier) taken.old.keys
        → Gives (λ done. step_view step.now) fault_in result
        (judged (job_view job.now) earlier n (step_view step.now)) }
    ensures taken { (earlier : List plain.Step)
        → AreTaken (paths_of (job_view job.now) earlier) taken.old.keys
        → OnOk result (AreTaken (paths_of (job_view job.now)
        (earlier ++ step_view step.now ∷ [])) taken.new.keys) }
{
    if applies(job, step) {
        return do_after(job, n, step, taken);
    }
    Ok(())
}

// That all steps can be done, one after the other.
fn check(alloc: Global, job: &Job<'_>, steps: &[Step]) -> Result<(), Unread<RecipeFault>>
    requires { length steps.now ≤ 50000 }
    ensures { Gives (λ done. steps_view steps.now) fault_in result
        (read_after (judged (job_view job.now)) [] 0 (steps_view steps.now)) }
{
    let mut taken = BTreeSet::new(alloc);
    for (n, step) in steps.iter().enumerate() {
        judge(job, n as u32, step, &mut taken)?;
    }
    Ok(())
}

// What a step that applies makes its file of, and where.
fn running(job: &Job<'_>, step: Step) -> Option<(Action, TreePath)>
    ensures { option_map made_view result ≡ running (job_view job.now) (step_view step) }
{
    if applies(job, &step) {
        return Some((step.action, step.to));
    }
    None
}

// Puts a new file, if there is something to make it of, behind those before it.
fn push_made(
    alloc: Global,
    job: &Job<'_>,
    action: Action,
    to: TreePath,
    files: &mut List<PackageFile>,
) -> Result<(), Memory>
    ensures { OnOk result (map file_view files.new ≡ map file_view files.old
        ++ made_of to (source_of (job_view job.now) (action_view action))) }
{
    if let Some(bytes) = source_of(alloc, job, action)? {
        files.push(PackageFile { path: to, bytes })?;
    }
    Ok(())
}

// Puts the new file of a step, if it makes one, behind those before it.
fn push_file(
    alloc: Global,
    job: &Job<'_>,
    step: Step,
    files: &mut List<PackageFile>,
) -> Result<(), Memory>
    ensures { OnOk result (map file_view files.new
        ≡ map file_view files.old ++ file_of_step (job_view job.now) (step_view step)) }
{
    match running(job, step) {
        Some((action, to)) => push_made(alloc, job, action, to, files),
        None => Ok(()),
    }
}

// The new files of all steps, in their order.
fn new_files(alloc: Global, job: &Job<'_>, steps: List<Step>) -> Result<List<PackageFile>, Memory>
    ensures { IfOk result (λ files. map file_view files
        ≡ flat_map (file_of_step (job_view job.now)) (steps_view steps)) }
{
    let mut files = List::new(alloc);
    for step in steps.into_vec() {
        push_file(alloc, job, step, &mut files)?;
    }
    Ok(files)
}

// The package of files whose paths have different texts.
fn in_order(files: List<PackageFile>) -> Package
    requires { NoRepeats (texts_of (map file_view files)) }
    ensures { result ≡ in_order path_key (map file_view files) }
{
    let mut files = files.into_vec();
    files.sort_unstable_by(
        |one: &PackageFile, other: &PackageFile| -> Ordering
            ensures { result ≡ text_order (file_view one.now) (file_view other.now) }
        { one.path.cmp_text(&other.path) },
    );
    Package::from_files(List::from_vec(files))
}

/// Builds an item by the recorded build in its port's folder: the files that its steps make, in the
/// order of the texts of their paths. `NoRecipe` comes exactly where the folder has no
/// `recorded-build.json`, and `Bad` where that file can't be read. `NoSource` and `DoublePath` come
/// at the first step that applies and can't be done: what it copies or takes isn't there; or else
/// its path equals, begins or is begun by that of an earlier step that applies. Each step looks at
/// few of the files before it.
#[tactic(auto, unfolding(crate::specs::Builds::build_of))]
pub fn build(alloc: Global, job: &Job<'_>) -> Result<Package, Unread<RecipeFault>>
    ensures { Gives (λ p. p) fault_in result (build_of (job_view job.now)) }
{
    let recipe = recipe_in(alloc, job.folder)?;
    check(alloc, job, recipe.steps.as_slice())?;
    let files = new_files(alloc, job, recipe.steps)?;
    Ok(in_order(files))
}
