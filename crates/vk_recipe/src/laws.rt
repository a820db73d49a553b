//! What follows from the definitions alone.
ghost use Rattle.std.specs.Prelude.{◌≡◌, ◌≤◌, ℕ, List, Ok, Err, length, map};
ghost use Rattle.std.specs.List.{All, Contains};
ghost use Rattle.serde_json.specs.Data.{Data};
ghost use Rattle.vk_json.specs.Documents.{json_of};
ghost use Rattle.vk_json.specs.Standing.{StandsIn};
ghost use Rattle.vk_json.specs.declared.faults.FileFault.{FileFault};
ghost use Rattle.vk_entry.specs.Packages.{File, IsPackage};
ghost use Rattle.vk_recipe.specs.Recipes.{Step};
ghost use Rattle.vk_recipe.specs.PackagePaths.{IsDestination};
ghost use Rattle.vk_recipe.specs.RecipeReading.{recipe_of};
ghost use Rattle.vk_recipe.specs.Builds.{Job, build_of, package_of, recipe_in};
ghost use Rattle.vk_recipe.specs.BuildLaws.{AreApart, CanBeDone, LacksSource, Clashes};
ghost use Rattle.vk_recipe.specs.declared.faults.RecipeFault.TheVariants as fault;

/// Every fault of a recorded build's document stands in it: at a value that is there, but for a
/// member that is missing, which is told at its key.
pub fn fault_places()
    ensures { (bytes : List ℕ) (d : Data) (fault : FileFault)
        → json_of bytes ≡ Ok d → recipe_of bytes ≡ Err fault → StandsIn d fault }
{}

/// A recorded build that was read has at most 50,000 steps, and each makes a file whose path a
/// package may have.
pub fn recipe_rule()
    ensures few { (bytes : List ℕ) (steps : List Step) → recipe_of bytes ≡ Ok steps
        → length steps ≤ 50000 }
    ensures paths { (bytes : List ℕ) (steps : List Step) → recipe_of bytes ≡ Ok steps
        → All (λ s. IsDestination s.to) steps }
{}

/// What is built is a package. Its paths are those that a package may have, and none begins
/// another.
pub fn package_rule()
    ensures ordered { (job : Job) (files : List File) → build_of job ≡ Ok files
        → IsPackage files }
    ensures paths { (job : Job) (files : List File) → build_of job ≡ Ok files
        → (f : File) → Contains files f → IsDestination f.path }
    ensures apart { (job : Job) (files : List File) → build_of job ≡ Ok files
        → AreApart (map (λ f. f.path) files) }
{}

/// A package is built exactly where all steps can be done, and it has their files. Where a step
/// fails, those before it can be done: it lacks its source, or else its path isn't apart from
/// theirs.
pub fn step_rule()
    ensures done { (job : Job) (steps : List Step) (files : List File)
        → recipe_in job.folder ≡ Ok steps → build_of job ≡ Ok files
        → CanBeDone job steps × (files ≡ package_of job steps) }
    ensures built { (job : Job) (steps : List Step) → recipe_in job.folder ≡ Ok steps
        → CanBeDone job steps → build_of job ≡ Ok (package_of job steps) }
    ensures no_source { (job : Job) (steps : List Step) (n : ℕ)
        → recipe_in job.folder ≡ Ok steps → build_of job ≡ Err (fault.NoSource n)
        → LacksSource job steps n }
    ensures double_path { (job : Job) (steps : List Step) (n : ℕ)
        → recipe_in job.folder ≡ Ok steps → build_of job ≡ Err (fault.DoublePath n)
        → Clashes job steps n }
{}
