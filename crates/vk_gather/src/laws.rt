//! Laws over the gathering's protocol.
ghost use Rattle.std.specs.Prelude.{◌≡◌, ℕ, List, Result};
ghost use Rattle.vk_spec.specs.Paths.{Path};
ghost use Rattle.vk_spec.specs.Standing.{Disk};
ghost use Rattle.vk_base.specs.declared.limits.Limit.{Limit};
ghost use Rattle.vk_entry.specs.Packages.{File};
ghost use Rattle.vk_tree.specs.Trees.{IsTreeDisk};
ghost use Rattle.vk_protocol.specs.Below.{ReadsBelow};
ghost use Rattle.vk_protocol.specs.Runs.{AsksOnly, Reads, Tells};
ghost use Rattle.vk_gather.specs.Gathers.{gather_of};
ghost use Rattle.vk_gather.specs.GatherIs.{HasPaths, GatherIs};

/// A gathering only reads, at its folder and below it.
pub fn a_gathering_only_reads_its_folder()
    ensures only { (most : ℕ) (folder : Path) → AsksOnly Reads (gather_of most folder) }
    ensures below { (most : ℕ) (folder : Path) → AsksOnly (ReadsBelow folder)
        (gather_of most folder) }
{}

/// Over files that stay, a gathering comes to all files below its folder, in the order of the texts of
/// their paths, or to the first limit that is passed. What stands below the folder has to stand at
/// paths: two names with a `/` in them could give two files one text.
pub fn a_gathering_tells_the_files()
    ensures { (most : ℕ) (folder : Path) (d : Disk) → HasPaths folder d → Tells
        (λ r. GatherIs most folder r d) (gather_of most folder) d }
{}

/// A gathering has one answer.
pub fn a_gathering_has_one_answer()
    ensures { (most : ℕ) (folder : Path) (d : Disk) (one other : Result (List File) Limit)
        → IsTreeDisk d → GatherIs most folder one d → GatherIs most folder other d → one ≡ other }
{}
