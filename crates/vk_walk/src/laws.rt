//! Laws over the walk's protocol.
ghost use Rattle.vk_spec.specs.Paths.{Path};
ghost use Rattle.vk_spec.specs.Standing.{Disk};
ghost use Rattle.vk_protocol.specs.Runs.{AsksOnly, Tells};
ghost use Rattle.vk_walk.specs.Walks.{Limits};
ghost use Rattle.vk_walk.specs.Walked.{walk_limits};
ghost use Rattle.vk_walk.specs.WalkProtocol.{ListsIn, WalkedIs, walk_of};

/// Over files that stay, a walk comes to all files below its folder, or to the first limit that is
/// passed.
pub fn a_walk_tells_the_files()
    ensures { (folder : Path) (d : Disk) → Tells (λ r. WalkedIs walk_limits folder r d)
        (walk_of walk_limits folder) d }
{}

/// A walk asks for nothing but listings, of its folder and of folders below it.
pub fn a_walk_only_lists()
    ensures { (most : Limits) (folder : Path)
        → AsksOnly (ListsIn folder) (walk_of most folder) }
{}
