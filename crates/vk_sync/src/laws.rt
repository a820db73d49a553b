//! Laws over the protocol of synchronising.
ghost use Rattle.std.specs.Prelude.{List};
ghost use Rattle.vk_spec.specs.Paths.{Path};
ghost use Rattle.vk_protocol.specs.Runs.{AsksOnly};
ghost use Rattle.vk_sync.specs.Syncs.{ChangesBelow, Placed, sync_of};

/// Whatever the tree replies, no call may change anything but at the root and below it.
pub fn only_what_lies_below_the_root_changes()
    ensures { (root : Path) (wanted : List Placed) → AsksOnly (ChangesBelow root)
        (sync_of root wanted) }
{}
