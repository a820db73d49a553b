//! Laws over the definitions alone.
ghost use Rattle.std.specs.Prelude.{◌≡◌, []};
ghost use Rattle.vk_spec.specs.Standing.{Disk};
ghost use Rattle.vk_tree.specs.Trees.{IsTreeDisk};
ghost use Rattle.vk_protocol.specs.Below.{ReadsBelow};
ghost use Rattle.vk_protocol.specs.Runs.{AsksOnly, Reads, Tells};
ghost use Rattle.vk_look.specs.LookIs.{LookIs, Wanted};
ghost use Rattle.vk_look.specs.Looks.{IsByBytes, Looked, look_of};
ghost use Rattle.vk_look.specs.LookCalls.{AsksFirst, ComesTo, ReadsAnew};

/// What the calls of a look come to, over files that stay, is what these files say.
pub fn a_look_tells_what_the_files_say()
    ensures { (w : Wanted) (d : Disk) → Tells (λ l. LookIs w l d) (look_of w) d }
{}

/// A look has one answer: each comes exactly where the files say so.
pub fn a_look_has_one_answer()
    ensures { (w : Wanted) (d : Disk) (one other : Looked) → IsTreeDisk d → LookIs w one d
        → LookIs w other d → one ≡ other }
{}

/// A look only reads, at its entry and below it, and no path twice. It passes no limit but that of
/// bytes. It asks first what stands at the entry, and nothing more where nothing does.
pub fn a_look_only_reads_its_entry()
    ensures only { (w : Wanted) → AsksOnly Reads (look_of w) }
    ensures below { (w : Wanted) → AsksOnly (ReadsBelow w.entry) (look_of w) }
    ensures once { (w : Wanted) → ReadsAnew [] (look_of w) }
    ensures limit { (w : Wanted) → ComesTo (IsByBytes w.most) (look_of w) }
    ensures first { (w : Wanted) → AsksFirst w.entry (look_of w) }
{}
