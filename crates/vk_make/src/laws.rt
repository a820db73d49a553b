//! What holds of installers that make their plans' packages.
ghost use Rattle.std.specs.Prelude.{List, ◌≡◌};
ghost use Rattle.vk_spec.specs.Files.{Files};
ghost use Rattle.vk_spec.specs.Standing.{Disk};
ghost use Rattle.vk_tree.specs.Trees.{IsTreeDisk};
ghost use Rattle.vk_make.specs.Asked.{MakesAsksFirst};
ghost use Rattle.vk_make.specs.Keeping.{MakesAlone};
ghost use Rattle.vk_make.specs.Leaving.{LeavesEntries};
ghost use Rattle.vk_make.specs.MakeIs.{MadeIs};
ghost use Rattle.vk_make.specs.Makes.{AllMade, Task, Work};
ghost use Rattle.vk_make.specs.Several.{SeveralMake};

/// Whatever the turns of their calls, whichever of these fail, and whoever stops: at each name of an
/// entry stands nothing or the whole entry of one of the pairs, and an installer that is done has
/// the package that is meant for each of its items. The agents' names have to differ, no damaged
/// entry may stand there at the start, pairs with the same digest have to be one, and a package that
/// is meant has at most 50,000 files, which a contents list can tell. That anybody is ever done isn't
/// promised.
pub fn several_installers_have_what_is_meant()
    ensures { SeveralMake }
{}

/// Where nobody else changes the files, an installer comes to what the files at its start say, and
/// where the agent's names ran out to what those at its end say. At its end the entry of each item
/// that was built is whole, also where a later one isn't made, and for each that was rebuilt one name
/// more is new among what was set aside. Each of its calls may be made. After each of them, also one
/// that failed, the entry of a task is as it was, or a damaged one is set aside, or it is whole as it
/// is built; besides, only new names of the agent have come. The folders of the ports have to be apart
/// from the cache, and no file of a package may lie below another.
pub fn one_installer_makes_what_the_files_say()
    ensures { MakesAlone }
{}

/// Nor is anything lost: what stood at an entry stands there, or below a new name of the agent among
/// what was set aside. Whatever it comes to, nothing has come or gone among what is being made. Where
/// all items are made, the entry of each that was built is whole, and of each that was restored as it
/// was.
pub fn one_installer_leaves_whole_entries()
    ensures { LeavesEntries }
{}

/// What an installer alone comes to is one: the files at its start and at its end determine it.
pub fn a_making_has_one_answer()
    ensures { (w : Work) (tasks : List Task) (d : Disk) (g : Files) (one other : AllMade)
        → IsTreeDisk d → MadeIs w tasks one d g → MadeIs w tasks other d g → one ≡ other }
{}

/// Before anything is read or listed at an entry or below it, it was asked what stands there, and
/// something did. So an entry that somebody else publishes meanwhile is never taken for a damaged one.
pub fn an_entry_is_asked_for_first()
    ensures { MakesAsksFirst }
{}
