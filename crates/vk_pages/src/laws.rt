//! What the pages of ports keep, where a port comes from, and which ports are pinned.
ghost use Rattle.std.specs.Prelude.{[], ◌≡◌, ◌↔◌, List, ℕ, IsTrue, Ok, Some, None};
ghost use Rattle.vk_spec.specs.Files.{Files};
ghost use Rattle.vk_spec.specs.Pages.{override, is_pinned_by};
ghost use Rattle.vk_spec.specs.Versions as versions;
ghost use Rattle.vk_spec.specs.Catalogues.{ArePages};
ghost use Rattle.vk_model.specs.declared.projects.Project.{Project};
ghost use Rattle.vk_opening.specs.Openings.{Opening, opened_of};
ghost use Rattle.vk_opening.specs.Layouts as plain;
ghost use Rattle.vk_pages.specs.Homes.{Served, overlay_for, home_in, served_for};
ghost use Rattle.vk_root.specs.Overrides.{override_for};
ghost use Rattle.vk_pages.specs.Homes.{home_with, home_of, IsPinned};
ghost use Rattle.vk_pages.specs.Pages.{page_of};

/// Every page is one that a catalogue may tell: no two rows are asked for alike, an overlay has its
/// own version alone, and what is wrong can be wrong there.
pub fn page_rule()
    ensures { (layout : plain.Layout) (files : Files) → ArePages (page_of layout files) }
{}

/// A port comes from the first overlay that has it, whatever registries and overrides say.
pub fn overlay_rule()
    ensures { (layout : plain.Layout) (port : List ℕ) (files : Files) (overlay : plain.Overlay) →
        overlay_for layout.overlays port files ≡ Some overlay → home_of layout port files ≡ home_in
        overlay port files }
{}

/// What the root manifest sets for a port of a registry is given, whatever the registry's baseline
/// file holds; its table is still needed.
pub fn override_rule()
    ensures { (layout : plain.Layout) (port : List ℕ) (files : Files) (served : Served)
        (ask : versions.Ask) → overlay_for layout.overlays port files ≡ None → served_for layout
        port ≡ Ok served → override_for layout.overrides port ≡ Some ask → home_of layout port files
        ≡ home_with (override ask) served port files }
{}

/// A port is pinned on its page exactly where an overlay has it or the root has an override for it,
/// whatever is wrong with its files.
pub fn pinned_rule()
    ensures { (project : Project) (files : Files) (opening : Opening) → opened_of project files ≡ Ok
        opening → (port : List ℕ) → IsTrue (is_pinned_by (opening.setting []).root.overrides port
        (page_of opening.layout files port).given) ↔ IsPinned opening.layout port files }
{}
