//! Laws over the definitions alone.
ghost use Rattle.std.specs.Prelude.{◌≡◌, ◌++◌, ◌∷◌, [], ℕ, List, true, Ok, Err, codes};
ghost use Rattle.vk_spec.specs.Files.{Files};
ghost use Rattle.vk_spec.specs.Lists.{IsWithin};
ghost use Rattle.vk_spec.specs.Paths.{Path};
ghost use Rattle.vk_config.specs.Embedding.{has_both};
ghost use Rattle.vk_files.specs.Readings.{missing, too_long, readable, standing_at, is_at};
ghost use Rattle.vk_model.specs.declared.projects.Project.{Project};
ghost use Rattle.vk_spec.specs.Earlies.{bad_file, two_configurations, no_triplet};
ghost use Rattle.vk_opening.specs.Asked.{opening_paths};
ghost use Rattle.vk_opening.specs.Laws.{AgreeAt, IsStored, NoneHas, early_paths};
ghost use Rattle.vk_opening.specs.Stores.{stored_at};
ghost use Rattle.vk_config.specs.Configs.{Config};
ghost use Rattle.vk_model.specs.declared.projects.Store.{Store};
ghost use Rattle.vk_opening.specs.Openings.{Opening, opened_of};
ghost use Rattle.vk_opening.specs.Projects.{manifest_path, config_path, triplet_path};
ghost use Rattle.vk_opening.specs.Roots.{Root, root_in, early_at};
ghost use Rattle.vk_opening.specs.Roots.{has_configuration, own_configuration};
ghost use Rattle.serde_json.specs.Data.{Data};
ghost use Rattle.vk_opening.specs.TripletFiles.{triplet_in, triplet_at};

/// Where a root manifest reads, two configurations are refused whatever they hold: one in it beside
/// a file, or two in it. A configuration file that is too long is told before that.
pub fn two_places()
    ensures beside { (project : Project) (root : Root) (document : Data) (files : Files) →
        early_at root_in (manifest_path project.folder) files ≡ Ok root →
        root.configuration ≡ own_configuration document → has_configuration document ≡ true →
        standing_at (config_path project.folder) files ≡ readable →
        opened_of project files ≡ Err two_configurations }
    ensures within { (project : Project) (root : Root) (document : Data) (files : Files) →
        early_at root_in (manifest_path project.folder) files ≡ Ok root →
        root.configuration ≡ own_configuration document → has_both document ≡ true →
        standing_at (config_path project.folder) files ≡ missing →
        opened_of project files ≡ Err two_configurations }
    ensures long { (project : Project) (root : Root) (files : Files) → early_at root_in
        (manifest_path project.folder) files ≡ Ok root → standing_at (config_path project.folder)
        files ≡ too_long → opened_of project files ≡ Err
        (bad_file (config_path project.folder) [] (codes "large")) }
{}

/// A triplet is that of the first folder that has its file, whatever the later folders have; and
/// where none has it, that is told.
pub fn first_triplet()
    ensures first { (name : List ℕ) (front rest : List Path) (folder : Path) (files : Files) →
        NoneHas name front files → is_at files (triplet_path name folder) ≡ true → triplet_at name
        (front ++ folder ∷ rest) files ≡ early_at (triplet_in name) (triplet_path name folder)
        files }
    ensures none { (name : List ℕ) (folders : List Path) (files : Files) → NoneHas name folders
        files → triplet_at name folders files ≡ Err (no_triplet name) }
{}

/// What an opened project gives is decided by its early files alone: whatever else stands in the
/// tree, it is the same. Where a project opens, no path is asked for but those where they may
/// stand.
pub fn early_files()
    ensures decided { (project : Project) (opening : Opening) (one other : Files) → AgreeAt
        (early_paths project opening.layout.config) one other → opened_of project one ≡ Ok opening →
        opened_of project other ≡ Ok opening }
    ensures asked { (project : Project) (opening : Opening) (files : Files) → opened_of project
        files ≡ Ok opening → IsWithin (opening_paths project files)
        (early_paths project opening.layout.config) }
{}

/// Where nothing is wrong with a store, its two folders are apart from each other and from all
/// folders that the project names, none has the project in it, and no file is in their way.
pub fn kept_apart()
    ensures { (project : Project) (store : Store) (config : Config) (files : Files) →
        stored_at project store config files ≡ Ok tt → IsStored project store config files }
{}
