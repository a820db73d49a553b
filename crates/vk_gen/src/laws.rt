//! Laws over the definitions alone.
ghost use Rattle.std.specs.Prelude.{◌≡◌, ◌<◌, ◌≤◌, ◌+◌, ◌*◌, ◌↔◌, ℕ, List, Some, None};
ghost use Rattle.std.specs.List.{Contains};
ghost use Rattle.std.specs.FinMap as map;
ghost use Rattle.vk_spec.specs.Paths.{Path};
ghost use Rattle.vk_spec.specs.Files.{IsTree};
ghost use Rattle.vk_gen.specs.Loads.{load_files, load_list, manifest_path, newer, newer_manifest};
ghost use Rattle.vk_gen.specs.Loads.{older, older_manifest, table_path, table_text};

/// A load has at a path the bytes that its list says, and at no other path a file.
pub fn a_load_holds_its_list()
    ensures { (size : ℕ) → size ≤ 10000 → (path : Path) (bytes : List ℕ)
        → (map.get (load_files size) path ≡ Some bytes)
        ↔ Contains (load_list size) (path, bytes) }
{}

/// A load has three files for each port, and four besides.
pub fn a_load_has_three_files_for_each_port()
    ensures { (size : ℕ) → size ≤ 10000 → map.len (load_files size) ≡ 3 * size + 4 }
{}

/// Each port of a load has a versions file and the manifests of its two versions; no other port has
/// a versions file.
pub fn each_port_has_two_versions()
    ensures table { (size k : ℕ) → size ≤ 10000 → k < size
        → map.get (load_files size) (table_path k) ≡ Some (table_text k) }
    ensures older { (size k : ℕ) → size ≤ 10000 → k < size
        → map.get (load_files size) (manifest_path k older) ≡ Some (older_manifest size k) }
    ensures newer { (size k : ℕ) → size ≤ 10000 → k < size
        → map.get (load_files size) (manifest_path k newer) ≡ Some (newer_manifest size k) }
    ensures others { (size k : ℕ) → size ≤ k → k < 10000
        → map.get (load_files size) (table_path k) ≡ None }
{}

/// No file of a load lies below another one.
pub fn a_load_is_a_tree()
    ensures { (size : ℕ) → IsTree (load_files size) }
{}
