ghost use Rattle.std.specs.Prelude.{◌≡◌, ℕ, Bool, false, List, Ok, Err};
ghost use Rattle.serde_json.specs.Data.{Data, Members, object};
ghost use Rattle.vk_spec.specs.Manifests.{Manifest};
ghost use Rattle.vk_spec.specs.Conditions.{Condition};
ghost use Rattle.vk_json.specs.Documents.{json_of};
ghost use Rattle.vk_json.specs.declared.faults.FileFault.{FileFault};
ghost use Rattle.vk_json.specs.declared.faults.Why.TheVariants as why;
ghost use Rattle.vk_json.specs.Places.{here};
ghost use Rattle.vk_json.specs.Standing.{StandsIn};
ghost use Rattle.vk_manifest.specs.Manifests.{use_at, dependency_at, feature_at, override_from};
ghost use Rattle.vk_manifest.specs.Manifests.{manifest_at, manifest_of};
ghost use Rattle.vk_manifest.specs.Names.{IsNamed, IsPort};
ghost use Rattle.vk_manifest.specs.Keys.{manifest_keys, dependency_keys, use_keys};
ghost use Rattle.vk_manifest.specs.Keys.{feature_keys, override_keys, AgreeOn};

/// Members that the manual doesn't name change nothing: two objects that have the same members under
/// the keys of their kind read alike, to the same value or the same first fault.
pub fn unknown_members()
    ensures manifest { (root : Bool) (ms ns : Members) → AgreeOn manifest_keys (object ms)
        (object ns) →
        manifest_at root (object ms) ≡ manifest_at root (object ns) }
    ensures dependency { (ms ns : Members) → AgreeOn dependency_keys (object ms) (object ns) →
        dependency_at (object ms) ≡ dependency_at (object ns) }
    ensures feature_use { (ms ns : Members) → AgreeOn use_keys (object ms) (object ns) →
        use_at (object ms) ≡ use_at (object ns) }
    ensures feature { (name : List ℕ) (ms ns : Members) → AgreeOn feature_keys (object ms)
        (object ns) →
        feature_at name (object ms) ≡ feature_at name (object ns) }
    ensures version_override { (earlier : List (List ℕ)) (ms ns : Members) →
        AgreeOn override_keys (object ms) (object ns) →
        override_from earlier (object ms) ≡ override_from earlier (object ns) }
{}

/// Every fault of a document is told at a value that is there, but for a member that is missing,
/// which is told at its key. Bytes that are no document have one fault, at the whole.
pub fn fault_places()
    ensures document { (bytes : List ℕ) (root : Bool) (d : Data) (fault : FileFault) →
        json_of bytes ≡ Ok d → manifest_of bytes root ≡ Err fault → StandsIn d fault }
    ensures no_document { (bytes : List ℕ) (root : Bool) (fault : FileFault) → json_of bytes ≡ Err
        fault →
        (manifest_of bytes root ≡ Err fault) × (fault ≡ here why.Json) }
{}

/// What every manifest that reads has: names that keep their rules, features that ascend by name,
/// and no port overridden twice. A port's has a name and a version, and no overrides.
pub fn manifest_names()
    ensures names { (bytes : List ℕ) (root : Bool) (m : Manifest Condition) →
        manifest_of bytes root ≡ Ok m → IsNamed m }
    ensures port { (bytes : List ℕ) (m : Manifest Condition) → manifest_of bytes false ≡ Ok m →
        IsPort m }
{}
