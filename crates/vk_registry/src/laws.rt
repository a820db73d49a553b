//! What follows from the definitions alone.
ghost use Rattle.std.specs.Prelude.{◌≡◌, ℕ, List, Ok, Err};
ghost use Rattle.serde_json.specs.Data.{Data};
ghost use Rattle.vk_json.specs.Documents.{json_of};
ghost use Rattle.vk_json.specs.Standing.{StandsIn};
ghost use Rattle.vk_json.specs.declared.faults.FileFault.{FileFault};
ghost use Rattle.vk_registry.specs.Baselines.{baseline_by};
ghost use Rattle.vk_registry.specs.Tables.{table_of};

/// Every fault of a document stands in it: at a value that is there, but for a member that is
/// missing, which is told at its key.
pub fn fault_places()
    ensures baseline { (name bytes : List ℕ) (d : Data) (fault : FileFault)
        → json_of bytes ≡ Ok d → baseline_by name bytes ≡ Err fault → StandsIn d fault }
    ensures table { (bytes : List ℕ) (d : Data) (fault : FileFault)
        → json_of bytes ≡ Ok d → table_of bytes ≡ Err fault → StandsIn d fault }
{}
