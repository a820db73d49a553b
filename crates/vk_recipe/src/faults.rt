use vk_base::Text;
use vk_json::Why;

/// Why a recorded build makes no package.
#[derive(Drop)]
pub enum RecipeFault {
    /// The port's folder has no `recorded-build.json`.
    NoRecipe,
    /// That file can't be read: what is wrong, and at which place (a JSON Pointer, RFC 6901).
    Bad { place: Text, why: Why },
    /// The file that a step copies or takes isn't there, or its dependency isn't. Steps are counted
    /// from 1.
    NoSource { step: u32 },
    /// An earlier step has made the file, or a file above or below it.
    DoublePath { step: u32 },
}
