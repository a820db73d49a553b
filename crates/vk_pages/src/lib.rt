//! What the files of a project say of a port: where its versions are, what is given for it, and the
//! manifest of each version. It promises upwards that a port's home and a manifest's disagreement
//! are those of the files, that finding a home asks only for the paths that it needs, and that what
//! files say of a port is a page on which the port is pinned exactly where an overlay has it or the
//! root has an override for it.
#![tactic(auto)]

mod baselines;
mod contents;
mod homes;
mod laws;
mod overlays;
mod registries;
mod served;

pub use baselines::Baselines;
pub use homes::{Home, home_of};
pub use laws::{overlay_rule, override_rule, page_rule, pinned_rule};
pub use served::row_folder;
