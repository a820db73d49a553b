//! What resolution sees of registries, overlays and files: a page for each port, told by a
//! catalogue call by call. It promises upwards that an answer is what the page says, and that
//! asking changes no page.
#![tactic(auto)]

mod catalogues;
mod given_manifests;
mod mem_catalogues;
mod pages;
mod rows;
mod shelves;
mod sound_pages;

pub use catalogues::Catalogue;
pub use given_manifests::{GivenManifest, manifest_at_given};
pub use mem_catalogues::MemCatalogue;
pub use pages::{Page, PageRow};
pub use vk_model::{Field, Given, Wrong};
