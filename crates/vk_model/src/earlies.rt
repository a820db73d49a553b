use vk_base::{Text, TreePath, TripletName};
use vk_json::Why;

/// Why a project gives no setting, before any port is looked at.
#[derive(Drop)]
pub enum Early {
    /// A file that isn't as it has to be: where in it, a JSON Pointer (RFC 6901), and why.
    BadFile {
        path: TreePath,
        place: Text,
        why: Why,
    },
    /// Configurations stand in two of the three places where one can.
    TwoConfigurations,
    /// No folder has the triplet.
    NoTriplet {
        name: TripletName,
    },
    /// Two folders that have to be apart: one begins the other, or the first has the project in it.
    Overlap {
        first: TreePath,
        second: TreePath,
    },
    /// A file stands where a folder has to be.
    Blocked {
        path: TreePath,
    },
}
