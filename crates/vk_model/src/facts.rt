use vk_base::{FeatureName, Instance, PortName, TripletName};
use vk_version::Ask;

/// Who has requirements.
#[derive(Drop)]
pub enum Who {
    /// The root, for the target's triplet.
    Root(TripletName),
    /// A port for a triplet.
    Inst(Instance),
}

/// What a plan may require.
#[derive(Drop)]
pub enum Fact {
    /// A feature of the root or of an instance.
    Need {
        who: Who,
        feature: FeatureName,
    },
    /// At least a version of a port.
    Floor {
        port: PortName,
        ask: Ask,
    },
    /// That the manifest of a version is looked at for a feature.
    Visit {
        inst: Instance,
        feature: FeatureName,
        ask: Ask,
    },
}
