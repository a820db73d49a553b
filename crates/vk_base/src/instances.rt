use crate::names::{PortName, TripletName};

/// A port for a triplet. Instances are ordered by port, then by triplet.
#[derive(Clone, PartialEq, Eq, PartialOrd, Ord, Hash, Drop)]
pub struct Instance {
    /// The port.
    pub port: PortName,
    /// The triplet that it is built for.
    pub triplet: TripletName,
}
