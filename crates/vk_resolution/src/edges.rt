//! What the edges of a plan mean.
ghost use Rattle.vk_resolution.specs.Edges.{EdgesMean};

/// An instance of the plan depends on another exactly where a planned visit of it has a manifest
/// whose visited feature has a dependency that applies and is on the other.
pub fn an_edge_is_a_dependency()
    ensures { EdgesMean }
{}
