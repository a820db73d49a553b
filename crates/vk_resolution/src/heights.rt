//! Laws of heights.
ghost use Rattle.vk_resolution.specs.Heights.{HeightExists, HeightIsOneMore, HeightsGoDown};

/// What has a height has targets with heights. Where all targets have heights, the instance has
/// one: 0 without targets, else one more than the greatest of theirs.
pub fn a_height_is_one_more_than_those_below()
    ensures more { HeightIsOneMore }
    ensures exists { HeightExists }
    ensures targets { HeightsGoDown }
{}
