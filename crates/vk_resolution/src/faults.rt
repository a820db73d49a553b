//! What the fault lines mean.
ghost use Rattle.vk_resolution.specs.FaultLaws.{FirstLinesMean, SecondLinesMean, ThirdLinesMean};
ghost use Rattle.vk_resolution.specs.FaultLaws.{VersionsComeInOrder};
ghost use Rattle.vk_resolution.specs.TroubleLaws.{TroublesMean};

/// A line of the first phase is a trouble with the first line that meets it, and the troubles are
/// those of the table.
/// A line of the second is a port in conflict with the first two, by text and port-version, of its
/// floors that no other is above.
/// A line of the third is a planned need with what is wrong with it.
pub fn fault_lines_mean_what_they_say()
    ensures first { FirstLinesMean }
    ensures troubles { TroublesMean }
    ensures second { SecondLinesMean }
    ensures versions { VersionsComeInOrder }
    ensures third { ThirdLinesMean }
{}
