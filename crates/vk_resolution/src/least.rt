//! Laws of least lists, at any type of facts.
ghost use Rattle.vk_resolution.specs.LeastLaws.{LeastIsOne, RankIsOne, MembersHaveRanks};
ghost use Rattle.vk_resolution.specs.LeastLaws.{RankedIsForced, DerivedIsLeast, LeastExists};
ghost use Rattle.vk_resolution.specs.LeastLaws.{OrderIsOne, ListingIsOne, RoundsMakeLevels};
ghost use Rattle.vk_resolution.specs.LeastLaws.{FreshRoundIsRound, NothingFollows, PartIsForced};
ghost use Rattle.vk_resolution.specs.LeastLaws.{ForcedIsNoLonger};

/// Two least lists have the same members, each with one rank, and what has a rank is in every
/// closed list. Where a list is closed, there is a least one.
pub fn there_is_one_least_list<X>()
    ensures members { LeastIsOne X }
    ensures rank { RankIsOne X }
    ensures ranked { MembersHaveRanks X }
    ensures forced { RankedIsForced X }
    ensures exists { LeastExists X }
{}

/// A list shows of itself that it is the least: closed, without repeats, each fact a root or from
/// facts before it.
pub fn a_derived_list_is_the_least<X>()
    ensures least { DerivedIsLeast X }
{}

/// The least list in its order is one list, and so is the list of given things by their keys.
pub fn an_order_is_one<X>()
    ensures facts { OrderIsOne X }
    ensures things { ListingIsOne X }
{}

/// Rounds lead from rank to rank and end in the least list. A round from the fresh facts alone is a
/// round: what follows from the old ones is listed, and from nothing nothing follows. What was
/// reached of a round is forced, and no closed list is shorter than what is forced.
pub fn a_round_needs_the_fresh_facts_alone<X>()
    ensures levels { RoundsMakeLevels X }
    ensures round { FreshRoundIsRound X }
    ensures nothing { NothingFollows X }
    ensures part { PartIsForced X }
    ensures longer { ForcedIsNoLonger X }
{}
