//! Laws of the command line.
ghost use Rattle.vk_words.specs.Laws.{FaultTellsItsWord, FirstFaultIsTold, ToldIsFirstFault};
ghost use Rattle.vk_words.specs.Laws.{DecimalsAreNumbers, NamesAreApart, NumbersAreDecimal};
ghost use Rattle.vk_words.specs.Laws.{OptionStandsOnce};

/// Of the words after the command the first that has a fault is told, with its number; the words
/// before it have none, and what stands behind it doesn't matter.
pub fn the_first_fault_is_told()
    ensures first { FirstFaultIsTold }
    ensures only { ToldIsFirstFault }
    ensures number { FaultTellsItsWord }
{}

/// Where no word has a fault, an option that may not repeat stands once at most, so its value is
/// the last one as well as the first. No two options have one name.
pub fn an_option_stands_once()
    ensures once { OptionStandsOnce }
    ensures apart { NamesAreApart }
{}

/// A number is exactly the text of its decimal digits, from 1 to the most.
pub fn numbers_are_decimal()
    ensures digits { NumbersAreDecimal }
    ensures read { DecimalsAreNumbers }
{}
