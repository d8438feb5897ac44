//! Laws of searches. Each function here says what holds of all of them, and does nothing.

ghost use Rattle.puz_search.specs.Laws.{PartsThatFailAreBounded};

/// Where the search of a part of a bound fails, the least solution of fewer moves isn't of the part.
pub fn parts_that_fail_are_bounded()
    ensures { PartsThatFailAreBounded }
{}
