//! Laws of the order in which marks are taken, each as the contract of a function that does nothing.

ghost use Rattle.timer_core.specs.Laws.{MarksAreSorted, MarksAreKept, EqualMarksKeepTheirOrder};

/// Marks that are added in any order stand sorted by moment, then by rank, and stay so as marks are taken.
pub fn marks_are_sorted()
    ensures { MarksAreSorted }
{}

/// No mark is lost and none comes twice: the marks that stand are those that were added, in another order.
pub fn marks_are_kept()
    ensures { MarksAreKept }
{}

/// Marks of one moment and one rank stand in the order of adding.
pub fn equal_marks_keep_their_order()
    ensures { EqualMarksKeepTheirOrder }
{}
