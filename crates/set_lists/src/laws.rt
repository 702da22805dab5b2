ghost use Rattle.set_lists.specs.Laws.{BookRises, BreakingsOfListing, ListsTheBook, ListsTheSet, NoWayIsExact};
ghost use Rattle.set_lists.specs.Laws.{OutcomesAreListable};

/// The law that the numbers of a book's tunes rise.
pub fn book_rises()
    ensures { BookRises }
{}

/// The law that outcomes of tunes can be listed.
pub fn outcomes_are_listable()
    ensures { OutcomesAreListable }
{}

/// The law that `put_listing` writes a listing for tunes whose numbers rise.
pub fn lists_the_set()
    ensures { ListsTheSet }
{}

/// The law that the breakings of a tune's entry are the legal breakings of its score.
pub fn breakings_of_listing()
    ensures { BreakingsOfListing }
{}

/// The law that `put_listing` writes for a book a listing whose breakings are those of its scores.
pub fn lists_the_book()
    ensures { ListsTheBook }
{}

/// The law that a tune with a score is reported to have no way exactly when its score has no legal breaking, and that
/// the bar reported is the greatest at which a legal prefix of the score ends.
pub fn no_way_is_exact()
    ensures { NoWayIsExact }
{}
