//! Laws of the definitions. Each function does nothing, and its contract is the law.
ghost use Rattle.col_core.specs.Laws.{CutIsUnique, CutIsGreatest, DatesAreGreatest, DatesAreUnique, LinesGrow, ChainsGrow, ReachedStays, CutsGrow, GrowthIsLater, LinesRise, PlayOrderIsUnique, RegionOrderIsUnique, SeenStaysTrue};
ghost use Rattle.col_core.specs.IdLaws.{OwnLineWithin, OpensAbove, OpenOnlyLeave, ClearStands, EnteredIsOver};
ghost use Rattle.col_core.specs.IdLaws.{SettledStays, SinglesStay, OpenIsProposed, ProposedIsOpen, ProposedOnce, ClocksRise};

/// Two greatest vectors that can be reached are equal.
pub fn cut_is_unique()
    ensures { CutIsUnique }
{}

/// The cut that is computed is the greatest vector that can be reached.
pub fn cut_is_the_greatest()
    ensures { CutIsGreatest }
{}

/// Each cut that is computed for a history is the greatest vector that could be reached by then.
pub fn dates_are_greatest()
    ensures { DatesAreGreatest }
{}

/// A history has no other cuts than those that are computed.
pub fn dates_are_unique()
    ensures { DatesAreUnique }
{}

/// The line of a lawful history only grows at its end.
pub fn lines_grow()
    ensures { LinesGrow }
{}

/// All chains of a lawful history only grow at their ends.
pub fn chains_grow()
    ensures { ChainsGrow }
{}

/// A vector that can be reached stays one when the chains grow at their ends.
pub fn reached_stays()
    ensures { ReachedStays }
{}

/// What is held, the cut and the base of a lawful history only grow.
pub fn cuts_grow()
    ensures { CutsGrow }
{}

/// There is one play order from one vector to another that can be reached.
pub fn play_order_is_unique()
    ensures { PlayOrderIsUnique }
{}

/// What a client was told of a log stays true of a later one.
pub fn seen_stays_true()
    ensures { SeenStaysTrue }
{}

/// The line of a lawful history rises in key.
pub fn lines_rise()
    ensures { LinesRise }
{}

/// A log whose lawful histories and nodes begin as those of another is later.
pub fn growth_is_later()
    ensures { GrowthIsLater }
{}

/// There is one order of a region up to a stamp.
pub fn region_order_is_unique()
    ensures { RegionOrderIsUnique }
{}

/// The own line of a lawful history lies wholly within its cut.
pub fn own_line_within()
    ensures { OwnLineWithin }
{}

/// What opens later has a stamp above the clock, so of the open entries below a key at or under the clock some only
/// leave; and a final entry stands in the line where none is left below it.
pub fn open_only_leave()
    ensures above { OpensAbove }
    ensures leave { OpenOnlyLeave }
    ensures clear { ClearStands }
{}

/// An id that has entered and is not open came by a single or was settled with one outcome, for good.
pub fn settled_stays()
    ensures over { EnteredIsOver }
    ensures settled { SettledStays }
    ensures alone { SinglesStay }
{}

/// An open id was proposed under the stamp of its entry, and a proposed one is open until it is settled.
pub fn open_is_proposed()
    ensures proposed { OpenIsProposed }
    ensures stays { ProposedIsOpen }
    ensures once { ProposedOnce }
{}

/// A clock does not fall, and is at most the last stamp.
pub fn clocks_rise()
    ensures { ClocksRise }
{}
