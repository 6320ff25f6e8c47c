//! The laws of every world that steps have made. Each function does nothing, and its contract is the law.
ghost use Rattle.world_laws.specs.Laws.{Always, SettlesOnce, OneFinalStamp, EachLineRises, OrderedAlike, FencedIsNowhere, NoneGetsBefore, CanComplete, EachLineGrows, LogGrows, RowsStay, HaveLawfulHistories, HaveLawfulRows, IsBounded, HasNodes, StaysWithinCuts, CopiesAreTrue, TrimmedIsHeld};

/// All settlings of an id, in all columns, have one outcome, and an id is final under one stamp.
pub fn one_outcome()
    ensures settles { Always SettlesOnce }
    ensures stamps { Always OneFinalStamp }
{}

/// Every line rises in key, and lines order the nodes that they share alike.
pub fn ordered_alike()
    ensures rise { Always EachLineRises }
    ensures alike { Always OrderedAlike }
{}

/// The node of a row that bears a fence is final in no column, and stands in no line.
pub fn fenced_is_nowhere()
    ensures { Always FencedIsNowhere }
{}

/// No entry that comes after a single gets before it.
pub fn none_gets_before()
    ensures { Always NoneGetsBefore }
{}

/// Any begun append of k colours is completed by at most 2k + 1 steps, which anybody may take.
pub fn can_complete()
    ensures { Always CanComplete }
{}

/// A line only grows at its end; more steps only add to histories, lines and nodes, and rows keep what they have.
pub fn log_only_grows()
    ensures lines { Always EachLineGrows }
    ensures log { Always LogGrows }
    ensures rows { Always RowsStay }
{}

/// Each column's history is one that a column may have, the rows are lawful beside the histories, and clocks, floors,
/// counts and rows keep their bounds.
pub fn is_lawful()
    ensures histories { Always HaveLawfulHistories }
    ensures rows { Always HaveLawfulRows }
    ensures bounds { Always IsBounded }
{}

/// What clients have played, what nodes want and what is trimmed is within the cuts, and so is each own line.
pub fn stays_within_cuts()
    ensures { Always StaysWithinCuts }
{}

/// What a region holds of another one's chain is a true copy, and no own node is trimmed that another region lacks.
pub fn copies_are_true()
    ensures copies { Always CopiesAreTrue }
    ensures trimmed { Always TrimmedIsHeld }
{}

/// Each client's nodes are listed in the order of their ids, and rows and singles are of nodes that are listed.
pub fn has_nodes()
    ensures { Always HasNodes }
{}
