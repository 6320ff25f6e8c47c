// Laws of explanations, and of what a reader takes from a report.
ghost use Rattle.lawful_run.specs.Laws.{ExplanationsLast, ReadItemsLast};
ghost use Rattle.lawful_run.specs.ObjectReadings.{CausalGetsAreFolds, DequeuesAreFolds, GetsAreFolds, UndecidedAreFolds, DecisionsAreFolds, ReadsAreFolds, ScansAreWhole, VerdictsAreFolds, ChangesAreFolds, ListsAreFolds};
ghost use Rattle.lawful_run.specs.Readings.{ClosingLinesRise, NothingElseStands, OneCommand, OneKey, OneOrder, ReturnedAppendsStand, ShownAsAppended, ShownOnce};

/// What a log explains to a client, each later log explains as well.
pub fn explanations_last()
    ensures { ExplanationsLast }
{}

/// What a stamped read shows is all that its columns ever have up to its stamp.
pub fn read_items_last()
    ensures { ReadItemsLast }
{}

/// An append that returned stands where its answer says, in the closing lines of all its colours
/// under one stamp.
pub fn returned_appends_stand()
    ensures { ReturnedAppendsStand }
{}

/// Each closing line rises in key.
pub fn closing_lines_rise()
    ensures { ClosingLinesRise }
{}

/// An id has one key in all closing lines.
pub fn one_key()
    ensures { OneKey }
{}

/// An id is of one command alone.
pub fn one_command()
    ensures { OneCommand }
{}

/// Two nodes stand in one order in each closing line that has both.
pub fn one_order()
    ensures { OneOrder }
{}

/// Each key of a closing line is of a command of its client that asked for the colour.
pub fn nothing_else_stands()
    ensures { NothingElseStands }
{}

/// A node line shows the text that the command of its id appended.
pub fn shown_as_appended()
    ensures { ShownAsAppended }
{}

/// No id is shown twice among the node lines of a client's syncs of one colour.
pub fn shown_once()
    ensures { ShownOnce }
{}

/// A scan shows all nodes up to its stamp that the closing lines of its colours have.
pub fn scans_are_whole()
    ensures { ScansAreWhole }
{}

/// A get of a map, a peek, and a decide that finds nothing to decide answer by the first nodes of the closing line, as many
/// as the sync counts.
pub fn gets_are_folds()
    ensures { GetsAreFolds }
{}

/// So does a peek that finds no value yet.
pub fn undecided_are_folds()
    ensures { UndecidedAreFolds }
{}

/// A decision is the verdict over all nodes up to its read's stamp, and where its node stands that says so.
pub fn decisions_are_folds()
    ensures { DecisionsAreFolds }
{}

/// A get of a causal map answers by the first nodes of all regions' closing lines.
pub fn causal_gets_are_folds()
    ensures { CausalGetsAreFolds }
{}

/// A dequeue takes the front of the queue after the nodes before its own in the closing line.
pub fn dequeues_are_folds()
    ensures { DequeuesAreFolds }
{}

/// A read of several keys answers by all nodes up to its stamp in its colours' closing lines.
pub fn reads_are_folds()
    ensures { ReadsAreFolds }
{}

/// A verdict is that of its transaction over all nodes up to the read's stamp.
pub fn verdicts_are_folds()
    ensures { VerdictsAreFolds }
{}

/// A change of a tree is told what becomes of its own node over all nodes up to the read's stamp.
pub fn changes_are_folds()
    ensures { ChangesAreFolds }
{}

/// A list of names answers by all nodes up to its stamp in its colours' closing lines.
pub fn lists_are_folds()
    ensures { ListsAreFolds }
{}
