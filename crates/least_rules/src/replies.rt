// Replies: which rule is the least that a report breaks.
ghost use Rattle.least_rules.specs.Breaking.{Breaks};
ghost use Rattle.wrong_reports.specs.Shown.{a_node_under_another_stamp};
ghost use Rattle.wrong_reports.specs.Replies.{a_missing_reply, a_wrong_line, a_wrong_word, a_wrong_name};
ghost use Rattle.wrong_reports.specs.Replies.{another_commands_answer, a_look_at_what_is_not_there};
ghost use Rattle.wrong_reports.specs.Replies.{more_plays_than_nodes, a_snapshot_of_what_is_not_there};
ghost use Rattle.wrong_reports.specs.Objects.{a_value_of_nothing, refused_at_home, a_dequeue_answered_as_an_append};
ghost use Rattle.wrong_reports.specs.Objects.{a_value_of_another_key};
ghost use Rattle.wrong_reports.specs.Reads.{a_scan_without_a_raise, a_scan_without_a_sync};
ghost use Rattle.wrong_reports.specs.Looks.{a_sync_of_another_colour, a_sync_answered_as_a_trim};
ghost use Rattle.wrong_reports.specs.Points.{an_append_in_another_colour, an_append_that_shows_a_node};
ghost use Rattle.wrong_reports.specs.Points.{a_row_that_is_not_told};
ghost use Rattle.wrong_reports.specs.Several.{a_colour_without_a_point};
ghost use Rattle.wrong_reports.specs.Naming.{a_full_that_needs_no_row, an_event_that_is_not_there};
ghost use Rattle.wrong_reports.specs.Naming.{no_stamp_with_stamps_left};
ghost use Rattle.wrong_reports.specs.Reads.{a_scan_of_more_nodes};
ghost use Rattle.wrong_reports.specs.Trees.{a_path_that_is_not_missing};
ghost use Rattle.wrong_reports.specs.Parts.{undecided_where_nothing_waits};
ghost use Rattle.wrong_reports.specs.Guarded.{a_moved_that_was_not};

/// Each command is answered.
#[tactic(auto, using(crate::proofs::ReplyLaws::missing_reply))]
pub fn a_missing_reply_breaks_rule_1()
    ensures { Breaks a_missing_reply 1 }
{}

/// A reply has the number of its command's line.
#[tactic(auto, using(crate::proofs::ReplyLaws::wrong_line))]
pub fn a_wrong_line_breaks_rule_1()
    ensures { Breaks a_wrong_line 1 }
{}

/// A reply has its command's word.
#[tactic(auto, using(crate::proofs::ReplyLaws::wrong_word))]
pub fn a_wrong_word_breaks_rule_1()
    ensures { Breaks a_wrong_word 1 }
{}

/// The clients are those of the script.
#[tactic(auto, using(crate::proofs::ReplyLaws::wrong_name))]
pub fn a_wrong_name_breaks_rule_1()
    ensures { Breaks a_wrong_name 1 }
{}

/// No command is answered as another one.
#[tactic(auto, using(crate::proofs::ReplyLaws::another_answer))]
pub fn another_commands_answer_breaks_rule_1()
    ensures { Breaks another_commands_answer 1 }
{}

/// A look is at events that are there.
#[tactic(auto, using(crate::proofs::Empty::look_beyond))]
pub fn a_look_at_what_is_not_there_breaks_rule_4()
    ensures { Breaks a_look_at_what_is_not_there 4 }
{}

/// A sync tells how many nodes it shows.
#[tactic(auto, using(crate::proofs::Empty::more_plays))]
pub fn more_plays_than_nodes_breaks_rule_9()
    ensures { Breaks more_plays_than_nodes 9 }
{}

/// A snapshot is the cut.
#[tactic(auto, using(crate::proofs::Empty::snapshot_beyond))]
pub fn a_snapshot_of_what_is_not_there_breaks_rule_9()
    ensures { Breaks a_snapshot_of_what_is_not_there 9 }
{}

/// A map answers what was put.
#[tactic(auto, using(crate::proofs::Empty::value_of_nothing))]
pub fn a_value_of_nothing_breaks_rule_10()
    ensures { Breaks a_value_of_nothing 10 }
{}

/// At its home an object is not refused.
#[tactic(auto, using(crate::proofs::Empty::at_home))]
pub fn refused_at_home_breaks_rule_11()
    ensures { Breaks refused_at_home 11 }
{}

/// An append that may only stand next is refused only where something had come between.
#[tactic(auto, using(crate::proofs::Empty::was_next))]
pub fn a_moved_that_was_not_breaks_rule_12()
    ensures { Breaks a_moved_that_was_not 12 }
{}

/// A read looks at the clock of each of its colours, or raises it.
#[tactic(auto, using(crate::proofs::ReplyLaws::without_raise))]
pub fn a_scan_without_a_raise_breaks_rule_1()
    ensures { Breaks a_scan_without_a_raise 1 }
{}

/// A read syncs each of its colours.
#[tactic(auto, using(crate::proofs::ReplyLaws::without_sync))]
pub fn a_scan_without_a_sync_breaks_rule_1()
    ensures { Breaks a_scan_without_a_sync 1 }
{}

/// A sync is of the colour that was asked.
#[tactic(auto, using(crate::proofs::ReplyLaws::sync_of_another))]
pub fn a_sync_of_another_colour_breaks_rule_1()
    ensures { Breaks a_sync_of_another_colour 1 }
{}

/// A sync is not answered as a trim.
#[tactic(auto, using(crate::proofs::ReplyLaws::sync_as_trim))]
pub fn a_sync_answered_as_a_trim_breaks_rule_1()
    ensures { Breaks a_sync_answered_as_a_trim 1 }
{}

/// An append stands in the colour that was asked.
#[tactic(auto, using(crate::proofs::ReplyLaws::in_another_colour))]
pub fn an_append_in_another_colour_breaks_rule_1()
    ensures { Breaks an_append_in_another_colour 1 }
{}

/// An append shows no node.
#[tactic(auto, using(crate::proofs::ReplyLaws::shows_a_node))]
pub fn an_append_that_shows_a_node_breaks_rule_1()
    ensures { Breaks an_append_that_shows_a_node 1 }
{}

/// An append to several colours tells its row.
#[tactic(auto, using(crate::proofs::ReplyLaws::without_row))]
pub fn a_row_that_is_not_told_breaks_rule_1()
    ensures { Breaks a_row_that_is_not_told 1 }
{}

/// An append has a point in each of its colours.
#[tactic(auto, using(crate::proofs::ReplyLaws::without_point))]
pub fn a_colour_without_a_point_breaks_rule_1()
    ensures { Breaks a_colour_without_a_point 1 }
{}

/// An append to one colour needs no row.
#[tactic(auto, using(crate::proofs::ReplyLaws::needs_no_row))]
pub fn a_full_that_needs_no_row_breaks_rule_1()
    ensures { Breaks a_full_that_needs_no_row 1 }
{}

/// A dequeue tells what it took.
#[tactic(auto, using(crate::proofs::ReplyLaws::dequeue_as_append))]
pub fn a_dequeue_answered_as_an_append_breaks_rule_1()
    ensures { Breaks a_dequeue_answered_as_an_append 1 }
{}

/// Values are of the keys that were asked.
#[tactic(auto, using(crate::proofs::ReplyLaws::another_key))]
pub fn a_value_of_another_key_breaks_rule_1()
    ensures { Breaks a_value_of_another_key 1 }
{}

/// A path is missing only where it is not there.
#[tactic(auto, using(crate::proofs::Empty::not_missing))]
pub fn a_path_that_is_not_missing_breaks_rule_13()
    ensures { Breaks a_path_that_is_not_missing 13 }
{}

/// A scan tells how many nodes it shows.
#[tactic(auto, using(crate::proofs::Empty::more_nodes))]
pub fn a_scan_of_more_nodes_breaks_rule_9()
    ensures { Breaks a_scan_of_more_nodes 9 }
{}

/// An event that is named is there.
#[tactic(auto, using(crate::proofs::Empty::not_there))]
pub fn an_event_that_is_not_there_breaks_rule_4()
    ensures { Breaks an_event_that_is_not_there 4 }
{}

/// No stamp is left only at the last one.
#[tactic(auto, using(crate::proofs::Empty::stamps_left))]
pub fn no_stamp_with_stamps_left_breaks_rule_11()
    ensures { Breaks no_stamp_with_stamps_left 11 }
{}

/// A node line shows the stamp in the line.
#[tactic(auto, using(crate::proofs::NodeLines::under_another_stamp))]
pub fn a_node_under_another_stamp_breaks_rule_9()
    ensures { Breaks a_node_under_another_stamp 9 }
{}

/// A peek is undecided only where a transaction waits.
#[tactic(auto, using(crate::proofs::Empty::nothing_waits))]
pub fn undecided_where_nothing_waits_breaks_rule_14()
    ensures { Breaks undecided_where_nothing_waits 14 }
{}
