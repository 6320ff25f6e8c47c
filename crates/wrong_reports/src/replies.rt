// One reply, of which one thing is wrong.
ghost use Rattle.wrong_reports.specs.Cases.{IsUnlawful};
ghost use Rattle.wrong_reports.specs.Replies.{a_missing_reply, a_wrong_line, a_wrong_word, a_wrong_name};
ghost use Rattle.wrong_reports.specs.Replies.{another_commands_answer, more_plays_than_nodes};
ghost use Rattle.wrong_reports.specs.Replies.{a_look_at_what_is_not_there, a_snapshot_of_what_is_not_there};

/// Each command is answered.
#[tactic(auto, using(crate::proofs::WrongReplies::missing_reply))]
pub fn a_missing_reply_is_unlawful()
    ensures { IsUnlawful a_missing_reply }
{}

/// A reply has the number of its command's line.
#[tactic(auto, using(crate::proofs::WrongReplies::wrong_line))]
pub fn a_wrong_line_is_unlawful()
    ensures { IsUnlawful a_wrong_line }
{}

/// A reply has its command's word.
#[tactic(auto, using(crate::proofs::WrongReplies::wrong_word))]
pub fn a_wrong_word_is_unlawful()
    ensures { IsUnlawful a_wrong_word }
{}

/// The clients are those of the script.
#[tactic(auto, using(crate::proofs::WrongReplies::wrong_name))]
pub fn a_wrong_name_is_unlawful()
    ensures { IsUnlawful a_wrong_name }
{}

/// No command is answered as another one.
#[tactic(auto, using(crate::proofs::WrongReplies::another_answer))]
pub fn another_commands_answer_is_unlawful()
    ensures { IsUnlawful another_commands_answer }
{}

/// A sync tells how many nodes it shows.
#[tactic(auto, using(crate::proofs::WrongReplies::more_plays))]
pub fn more_plays_than_nodes_is_unlawful()
    ensures { IsUnlawful more_plays_than_nodes }
{}

/// A look is at events that are there.
#[tactic(auto, using(crate::proofs::WrongReplies::look_beyond))]
pub fn a_look_at_what_is_not_there_is_unlawful()
    ensures { IsUnlawful a_look_at_what_is_not_there }
{}

/// A snapshot is the cut.
#[tactic(auto, using(crate::proofs::WrongReplies::snapshot_beyond))]
pub fn a_snapshot_of_what_is_not_there_is_unlawful()
    ensures { IsUnlawful a_snapshot_of_what_is_not_there }
{}
