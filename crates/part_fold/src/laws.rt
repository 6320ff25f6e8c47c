//! Laws of the texts of decisions, and of what a part knows. Each function does nothing, and its contract is the law.
ghost use Rattle.part_fold.specs.Laws.{ReadsDecisions, DecisionsDiffer, DecisionsArePlain, DecisionsFit};
ghost use Rattle.part_fold.specs.Agreement.{PartsAgree, VerdictsStay, PartsAreShards};

/// Each text is read as the decision that has it, and as no other.
pub fn reads_decisions()
    ensures { ReadsDecisions }
{}

/// No two decisions have one text.
pub fn decisions_differ()
    ensures { DecisionsDiffer }
{}

/// The text of a decision is a plain one to `read_form`.
pub fn decisions_are_plain()
    ensures { DecisionsArePlain }
{}

/// The text of a decision is one that a node may have.
pub fn decisions_fit()
    ensures { DecisionsFit }
{}

/// What one colour's line tells of transactions is what all nodes say of them.
pub fn parts_agree()
    ensures { PartsAgree }
{}

/// What a part knows stays known.
pub fn verdicts_stay()
    ensures { VerdictsStay }
{}

/// The keys of a part are those of its colour's shard.
pub fn parts_are_shards()
    ensures { PartsAreShards }
{}
