// What the decisions of a report say.
ghost use Rattle.std.specs.Prelude.{◌≡◌, ℕ, IfOk, OnOk};
ghost use Rattle.std.specs.List.{All};
ghost use Rattle.run_rules.specs.Computing.{finds_of};
ghost use Rattle.run_rules.specs.Deciding.{ColoursDiffer, decisions_of, key_or};
ghost use Rattle.run_rules.specs.Keeping.{Keeps};
ghost use Rattle.object_law.specs.Decided.{AreDecided, AreDecidedBelow, IsDecidedPlay, IsDecisionOf};
ghost use Rattle.object_law.specs.PartAnswers.{IfThere};
ghost use Rattle.walk_law.specs.Finds.{FindsKeys, decision_at, finds_at};

use crate::decided_laws::decisions_stand;
use crate::decided_nodes::{DecidedNodes, decided_nodes};
use crate::decided_plays::DecidedPlays;
use crate::decisions_by_stamp::{StampedDecision, decisions_by_stamp};
use crate::decisions_noted::{note, unknown};
use crate::finds::{Decisions, Finds, any_decision};
use crate::fourteenth::parts_of;
use crate::part_plays::place_of;
use log_node::Key;
use part_fold::Decision;
use report_text::Answer;
use std::alloc::{AllocError, Global};
use walk_law::Subject;

// This key, or nobody's.
fn key_or(key: Option<Key>) -> Key
    ensures { result ≡ key_or key }
{
    match key {
        Some(key) => key,
        None => any_decision().key,
    }
}

// What a decision says, by what those say whose reads have lower stamps.
fn decision_by(
    alloc: Global,
    subject: &Subject<'_>,
    nodes: &DecidedNodes,
    decisions: &Decisions,
    plays: &mut DecidedPlays,
    it: StampedDecision,
) -> Result<Decision, AllocError>
    requires it { IsDecisionOf subject.now it }
    requires plays { All (IfThere (IsDecidedPlay subject.now)) plays.old.parts.items }
    requires nodes { AreDecided subject.now (finds_of subject.now.script subject.now.report) nodes.now }
    requires keeps { Keeps subject.now.script subject.now.report 9 }
    requires differ { ColoursDiffer subject.now.script }
    requires below { AreDecidedBelow subject.now it.stamp (decision_at decisions.now) }
    ensures says { IfOk result (λ d. d ≡ decisions_of subject.now.script subject.now.report it.client it.place) }
    ensures plays { OnOk result (All (IfThere (IsDecidedPlay subject.now)) plays.new.parts.items) }
{
    decisions_stand();
    subject.agrees();
    let what = &subject.command(it.client, it.place).what;
    match &subject.reply(it.client, it.place).answer {
        Answer::Decided { commits, sync, .. } => {
            let Some(own) = parts_of(subject, what) else {
                return Ok(any_decision());
            };
            let Some(place) = place_of(own, sync.colour) else {
                return Ok(any_decision());
            };
            let region = subject.own(it.client);
            let key = plays.waiting(alloc, subject, nodes, decisions, region, own, place, sync)?;
            Ok(Decision {
                key: key_or(key),
                commits: *commits,
            })
        }
        _ => Ok(any_decision()),
    }
}

/// What the decisions of a report say that keeps the first nine rules, by what its reads found.
pub(crate) fn decisions_of(
    alloc: Global,
    subject: &Subject<'_>,
    finds: &Finds,
) -> Result<Decisions, AllocError>
    requires finds { (client k : ℕ)
        → finds_at finds.now client k ≡ finds_of subject.now.script subject.now.report client k }
    requires keys { FindsKeys subject.now.report (finds_at finds.now) }
    requires keeps { Keeps subject.now.script subject.now.report 9 }
    requires differ { ColoursDiffer subject.now.script }
    ensures { IfOk result (λ d. (client k : ℕ)
        → decision_at d client k ≡ decisions_of subject.now.script subject.now.report client k) }
{
    subject.agrees();
    let nodes = decided_nodes(alloc, subject, finds)?;
    let mut decisions = unknown(alloc, subject)?;
    let mut plays = DecidedPlays::new(alloc, subject)?;
    let all = decisions_by_stamp(alloc, subject)?;
    for at in 0..all.len() {
        let it = all[at];
        let decision = decision_by(alloc, subject, &nodes, &decisions, &mut plays, it)?;
        note(&mut decisions, it.client, it.place, decision);
    }
    Ok(decisions)
}
