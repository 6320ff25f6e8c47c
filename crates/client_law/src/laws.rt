//! Laws of what one client knows. Each function does nothing, and its contract is the law. `replies_last`, `explained_on`,
//! `explained_at_end` and `steps_of_made` are lemmas for callers, since they are over predicates.
ghost use Rattle.client_law.specs.Making.{MadeOnTop, PlacesCounted, PlacesGrow, PlacesStand, PlacesStay, StepsAmongMade, StepsCounted};
ghost use Rattle.client_law.specs.Kept.{KeptAfterEvent, KeptAfterLook, KeptStays, NothingIsKept, StartsWithin, StepsAtEnd};
ghost use Rattle.client_law.specs.Appends.{AppendsStand, ClosedStays, FinalIsAbove, GoneAtEnd, GoneForMemory, KeptAfterAppend, KeptAfterRow, KeptAfterSeveral, NoStampWasLeft, NotOpenBetween, RowsBegin, SettledForGood, SeveralStand, StopsStand, WantsAreStarts};
ghost use Rattle.client_law.specs.Moves.{KeptAfterGives, KeptAfterPull, KeptAfterSync, PlaysStand, PullsStand, SyncsStand, TrimmedThere, TrimsStand};
ghost use Rattle.client_law.specs.Origins.{LawfulCopiesAreTrue};
ghost use Rattle.client_law.specs.Unshown.{KeptUnshownAlone, KeptUnshownInAll, UnshownAlone, UnshownInAll};
ghost use Rattle.client_law.specs.Pieces.{KeptAfterPiece, KeptUntold, PlayedUntold};
ghost use Rattle.client_law.specs.StampedReads.{ClearSyncsOn, KeptWithFloor, RaiseStands, RaisesOn, ReadsStand};
ghost use Rattle.client_law.specs.Replies.{EndedAlone, EndedInColour, GaveForMemory, LackedThere, MovedOn, PulledThere, StoodAlone, StoodInAll, StoodNext, StoppedWithin, SyncedThere, TrimmedTo, WentForMemory};

/// What a client keeps of its replies stays of what it has seen, from nothing on, as more is seen and after each event or
/// look of its own.
pub fn kept_stays()
    ensures nothing { NothingIsKept }
    ensures stays { KeptStays }
    ensures starts { StartsWithin }
    ensures event { KeptAfterEvent }
    ensures look { KeptAfterLook }
{}

/// The client's own steps stand in a longer history where it made them: rising places with own steps, as many as it made,
/// are all; and in the closing histories they are just those that its replies name.
pub fn counted_steps_are_all()
    ensures grow { PlacesGrow }
    ensures stand { PlacesStand }
    ensures counted { PlacesCounted }
    ensures stay { PlacesStay }
    ensures among { StepsAmongMade }
    ensures among_counted { StepsCounted }
    ensures on_top { MadeOnTop }
    ensures at_end { StepsAtEnd }
{}

/// An append to one colour stands behind all nodes that were known to stand; it is refused where no stamp is left.
pub fn appends_stand()
    ensures wants { WantsAreStarts }
    ensures stand { AppendsStand }
    ensures kept { KeptAfterAppend }
    ensures stamp_end { NoStampWasLeft }
{}

/// An append to several colours stands in all of them under one stamp, or is gone and open nowhere.
pub fn several_stand()
    ensures begin { RowsBegin }
    ensures above { FinalIsAbove }
    ensures stand { SeveralStand }
    ensures kept { KeptAfterSeveral }
    ensures settled { SettledForGood }
    ensures closed { ClosedStays }
    ensures not_open { NotOpenBetween }
    ensures stamp_end { GoneAtEnd }
    ensures no_memory { GoneForMemory }
    ensures row { KeptAfterRow }
{}

/// An append that stopped has done its first steps, and no later one.
pub fn stops_stand()
    ensures { StopsStand }
{}

/// A sync looks at all that is seen of its colour, shows what it played, and lifts the floor above it; it is refused where
/// nodes are trimmed that were not played.
pub fn syncs_stand()
    ensures stand { SyncsStand }
    ensures played { PlaysStand }
    ensures kept { KeptAfterSync }
    ensures trimmed { TrimmedThere }
{}

/// A pull holds all that stood in the other region's line at its last give.
pub fn pulls_stand()
    ensures stand { PullsStand }
    ensures kept { KeptAfterPull }
    ensures no_memory { KeptAfterGives }
{}

/// A trim is by the counts of a snapshot, and answers the base.
pub fn trims_stand()
    ensures { TrimsStand }
{}

/// The copies of a colour are true where each is a beginning of its origin's chain, and each give asked for what its maker
/// had seen to be held.
pub fn copies_are_true()
    ensures { LawfulCopiesAreTrue }
{}

/// An append whose answer does not show where its node stands stands as any other.
pub fn unshown_stand()
    ensures alone { UnshownAlone }
    ensures kept_alone { KeptUnshownAlone }
    ensures several { UnshownInAll }
    ensures kept { KeptUnshownInAll }
{}

/// A sync whose nodes no answer shows lifts the floor above all that it has played.
pub fn pieces_stand()
    ensures kept { KeptAfterPiece }
    ensures untold { PlayedUntold }
    ensures kept_untold { KeptUntold }
{}

/// A stamped read is explained raise by raise and sync by sync, as more is seen after each.
pub fn reads_stand()
    ensures raise { RaiseStands }
    ensures raises { RaisesOn }
    ensures syncs { ClearSyncsOn }
    ensures stand { ReadsStand }
    ensures floor { KeptWithFloor }
{}

/// What was seen explains the replies to appends, stops, syncs, pulls and trims.
pub fn replies_are_explained()
    ensures alone { StoodAlone }
    ensures next { StoodNext }
    ensures moved { MovedOn }
    ensures several { StoodInAll }
    ensures stamp_end { EndedAlone }
    ensures gone { EndedInColour }
    ensures no_memory { WentForMemory }
    ensures stopped { StoppedWithin }
    ensures synced { SyncedThere }
    ensures trimmed { LackedThere }
    ensures pulled { PulledThere }
    ensures gave { GaveForMemory }
    ensures based { TrimmedTo }
{}
