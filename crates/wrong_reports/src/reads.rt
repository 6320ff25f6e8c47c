// Scans that are wrong.
ghost use Rattle.wrong_reports.specs.Cases.{IsUnlawful};
ghost use Rattle.wrong_reports.specs.Reads.{a_scan_of_more_nodes, a_scan_without_a_raise, a_scan_without_a_sync};
ghost use Rattle.wrong_reports.specs.Reads.{a_read_stamp_of_nothing, a_read_below_the_floor};
ghost use Rattle.wrong_reports.specs.Reads.{a_read_below_a_clock_that_was_seen, a_raise_that_does_not_reach};
ghost use Rattle.wrong_reports.specs.Reads.{a_raise_that_leaves_the_clock, a_raise_before_its_clients_nodes};
ghost use Rattle.wrong_reports.specs.Reads.{a_read_over_an_open_entry, a_scan_that_leaves_a_node_out};
ghost use Rattle.wrong_reports.specs.Reads.{a_hidden_raise_to_nothing, a_hidden_look_at_nothing};
ghost use Rattle.wrong_reports.specs.Reads.{a_scan_in_another_order, a_scan_beyond_its_stamp};

/// A scan tells how many nodes it shows.
#[tactic(auto, using(crate::proofs::WrongReads::more_nodes))]
pub fn a_scan_of_more_nodes_is_unlawful()
    ensures { IsUnlawful a_scan_of_more_nodes }
{}

/// A read looks at the clock of each of its colours, or raises it.
#[tactic(auto, using(crate::proofs::WrongReads::without_raise))]
pub fn a_scan_without_a_raise_is_unlawful()
    ensures { IsUnlawful a_scan_without_a_raise }
{}

/// A read syncs each of its colours.
#[tactic(auto, using(crate::proofs::WrongReads::without_sync))]
pub fn a_scan_without_a_sync_is_unlawful()
    ensures { IsUnlawful a_scan_without_a_sync }
{}

/// A read's stamp is the floor or a clock.
#[tactic(auto, using(crate::proofs::WrongReads::of_nothing))]
pub fn a_read_stamp_of_nothing_is_unlawful()
    ensures { IsUnlawful a_read_stamp_of_nothing }
{}

/// A read is not below its client's floor.
#[tactic(auto, using(crate::proofs::WrongReads::below_floor))]
pub fn a_read_below_the_floor_is_unlawful()
    ensures { IsUnlawful a_read_below_the_floor }
{}

/// A read is not below a clock that was seen.
#[tactic(auto, using(crate::proofs::WrongReads::below_clock))]
pub fn a_read_below_a_clock_that_was_seen_is_unlawful()
    ensures { IsUnlawful a_read_below_a_clock_that_was_seen }
{}

/// After a raise the clock is at the stamp.
#[tactic(auto, using(crate::proofs::WrongReads::does_not_reach))]
pub fn a_raise_that_does_not_reach_is_unlawful()
    ensures { IsUnlawful a_raise_that_does_not_reach }
{}

/// A raise raises the clock.
#[tactic(auto, using(crate::proofs::WrongReads::leaves_clock))]
pub fn a_raise_that_leaves_the_clock_is_unlawful()
    ensures { IsUnlawful a_raise_that_leaves_the_clock }
{}

/// A raise stands behind its client's own nodes.
#[tactic(auto, using(crate::proofs::WrongReads::before_nodes))]
pub fn a_raise_before_its_clients_nodes_is_unlawful()
    ensures { IsUnlawful a_raise_before_its_clients_nodes }
{}

/// No open entry up to a read's stamp is left.
#[tactic(auto, using(crate::proofs::WrongReads::over_open))]
pub fn a_read_over_an_open_entry_is_unlawful()
    ensures { IsUnlawful a_read_over_an_open_entry }
{}

/// A scan shows each node up to its stamp.
#[tactic(auto, using(crate::proofs::WrongReads::leaves_out))]
pub fn a_scan_that_leaves_a_node_out_is_unlawful()
    ensures { IsUnlawful a_scan_that_leaves_a_node_out }
{}

/// A read that found no memory raises to no other stamp either.
#[tactic(auto, using(crate::proofs::WrongHidden::hidden_raise))]
pub fn a_hidden_raise_to_nothing_is_unlawful()
    ensures { IsUnlawful a_hidden_raise_to_nothing }
{}

/// What a refused read may have played is a snapshot.
#[tactic(auto, using(crate::proofs::WrongHidden::hidden_look))]
pub fn a_hidden_look_at_nothing_is_unlawful()
    ensures { IsUnlawful a_hidden_look_at_nothing }
{}

/// A scan shows its nodes in rising key.
#[tactic(auto, using(crate::proofs::WrongScans::another_order))]
pub fn a_scan_in_another_order_is_unlawful()
    ensures { IsUnlawful a_scan_in_another_order }
{}

/// A scan shows no node above its stamp.
#[tactic(auto, using(crate::proofs::WrongScans::beyond_stamp))]
pub fn a_scan_beyond_its_stamp_is_unlawful()
    ensures { IsUnlawful a_scan_beyond_its_stamp }
{}
