// Laws of what clients have read and heard.
ghost use Rattle.log_client.specs.Notes.{HearersHaveSeen};
ghost use Rattle.log_client.specs.StampedReads.{ReadsGoOn};

use lawful_run::read_items_last;

/// What a stamped read shows of its columns is all that they ever have up to its stamp: a later read of the same colours goes
/// on from it.
pub fn reads_go_on()
    ensures { ReadsGoOn }
{
    read_items_last();
}

/// Who hears a note has seen all that its teller had: where an answer to an append of the teller says that the node stands, it
/// stands for the hearer too, and a sync plays all of it that can be played.
pub fn hearers_have_seen()
    ensures { HearersHaveSeen }
{}
