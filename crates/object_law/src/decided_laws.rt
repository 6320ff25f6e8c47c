// A law of what decisions say. The function does nothing, and its contract is the law.
ghost use Rattle.object_law.specs.Decided.{DecisionsStand};

use run_rules::{finds_tell, found_account_decides};

/// A decision says for which transaction a part waits behind nodes that rest on decisions with lower reads alone.
pub(crate) fn decisions_stand()
    ensures { DecisionsStand }
{
    finds_tell();
    found_account_decides();
}
