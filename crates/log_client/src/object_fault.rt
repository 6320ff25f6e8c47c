// Why a call of an object was refused.
use crate::faults::SyncFault;
use append_core::MultiFault;

/// Why a call of an object over a client was refused.
#[derive(Clone, Copy, Debug, PartialEq, Eq)]
pub enum ObjectFault {
    /// The client is of another region than the object's home: this.
    NotHome { home: u8 },
    /// The call's append was refused.
    Append(MultiFault),
    /// The call's sync or stamped read was refused, and no node of the call stands.
    Sync(SyncFault),
    /// The call's own node stands under the stamp, and what had to be read or folded behind it was refused.
    Unread { stamp: u64, why: SyncFault },
    /// A commit was handed no read.
    NoTx,
    /// Memory was refused for the call's text or its fold, and no node of the call stands.
    NoMemory,
}
