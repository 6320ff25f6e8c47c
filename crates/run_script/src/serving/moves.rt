// Pulls and trims.
ghost use Rattle.std.specs.Prelude.{◌<◌, [], length};
ghost use Rattle.log_client.specs.Clients.{IsClient};
ghost use Rattle.run_script.specs.Serving.{ServesLog};

use log_client::{Client, Store, TrimFault};
use playback::Snapshot;
use region_pull::PullFault;
use report_text::Answer;
use script_text::What;
use std::sync::Wait;

/// Brings what is new of another region's line of the colour into the column of the client's region.
pub fn pull<R: Wait>(rt: &R, store: &Store, client: &mut Client, region: u8, colour: u8) -> Answer
    requires client { IsClient store.now client.old }
    requires region { region < length store.now.regions }
    requires colour { colour < store.now.size.colours }
    ensures { ServesLog store.now client.old client.new (What.Pull region colour) result [] }
{
    match client.pull(rt, store, region, colour) {
        Ok(pulled) => Answer::Pulled {
            nodes: pulled.nodes,
            give: pulled.give,
            carry: pulled.carry,
        },
        Err(PullFault::SameRegion) => Answer::SameRegion,
        Err(PullFault::NoMemory) => Answer::NoMemory,
    }
}

/// Drops nodes of the colour that the client has played and every other region has asked past.
pub fn trim<R: Wait>(rt: &R, store: &Store, client: &mut Client, colour: u8) -> Answer
    requires client { IsClient store.now client.old }
    requires colour { colour < store.now.size.colours }
    ensures { ServesLog store.now client.old client.new (What.Trim colour) result [] }
{
    let snapshot = Snapshot {
        region: client.region(),
        colour,
        counts: client.snapshot(colour).counts,
    };
    match client.trim(rt, store, colour, &snapshot) {
        Ok((at, base)) => Answer::Based { at, base },
        Err(TrimFault::OtherColumn { .. }) => unreachable!(),
        Err(TrimFault::NoMemory) => Answer::NoMemory,
    }
}
