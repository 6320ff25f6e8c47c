// Each client of a script with its share of the commands, before it is served.
ghost use Rattle.std.specs.Prelude.{◌≡◌, length, IfOk};
ghost use Rattle.run_script.specs.Dealing.{AreIdle};

use crate::serving::opened::unopened;
use crate::serving::served::Served;
use log_client::Clients;
use script_beside::Share;
use script_text::Object;
use std::alloc::{AllocError, Global};

/// Each client with a slot for each object and with the share of its number, before it is served. The objects it opens itself,
/// and the room for its replies it takes itself.
pub fn make_ready(
    alloc: Global,
    clients: Clients,
    objects: &[Object],
    shares: Vec<Share>,
) -> Result<Vec<Served>, AllocError>
    requires { length shares.items ≡ length clients }
    ensures { IfOk result (λ served. AreIdle objects.now clients shares.items served.items) }
{
    let mut served = Vec::new(alloc);
    for (client, commands) in clients.into_vec().into_iter().zip(shares) {
        let slots = unopened(alloc, objects)?;
        served.push(Served {
            client,
            objects: slots,
            commands,
            replies: Vec::new(alloc),
            done: false,
            apart: [0; 16],
        })?;
    }
    Ok(served)
}
