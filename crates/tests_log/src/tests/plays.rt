// Plays of nodes whose keys are equal, which no client makes, and what faults say.
ghost use Rattle.std.specs.Prelude.{◌≡◌, ◌≤◌};
ghost use Rattle.log_node.specs.Vectors.{IsWithin};
ghost use Rattle.playback.specs.Playing.{IsLookedFrom};

use crate::tests::made::key_of;
use col_core::{Chains, View};
use log_node::{Colours, Counts, Head, Id, Item, Items, ListOf, Node, Text, Wants};
use playback::{PlayFault, Played, Player, play};
use std::alloc::{AllocError, Global};
use std::sync::Arc;
use std::test::Fail;

/// A node of a chain: its client, its stamp, and its needs.
type Row = (u8, u64, [u64; 4]);

const NONE: [u64; 4] = [0; 4];

// The node of a region and a client.
fn node(alloc: Global, region: u8, client: u8) -> Result<Arc<Node>, AllocError> {
    let node = Node {
        id: Id { client, count: 0 },
        region,
        colours: Colours::of(&[0]),
        text: Text::copied(alloc, b"p")?,
        floor: 0,
        wants: Wants::new(alloc),
        row: None,
    };
    Ok(Arc::new(alloc, node)?)
}

fn item(alloc: Global, region: u8, row: Row) -> Result<Item, AllocError> {
    let (client, stamp, needs) = row;
    let head = Head {
        key: key_of(stamp, client, 0),
        needs: Counts(needs),
    };
    let node = node(alloc, region, client)?;
    Ok(Item { head, node })
}

fn chain(alloc: Global, region: u8, rows: &[Row]) -> Result<Items, AllocError> {
    let mut items = ListOf::new(alloc);
    for row in rows {
        items.push(item(alloc, region, *row)?)?;
    }
    Ok(items)
}

// The chains of the regions from 0 on.
fn chains(alloc: Global, rows: &[&[Row]]) -> Result<Chains, AllocError> {
    let mut chains = ListOf::new(alloc);
    for (rows, region) in rows.iter().zip([0, 1, 2, 3]) {
        chains.push(chain(alloc, region, rows)?)?;
    }
    Ok(chains)
}

// What one sees of a column who has played so many nodes.
fn look(played: Counts, base: Counts, cut: Counts, items: Chains) -> View
    ensures from { IsLookedFrom result played }
    ensures cut { result.cut ≡ cut }
    ensures base { result.base ≡ base }
{
    View {
        region: 1,
        colour: 2,
        events: 9,
        cut,
        base,
        from: Counts([
            played.0[0].max(base.0[0]),
            played.0[1].max(base.0[1]),
            played.0[2].max(base.0[2]),
            played.0[3].max(base.0[3]),
        ]),
        items,
    }
}

// What one plays of these chains who has played so many nodes, and how many of each region that one has then played.
fn play_on(
    alloc: Global,
    played: Counts,
    base: Counts,
    cut: Counts,
    items: Chains,
) -> (Result<Played, PlayFault>, Counts)
    requires { IsWithin played cut }
{
    let mut player = Player {
        region: 1,
        colour: 2,
        played,
    };
    let result = play(alloc, look(played, base, cut, items), &mut player);
    (result, player.played)
}

#[test]
fn equal_keys_go_by_region(rt: HostRuntime) -> Result<(), Fail> {
    let third = [(5, 3, [7, 0, 0, 0])];
    let items = chains(
        rt.alloc(),
        &[&[(6, 3, NONE)], &[(5, 3, NONE)], &third, &[(5, 3, NONE)]],
    )?;
    let (played, _) = play_on(
        rt.alloc(),
        Counts([7, 1, 1, 1]),
        Counts(NONE),
        Counts([8, 2, 2, 2]),
        items,
    );
    let played = played?;
    assert_eq!(rt; played.items.len(), 4);
    for (item, region) in played.items.as_slice().iter().zip([1, 2, 3, 0]) {
        assert_eq!(rt; item.node().region, region);
    }
    Ok(())
}

#[test]
fn faults_are_told(rt: HostRuntime) -> Result<(), Fail> {
    let alloc = rt.alloc();
    let fault = PlayFault::Trimmed {
        base: Counts([0, 12, 3, 0]),
    };
    assert_eq!(rt;
        format!(in alloc; "{fault}")?.as_str(),
        "trimmed below 0,12,3,0"
    );
    let fault = PlayFault::NoMemory;
    assert_eq!(rt; format!(in alloc; "{fault}")?.as_str(), "out of memory");
    Ok(())
}
