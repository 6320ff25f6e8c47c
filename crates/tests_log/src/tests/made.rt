// What tests begin with.
ghost use Rattle.std.specs.Prelude.{◌≡◌, ◌<◌, ◌≤◌, ◌^◌, ◌∷◌, [], ℕ, true, Some, None, length, slice_get, IfOk};
ghost use Rattle.log_node.specs.Sets.{has, set_of};
ghost use Rattle.log_node.specs.declared.limits.TheConstants.{MAX_REGIONS};
ghost use Rattle.ring_ends.specs.declared.rings.Rings.{Rings};
ghost use Rattle.ring_ends.specs.Rings.{names_of};
ghost use Rattle.chain_store.specs.Histories.{FitsColumn};
ghost use Rattle.chain_store.specs.Opening.{AreNewEnds};
ghost use Rattle.chain_store.specs.Regions.{rings_at};
ghost use Rattle.tests_log.specs.Clients.{IsSmall, IsClient};
ghost use Rattle.stamp_board.specs.Rows.{AreColours};
ghost use Rattle.stamp_board.specs.declared.view.Size.{Size};

use chain_store::{Hold, Region};
use log_node::{Colours, Id, Key, ListOf, Node, Row, Shape, Text, Wants};
use ring_ends::{RingEnds, make_rings};
use std::alloc::{AllocError, Global};
use std::sync::Arc;

/// The key of a client's node with this count, under a stamp.
pub fn key_of(stamp: u64, client: u8, count: u64) -> Key
    ensures { result ≡ record { stamp = stamp; id = record { client = client; count = count } } }
{
    Key {
        stamp,
        id: Id { client, count },
    }
}

/// A client's node of this count in the colours 0 and 1 of the region 0, with the client's first row.
pub fn pair(alloc: Global, client: u8, count: u64) -> Result<Arc<Node>, AllocError>
    ensures id { IfOk result (λ node. node.value.id ≡ record { client = client; count = count }) }
    ensures row { IfOk result (λ node. node.value.row ≡ Some (record { client = client; number = 0 })) }
    ensures fits { IfOk result (λ node. (node.value.region ≡ 0) × (node.value.floor ≡ 0)) }
    ensures colours { IfOk result (λ node. node.value.colours ≡ set_of (0 ∷ 1 ∷ [])) }
    ensures each { IfOk result (λ node. (has node.value.colours 0 ≡ true) × (has node.value.colours 1 ≡ true)) }
    ensures both { IfOk result (λ node. (size : Size) → size.colours ≡ 2 → AreColours size node.value.colours) }
{
    let node = Node {
        id: Id { client, count },
        region: 0,
        colours: Colours::of(&[0, 1]),
        text: Text::copied(alloc, b"p")?,
        floor: 0,
        wants: Wants::new(alloc),
        row: Some(Row { client, number: 0 }),
    };
    Ok(Arc::new(alloc, node)?)
}

/// The first client's node of this count, which wants nothing, and may stand in the colour 0 or 1 of the region 0 alone.
pub fn alone(alloc: Global, count: u64) -> Result<Arc<Node>, AllocError>
    requires { count < 2 ^ 63 }
    ensures id { IfOk result (λ node. node.value.id ≡ record { client = 0; count = count }) }
    ensures row { IfOk result (λ node. node.value.row ≡ None) }
    ensures fits { IfOk result (λ node. FitsColumn 0 0 node.value × FitsColumn 0 1 node.value) }
{
    let node = Node {
        id: Id { client: 0, count },
        region: 0,
        colours: Colours::of(&[0, 1]),
        text: Text::copied(alloc, b"a")?,
        floor: 0,
        wants: Wants::new(alloc),
        row: None,
    };
    Ok(Arc::new(alloc, node)?)
}

/// Two regions of two colours, and two clients, each with one row.
pub fn small(alloc: Global) -> Result<Shape, AllocError>
    ensures { IfOk result (λ s. (s.regions ≡ 2) × (s.colours ≡ 2) × (length s.homes ≡ 2) × (s.rows ≡ 1)) }
{
    let mut homes = ListOf::new(alloc);
    homes.push(0)?;
    homes.push(0)?;
    Ok(Shape {
        regions: 2,
        colours: 2,
        homes,
        rows: 1,
    })
}

/// The first region's ends of new rings.
pub fn first_ends(alloc: Global, shape: &Shape) -> Result<RingEnds, AllocError>
    requires { (0 < shape.now.regions) × (shape.now.regions ≤ MAX_REGIONS) }
    ensures { IfOk result (λ ends. (length ends ≡ shape.now.colours) × AreNewEnds shape.now.regions ends) }
{
    let mut all = make_rings(alloc, shape)?.into_vec();
    Ok(all.swap_remove(0))
}

/// The region of this number in a small shape, with these ends of rings, and the holds of its two clients.
pub fn open_small(
    alloc: Global,
    number: u8,
    shape: &Shape,
    ends: RingEnds,
) -> Result<(Region, Hold, Hold), AllocError>
    requires number { number < 2 }
    requires shape { (shape.now.regions ≡ 2) × (shape.now.colours ≡ 2) × (length shape.now.homes ≡ 2)
        × (shape.now.rows ≡ 1) }
    requires ends { (length ends ≡ 2) × AreNewEnds 2 ends }
    ensures region { IfOk result (λ r. IsSmall number r.0) }
    ensures rings { IfOk result (λ r. (colour : ℕ) (rings : Rings) → slice_get ends colour ≡ Some rings
        → rings_at r.0 colour ≡ names_of rings) }
    ensures one { IfOk result (λ r. IsClient r.0 0 0 r.1) }
    ensures used { IfOk result (λ r. r.1.seat.used ≡ 0) }
    ensures two { IfOk result (λ r. IsClient r.0 1 0 r.2) }
{
    let (region, holds) = Region::open(alloc, number, shape, ends)?;
    let mut holds = holds.into_vec();
    match (holds.pop(), holds.pop()) {
        (Some(two), Some(one)) => Ok((region, one, two)),
        _ => unreachable!(),
    }
}
