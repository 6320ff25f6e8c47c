// How boxes are joined.
ghost use Rattle.std.specs.Prelude.{◌≡◌};
ghost use Rattle.std.specs.List.{list_any, find, flat_map};
ghost use Rattle.std.specs.Option.{option_copied};
ghost use Rattle.report_text.specs.Output.{Adds};
ghost use Rattle.run_picture.specs.Links.{stands_at, is_next_of, covers, count_before, is_covered, is_implied, node_at, link_text, link_to, chain_of, edge_to, band_link, chain_link, edge_link, links_of};

use crate::marks::count_of;
use crate::picture::{NodeBox, Spot, Tie};
use crate::pieces::{Piece, put_all};
use crate::spots::{slot_x, spot_y};
use report_text::Output;

/// The numbers that regions may have.
const REGIONS: [u8; 4] = [0, 1, 2, 3];

// Whether the box is of the node at this position of the line of this region and colour.
fn stands_at(node: &NodeBox, region: u8, colour: u8, position: u64) -> bool
    ensures { result ≡ stands_at region colour position node.now }
{
    node.mark.kind.is_in_line()
        && node.region == region
        && node.colour == colour
        && node.mark.position == position
}

// The box of the node at this position, where it is drawn.
fn node_at(boxes: &[NodeBox], region: u8, colour: u8, position: u64) -> Option<&NodeBox>
    ensures { option_copied result ≡ node_at boxes.now region colour position }
{
    boxes
        .iter()
        .find(|node| stands_at(node, region, colour, position))
}

// Whether the second box is of the same node in a later colour.
fn is_next_of(node: &NodeBox, other: &NodeBox) -> bool
    ensures { result ≡ is_next_of node.now other.now }
{
    other.mark.key.id == node.mark.key.id
        && other.region == node.region
        && other.colour > node.colour
}

// The box of the same node in the next of its colours, where there is one.
fn next_of<'a>(boxes: &'a [NodeBox], node: &NodeBox) -> Option<&'a NodeBox>
    ensures { option_copied result ≡ find (is_next_of node.now) boxes.now }
{
    boxes.iter().find(|other| is_next_of(node, other))
}

// Whether the box is of one of the first nodes of this region and colour, and wants so many of a region.
fn covers(node: &NodeBox, by: u8, colour: u8, count: u64, region: u8, wanted: u64) -> bool
    ensures { result ≡ covers by colour count region wanted node.now }
{
    node.mark.kind.is_in_line()
        && node.region == by
        && node.colour == colour
        && node.mark.position < count
        && wanted <= count_of(&node.wants, region)
}

// Whether one of the first nodes of this region and colour wants so many of a region.
fn is_wanted(boxes: &[NodeBox], by: u8, colour: u8, count: u64, region: u8, wanted: u64) -> bool
    ensures { result ≡ list_any (covers by colour count region wanted) boxes.now }
{
    boxes
        .iter()
        .any(|other| covers(other, by, colour, count, region, wanted))
}

// How many nodes of the region a node comes after: of its own those before it, and of another those that it wants.
fn count_before(node: &NodeBox, by: u8) -> u64
    ensures { result ≡ count_before node.now by }
{
    if by == node.region {
        node.mark.position
    } else {
        count_of(&node.wants, by)
    }
}

// Whether a node of the region that comes before this one wants as much as it does.
fn is_covered(boxes: &[NodeBox], node: &NodeBox, region: u8, by: u8) -> bool
    ensures { result ≡ is_covered boxes.now node.now region by }
{
    let count = count_before(node, by);
    let wanted = count_of(&node.wants, region);
    by != region && is_wanted(boxes, by, node.colour, count, region, wanted)
}

// Whether nodes that come before this one imply what it wants of the region.
fn is_implied(boxes: &[NodeBox], node: &NodeBox, region: u8) -> bool
    ensures { result ≡ is_implied boxes.now node.now region }
{
    REGIONS
        .iter()
        .any(|by| is_covered(boxes, node, region, *by))
}

// The box of the predecessor in the chain, where it is drawn.
fn chain_of<'a>(boxes: &'a [NodeBox], node: &NodeBox) -> Option<&'a NodeBox>
    ensures { option_copied result ≡ chain_of boxes.now node.now }
{
    if !node.mark.kind.is_in_line() || node.mark.position == 0 {
        return None;
    }
    node_at(boxes, node.region, node.colour, node.mark.position - 1)
}

// The box of the last node that is wanted of a region, where it is drawn, and no node before this one implies it.
fn edge_to<'a>(boxes: &'a [NodeBox], node: &NodeBox, region: u8) -> Option<&'a NodeBox>
    ensures { option_copied result ≡ edge_to boxes.now node.now region }
{
    let wanted = count_of(&node.wants, region);
    if region == node.region || wanted == 0 || is_implied(boxes, node, region) {
        return None;
    }
    node_at(boxes, region, node.colour, wanted - 1)
}

// A line from a box to another.
fn put_link<O: Output>(tie: Tie, from: Spot, to: Spot, out: &mut O)
    ensures { Adds (O.state out.old) (O.state out.new) (link_text tie from to) }
{
    put_all(
        &[
            Piece::Mark("<path class='"),
            Piece::Mark(tie.class()),
            Piece::Mark("' d='M"),
            Piece::Number(slot_x(from.slot) + tie.start()),
            Piece::Mark(" "),
            Piece::Number(spot_y(from) + 18),
            Piece::Mark("L"),
            Piece::Number(slot_x(to.slot) + tie.end()),
            Piece::Mark(" "),
            Piece::Number(spot_y(to) + 18),
            Piece::Mark("'/>\n"),
        ],
        out,
    );
}

// The same, where there is a box to join.
fn put_link_to<O: Output>(tie: Tie, node: &NodeBox, other: Option<&NodeBox>, out: &mut O)
    ensures { Adds (O.state out.old) (O.state out.new) (link_to tie node.now (option_copied other.entry)) }
{
    match other {
        Some(other) => put_link(tie, node.at, other.at, out),
        None => put_all(&[], out),
    }
}

// The edges to what a node wants of these regions.
fn put_edges<O: Output>(boxes: &[NodeBox], node: &NodeBox, regions: &[u8], out: &mut O)
    ensures { Adds (O.state out.old) (O.state out.new) (flat_map (edge_link boxes.now node.now) regions.now) }
{
    for region in regions {
        put_edge(boxes, node, *region, out);
    }
}

// The band to the same node's box in its next colour.
fn put_band<O: Output>(boxes: &[NodeBox], node: &NodeBox, out: &mut O)
    ensures { Adds (O.state out.old) (O.state out.new) (band_link boxes.now node.now) }
{
    put_link_to(Tie::Band, node, next_of(boxes, node), out);
}

// The arrow to the predecessor in the chain.
fn put_chain<O: Output>(boxes: &[NodeBox], node: &NodeBox, out: &mut O)
    ensures { Adds (O.state out.old) (O.state out.new) (chain_link boxes.now node.now) }
{
    put_link_to(Tie::Chain, node, chain_of(boxes, node), out);
}

// The edge to what a node wants of a region.
fn put_edge<O: Output>(boxes: &[NodeBox], node: &NodeBox, region: u8, out: &mut O)
    ensures { Adds (O.state out.old) (O.state out.new) (edge_link boxes.now node.now region) }
{
    put_link_to(Tie::Edge, node, edge_to(boxes, node, region), out);
}

// The links from a box to others.
fn put_links_of<O: Output>(boxes: &[NodeBox], node: &NodeBox, out: &mut O)
    ensures { Adds (O.state out.old) (O.state out.new) (links_of boxes.now node.now) }
{
    put_band(boxes, node, out);
    put_chain(boxes, node, out);
    put_edges(boxes, node, &REGIONS, out);
}

/// The links between the boxes, from each of these.
pub fn put_links<O: Output>(boxes: &[NodeBox], nodes: &[NodeBox], out: &mut O)
    ensures { Adds (O.state out.old) (O.state out.new) (flat_map (links_of boxes.now) nodes.now) }
{
    for node in nodes {
        put_links_of(boxes, node, out);
    }
}
