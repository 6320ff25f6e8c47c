// What a client has not played of a column.
ghost use Rattle.std.specs.Prelude.{◌≡◌, ◌≤◌, ◌<◌, map, drop, take};
ghost use Rattle.log_node.specs.Vectors.{at, IsWithin};
ghost use Rattle.log_node.specs.Outcomes.{greatest};
ghost use Rattle.col_core.specs.PlayOrder.{greatest_between, nodes_between};
ghost use Rattle.column.specs.Columns.{chains_of, cut_of, base_of};

use column::Column;
use log_node::{Counts, Item, Key};

// The greatest stamp of the keys from one number on up to another.
fn greatest_key(keys: &[Key], from: u64, to: u64) -> u64
    ensures { result ≡ greatest (map (λ k. k.stamp) (drop from (take to keys.now))) }
{
    let end = (to as usize).min(keys.len());
    let start = (from as usize).min(end);
    let mut most = 0;
    for key in &keys[start..end] {
        most = key.stamp.max(most);
    }
    most
}

// The greatest stamp of the carried nodes from one number on up to another.
fn greatest_item(items: &[Item], from: u64, to: u64) -> u64
    ensures { result ≡ greatest (map (λ i. i.head.key.stamp) (drop from (take to items.now))) }
{
    let end = (to as usize).min(items.len());
    let start = (from as usize).min(end);
    let mut most = 0;
    for item in &items[start..end] {
        most = item.head.key.stamp.max(most);
    }
    most
}

// The greatest stamp of the nodes of a region's chain from one number on up to another.
fn greatest_of(column: &Column, own: u8, region: u8, played: Counts) -> u64
    requires own { column.now.region ≡ own }
    requires region { region < 4 }
    requires base { IsWithin (base_of column.now) played }
    ensures { result
        ≡ greatest (map (λ h. h.key.stamp) (nodes_between (chains_of column.now) played (cut_of column.now) region)) }
{
    column.agrees();
    let from = played.0[region as usize];
    let to = column.cut().0[region as usize];
    if region == own {
        return greatest_key(column.line(), from, to);
    }
    let base = column.base().0[region as usize];
    greatest_item(
        column.copy(region),
        from.saturating_sub(base),
        to.saturating_sub(base),
    )
}

/// The greatest stamp of the nodes of a region's column that these counts leave out; 0 where they leave out none.
pub(crate) fn unplayed_stamp(column: &Column, region: u8, played: Counts) -> u64
    requires region { column.now.region ≡ region }
    requires base { IsWithin (base_of column.now) played }
    ensures { result ≡ greatest_between (chains_of column.now) played (cut_of column.now) }
{
    greatest_of(column, region, 0, played)
        .max(greatest_of(column, region, 1, played))
        .max(greatest_of(column, region, 2, played))
        .max(greatest_of(column, region, 3, played))
}
