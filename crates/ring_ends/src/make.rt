// The rings of all regions.
ghost use Rattle.std.specs.Prelude.{◌≡◌, length, OnOk, IfOk};
ghost use Rattle.ring_ends.specs.NewRings.{AreNewRings};
ghost use Rattle.ring_ends.specs.Making.{Leads, Joins, Grows, AreJoined, Dealt};

use crate::receives::Receives;
use crate::rings::Rings;
use crate::sends::Sends;
use log_node::{ListOf, Shape};
use rtrb::RingBuffer;
use std::alloc::{AllocError, Global};

/// How many nodes a ring holds.
pub const RING_ROOM: usize = 64;

/// The ends of a region's columns, by colour.
pub type RingEnds = ListOf<Rings>;

/// The ends of all columns, by region and colour.
pub type RingLists = ListOf<RingEnds>;

/// Makes a ring for each colour from each region to each other, and gives its two ends to the two columns.
pub fn make_rings(alloc: Global, shape: &Shape) -> Result<RingLists, AllocError>
    ensures { IfOk result (λ all. AreNewRings shape.now.regions shape.now.colours all) }
{
    let mut all = no_rings(alloc, shape.regions)?;
    for _ in 0..shape.colours {
        let column = rings_of_colour(alloc, shape.regions)?;
        deal(all.as_mut_slice(), column)?;
    }
    Ok(ListOf::from(all))
}

// An empty list for each region.
fn no_rings(alloc: Global, regions: u8) -> Result<Vec<RingEnds>, AllocError>
    ensures { IfOk result (λ all. AreNewRings regions 0 all.items) }
{
    let mut all = Vec::new(alloc);
    for _ in 0..regions {
        all.push(ListOf::new(alloc))?;
    }
    Ok(all)
}

// Each region's list has the region's column at its end.
fn deal(all: &mut [RingEnds], column: Vec<Rings>) -> Result<(), AllocError>
    requires { length column.items ≡ length all.old }
    ensures { OnOk result (Dealt column.items (length column.items) all.old all.new) }
{
    for (region, rings) in column.into_iter().enumerate() {
        all[region].push(rings)?;
    }
    Ok(())
}

// The columns of one colour, by region: each region comes to those before it.
fn rings_of_colour(alloc: Global, regions: u8) -> Result<Vec<Rings>, AllocError>
    ensures { IfOk result (λ all. AreJoined regions all.items) }
{
    let mut all = Vec::new(alloc);
    for _ in 0..regions {
        let newcomer = joined_with(alloc, all.as_mut_slice())?;
        all.push(newcomer)?;
    }
    Ok(all)
}

// The ends of a column that is joined with each of the others.
fn joined_with(alloc: Global, others: &mut [Rings]) -> Result<Rings, AllocError>
    ensures { IfOk result (λ newcomer. Grows (length others.old) newcomer others.old others.new) }
{
    let mut newcomer = Rings {
        sends: Vec::new(alloc),
        receives: Vec::new(alloc),
    };
    for other in others.iter_mut() {
        join(alloc, other, &mut newcomer)?;
    }
    Ok(newcomer)
}

// A ring from each of two columns to the other.
fn join(alloc: Global, one: &mut Rings, other: &mut Rings) -> Result<(), AllocError>
    ensures { OnOk result (Joins one.old one.new other.old other.new) }
{
    lead(alloc, one, other)?;
    lead(alloc, other, one)
}

// A ring from one column to another.
fn lead(alloc: Global, from: &mut Rings, to: &mut Rings) -> Result<(), AllocError>
    ensures { OnOk result (Leads from.old from.new to.old to.new) }
{
    let (producer, consumer) = RingBuffer::new(alloc, RING_ROOM)?;
    from.sends.push(Sends { producer, count: 0 })?;
    let waiting = Vec::new(alloc);
    to.receives.push(Receives { consumer, waiting })?;
    Ok(())
}
