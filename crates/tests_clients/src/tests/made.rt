// What tests begin with.
ghost use Rattle.std.specs.Prelude.{◌≡◌, [], ◌∷◌, IfOk};
ghost use Rattle.log_client.specs.Clients.{IsClient};
ghost use Rattle.tests_clients.specs.Stores.{IsSmall};

use log_client::{Client, Store};
use log_node::{ColourList, ListOf, Shape};
use std::alloc::{AllocError, Global};

// One region of two colours, and two clients with one row each.
fn shape(alloc: Global) -> Result<Shape, AllocError>
    ensures { IfOk result (λ s. (s.regions ≡ 1) × (s.colours ≡ 2) × (s.rows ≡ 1) × (s.homes ≡ 0 ∷ 0 ∷ [])) }
{
    let mut homes = ListOf::new(alloc);
    homes.push(0)?;
    homes.push(0)?;
    Ok(Shape {
        regions: 1,
        colours: 2,
        homes,
        rows: 1,
    })
}

/// A store of that shape, with its two clients.
pub fn opened(alloc: Global) -> Result<(Store, Client, Client), AllocError>
    ensures store { IfOk result (λ r. IsSmall r.0) }
    ensures one { IfOk result (λ r. IsClient r.0 r.1 × (r.1.number ≡ 0)) }
    ensures two { IfOk result (λ r. IsClient r.0 r.2 × (r.2.number ≡ 1)) }
{
    let shape = shape(alloc)?;
    let (store, clients) = Store::open(alloc, &shape)?;
    let mut clients = clients.into_vec();
    match (clients.pop(), clients.pop()) {
        (Some(two), Some(one)) => Ok((store, one, two)),
        _ => unreachable!(),
    }
}

/// The colours 0 and 1.
pub fn two_colours(alloc: Global) -> Result<ColourList, AllocError>
    ensures { IfOk result (λ colours. colours ≡ 0 ∷ 1 ∷ []) }
{
    let mut colours = ListOf::new(alloc);
    colours.push(0)?;
    colours.push(1)?;
    Ok(colours)
}
