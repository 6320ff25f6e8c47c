// The objects of a script as a client opens them.
ghost use Rattle.std.specs.Prelude.{◌≡◌, ◌≤◌, IfOk, length};
ghost use Rattle.log_node.specs.declared.limits.TheConstants.{MAX_COLOURS};
ghost use Rattle.script_text.specs.Apart.{colours_of};
ghost use Rattle.run_script.specs.Opened.{kind_opened, AreUnopened, IsUnfolded};

use atomic_map::AtomicMap;
use causal_map::CausalMap;
use log_map::LogMap;
use log_node::{ColourList, ListOf};
use log_queue::LogQueue;
use log_tree::LogTree;
use region_fold::{Tx, TxMap};
use script_text::{Kind, Object};
use std::alloc::{AllocError, Global};
use tx_parts::PartPlayers;

/// An object of a script, as one client has opened it; of a transactional map what its last read found, until a commit uses it
/// up, and players of its colours where it keeps these to itself.
#[derive(Drop)]
pub enum Opened {
    Map {
        single: LogMap,
        several: AtomicMap,
    },
    Tx {
        players: Option<PartPlayers>,
        map: TxMap,
        found: Option<Tx>,
    },
    Causal(CausalMap),
    Queue(LogQueue),
    Tree(LogTree),
}

// Colours once more.
fn copied(alloc: Global, colours: &[u8]) -> Result<ColourList, AllocError>
    ensures { IfOk result (λ copy. copy ≡ colours.now) }
{
    Ok(ListOf::from(Vec::from_slice(alloc, colours)?))
}

// Opens a transactional map.
fn open_tx(alloc: Global, home: u8, colours: &[u8]) -> Result<Opened, AllocError>
    ensures kind { IfOk result (λ x. kind_opened x ≡ Kind.Tx home colours.now) }
    ensures unfolded { IfOk result IsUnfolded }
{
    let map = TxMap::open(alloc, home, copied(alloc, colours)?);
    Ok(Opened::Tx {
        players: None,
        map,
        found: None,
    })
}

// Opens one that keeps its colours to itself.
fn open_parts(alloc: Global, home: u8, colours: &[u8]) -> Result<Opened, AllocError>
    requires { length colours.now ≤ MAX_COLOURS }
    ensures kind { IfOk result (λ x. kind_opened x ≡ Kind.Parts home colours.now) }
    ensures unfolded { IfOk result IsUnfolded }
{
    let players = PartPlayers::open(alloc, home, copied(alloc, colours)?);
    let map = TxMap::open(alloc, home, copied(alloc, colours)?);
    Ok(Opened::Tx {
        players: Some(players),
        map,
        found: None,
    })
}

/// Opens an object of this kind.
pub fn open(alloc: Global, kind: &Kind) -> Result<Opened, AllocError>
    requires { length (colours_of kind.now) ≤ MAX_COLOURS }
    ensures kind { IfOk result (λ x. kind_opened x ≡ kind.now) }
    ensures unfolded { IfOk result IsUnfolded }
{
    match kind {
        Kind::Map { home, colours } => {
            let copy = copied(alloc, colours.as_slice())?;
            let single = LogMap::open(alloc, *home, copy);
            let again = copied(alloc, colours.as_slice())?;
            let several = AtomicMap::open(alloc, *home, again);
            Ok(Opened::Map { single, several })
        }
        Kind::Tx { home, colours } => open_tx(alloc, *home, colours.as_slice()),
        Kind::Parts { home, colours } => open_parts(alloc, *home, colours.as_slice()),
        Kind::Causal { colour } => {
            let map = CausalMap::open(alloc, *colour);
            Ok(Opened::Causal(map))
        }
        Kind::Queue { home, colour } => {
            let queue = LogQueue::open(alloc, *home, *colour);
            Ok(Opened::Queue(queue))
        }
        Kind::Tree { home, colours } => {
            let copy = copied(alloc, colours.as_slice())?;
            let tree = LogTree::open(alloc, *home, copy);
            Ok(Opened::Tree(tree))
        }
    }
}

/// A slot for each object, by number; none of them is opened.
pub fn unopened(alloc: Global, objects: &[Object]) -> Result<Vec<Option<Opened>>, AllocError>
    ensures { IfOk result (λ slots. AreUnopened objects.now slots.items) }
{
    let mut slots = Vec::with_capacity(alloc, objects.len())?;
    for _object in objects {
        slots.push_reserved(None);
    }
    Ok(slots)
}
