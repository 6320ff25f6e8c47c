// What a client has used, seen and played.
ghost use Rattle.std.specs.Prelude.{◌≡◌, ◌+◌, ◌<◌, ◌++◌, ◌∷◌, [], replicate, max, length, slice_index_or, slice_set};
ghost use Rattle.std.specs.Prelude.{◌≤◌, slice_get, Some, None, IfSome, IfOk, OnOk, OnErr};
ghost use Rattle.log_node.specs.Vectors.{zeros};
ghost use Rattle.log_node.specs.Sets.{members};
ghost use Rattle.world_code.specs.Clients.{fresh_client, with_spare, with_next_node, with_next_row, next_single};
ghost use Rattle.world_code.specs.Clients.{next_begun, played_of};

use log_node::{Colours, Counts, Id, ListOf, MAX_COLOURS, Node, Row, Text, Wants};
use std::alloc::{AllocError, Global};
use std::marker::Model;
use std::sync::Arc;

/// A client: how many ids it has used, the greatest stamp that it has seen, for each colour the cut of its last play,
/// its nodes in the order of their ids, and those among them that it began rows for.
#[derive(Drop)]
pub struct Client {
    floor: u64,
    played: Vec<Counts>,
    nodes: Vec<Arc<Node>>,
    begun: Vec<Arc<Node>>,
    // For how many more nodes and rows there is memory.
    spare: usize,
}

impl Model for Client {
    ghost use Rattle.std.specs.Prelude.{◌+◌, ◌≤◌, map, length, vec_capacity};
    ghost use Rattle.world_code.specs.Clients.{ClientView};

    ghost Value = { ClientView };

    ghost view = { λ a. record {
      count = length a.nodes.items;
      floor = a.floor;
      played = a.played.items;
      nodes = map (λ n. n.value) a.nodes.items;
      begun = map (λ n. n.value) a.begun.items;
      spare = a.spare;
    } };

    ghost invariant = { λ a. (length a.nodes.items + a.spare ≤ vec_capacity a.nodes)
        × (length a.begun.items + a.spare ≤ vec_capacity a.begun) };
}

impl Client {
    /// A client that has used, seen and played nothing.
    pub fn open(alloc: Global) -> Result<Client, AllocError>
        ensures { IfOk result (λ client. client ≡ fresh_client) }
    {
        let mut played = Vec::new(alloc);
        for _ in 0..MAX_COLOURS {
            played.push(Counts::zeros())?;
        }
        Ok(Client {
            floor: 0,
            played,
            nodes: Vec::new(alloc),
            begun: Vec::new(alloc),
            spare: 0,
        })
    }

    /// How many ids it has used.
    pub fn count(&self) -> u64
        ensures { result ≡ self.now.count }
    {
        self.nodes.len() as u64
    }

    /// The greatest stamp that it has seen.
    pub fn floor(&self) -> u64
        ensures { result ≡ self.now.floor }
    {
        self.floor
    }

    /// The cut of its last play of a colour.
    pub fn played(&self, colour: u8) -> Counts
        requires { colour < length self.now.played }
        ensures { result ≡ slice_index_or self.now.played colour zeros }
    {
        self.played[colour as usize]
    }

    /// It has seen a stamp.
    pub fn see(&mut self, to: u64)
        ensures { self.new ≡ record self.old { floor = to } }
    {
        self.floor = to;
    }

    /// It has played a colour up to a cut, and seen a stamp.
    pub fn play(&mut self, colour: u8, cut: Counts, stamp: u64)
        requires { colour < length self.old.played }
        ensures { self.new ≡ record self.old {
          floor = max self.old.floor stamp;
          played = slice_set self.old.played colour cut;
        } }
    {
        self.played[colour as usize] = cut;
        self.floor = self.floor.max(stamp);
    }

    /// Its node of a number, counted from 0; `None` exactly where it has no more than `number` nodes.
    pub fn node(&self, number: u64) -> Option<&Arc<Node>>
        ensures some { IfSome result (λ node. slice_get self.now.nodes number ≡ Some node.now.value) }
        ensures none { result ≡ None → length self.now.nodes ≤ number }
    {
        self.nodes.get(number as usize)
    }

    /// The node of its row of a number; `None` exactly where it has begun no more than `number` rows.
    pub fn row_node(&self, number: u32) -> Option<&Arc<Node>>
        ensures some { IfSome result (λ node. slice_get self.now.begun number ≡ Some node.now.value) }
        ensures none { result ≡ None → length self.now.begun ≤ number }
    {
        self.begun.get(number as usize)
    }

    /// Takes the memory for one node and one row more, unless it is there.
    pub fn room(&mut self) -> Result<(), AllocError>
        ensures ok { OnOk result (self.new ≡ with_spare self.old) }
        ensures err { OnErr result (self.new ≡ self.old) }
    {
        if self.spare > 0 {
            return Ok(());
        }
        self.nodes.reserve(1)?;
        self.begun.reserve(1)?;
        self.spare = 1;
        Ok(())
    }

    /// Its next node entered under a stamp.
    pub fn append(&mut self, node: Arc<Node>, stamp: u64)
        requires { 0 < self.old.spare }
        ensures { self.new ≡ with_next_node self.old node.value stamp }
    {
        self.nodes.push_reserved(node);
        self.spare -= 1;
        self.floor = stamp;
    }

    /// Its next row is begun, for its next node.
    pub fn begin(&mut self, node: Arc<Node>, shared: Arc<Node>)
        requires room { 0 < self.old.spare }
        requires shared { shared.value ≡ node.value }
        ensures { self.new ≡ with_next_row self.old node.value }
    {
        self.nodes.push_reserved(node);
        self.begun.push_reserved(shared);
        self.spare -= 1;
    }

    // What it has played of these colours.
    fn played_of(&self, alloc: Global, colours: Colours) -> Result<Wants, AllocError>
        requires { length self.now.played ≡ MAX_COLOURS }
        ensures { IfOk result (λ wants. wants ≡ played_of self.now (members colours)) }
    {
        let mut wants = Wants::new(alloc);
        for colour in colours.members() {
            let played = self.played(colour);
            wants.push(played)?;
        }
        Ok(wants)
    }

    /// The node of its next append to several colours, for its next row.
    pub fn begun_node(
        &self,
        alloc: Global,
        home: u8,
        colours: Colours,
        text: Text,
        row: Row,
    ) -> Result<Node, AllocError>
        requires played { length self.now.played ≡ MAX_COLOURS }
        requires row { row.number ≡ length self.now.begun }
        ensures { IfOk result (λ node. node ≡ next_begun self.now row.client home colours text) }
    {
        let wants = self.played_of(alloc, colours)?;
        let count = self.count();
        Ok(Node {
            id: Id {
                client: row.client,
                count,
            },
            region: home,
            colours,
            text,
            floor: self.floor,
            wants,
            row: Some(row),
        })
    }

    /// The node of its next append to one colour.
    pub fn single_node(
        &self,
        alloc: Global,
        client: u8,
        home: u8,
        colour: u8,
        text: Text,
    ) -> Result<Node, AllocError>
        requires client { colour < length self.now.played }
        requires colour { colour < MAX_COLOURS }
        ensures { IfOk result (λ node. node ≡ next_single self.now client home colour text) }
    {
        let mut wants = Wants::new(alloc);
        wants.push(self.played(colour))?;
        Ok(Node {
            id: Id {
                client,
                count: self.count(),
            },
            region: home,
            colours: Colours::of(&[colour]),
            text,
            floor: self.floor,
            wants,
            row: None,
        })
    }
}
