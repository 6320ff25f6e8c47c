// Appends: to one colour, and the beginning of one to several.
ghost use Rattle.std.specs.Prelude.{◌≡◌, ◌<◌, true, false, None, IfSome, length, IfOk, OnOk};
ghost use Rattle.std.specs.Prelude.{Some, OnErr, max, ◌==◌, nat_lt};
ghost use Rattle.std.specs.List.{list_all};
ghost use Rattle.log_node.specs.Sets.{members};
ghost use Rattle.world_laws.specs.Worlds.{after, reply, home_of, event_reply, next_id, next_row};
ghost use Rattle.world_laws.specs.Worlds.{may_single, after_single};
ghost use Rattle.world_laws.specs.Worlds.{single_stamp, may_begin, after_begin};
ghost use Rattle.world_code.specs.WorldView.{world_of, client_at, with_client_room};
ghost use Rattle.world_code.specs.Clients.{next_single, next_begun};
ghost use Rattle.world_code.specs.Replies.{placed_reply, begun_reply};

use crate::replies::{NewRow, Placed};
use crate::world::World;
use column::ColumnFault;
use log_node::{Colours, MAX_STAMP, Node, Row, Text};
use std::alloc::{AllocError, Global};
use std::sync::Arc;
use world_laws::{Reply, Step};

impl World {
    /// The client appends to one colour: its next node enters the column of its region as final.
    pub fn single(
        &mut self,
        alloc: Global,
        client: u8,
        colour: u8,
        text: Text,
    ) -> Result<Option<Placed>, AllocError>
        ensures ok { OnOk result (world_of self.new ≡ after (world_of self.old) (Step.Single client colour text)) }
        ensures reply { IfOk result (λ placed.
            placed_reply placed ≡ reply (world_of self.old) (Step.Single client colour text)) }
        ensures err { OnErr result (world_of self.new ≡ world_of self.old) }
    {
        let _whole = &self.shape;
        let Some(home) = self.single_home(client, colour) else {
            return Ok(None);
        };
        let node = self
            .client(client)
            .single_node(alloc, client, home, colour, text)?;
        let node = Arc::new(alloc, node)?;
        let shared = node.clone()?;
        self.client_room(client)?;
        match self.add_single(client, home, colour, node, shared) {
            Ok(placed) => Ok(Some(placed)),
            Err(_) => Err(AllocError),
        }
    }

    // The client's region, where the client may append to the colour.
    fn single_home(&self, client: u8, colour: u8) -> Option<u8>
        ensures some { IfSome result (λ home. (may_single (world_of self.now) client colour ≡ true)
            × (home_of (world_of self.now) client ≡ home)) }
        ensures none { result ≡ None → may_single (world_of self.now) client colour ≡ false }
    {
        let home = *self.shape.homes.get(client as usize)?;
        if colour >= self.shape.colours {
            return None;
        }
        let clock = self.column(home, colour).clock();
        let floor = self.client(client).floor();
        if clock.max(floor) == MAX_STAMP {
            return None;
        }
        Some(home)
    }

    // Takes the memory for one node more of a client.
    pub(crate) fn client_room(&mut self, client: u8) -> Result<(), AllocError>
        requires { client < length self.old.shape.homes }
        ensures ok { OnOk result (self.new ≡ with_client_room self.old client) }
        ensures err { OnErr result (self.new ≡ self.old) }
    {
        self.clients[client as usize].room()?;
        Ok(())
    }

    // The node enters the column, and is the client's next one.
    fn add_single(
        &mut self,
        client: u8,
        home: u8,
        colour: u8,
        node: Arc<Node>,
        shared: Arc<Node>,
    ) -> Result<Placed, ColumnFault>
        requires may { may_single (world_of self.old) client colour ≡ true }
        requires home { home_of (world_of self.old) client ≡ home }
        requires node { node.value ≡ next_single (client_at self.old client) client home colour node.value.text }
        requires shared { shared.value ≡ node.value }
        requires room { 0 < (client_at self.old client).spare }
        ensures ok { OnOk result (world_of self.new ≡ after_single (world_of self.old) client colour node.value.text) }
        ensures placed { IfOk result (λ placed. placed_reply (Some placed)
            ≡ event_reply (world_of self.old) home colour (single_stamp (world_of self.old) client colour)) }
        ensures err { OnErr result (self.new ≡ self.old) }
    {
        let placed = self.regions[home as usize].single(client, colour, node)?;
        self.clients[client as usize].append(shared, placed.stamp);
        Ok(placed)
    }

    /// The client begins its next row, for an append to these colours.
    pub fn begin(
        &mut self,
        alloc: Global,
        client: u8,
        colours: Colours,
        text: Text,
    ) -> Result<Option<NewRow>, AllocError>
        ensures ok { OnOk result (world_of self.new ≡ after (world_of self.old) (Step.Begin client colours text)) }
        ensures reply { IfOk result (λ begun.
            begun_reply begun ≡ reply (world_of self.old) (Step.Begin client colours text)) }
        ensures err { OnErr result (world_of self.new ≡ world_of self.old) }
    {
        let _whole = &self.shape;
        if !self.may_begin(client, colours) {
            return Ok(None);
        }
        self.client_room(client)?;
        match self.begin_node(alloc, client, colours, text) {
            Ok(begun) => Ok(Some(begun)),
            Err(_) => Err(AllocError),
        }
    }

    // Begins the row, which may be begun, where there is memory for one node and one row of the client.
    fn begin_node(
        &mut self,
        alloc: Global,
        client: u8,
        colours: Colours,
        text: Text,
    ) -> Result<NewRow, AllocError>
        requires may { may_begin (world_of self.old) client colours ≡ true }
        requires room { 0 < (client_at self.old client).spare }
        ensures ok { OnOk result (world_of self.new ≡ after_begin (world_of self.old) client colours text) }
        ensures begun { IfOk result (λ begun. begun_reply (Some begun)
            ≡ Reply.Begun (next_row (world_of self.old) client) (next_id (world_of self.old) client)) }
        ensures err { OnErr result (self.new ≡ self.old) }
    {
        let _whole = &self.shape;
        let home = self.home(client);
        let row = self.row_to_begin(client);
        let node = self
            .client(client)
            .begun_node(alloc, home, colours, text, row)?;
        let node = Arc::new(alloc, node)?;
        let shared = node.clone()?;
        Ok(self.add_begin(row, colours, node, shared))
    }

    // Whether the client may begin a row for these colours.
    fn may_begin(&self, client: u8, colours: Colours) -> bool
        ensures { result ≡ may_begin (world_of self.now) client colours }
    {
        if client as usize >= self.shape.homes.len() {
            return false;
        }
        let Ok(_) = self.board.next_row(client) else {
            return false;
        };
        if colours.count() < 2 {
            return false;
        }
        self.has_colours(colours)
    }

    // The row that the client begins next.
    fn row_to_begin(&self, client: u8) -> Row
        requires client { client < length self.now.shape.homes }
        requires row { length (client_at self.now client).begun < self.now.shape.rows }
        ensures { result ≡ next_row (world_of self.now) client }
    {
        match self.board.next_row(client) {
            Ok(row) => row,
            Err(_) => unreachable!(),
        }
    }

    // Whether these are colours of the log.
    fn has_colours(&self, colours: Colours) -> bool
        ensures { result ≡ list_all (λ c. nat_lt c self.now.shape.colours) (members colours) }
    {
        let limit = self.shape.colours;
        colours.members().all(|colour| colour < limit)
    }

    // The row is begun, for the client's next node.
    fn add_begin(
        &mut self,
        row: Row,
        colours: Colours,
        node: Arc<Node>,
        shared: Arc<Node>,
    ) -> NewRow
        requires may { may_begin (world_of self.old) row.client colours ≡ true }
        requires row { row ≡ next_row (world_of self.old) row.client }
        requires node { node.value ≡ next_begun (client_at self.old row.client) row.client
            (home_of (world_of self.old) row.client) colours node.value.text }
        requires shared { shared.value ≡ node.value }
        requires room { 0 < (client_at self.old row.client).spare }
        ensures world { world_of self.new
            ≡ after_begin (world_of self.old) row.client colours node.value.text }
        ensures begun { begun_reply (Some result) ≡ Reply.Begun row (next_id (world_of self.old) row.client) }
    {
        let id = node.id;
        let Ok(_) = self.board.begin(row.client, &node) else {
            unreachable!()
        };
        self.clients[row.client as usize].begin(node, shared);
        NewRow { row, id }
    }
}
