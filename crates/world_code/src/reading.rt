// What clients play and see.
ghost use Rattle.std.specs.Prelude.{◌≡◌, ◌<◌, true, false, None, IfSome, IfOk, length};
ghost use Rattle.world_laws.specs.Worlds.{after, reply, home_of};
ghost use Rattle.world_laws.specs.Worlds.{may_see, after_seen};
ghost use Rattle.world_laws.specs.Worlds.{may_play, after_play, played_cut};
ghost use Rattle.world_code.specs.WorldView.{world_of};
ghost use Rattle.world_code.specs.Looks.{IsLook};
ghost use Rattle.world_code.specs.Replies.{played_reply};

use crate::unplayed::unplayed_stamp;
use crate::world::World;
use col_core::View;
use log_node::Counts;
use std::alloc::{AllocError, Global};
use world_laws::Step;

impl World {
    /// The client plays what the cut of a colour's column has, from where it has played.
    pub fn play(&mut self, client: u8, colour: u8) -> Option<Counts>
        ensures world { world_of self.new ≡ after (world_of self.old) (Step.Play client colour) }
        ensures reply { played_reply result ≡ reply (world_of self.old) (Step.Play client colour) }
    {
        let home = self.play_home(client, colour)?;
        Some(self.add_play(client, home, colour))
    }

    // The client's region, where there is the column, and no node that the client has not played is trimmed.
    fn play_home(&self, client: u8, colour: u8) -> Option<u8>
        ensures some { IfSome result (λ home. (may_play (world_of self.now) client colour ≡ true)
            × (home_of (world_of self.now) client ≡ home)) }
        ensures none { result ≡ None → may_play (world_of self.now) client colour ≡ false }
    {
        let home = *self.shape.homes.get(client as usize)?;
        if colour >= self.shape.colours || !self.keeps_unplayed(client, home, colour) {
            return None;
        }
        Some(home)
    }

    // Whether no node that the client has not played is trimmed.
    fn keeps_unplayed(&self, client: u8, home: u8, colour: u8) -> bool
        requires client { client < length self.now.shape.homes }
        requires home { home_of (world_of self.now) client ≡ home }
        requires colour { colour < self.now.shape.colours }
        ensures { result ≡ may_play (world_of self.now) client colour }
    {
        let _whole = &self.shape;
        let base = self.column(home, colour).base();
        base.is_within(self.client(client).played(colour))
    }

    // Plays up to the cut, which may be done.
    fn add_play(&mut self, client: u8, home: u8, colour: u8) -> Counts
        requires may { may_play (world_of self.old) client colour ≡ true }
        requires home { home_of (world_of self.old) client ≡ home }
        ensures world { world_of self.new ≡ after_play (world_of self.old) client colour }
        ensures cut { result ≡ played_cut (world_of self.old) client colour }
    {
        let played = self.client(client).played(colour);
        let column = self.column(home, colour);
        let cut = column.cut();
        let stamp = unplayed_stamp(column, home, played);
        self.clients[client as usize].play(colour, cut, stamp);
        cut
    }

    /// The client has seen a stamp of a column of its region, where it is above all that it has seen.
    pub fn see(&mut self, client: u8, to: u64)
        ensures { world_of self.new ≡ after (world_of self.old) (Step.Seen client to) }
    {
        if self.may_see(client, to) {
            self.add_seen(client, to);
        }
    }

    // Whether there is such a column, and the stamp is above what the client has seen.
    fn may_see(&self, client: u8, to: u64) -> bool
        ensures { result ≡ may_see (world_of self.now) client to }
    {
        let Some(home) = self.shape.homes.get(client as usize) else {
            return false;
        };
        let home = *home;
        self.client(client).floor() < to && self.regions[home as usize].reaches(to)
    }

    // Sees the stamp, which may be seen.
    fn add_seen(&mut self, client: u8, to: u64)
        requires { may_see (world_of self.old) client to ≡ true }
        ensures { world_of self.new ≡ after_seen (world_of self.old) client to }
    {
        self.clients[client as usize].see(to);
    }

    /// What the client sees of a colour's column of its region, from what it has played of it.
    pub fn look(&self, alloc: Global, client: u8, colour: u8) -> Result<View, AllocError>
        requires client { client < length self.now.shape.homes }
        requires colour { colour < self.now.shape.colours }
        ensures { IfOk result (λ view. IsLook (world_of self.now) client colour view) }
    {
        let _whole = &self.shape;
        let home = self.home(client);
        let played = self.client(client).played(colour);
        let view = self.column(home, colour).look(alloc, played)?;
        Ok(view)
    }
}
