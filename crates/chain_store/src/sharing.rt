// Columns whose looks need not wait: by the turn where it is free, and else by a published copy.
ghost use Rattle.std.specs.Prelude.{◌≡◌, ℕ, ◌<◌, IfOk, IfSome};
ghost use Rattle.turn_cell.specs.Cells.{seen, AreNewPasses};
ghost use Rattle.chain_store.specs.Looking.{ShowsOn};
ghost use Rattle.chain_store.specs.Passes.{IsHolder, SeesMore, ShowsHistory, tag_in};
ghost use Rattle.chain_store.specs.Desks.{IsDesk, IsShareOf, column_copied};

use crate::looks::{Looked, look_in, look_now, look_on_in, look_on_now};
use crate::read_view::beside::{look_beside, look_on_beside};
use crate::read_view::copies::Copies;
use crate::read_view::desk::{Desk, Share};
use crate::read_view::publish::publish;
use crate::seated::Seated;
use col_core::View;
use log_node::Counts;
use std::alloc::{AllocError, Global};
use std::sync::Wait;
use std::sync::atomic::Ordering::Relaxed;
use std::sync::atomic::{AtomicU8, AtomicU64};
use turn_cell::{Cell, Pass, Passes};

// Nobody has used the column.
const NOBODY: u8 = 0;

// Several clients have.
const SEVERAL: u8 = u8::MAX;

// So many events are published one by one since a look last found the turn held, and then one of so many.
const QUIET: u64 = 64;

/// Who uses a column, as one client finds when it has used it.
enum Users {
    /// No other client does.
    One,
    /// Others do as well, and did before.
    Several,
    /// Others do as well, from now on.
    SeveralNow,
}

impl Share {
    /// The copies of a column, of which there are none yet, and for each client a pass of their writer's turns. The pass of the column is
    /// theirs from then on.
    pub(crate) fn open(
        alloc: Global,
        cell: &Cell<Seated>,
        pass: Pass<Seated>,
        clients: u8,
    ) -> Result<(Share, Passes<Copies>), AllocError>
        requires clients { 0 < clients }
        requires pass { (n : ℕ) × IsHolder cell.now n pass }
        ensures share { IfOk result (λ r. IsShareOf cell.now r.0) }
        ensures passes { IfOk result (λ r. AreNewPasses column_copied r.0.copies clients r.1) }
    {
        let _ = cell;
        let copies = Copies {
            pass,
            cut: Counts::zeros(),
            shelf: None,
        };
        let (copies, passes) = Cell::open(alloc, copies, clients)?;
        let share = Share {
            alloc,
            copies,
            users: AtomicU8::new(NOBODY),
            quiet: AtomicU64::new(0),
            clients,
        };
        Ok((share, passes))
    }

    // Marks that this client uses the column.
    #[inline]
    fn users(&self, by: u8) -> Users {
        let mine = by.wrapping_add(1);
        let users = self.users.load(Relaxed);
        if users == mine {
            return Users::One;
        }
        if users == SEVERAL {
            return Users::Several;
        }
        self.users_now(mine)
    }

    #[cold]
    fn users_now(&self, mine: u8) -> Users {
        let users = match self.users.compare_exchange(NOBODY, mine, Relaxed, Relaxed) {
            Ok(_) => return Users::One,
            Err(_) => self.users.swap(SEVERAL, Relaxed),
        };
        if users == SEVERAL {
            Users::Several
        } else {
            Users::SeveralNow
        }
    }

    // Whether one more event is to be published: while looks find the turn held each is, and else one of many.
    #[inline]
    fn wants_event(&self) -> bool {
        let quiet = self.quiet.load(Relaxed);
        self.quiet.store(quiet.wrapping_add(1), Relaxed);
        quiet < QUIET || quiet % QUIET == 0
    }

    // Publishes what there is, if the writer is free.
    #[cold]
    fn publish<R: Wait>(&self, rt: &R, cell: &Cell<Seated>, desk: &mut Desk)
        requires share { IsShareOf cell.now self.now }
        requires desk { IsDesk self.now desk.old }
        ensures desk { IsDesk self.now desk.new }
    {
        if let Some(mut turn) = self.copies.try_take(&mut desk.pass) {
            let readers = self.clients.max(1);
            publish(rt, self.alloc, cell, &mut *turn.value, readers);
            turn.put(&mut desk.pass);
        }
    }

    /// Behind a turn of a client, which added an event or not: where several clients use the column what there is is
    /// published, if it is only now that several do, or an event was added and looks have found the turn held of late;
    /// where none has, one event of many is. Where the writer is busy, or without memory, a later turn tries again.
    #[inline]
    pub(crate) fn behind<R: Wait>(
        &self,
        rt: &R,
        cell: &Cell<Seated>,
        desk: &mut Desk,
        by: u8,
        event: bool,
    )
        requires share { IsShareOf cell.now self.now }
        requires desk { IsDesk self.now desk.old }
        ensures desk { IsDesk self.now desk.new }
    {
        let wanted = match self.users(by) {
            Users::One => false,
            Users::Several => event && self.wants_event(),
            Users::SeveralNow => true,
        };
        if wanted {
            self.publish(rt, cell, desk);
        }
    }

    // A reader, if the desk has none, the writer is free and there are copies.
    fn seat_reader(&self, desk: &mut Desk)
        requires { IsDesk self.now desk.old }
        ensures { IsDesk self.now desk.new }
    {
        if desk.reader.is_some() {
            return;
        }
        if let Some(mut turn) = self.copies.try_take(&mut desk.pass) {
            desk.reader = turn.value.reader();
            turn.put(&mut desk.pass);
        }
    }

    /// The copies' memory is freed, once all clients' holds have come back. Waits for the writer's turn.
    pub(crate) fn close<R: Wait>(self, rt: &R, desk: Desk)
        requires { IsDesk self desk }
    {
        let Share {
            alloc: _,
            copies,
            users: _,
            quiet: _,
            clients: _,
        } = self;
        let Desk { pass, reader: _ } = desk;
        copies.close(rt, pass).end(rt);
    }
}

// A look that does not wait, if there is a reader.
fn view_beside(
    cell: &Cell<Seated>,
    share: &Share,
    alloc: Global,
    pass: &mut Pass<Seated>,
    desk: &mut Desk,
    by: u8,
    from: Counts,
) -> Option<View>
    requires pass { IsHolder cell.now by pass.old }
    requires share { IsShareOf cell.now share.now }
    requires desk { IsDesk share.now desk.old }
    ensures pass { IsHolder cell.now by pass.new × SeesMore by (seen pass.old) (seen pass.new) }
    ensures view { IfSome result (λ view. ShowsHistory (tag_in cell.now) (seen pass.new) from view) }
    ensures desk { IsDesk share.now desk.new }
{
    share.quiet.store(0, Relaxed);
    share.seat_reader(desk);
    match desk.reader.take() {
        Some(reader) => {
            let (reader, view) = look_beside(alloc, cell, pass, by, reader, from);
            desk.reader = Some(reader);
            view
        }
        None => None,
    }
}

// The same for one who goes on from these counts.
fn looked_beside(
    cell: &Cell<Seated>,
    share: &Share,
    alloc: Global,
    pass: &mut Pass<Seated>,
    desk: &mut Desk,
    by: u8,
    from: Counts,
) -> Option<Looked>
    requires pass { IsHolder cell.now by pass.old }
    requires share { IsShareOf cell.now share.now }
    requires desk { IsDesk share.now desk.old }
    ensures pass { IsHolder cell.now by pass.new × SeesMore by (seen pass.old) (seen pass.new) }
    ensures looked { IfSome result (ShowsOn (tag_in cell.now) (seen pass.new) from) }
    ensures desk { IsDesk share.now desk.new }
{
    share.quiet.store(0, Relaxed);
    share.seat_reader(desk);
    match desk.reader.take() {
        Some(reader) => {
            let (reader, looked) = look_on_beside(alloc, cell, pass, by, reader, from);
            desk.reader = Some(reader);
            looked
        }
        None => None,
    }
}

/// What a reader with these counts sees: under the turn, if that is free, and else by the published copy, where that shows no less than the
/// client has seen; waits for the turn only where it does not.
#[tactic(auto, using(crate::proofs::CopyLooks::sees_then))]
pub(crate) fn look_shared<R: Wait>(
    rt: &R,
    alloc: Global,
    cell: &Cell<Seated>,
    share: &Share,
    pass: &mut Pass<Seated>,
    desk: &mut Desk,
    by: u8,
    from: Counts,
) -> Result<View, AllocError>
    requires pass { IsHolder cell.now by pass.old }
    requires share { IsShareOf cell.now share.now }
    requires desk { IsDesk share.now desk.old }
    ensures pass { IsHolder cell.now by pass.new × SeesMore by (seen pass.old) (seen pass.new) }
    ensures view { IfOk result (λ view. ShowsHistory (tag_in cell.now) (seen pass.new) from view) }
    ensures desk { IsDesk share.now desk.new }
{
    if let Some(view) = look_now(alloc, cell, pass, by, from) {
        share.behind(rt, cell, desk, by, false);
        return view;
    }
    if let Some(view) = view_beside(cell, share, alloc, pass, desk, by, from) {
        return Ok(view);
    }
    let view = look_in(rt, alloc, cell, pass, by, from);
    share.behind(rt, cell, desk, by, false);
    view
}

/// What a reader sees who goes on from these counts, by the turn or the published copy as above; behind the base that is the base alone.
#[tactic(auto, using(crate::proofs::CopyLooks::sees_then))]
pub(crate) fn look_on_shared<R: Wait>(
    rt: &R,
    alloc: Global,
    cell: &Cell<Seated>,
    share: &Share,
    pass: &mut Pass<Seated>,
    desk: &mut Desk,
    by: u8,
    from: Counts,
) -> Result<Looked, AllocError>
    requires pass { IsHolder cell.now by pass.old }
    requires share { IsShareOf cell.now share.now }
    requires desk { IsDesk share.now desk.old }
    ensures pass { IsHolder cell.now by pass.new × SeesMore by (seen pass.old) (seen pass.new) }
    ensures looked { IfOk result (ShowsOn (tag_in cell.now) (seen pass.new) from) }
    ensures desk { IsDesk share.now desk.new }
{
    if let Some(looked) = look_on_now(alloc, cell, pass, by, from) {
        share.behind(rt, cell, desk, by, false);
        return looked;
    }
    if let Some(looked) = looked_beside(cell, share, alloc, pass, desk, by, from) {
        return Ok(looked);
    }
    let looked = look_on_in(rt, alloc, cell, pass, by, from);
    share.behind(rt, cell, desk, by, false);
    looked
}
