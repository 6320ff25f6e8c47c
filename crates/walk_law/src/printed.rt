// The places of own events that replies print.
ghost use Rattle.std.specs.Prelude.{◌≡◌, ◌==◌, ◌||◌, ◌&&◌, ◌∷◌, ◌++◌, ◌<◌, ◌≤◌, [], false, ℕ, IfOk, OnOk, length};
ghost use Rattle.log_node.specs.declared.ids.Counts.{Counts as NodeCounts};
ghost use Rattle.report_text.specs.declared.report.Answer.TheVariants as answers;
ghost use Rattle.lawful_run.specs.Callers.{caller_of, commands_of};
ghost use Rattle.lawful_run.specs.Reads.{events_until};
ghost use Rattle.run_rules.specs.Printed.{only_at, printed, printed_all, printed_append, printed_at, printed_end, printed_raises};
ghost use Rattle.run_rules.specs.Telling.{is_among};
ghost use Rattle.walk_law.specs.PlaceTables.{AreOfClients, is_asked_by, is_printed, numbers_where};
ghost use Rattle.walk_law.specs.Subjects.{ArePrints};

use crate::going_on::events_until;
use crate::place_lists::PlaceLists;
use log_node::{At, MAX_CLIENTS};
use report_text::{Answer, Ended, PointPiece, RaisePiece, ReplyLine, Report};
use script_text::{Script, What};
use std::alloc::{AllocError, Global};
use std::collections::BTreeSet;

/// A place of a column that a reply to a client prints.
#[derive(Clone, Copy, Debug, PartialEq, Eq, PartialOrd, Ord)]
pub(crate) struct Print {
    client: u8,
    region: u8,
    colour: u8,
    place: u64,
}

/// The places that replies print as those of their clients' own events.
#[derive(Drop)]
pub(crate) struct Printed {
    prints: BTreeSet<Print>,
}

// How many clients a report has.
fn client_count(report: &Report) -> u8
    requires { length report.now.clients ≤ MAX_CLIENTS }
    ensures { result ≡ length report.now.clients }
{
    report.clients.len() as u8
}

impl Printed {
    /// None yet.
    pub(crate) fn new(alloc: Global) -> Printed
        ensures { (client region colour place : ℕ) → is_printed result client region colour place ≡ false }
    {
        Printed {
            prints: BTreeSet::new(alloc),
        }
    }

    /// Whether a reply to the client prints this place of a column.
    pub(crate) fn has(&self, client: u8, region: u8, colour: u8, place: u64) -> bool
        ensures { result ≡ is_printed self.now client region colour place }
    {
        self.prints.contains(&Print {
            client,
            region,
            colour,
            place,
        })
    }

    // One more place of a column.
    fn add(&mut self, client: u8, region: u8, colour: u8, place: u64) -> Result<(), AllocError>
        ensures { (n r c p : ℕ) → OnOk result (is_printed self.new n r c p
            ≡ ((client == n) && is_among p (only_at region colour (place ∷ []) r c) || is_printed self.old n r c p)) }
    {
        self.prints.insert(Print {
            client,
            region,
            colour,
            place,
        })?;
        Ok(())
    }

    // That of a raise or a carry.
    fn add_at(&mut self, client: u8, region: u8, colour: u8, at: At) -> Result<(), AllocError>
        ensures { (n r c p : ℕ) → OnOk result (is_printed self.new n r c p
            ≡ ((client == n) && is_among p (printed_at region colour at r c) || is_printed self.old n r c p)) }
    {
        match at {
            At::Event(place) => self.add(client, region, colour, place),
            At::Look(_) => Ok(()),
        }
    }

    // Those of the raises of a stamped read.
    fn add_raises(&mut self, client: u8, own: u8, raises: &[RaisePiece]) -> Result<(), AllocError>
        ensures { (n r c p : ℕ) → OnOk result (is_printed self.new n r c p
            ≡ ((client == n) && is_among p (printed_raises own raises.now r c) || is_printed self.old n r c p)) }
    {
        for raise in raises {
            self.add_at(client, own, raise.colour, raise.at)?;
        }
        Ok(())
    }

    // That of the point of an append to one colour.
    fn add_point(&mut self, client: u8, own: u8, point: &PointPiece) -> Result<(), AllocError>
        ensures { (n r c p : ℕ) → OnOk result (is_printed self.new n r c p
            ≡ ((client == n) && is_among p (only_at own point.now.colour (events_until point.now.at ∷ []) r c)
            || is_printed self.old n r c p)) }
    {
        self.add(client, own, point.colour, events_until(point.at))
    }

    // That of an append to one colour; none of one to several.
    fn add_append(
        &mut self,
        client: u8,
        own: u8,
        row: Option<u32>,
        points: &[PointPiece],
    ) -> Result<(), AllocError>
        ensures { (n r c p : ℕ) → OnOk result (is_printed self.new n r c p
            ≡ ((client == n) && is_among p (printed_append own row points.now r c) || is_printed self.old n r c p)) }
    {
        if row.is_some() {
            return Ok(());
        }
        match points.first() {
            Some(point) => self.add_point(client, own, point),
            None => Ok(()),
        }
    }

    // That of the append of a decision's node.
    fn add_end(&mut self, client: u8, own: u8, ended: &Ended) -> Result<(), AllocError>
        ensures { (n r c p : ℕ) → OnOk result (is_printed self.new n r c p
            ≡ ((client == n) && is_among p (printed_end own ended.now r c) || is_printed self.old n r c p)) }
    {
        match ended {
            Ended::Stood { point, .. } => self.add_point(client, own, point),
            Ended::StampEnd { .. } | Ended::NoMemory => Ok(()),
        }
    }

    // Those of a commit: of its append, and of its stamped read.
    fn add_commit(
        &mut self,
        client: u8,
        own: u8,
        row: Option<u32>,
        points: &[PointPiece],
        raises: &[RaisePiece],
    ) -> Result<(), AllocError>
        ensures { (n r c p : ℕ) → OnOk result (is_printed self.new n r c p
            ≡ ((client == n) && is_among p (printed_append own row points.now r c ++ printed_raises own raises.now r c)
            || is_printed self.old n r c p)) }
    {
        self.add_append(client, own, row, points)?;
        self.add_raises(client, own, raises)?;
        Ok(())
    }

    // Those of a decide: of its stamped read, and of its append.
    fn add_decided(
        &mut self,
        client: u8,
        own: u8,
        raises: &[RaisePiece],
        ended: &Ended,
    ) -> Result<(), AllocError>
        ensures { (n r c p : ℕ) → OnOk result (is_printed self.new n r c p
            ≡ ((client == n) && is_among p (printed_raises own raises.now r c ++ printed_end own ended.now r c)
            || is_printed self.old n r c p)) }
    {
        self.add_raises(client, own, raises)?;
        self.add_end(client, own, ended)?;
        Ok(())
    }

    // Those of a pull.
    fn add_pull(
        &mut self,
        client: u8,
        own: u8,
        what: &What,
        give: At,
        carry: At,
    ) -> Result<(), AllocError>
        ensures { (count n r c p : ℕ) → OnOk result (is_printed self.new n r c p
            ≡ ((client == n) && is_among p (printed own (answers.Pulled count give carry) what.now r c)
            || is_printed self.old n r c p)) }
    {
        match what {
            What::Pull { region, colour } => {
                self.add(client, *region, *colour, events_until(give))?;
                self.add_at(client, own, *colour, carry)
            }
            _ => Ok(()),
        }
    }

    // That of a trim.
    fn add_trim(&mut self, client: u8, own: u8, what: &What, at: At) -> Result<(), AllocError>
        ensures { (base : NodeCounts) (n r c p : ℕ) → OnOk result (is_printed self.new n r c p
            ≡ ((client == n) && is_among p (printed own (answers.Based at base) what.now r c)
            || is_printed self.old n r c p)) }
    {
        match what {
            What::Trim { colour } => self.add(client, own, *colour, events_until(at)),
            _ => Ok(()),
        }
    }

    // Those that an answer prints.
    fn add_answer(
        &mut self,
        client: u8,
        own: u8,
        what: &What,
        answer: &Answer,
    ) -> Result<(), AllocError>
        ensures { (n r c p : ℕ) → OnOk result (is_printed self.new n r c p
            ≡ ((client == n) && is_among p (printed own answer.now what.now r c) || is_printed self.old n r c p)) }
    {
        match answer {
            Answer::Stood { row, points, .. } => {
                self.add_append(client, own, *row, points.as_slice())
            }
            Answer::Scanned { raises, .. }
            | Answer::GotKeys { raises, .. }
            | Answer::Listed { raises, .. } => self.add_raises(client, own, raises.as_slice()),
            Answer::Pulled { give, carry, .. } => self.add_pull(client, own, what, *give, *carry),
            Answer::Based { at, .. } => self.add_trim(client, own, what, *at),
            Answer::Ruled {
                row,
                points,
                raises,
                ..
            } => self.add_commit(client, own, *row, points.as_slice(), raises.as_slice()),
            Answer::Changed {
                row,
                points,
                raises,
                ..
            } => self.add_commit(client, own, *row, points.as_slice(), raises.as_slice()),
            Answer::Decided { raises, ended, .. } => {
                self.add_decided(client, own, raises.as_slice(), ended)
            }
            Answer::Took { point, .. } => self.add_point(client, own, point),
            Answer::StampEnd { .. }
            | Answer::Full { .. }
            | Answer::Stopped { .. }
            | Answer::Synced { .. }
            | Answer::SameRegion
            | Answer::Got { .. }
            | Answer::GotMany { .. }
            | Answer::Undecided { .. }
            | Answer::Moved { .. }
            | Answer::NoTx
            | Answer::UnreadTrimmed { .. }
            | Answer::UnreadNoMemory { .. }
            | Answer::Trimmed { .. }
            | Answer::NotHome { .. }
            | Answer::NoMemory => Ok(()),
        }
    }

    // Those that replies to a client's commands print.
    fn add_client(
        &mut self,
        script: &Script,
        numbers: &[u64],
        client: u8,
        replies: &[ReplyLine],
    ) -> Result<(), AllocError>
        requires client { client < length script.now.shape.homes }
        requires numbers { numbers.now ≡ numbers_where (is_asked_by client) 0 script.now.commands }
        ensures { (n r c p : ℕ) → OnOk result (is_printed self.new n r c p
            ≡ ((client == n) && is_among p (printed_all (caller_of script.now client).own (commands_of script.now client) replies.now r c)
            || is_printed self.old n r c p)) }
    {
        let own = script.shape.homes.as_slice()[client as usize];
        let commands = script.commands.as_slice();
        let both = numbers.len().min(replies.len());
        for at in 0..both {
            let command = &commands[numbers[at] as usize];
            let reply = &replies[at];
            self.add_answer(client, own, &command.what, &reply.answer)?;
        }
        Ok(())
    }

    /// All that replies print.
    pub(crate) fn of_report(
        alloc: Global,
        script: &Script,
        commands: &PlaceLists,
        report: &Report,
    ) -> Result<Printed, AllocError>
        requires commands { AreOfClients (length script.now.shape.homes) script.now.commands commands.now }
        requires clients { length report.now.clients ≡ length script.now.shape.homes }
        requires few { length script.now.shape.homes ≤ MAX_CLIENTS }
        ensures { IfOk result (ArePrints script.now report.now) }
    {
        let mut printed = Printed::new(alloc);
        let clients = report.clients.as_slice();
        for client in 0..client_count(report) {
            let shown = &clients[client as usize];
            let replies = shown.replies.as_slice();
            printed.add_client(script, commands.places(client), client, replies)?;
        }
        Ok(printed)
    }
}
