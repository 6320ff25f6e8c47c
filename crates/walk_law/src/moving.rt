// Whether pulls and trims are as the log says.
ghost use Rattle.std.specs.Prelude.{◌≡◌, ◌<◌, ◌≤◌, ℕ, IfSome, List, Some, length};
ghost use Rattle.std.specs.List.{All};
ghost use Rattle.std.specs.Option.{option_copied};
ghost use Rattle.log_node.specs.declared.node.Node.{Node};
ghost use Rattle.col_core.specs.declared.Event.TheVariants as events;
ghost use Rattle.col_core.specs.Keeping.{Kept};
ghost use Rattle.lawful_run.specs.Callers.{Caller, caller_of};
ghost use Rattle.lawful_run.specs.Moves.{AsksFor, GivesTooLow, Pulls, Trims};
ghost use Rattle.column_track.specs.Tracks.{Tells};
ghost use Rattle.run_rules.specs.Telling.{log_of, made_between, replies_to};
ghost use Rattle.walk_law.specs.Keepings.{IsCounted};
ghost use Rattle.walk_law.specs.Looks.{IsOfShape};
ghost use Rattle.walk_law.specs.Moving.{CarriesMany, IsCarried, IsFirstHolding, IsGiven, given_by, held_of};
ghost use Rattle.walk_law.specs.Walking.{journal_walked, log_walked};

use crate::going_on::events_until;
use crate::keeping::Keeping;
use crate::looks::event_by;
use crate::subject::Subject;
use col_core::Event;
use log_node::{At, Counts};

// The number from which an event gives to a region, where it does.
fn given_by(event: Option<&Event>, region: u8) -> Option<u64>
    ensures { result ≡ given_by region (option_copied event.entry) }
{
    match event {
        Some(Event::Give { region: to, from }) => { if *to == region { Some(*from) } else { None } }
        _ => None,
    }
}

// Whether an event carries so many nodes of a region.
fn carries_many(event: Option<&Event>, region: u8, many: u64) -> bool
    ensures { Tells result (CarriesMany region many (option_copied event.entry)) }
{
    match event {
        Some(
            Event::Carry {
                region: of,
                heads,
                ..
            },
        ) => *of == region && heads.len() as u64 == many,
        _ => false,
    }
}

// Whether an event trims by these counts.
fn is_trim_by(event: Option<&Event>, by: Counts) -> bool
    ensures { Tells result (option_copied event.entry ≡ Some (events.Trim by)) }
{
    match event {
        Some(Event::Trim { counts }) => *counts == by,
        _ => false,
    }
}

impl Subject<'_> {
    // How many nodes of a region's chain a column held after so many events.
    fn held_of(&self, own: u8, colour: u8, of: u8, events: u64) -> u64
        requires column { IsOfShape self.now own colour }
        requires of { of < 4 }
        requires events { events ≤ length (journal_walked self.now own colour) }
        ensures { result ≡ held_of self.now own colour of events }
    {
        self.mark(own, colour, events).held.of_region(of)
    }

    // The first number of events from one to another after which so many nodes of a region were held, or else the last one.
    fn first_holding(&self, own: u8, colour: u8, of: u8, from: u64, to: u64, count: u64) -> u64
        requires column { IsOfShape self.now own colour }
        requires of { of < 4 }
        requires order { from ≤ to }
        requires within { to ≤ length (journal_walked self.now own colour) }
        ensures { IsFirstHolding self.now own colour of from to count result }
    {
        self.track(own, colour).agrees();
        let mut low = from;
        let mut high = to;
        while low < high {
            let middle = low + (high - low) / 2;
            if self.held_of(own, colour, of, middle) < count {
                low = middle + 1;
            } else {
                high = middle;
            }
        }
        low
    }

    // Whether a give at a place of a column asks for this number, of a client that looked between these numbers of events.
    fn asks_for(
        &self,
        own: u8,
        region: u8,
        colour: u8,
        seen: u128,
        until: u64,
        place: u64,
        from: u64,
    ) -> bool
        requires own { IsOfShape self.now own colour }
        requires region { IsOfShape self.now region colour }
        requires place { place ≤ length (journal_walked self.now region colour) }
        ensures { (told : ℕ → List Node) (caller : Caller) → caller.own ≡ own → Tells result
            (AsksFor (log_of self.now.report told) caller region colour seen until place from) }
    {
        self.track(own, colour).agrees();
        if seen > until as u128 {
            return false;
        }
        let all = self.event_count(own, colour);
        let least = seen.min(all as u128) as u64;
        let line = self.line_length(region, colour, place);
        let looked = self.first_holding(own, colour, region, least, until.min(all), from);
        from == line.min(self.held_of(own, colour, region, looked))
    }

    // The number from which a client gave at a place what it held, where it did.
    fn given(
        &self,
        client: u8,
        region: u8,
        colour: u8,
        seen: u128,
        until: u64,
        place: u64,
    ) -> Option<u64>
        requires walker { client < length self.now.report.clients }
        requires own { IsOfShape self.now (caller_of self.now.script client).own colour }
        requires region { IsOfShape self.now region colour }
        ensures { (told : ℕ → List Node) → IsGiven (log_of self.now.report told) (caller_of self.now.script client) region colour
            seen until place result }
    {
        let own = self.own(client);
        if place >= self.event_count(region, colour) {
            return None;
        }
        let from = given_by(event_by(self.journal(region, colour), client, place), own)?;
        if !self.asks_for(own, region, colour, seen, until, place, from) {
            return None;
        }
        Some(from)
    }

    // Whether a client gave at a place what it held, from a number that was below the base by then.
    fn gives_too_low(
        &self,
        client: u8,
        region: u8,
        colour: u8,
        seen: u128,
        until: u64,
        place: u64,
    ) -> bool
        requires walker { client < length self.now.report.clients }
        requires own { IsOfShape self.now (caller_of self.now.script client).own colour }
        requires region { IsOfShape self.now region colour }
        ensures { (told : ℕ → List Node) → Tells result (GivesTooLow (log_of self.now.report told)
            (caller_of self.now.script client) region colour seen until place) }
    {
        if place >= self.event_count(region, colour) {
            return false;
        }
        match self.given(client, region, colour, seen, until, place) {
            Some(from) => from < self.mark(region, colour, place).base.of_region(region),
            None => false,
        }
    }

    // Whether it did so at all of these places.
    fn give_too_low(
        &self,
        client: u8,
        region: u8,
        colour: u8,
        seen: u128,
        until: u64,
        places: &[u64],
    ) -> bool
        requires walker { client < length self.now.report.clients }
        requires own { IsOfShape self.now (caller_of self.now.script client).own colour }
        requires region { IsOfShape self.now region colour }
        ensures { (told : ℕ → List Node) → Tells result (All (GivesTooLow (log_of self.now.report told)
            (caller_of self.now.script client) region colour seen until) places.now) }
    {
        for place in places {
            if !self.gives_too_low(client, region, colour, seen, until, *place) {
                return false;
            }
        }
        true
    }
}

impl Keeping {
    // How many events of its own column a client had seen behind a carry of so many nodes, where it made that.
    fn carried(
        &self,
        subject: &Subject<'_>,
        client: u8,
        region: u8,
        colour: u8,
        nodes: u64,
        carry: At,
    ) -> Option<u64>
        requires walker { client < length subject.now.report.clients }
        requires own { IsOfShape subject.now (caller_of subject.now.script client).own colour }
        ensures carried { (told : ℕ → List Node) (kept : Kept) → IsCounted (replies_to subject.now.report client) kept self.now → IsCarried
            (log_of subject.now.report told) (caller_of subject.now.script client) kept region colour nodes carry result }
        ensures within { IfSome result (λ events. events
            ≤ length (journal_walked subject.now (caller_of subject.now.script client).own colour)) }
    {
        let own = subject.own(client);
        let all = subject.event_count(own, colour);
        let seen = self.seen(own, colour);
        match carry {
            At::Event(place) => {
                if seen > place as u128 || place >= all {
                    return None;
                }
                let event = event_by(subject.journal(own, colour), client, place);
                if !carries_many(event, region, nodes) {
                    return None;
                }
                Some(place + 1)
            }
            At::Look(events) => {
                if seen > events as u128 || events > all || nodes != 0 {
                    return None;
                }
                Some(events)
            }
        }
    }

    // Whether a pull is as the log says.
    pub(crate) fn is_pull(
        &self,
        subject: &Subject<'_>,
        client: u8,
        region: u8,
        colour: u8,
        nodes: u64,
        place: u64,
        carry: At,
    ) -> bool
        requires { client < length subject.now.report.clients }
        ensures { (told : ℕ → List Node) (kept : Kept) → region < subject.now.script.shape.regions
            → colour < subject.now.script.shape.colours → IsCounted (replies_to subject.now.report client) kept self.now
            → Tells result (Pulls (log_of subject.now.report told) (caller_of subject.now.script client) kept region colour nodes
            place carry
            (made_between (log_walked subject.now) (caller_of subject.now.script client) kept region colour place)) }
    {
        let own = subject.own(client);
        if region == own {
            return false;
        }
        if !subject.is_in_shape(own, colour) || !subject.is_in_shape(region, colour) {
            return false;
        }
        if self.seen(region, colour) > place as u128 {
            return false;
        }
        let Some(behind) = self.carried(subject, client, region, colour, nodes, carry) else {
            return false;
        };
        let seen = self.seen(own, colour);
        let until = events_until(carry);
        if subject
            .given(client, region, colour, seen, until, place)
            .is_none()
        {
            return false;
        }
        if place > subject.event_count(region, colour) {
            return false;
        }
        if subject.line_length(region, colour, place)
            > subject.held_of(own, colour, region, behind)
        {
            return false;
        }
        let made = self.made_between(subject, client, region, colour, place);
        subject.give_too_low(client, region, colour, seen, until, made)
    }

    // Whether a trim is as the log says.
    pub(crate) fn is_trim(
        &self,
        subject: &Subject<'_>,
        client: u8,
        colour: u8,
        place: u64,
        shown: Counts,
    ) -> bool
        requires { client < length subject.now.report.clients }
        ensures { (told : ℕ → List Node) (kept : Kept) → colour < subject.now.script.shape.colours
            → IsCounted (replies_to subject.now.report client) kept self.now → Tells result
            (Trims (log_of subject.now.report told) (caller_of subject.now.script client) kept colour place shown) }
    {
        let own = subject.own(client);
        if !subject.is_in_shape(own, colour) {
            return false;
        }
        if place >= subject.event_count(own, colour) {
            return false;
        }
        if self.seen(own, colour) > place as u128 {
            return false;
        }
        let event = event_by(subject.journal(own, colour), client, place);
        if !is_trim_by(event, self.start(colour)) {
            return false;
        }
        shown == subject.mark(own, colour, place + 1).base
    }
}
