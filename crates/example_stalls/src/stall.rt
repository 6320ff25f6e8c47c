// A stall, which sells cups and counts what all stalls have sold.
ghost use Rattle.std.specs.Prelude.{◌≡◌, ◌<◌, ◌∷◌, [], None, IfOk, IfErr};
ghost use Rattle.log_client.specs.Appends.{AppendsAs, AppendRefused};
ghost use Rattle.log_client.specs.Calls.{IsExplained, SyncsAs, SyncRefused, PullRefused};
ghost use Rattle.log_client.specs.Clients.{IsClient, played_of};
ghost use Rattle.log_client.specs.StampedReads.{ReadsAll, ReadRefused};
ghost use Rattle.example_stalls.specs.Stalls.{IsShop, IsStall, IsNewStall, count_of, cups, name_of, set_of_cups};

use crate::counter::Counter;
use append_core::MultiFault;
use fuzzy_io::OpenGate;
use log_client::{Appended, Client, StampedRead, Store, SyncFault, Synced, TrimFault};
use log_node::{Colours, Counts, Text};
use region_pull::PullFault;
use std::alloc::{AllocError, Global};
use std::sync::Wait;

/// The colour of the cups that are sold.
pub const CUPS: u8 = 0;

/// What a stall sells.
#[derive(Clone, Copy)]
pub enum Drink {
    Tea,
    Coffee,
}

/// How many cups of each drink a stall knows to be sold, and by which sync.
#[derive(Clone, Copy)]
pub struct Totals {
    pub tea: u64,
    pub coffee: u64,
    pub synced: Synced,
}

/// A stall: its client of the store, and a counter of each drink.
#[derive(Drop)]
pub struct Stall {
    pub(crate) client: Client,
    pub(crate) tea: Counter,
    pub(crate) coffee: Counter,
}

impl Stall {
    /// The stall of a new client, which has folded nothing.
    pub fn open(alloc: Global, client: Client) -> Result<Stall, AllocError>
        ensures { IfOk result (IsNewStall client) }
    {
        let tea = Counter::new(Text::copied(alloc, b"tea")?);
        let coffee = Counter::new(Text::copied(alloc, b"coffee")?);
        Ok(Stall {
            client,
            tea,
            coffee,
        })
    }

    // The name of a drink.
    fn name(&self, drink: Drink) -> &Text
        ensures { result.now ≡ name_of self.now drink }
    {
        match drink {
            Drink::Tea => self.tea.name(),
            Drink::Coffee => self.coffee.name(),
        }
    }

    /// Sells a cup: a node with the drink's name stands in the line of the stall's region.
    pub fn sell<R: Wait>(
        &mut self,
        rt: &R,
        alloc: Global,
        store: &Store,
        drink: Drink,
    ) -> Result<Appended, MultiFault>
        requires shop { IsShop store.now }
        requires stall { IsStall store.now self.old }
        ensures stall { IsStall store.now self.new }
        ensures ok { IfOk result (λ a. IsExplained store.now self.old.client self.new.client
            (AppendsAs set_of_cups (name_of self.old drink) a)) }
        ensures err { IfErr result (AppendRefused store.now self.old.client self.new.client
            set_of_cups (name_of self.old drink) None) }
    {
        let Ok(text) = Text::copied(alloc, self.name(drink).as_bytes()) else {
            return Err(MultiFault::NoMemory);
        };
        let set = Colours::of(&[CUPS]);
        self.client
            .append(rt, alloc, store, &OpenGate, set, text, None)
    }

    /// Brings over what another region has sold. Answers how many cups were new.
    pub fn fetch<R: Wait>(
        &mut self,
        rt: &R,
        alloc: Global,
        store: &Store,
        from: u8,
    ) -> Result<u64, PullFault>
        requires shop { IsShop store.now }
        requires stall { IsStall store.now self.old }
        requires from { from < 2 }
        ensures stall { IsStall store.now self.new }
        ensures err { IfErr result (PullRefused store.now self.old.client self.new.client from cups) }
    {
        let pulled = self.client.pull(rt, store, from, CUPS)?;
        Ok(pulled.nodes)
    }

    /// How many cups of each drink were sold, by all that the stall has then played.
    pub fn totals<R: Wait>(
        &mut self,
        rt: &R,
        alloc: Global,
        store: &Store,
    ) -> Result<Totals, SyncFault>
        requires shop { IsShop store.now }
        requires stall { IsStall store.now self.old }
        ensures stall { IsStall store.now self.new }
        ensures tea { IfOk result (λ t. t.tea ≡ count_of self.old.tea.name (played_of self.new.client cups)) }
        ensures coffee { IfOk result (λ t. t.coffee ≡ count_of self.old.coffee.name (played_of self.new.client cups)) }
        ensures played { IfOk result (λ t. IsExplained store.now self.old.client self.new.client
            (SyncsAs self.new.client cups t.synced)) }
        ensures err { IfErr result (SyncRefused store.now self.old.client self.new.client cups) }
    {
        let synced = self.client.sync(rt, alloc, store, CUPS)?;
        self.tea.fold_on(self.client.played(CUPS));
        self.coffee.fold_on(self.client.played(CUPS));
        Ok(Totals {
            tea: self.tea.count(),
            coffee: self.coffee.count(),
            synced,
        })
    }

    /// Drops what the stall has played from its region's column, as far as the other region has asked past it. Answers
    /// below which counts the nodes are gone.
    pub fn forget<R: Wait>(&mut self, rt: &R, store: &Store) -> Result<Counts, TrimFault>
        requires shop { IsShop store.now }
        requires stall { IsStall store.now self.old }
        ensures stall { IsStall store.now self.new }
    {
        let snapshot = self.client.snapshot(CUPS);
        let (_place, base) = self.client.trim(rt, store, CUPS, &snapshot)?;
        Ok(base)
    }

    /// All cups that the stall's own region has sold, at one moment.
    pub fn own_cups<R: Wait>(
        &mut self,
        rt: &R,
        alloc: Global,
        store: &Store,
    ) -> Result<StampedRead, SyncFault>
        requires shop { IsShop store.now }
        requires stall { IsStall store.now self.old }
        ensures stall { IsStall store.now self.new }
        ensures ok { IfOk result (ReadsAll store.now self.old.client self.new.client (cups ∷ [])) }
        ensures err { IfErr result (ReadRefused store.now self.old.client self.new.client (cups ∷ [])) }
    {
        self.client
            .stamped_read(rt, alloc, store, Colours::of(&[CUPS]))
    }
}
