// What is known of the lines so far.
ghost use Rattle.std.specs.Prelude.{◌≡◌, [], IfOk, OnOk};
ghost use Rattle.script_text.specs.declared.script.Reason.TheVariants as reasons;
ghost use Rattle.script_text.specs.declared.item.Item.TheVariants.{Asks};
ghost use Rattle.script_text.specs.Known.{known_of, known_after, known_with, IsSmall, IsPlain};
ghost use Rattle.script_text.specs.Readings.{Gives, number_at};

use crate::commands::What;
use crate::fault::Fault;
use crate::item::{Item, Stage};
use crate::limits::{VERSION_1, limits_in};
use crate::name_set::NameSet;
use crate::names::number_at;
use crate::objects::Objects;
use crate::reads::HeldReads;
use crate::script::{Command, Reason, Script};
use log_node::{ListOf, Shape};
use std::alloc::{AllocError, Global};

/// The script that the lines so far say, and what else later lines ask for.
#[derive(Drop)]
pub struct Known {
    pub stage: Stage,
    pub script: Script,
    /// The clients whose last command has come.
    pub stopped: ListOf<u8>,
    /// The reads that commits may use up.
    pub held: HeldReads,
}

impl Known {
    /// What is known before the first line: nothing. There is room for this many commands.
    pub fn with_room(alloc: Global, room: usize) -> Result<Known, AllocError>
        ensures { IfOk result (λ known. known ≡ known_of []) }
    {
        Ok(Known {
            stage: Stage::Nothing,
            script: Script {
                version: 1,
                shape: Shape {
                    regions: 0,
                    colours: 0,
                    homes: ListOf::new(alloc),
                    rows: VERSION_1.unsaid_rows,
                },
                regions: NameSet::new(alloc),
                colours: NameSet::new(alloc),
                clients: NameSet::new(alloc),
                objects: Objects::new(alloc),
                commands: ListOf::with_capacity(alloc, room)?,
            },
            stopped: ListOf::new(alloc),
            held: HeldReads::new(alloc),
        })
    }

    /// The number of the region that a field names.
    pub fn region_at(&self, field: &[u8]) -> Result<u8, Fault>
        requires { IsSmall self.now }
        ensures { Gives result (number_at reasons.UnknownRegion self.now.script.regions field.now) }
    {
        number_at(&self.script.regions, field, Reason::UnknownRegion)
    }

    /// The number of the colour that a field names.
    pub fn colour_at(&self, field: &[u8]) -> Result<u8, Fault>
        requires { IsSmall self.now }
        ensures { Gives result (number_at reasons.UnknownColour self.now.script.colours field.now) }
    {
        number_at(&self.script.colours, field, Reason::UnknownColour)
    }

    /// What is known after one more item.
    pub fn take(&mut self, item: Item) -> Result<(), AllocError>
        requires { IsSmall (known_after self.old item) }
        ensures { OnOk result (self.new ≡ known_after self.old item) }
    {
        match item {
            Item::Version { version } => {
                self.stage = Stage::Version;
                self.script.version = version;
                self.script.shape.rows = limits_in(version).unsaid_rows;
            }
            Item::Regions { names } => {
                self.stage = Stage::Regions;
                self.script.shape.regions = names.len() as u8;
                self.script.regions = names;
            }
            Item::Colours { names } => {
                self.stage = Stage::Colours;
                self.script.shape.colours = names.len() as u8;
                self.script.colours = names;
            }
            Item::Rows { number } => {
                self.stage = Stage::Rows;
                self.script.shape.rows = number;
            }
            Item::Client { name, home } => {
                self.stage = Stage::Clients;
                self.script.clients.push(name)?;
                self.script.shape.homes.push(home)?;
            }
            Item::Declared { object } => {
                self.stage = Stage::Objects;
                self.script.objects.push(object)?;
            }
            Item::Begin => self.stage = Stage::Commands,
            Item::Asks { command } => {
                self.stage = Stage::Commands;
                if matches!(command.what, What::Stop { .. }) {
                    self.stopped.push(command.client)?;
                }
                self.held.follow(command.client, &command.what)?;
                self.script.commands.push(command)?;
            }
        }
        Ok(())
    }

    /// What is known after a command that neither stops its client nor has to do with a read.
    #[inline(always)]
    pub fn ask(&mut self, command: Command) -> Result<(), AllocError>
        requires { IsPlain command.what }
        ensures { OnOk result (self.new ≡ known_after self.old (Asks command)) }
    {
        self.stage = Stage::Commands;
        self.script.commands.push(command)
    }

    /// What is known after a line, which may say nothing.
    pub fn follow(&mut self, said: Option<Item>) -> Result<(), AllocError>
        requires { IsSmall (known_with self.old said) }
        ensures { OnOk result (self.new ≡ known_with self.old said) }
    {
        match said {
            Some(item) => self.take(item),
            None => Ok(()),
        }
    }
}
