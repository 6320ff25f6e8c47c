// What a line of a script says.
use crate::name_set::NameSet;
use crate::script::{Command, Object};
use log_node::Text;

/// What one line says that is not passed over.
#[derive(Drop)]
pub enum Item {
    Version { version: u8 },
    Regions { names: NameSet },
    Colours { names: NameSet },
    Rows { number: u32 },
    Client { name: Text, home: u8 },
    Declared { object: Object },
    Begin,
    Asks { command: Command },
}

/// What the lines so far end with.
#[derive(Clone, Copy, Debug, PartialEq, Eq)]
pub enum Stage {
    Nothing,
    Version,
    Regions,
    Colours,
    Rows,
    Clients,
    Objects,
    Commands,
}
