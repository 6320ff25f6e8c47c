// Values by keys.
ghost use Rattle.std.specs.Prelude.{◌≡◌, ℕ, ◌≤◌, ◌<◌, ◌-◌, [], OnOk, Some, None, List, if◌then◌else◌};
ghost use Rattle.std.specs.Option.{option_copied};
ghost use Rattle.std.specs.Str.{bytes_eq};
ghost use Rattle.object_fold.specs.Tables.{value_at};

use crate::table_key::{AskedKey, TableKey};
use indexmap::IndexMap;
use log_node::Text;
use std::alloc::{AllocError, Global};
use std::marker::Model;

/// Values by keys: each call takes a time that does not grow with their number.
#[derive(Drop)]
pub struct Table<V> {
    entries: IndexMap<TableKey, V>,
}

impl<V> Model for Table<V> {
    ghost use Rattle.indexmap.specs.IndexMap.{spare};
    ghost use Rattle.object_fold.specs.Tables.{Table as Seen};

    ghost Value = { Seen V };

    ghost view = { λ a. record { entries = a.entries.entries; spare = spare a.entries } };
}

impl<V: Drop> Table<V> {
    /// A table with no keys.
    pub fn new(alloc: Global) -> Self
        ensures { result.entries ≡ [] }
    {
        Table {
            entries: IndexMap::new(alloc),
        }
    }

    /// The value at a key.
    pub fn get(&self, key: &[u8]) -> Option<&V>
        ensures { option_copied result ≡ value_at self.now.entries key.now }
    {
        self.entries.get(AskedKey { bytes: key })
    }

    /// Takes the memory for this many more keys.
    pub fn reserve(&mut self, more: usize) -> Result<(), AllocError>
        ensures entries { self.new.entries ≡ self.old.entries }
        ensures room { OnOk result (more ≤ self.new.spare) }
    {
        self.entries.reserve(more)
    }

    /// Sets the value at a key.
    pub fn set(&mut self, key: Text, value: V)
        requires { 0 < self.old.spare }
        ensures values { (other : List ℕ) → value_at self.new.entries other
            ≡ (if bytes_eq key other then Some value else value_at self.old.entries other) }
        ensures room { self.old.spare - 1 ≤ self.new.spare }
    {
        match self.entries.insert(TableKey { text: key }, value) {
            Ok(_) => {}
            Err(_) => unreachable!(),
        }
    }

    /// Removes a key with its value.
    pub fn remove(&mut self, key: &[u8])
        ensures values { (other : List ℕ) → value_at self.new.entries other
            ≡ (if bytes_eq key.now other then None else value_at self.old.entries other) }
        ensures room { self.old.spare ≤ self.new.spare }
    {
        let _value = self.entries.swap_remove(AskedKey { bytes: key });
    }
}
