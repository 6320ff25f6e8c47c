// Names of one kind by number.
ghost use Rattle.std.specs.Prelude.{◌≡◌, ◌≤◌, ◌<◌, ◌↔◌, ◌==◌, [], ◌∷◌, ◌++◌, length, slice_get, IsTrue, IfSome, OnOk, OnErr};
ghost use Rattle.std.specs.List.{position};
ghost use Rattle.std.specs.Option.{option_copied};
ghost use Rattle.std.specs.Str.{bytes_eq};
ghost use Rattle.script_text.specs.Pieces.{is_among, number_of};
ghost use Rattle.script_text.specs.NameKeys.{same_key};

use crate::name_keys::NameKey;
use indexmap::IndexSet;
use log_node::{Names, Text};
use std::alloc::{AllocError, Global};
use std::marker::Model;

/// Names of one kind, in the order in which they were first said; the number of a name is its place.
pub struct NameSet {
    names: Names,
    // The keys of the names, as long as each is short and apart from those before it, as names of a script are.
    keys: IndexSet<NameKey>,
}

impl Model for NameSet {
    ghost use Rattle.std.specs.Prelude.{List, ℕ};
    ghost use Rattle.script_text.specs.NameKeys.{IsIndexed};

    ghost Value = { List (List ℕ) };

    ghost view = { λ a. a.names };

    ghost invariant = { λ a. IsIndexed a.names a.keys.keys };
}

// Written out, so that a caller's exits have one call for it.
impl Drop for NameSet {
    fn drop(self) {
        let NameSet {
            names: _names,
            keys: _keys,
        } = self;
    }
}

// So many keys are gone through one by one; more are looked up in the index.
const WALKED: usize = 8;

// The place of a key.
fn place_of(keys: &IndexSet<NameKey>, key: NameKey) -> Option<usize>
    ensures place { result ≡ position (same_key key) keys.now.keys }
    ensures within { IfSome result (λ place. place < length keys.now.keys) }
{
    let all = keys.as_slice();
    if all.len() <= WALKED {
        all.iter().position(|other| key == *other)
    } else {
        keys.get_index_of(&key)
    }
}

// The place of a name, found without keys.
fn walked(names: &[Text], name: &[u8]) -> Option<usize>
    ensures place { result ≡ position (bytes_eq name.now) names.now }
    ensures within { IfSome result (λ place. place < length names.now) }
{
    names.iter().position(|other| name == other.as_bytes())
}

impl NameSet {
    /// No names; takes no memory.
    pub fn new(alloc: Global) -> Self
        ensures { result ≡ [] }
    {
        NameSet {
            names: Names::new(alloc),
            keys: IndexSet::new(alloc),
        }
    }

    /// How many names there are.
    pub fn len(&self) -> usize
        ensures { result ≡ length self.now }
    {
        self.names.len()
    }

    /// Whether there are no names.
    pub fn is_empty(&self) -> bool
        ensures { IsTrue result ↔ (self.now ≡ []) }
    {
        self.names.is_empty()
    }

    /// The names as a list.
    pub fn as_list(&self) -> &Names
        ensures { result.now ≡ self.now }
    {
        &self.names
    }

    /// The names, by number.
    pub fn as_slice(&self) -> &[Text]
        ensures { result.now ≡ self.now }
    {
        self.names.as_slice()
    }

    /// The name of a number, where there is one.
    pub fn get(&self, number: usize) -> Option<&Text>
        ensures { option_copied result ≡ slice_get self.now number }
    {
        self.names.get(number)
    }

    // The place of a name.
    fn place(&self, name: &[u8]) -> Option<usize>
        ensures number { result ≡ number_of self.now name.now }
        ensures within { IfSome result (λ place. place < length self.now) }
    {
        if self.keys.len() < self.names.len() {
            return walked(self.names.as_slice(), name);
        }
        match NameKey::of(name) {
            Some(key) => place_of(&self.keys, key),
            None => None,
        }
    }

    /// The number of a name.
    pub fn number_of(&self, name: &[u8]) -> Option<u8>
        requires { length self.now ≤ 256 }
        ensures { result ≡ number_of self.now name.now }
    {
        match self.place(name) {
            Some(place) => Some(place as u8),
            None => None,
        }
    }

    /// Whether the name is one of these.
    #[tactic(auto, using(crate::proofs::NameKeyLemmas::has_number))]
    pub fn has(&self, name: &[u8]) -> bool
        ensures { result ≡ is_among self.now name.now }
    {
        self.place(name).is_some()
    }

    /// One name more, behind the others. Without memory the names stay as they were.
    pub fn push(&mut self, name: Text) -> Result<(), AllocError>
        ensures ok { OnOk result (self.new ≡ self.old ++ name ∷ []) }
        ensures err { OnErr result (self.new ≡ self.old) }
    {
        let key = NameKey::of(name.as_bytes());
        let lacks_keys = self.keys.len() < self.names.len();
        self.names.push(name)?;
        if lacks_keys {
            return Ok(());
        }
        let Some(key) = key else {
            return Ok(());
        };
        let _added = self.keys.insert(key);
        Ok(())
    }
}
