// What the rows of commands and of objects' lines are made of: kinds of object, kinds of field, and what is tested then. The rows of commands
// stand in `commands.rt`. A new kind of field has its line in `Spells`, `kind_tests`, `taken_at` and `Given::take`.
ghost use Rattle.std.specs.Prelude.{◌≡◌, ◌≤◌, length};
ghost use Rattle.script_text.specs.Table.{sort_text, sort_fields, sort_since, has_sort, sort_at, has_word, word_at, at_most, own_fields, later_fields, has, fits};
ghost use Rattle.script_text.specs.Words.{word_text};
ghost use Rattle.script_text.specs.Readings.{fields_in};

use crate::commands::{WORDS, Word};
use crate::limits::VERSION_2;

/// The kinds of object that have a command.
#[derive(Clone, Copy, Debug, PartialEq, Eq)]
pub struct Kinds {
    pub map: bool,
    pub tx: bool,
    pub causal: bool,
    pub queue: bool,
    pub tree: bool,
    pub parts: bool,
}

/// What one field, or the last ones, may be.
#[derive(Clone, Copy, Debug, PartialEq, Eq)]
pub enum Field {
    /// A number of steps.
    Steps,
    /// Distinct colours with commas between them.
    Cols,
    Colour,
    Region,
    Text,
    Object { kinds: Kinds },
    Key,
    Value,
    /// A path of a tree; whether it may be the root.
    Path { root: bool },
    /// A second path, which is not the root.
    Target,
    /// One to this many distinct keys, which are the last fields.
    Keys { most: usize },
    /// One to this many pairs with distinct keys, which are the last fields.
    Pairs { most: usize },
    /// A colour of an object, which no object keeps to itself.
    ObjectColour,
    /// One to this many distinct colours of an object, which are the last fields; whether the object keeps them to itself.
    ObjectColours { most: usize, alone: bool },
}

/// What is tested after the fields.
#[derive(Clone, Copy, Debug, PartialEq, Eq)]
pub enum Last {
    Nothing,
    /// Two colours or more, and steps that fit their number.
    StopFits,
    /// A read of the object that no commit has used up.
    ReadHeld,
}

/// A word, its text, the fields after it from left to right, what is tested then, and the first version that has the word.
pub type Row = (Word, &'static [u8], &'static [Field], Last, u8);

pub const NONE: Kinds = Kinds {
    map: false,
    tx: false,
    causal: false,
    queue: false,
    tree: false,
    parts: false,
};

pub const MAP: Kinds = Kinds { map: true, ..NONE };

pub const ANY_MAP: Kinds = Kinds {
    causal: true,
    ..MAP
};

pub const PARTS: Kinds = Kinds {
    parts: true,
    ..NONE
};

pub const TX: Kinds = Kinds { tx: true, ..PARTS };

pub const QUEUE: Kinds = Kinds {
    queue: true,
    ..NONE
};

pub const TREE: Kinds = Kinds { tree: true, ..NONE };

impl Word {
    /// The word itself.
    pub fn as_bytes(self) -> &'static [u8]
        ensures { result.now ≡ word_text self }
    {
        self.row().1
    }

    /// Whether this version has the word.
    fn is_in(self, version: u8) -> bool
        ensures { result ≡ has_word version self }
    {
        self.row().4 <= version
    }

    /// The command with this word, in this version.
    pub fn of_bytes(version: u8, field: &[u8]) -> Option<Word>
        ensures { result ≡ word_at version field.now }
    {
        WORDS
            .iter()
            .copied()
            .find(|word| field == word.as_bytes() && word.is_in(version))
    }
}

/// What an object's line may declare.
#[derive(Clone, Copy, Debug, PartialEq, Eq)]
pub enum Sort {
    Map,
    Tx,
    Causal,
    Queue,
    Tree,
    Parts,
}

/// The word of an object's line, the fields after the object's name, and the first version that has the line.
pub type SortRow = (&'static [u8], &'static [Field], u8);

const SHARDED: &[Field] = &[
    Field::Region,
    Field::ObjectColours {
        most: VERSION_2.colours,
        alone: false,
    },
];

const APART: &[Field] = &[
    Field::Region,
    Field::ObjectColours {
        most: VERSION_2.colours,
        alone: true,
    },
];

pub const MAP_LINE: SortRow = (b"map", SHARDED, 1);

pub const TX_LINE: SortRow = (b"tx", SHARDED, 1);

pub const CAUSAL_LINE: SortRow = (b"causal", &[Field::ObjectColour], 1);

pub const QUEUE_LINE: SortRow = (b"queue", &[Field::Region, Field::ObjectColour], 1);

pub const TREE_LINE: SortRow = (b"tree", SHARDED, 2);

pub const PARTS_LINE: SortRow = (b"parts", APART, 2);

/// All sorts.
pub const SORTS: [Sort; 6] = [
    Sort::Map,
    Sort::Tx,
    Sort::Causal,
    Sort::Queue,
    Sort::Tree,
    Sort::Parts,
];

impl Sort {
    /// The row of an object's line.
    pub fn row(self) -> SortRow
        ensures text { result.0.now ≡ sort_text self }
        ensures fields { result.1.now ≡ sort_fields self }
        ensures since { result.2 ≡ sort_since self }
    {
        match self {
            Sort::Map => MAP_LINE,
            Sort::Tx => TX_LINE,
            Sort::Causal => CAUSAL_LINE,
            Sort::Queue => QUEUE_LINE,
            Sort::Tree => TREE_LINE,
            Sort::Parts => PARTS_LINE,
        }
    }

    /// Whether this version has such lines.
    fn is_in(self, version: u8) -> bool
        ensures { result ≡ has_sort version self }
    {
        self.row().2 <= version
    }

    /// The sort of object that a line with this word declares, in this version.
    pub fn of_bytes(version: u8, field: &[u8]) -> Option<Sort>
        ensures { result ≡ sort_at version field.now }
    {
        SORTS
            .iter()
            .copied()
            .find(|sort| field == sort.row().0 && sort.is_in(version))
    }
}

impl Field {
    /// How many last fields it may take, or nothing where it is one field.
    fn at_most(self) -> Option<usize>
        ensures { result ≡ at_most self }
    {
        match self {
            Field::Keys { most } | Field::Pairs { most } | Field::ObjectColours { most, .. } => {
                Some(most)
            }
            Field::Steps | Field::Cols | Field::Colour | Field::Region | Field::Text => None,
            Field::Object { .. } | Field::Key | Field::Value => None,
            Field::Path { .. } | Field::Target | Field::ObjectColour => None,
        }
    }

    /// The fields that it takes, and those after them.
    pub fn split<'a, 'b>(self, args: &'a [&'b [u8]]) -> (&'a [&'b [u8]], &'a [&'b [u8]])
        ensures own { fields_in result.0.now ≡ own_fields self (fields_in args.now) }
        ensures later { fields_in result.1.now ≡ later_fields self (fields_in args.now) }
    {
        match self.at_most() {
            Some(_) => (args, &[]),
            None => match args {
                [] => (args, args),
                [_, later @ ..] => (&args[..1], later),
            },
        }
    }

    /// Whether its fields are as many as may be.
    fn has(self, own: &[&[u8]]) -> bool
        ensures { result ≡ has self (fields_in own.now) }
    {
        match self.at_most() {
            Some(most) => !own.is_empty() && own.len() <= most,
            None => !own.is_empty(),
        }
    }
}

/// Whether the number of fields is lawful.
pub fn fits(fields: &[Field], args: &[&[u8]]) -> bool
    ensures { result ≡ fits fields.now (fields_in args.now) }
{
    match fields {
        [] => args.is_empty(),
        [field, fields @ ..] => {
            let (own, later) = field.split(args);
            field.has(own) && fits(fields, later)
        }
    }
}
