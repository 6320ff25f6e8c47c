// The commands: for each a variant, a word, and a row in each function of this file. A new command is a variant of `What` and of `Word`, a row
// here and its place in `WORDS`, and its line in each definition of `specs/Commands.antt`; the checker names each of these.
ghost use Rattle.std.specs.Prelude.{◌≡◌, ◌≤◌};
ghost use Rattle.script_text.specs.declared.commands.Word.TheVariants as words;
ghost use Rattle.script_text.specs.Commands.{word_of, use_of, node_of, content_of, what_of};
ghost use Rattle.script_text.specs.Contents.{said_by};
ghost use Rattle.script_text.specs.Words.{word_text};
ghost use Rattle.script_text.specs.Table.{row_fields, last_of, since_of};

use crate::given::Given;
use crate::table::{ANY_MAP, Field, Last, MAP, PARTS, QUEUE, Row, TREE, TX};
use crate::uses::{Content, NodeOf, ReadUse, Use};
use log_node::{Colours, Keys, Pairs, Text};

/// What a command asks for.
#[derive(Drop)]
pub enum What {
    Append {
        colours: Colours,
        text: Text,
    },
    Stop {
        steps: u8,
        colours: Colours,
        text: Text,
    },
    Sync {
        colour: u8,
    },
    Scan {
        colours: Colours,
    },
    Pull {
        region: u8,
        colour: u8,
    },
    Trim {
        colour: u8,
    },
    Put {
        object: u8,
        key: Text,
        value: Text,
    },
    Get {
        object: u8,
        key: Text,
    },
    Del {
        object: u8,
        key: Text,
    },
    PutAll {
        object: u8,
        pairs: Pairs,
    },
    GetAll {
        object: u8,
        keys: Keys,
    },
    Read {
        object: u8,
        keys: Keys,
    },
    Commit {
        object: u8,
        pairs: Pairs,
    },
    Enq {
        object: u8,
        value: Text,
    },
    Deq {
        object: u8,
    },
    Only {
        colour: u8,
        text: Text,
    },
    Mk {
        object: u8,
        path: Text,
        value: Text,
    },
    Rm {
        object: u8,
        path: Text,
    },
    Mv {
        object: u8,
        source: Text,
        target: Text,
    },
    Ls {
        object: u8,
        path: Text,
    },
    Peek {
        object: u8,
        key: Text,
    },
    Decide {
        object: u8,
        key: Text,
    },
}

/// A command's word.
#[derive(Clone, Copy, Debug, PartialEq, Eq)]
pub enum Word {
    Append,
    Stop,
    Sync,
    Scan,
    Pull,
    Trim,
    Put,
    Get,
    Del,
    PutAll,
    GetAll,
    Read,
    Commit,
    Enq,
    Deq,
    Only,
    Mk,
    Rm,
    Mv,
    Ls,
    Peek,
    Decide,
}

const OF_ANY_MAP: Field = Field::Object { kinds: ANY_MAP };

const OF_MAP: Field = Field::Object { kinds: MAP };

const OF_TX: Field = Field::Object { kinds: TX };

const OF_QUEUE: Field = Field::Object { kinds: QUEUE };

const OF_TREE: Field = Field::Object { kinds: TREE };

const OF_PARTS: Field = Field::Object { kinds: PARTS };

const BELOW_ROOT: Field = Field::Path { root: false };

pub const APPEND: Row = (
    Word::Append,
    b"append",
    &[Field::Cols, Field::Text],
    Last::Nothing,
    1,
);

pub const STOP: Row = (
    Word::Stop,
    b"stop",
    &[Field::Steps, Field::Cols, Field::Text],
    Last::StopFits,
    1,
);

pub const SYNC: Row = (Word::Sync, b"sync", &[Field::Colour], Last::Nothing, 1);

pub const SCAN: Row = (Word::Scan, b"scan", &[Field::Cols], Last::Nothing, 1);

pub const PULL: Row = (
    Word::Pull,
    b"pull",
    &[Field::Region, Field::Colour],
    Last::Nothing,
    1,
);

pub const TRIM: Row = (Word::Trim, b"trim", &[Field::Colour], Last::Nothing, 1);

pub const PUT: Row = (
    Word::Put,
    b"put",
    &[OF_ANY_MAP, Field::Key, Field::Value],
    Last::Nothing,
    1,
);

pub const GET: Row = (
    Word::Get,
    b"get",
    &[OF_ANY_MAP, Field::Key],
    Last::Nothing,
    1,
);

pub const DEL: Row = (Word::Del, b"del", &[OF_MAP, Field::Key], Last::Nothing, 1);

pub const PUTALL: Row = (
    Word::PutAll,
    b"putall",
    &[OF_MAP, Field::Pairs { most: 4 }],
    Last::Nothing,
    1,
);

pub const GETALL: Row = (
    Word::GetAll,
    b"getall",
    &[OF_MAP, Field::Keys { most: 4 }],
    Last::Nothing,
    1,
);

pub const READ: Row = (
    Word::Read,
    b"read",
    &[OF_TX, Field::Keys { most: 2 }],
    Last::Nothing,
    1,
);

pub const COMMIT: Row = (
    Word::Commit,
    b"commit",
    &[OF_TX, Field::Pairs { most: 2 }],
    Last::ReadHeld,
    1,
);

pub const ENQ: Row = (
    Word::Enq,
    b"enq",
    &[OF_QUEUE, Field::Value],
    Last::Nothing,
    1,
);

pub const DEQ: Row = (Word::Deq, b"deq", &[OF_QUEUE], Last::Nothing, 1);

pub const ONLY: Row = (
    Word::Only,
    b"only",
    &[Field::Colour, Field::Text],
    Last::Nothing,
    2,
);

pub const MK: Row = (
    Word::Mk,
    b"mk",
    &[OF_TREE, BELOW_ROOT, Field::Value],
    Last::Nothing,
    2,
);

pub const RM: Row = (Word::Rm, b"rm", &[OF_TREE, BELOW_ROOT], Last::Nothing, 2);

pub const MV: Row = (
    Word::Mv,
    b"mv",
    &[OF_TREE, BELOW_ROOT, Field::Target],
    Last::Nothing,
    2,
);

pub const LS: Row = (
    Word::Ls,
    b"ls",
    &[OF_TREE, Field::Path { root: true }],
    Last::Nothing,
    2,
);

pub const PEEK: Row = (
    Word::Peek,
    b"peek",
    &[OF_PARTS, Field::Key],
    Last::Nothing,
    2,
);

pub const DECIDE: Row = (
    Word::Decide,
    b"decide",
    &[OF_PARTS, Field::Key],
    Last::Nothing,
    2,
);

/// All words.
pub const WORDS: [Word; 22] = [
    Word::Append,
    Word::Stop,
    Word::Sync,
    Word::Scan,
    Word::Pull,
    Word::Trim,
    Word::Put,
    Word::Get,
    Word::Del,
    Word::PutAll,
    Word::GetAll,
    Word::Read,
    Word::Commit,
    Word::Enq,
    Word::Deq,
    Word::Only,
    Word::Mk,
    Word::Rm,
    Word::Mv,
    Word::Ls,
    Word::Peek,
    Word::Decide,
];

impl Word {
    /// The word's row.
    pub fn row(self) -> Row
        ensures text { result.1.now ≡ word_text self }
        ensures fields { result.2.now ≡ row_fields self }
        ensures last { result.3 ≡ last_of self }
        ensures since { result.4 ≡ since_of self }
    {
        match self {
            Word::Append => APPEND,
            Word::Stop => STOP,
            Word::Sync => SYNC,
            Word::Scan => SCAN,
            Word::Pull => PULL,
            Word::Trim => TRIM,
            Word::Put => PUT,
            Word::Get => GET,
            Word::Del => DEL,
            Word::PutAll => PUTALL,
            Word::GetAll => GETALL,
            Word::Read => READ,
            Word::Commit => COMMIT,
            Word::Enq => ENQ,
            Word::Deq => DEQ,
            Word::Only => ONLY,
            Word::Mk => MK,
            Word::Rm => RM,
            Word::Mv => MV,
            Word::Ls => LS,
            Word::Peek => PEEK,
            Word::Decide => DECIDE,
        }
    }
}

impl What {
    /// The word by which a script asks for it.
    pub fn word(&self) -> Word
        ensures { result ≡ word_of self.now }
    {
        match self {
            What::Append { .. } => Word::Append,
            What::Stop { .. } => Word::Stop,
            What::Sync { .. } => Word::Sync,
            What::Scan { .. } => Word::Scan,
            What::Pull { .. } => Word::Pull,
            What::Trim { .. } => Word::Trim,
            What::Put { .. } => Word::Put,
            What::Get { .. } => Word::Get,
            What::Del { .. } => Word::Del,
            What::PutAll { .. } => Word::PutAll,
            What::GetAll { .. } => Word::GetAll,
            What::Read { .. } => Word::Read,
            What::Commit { .. } => Word::Commit,
            What::Enq { .. } => Word::Enq,
            What::Deq { .. } => Word::Deq,
            What::Only { .. } => Word::Only,
            What::Mk { .. } => Word::Mk,
            What::Rm { .. } => Word::Rm,
            What::Mv { .. } => Word::Mv,
            What::Ls { .. } => Word::Ls,
            What::Peek { .. } => Word::Peek,
            What::Decide { .. } => Word::Decide,
        }
    }

    /// What it has to do with an object.
    pub fn use_of(&self) -> Use
        ensures { result ≡ use_of self.now }
    {
        match self {
            What::Append { .. } | What::Sync { .. } | What::Scan { .. } => Use::OfLog {
                stops: false,
            },
            What::Pull { .. } | What::Trim { .. } | What::Only { .. } => Use::OfLog {
                stops: false,
            },
            What::Stop { .. } => Use::OfLog { stops: true },
            What::Put { object, .. }
            | What::Get { object, .. }
            | What::Del { object, .. }
            | What::PutAll { object, .. }
            | What::GetAll { object, .. }
            | What::Enq { object, .. }
            | What::Deq { object }
            | What::Mk { object, .. }
            | What::Rm { object, .. }
            | What::Mv { object, .. }
            | What::Ls { object, .. }
            | What::Peek { object, .. }
            | What::Decide { object, .. } => Use::OfObject {
                object: *object,
                read: ReadUse::Leaves,
            },
            What::Read { object, .. } => Use::OfObject {
                object: *object,
                read: ReadUse::Takes,
            },
            What::Commit { object, .. } => Use::OfObject {
                object: *object,
                read: ReadUse::UsesUp,
            },
        }
    }

    /// Which node it appends.
    pub fn node_of(&self) -> NodeOf
        ensures { result ≡ node_of self.now }
    {
        match self {
            What::Append { colours, .. } => NodeOf::Named { colours: *colours },
            What::Put { .. } | What::Del { .. } => NodeOf::OneColour,
            What::Only { .. } | What::Mk { .. } | What::Rm { .. } => NodeOf::OneColour,
            What::Decide { .. } => NodeOf::OneColour,
            What::Stop { .. } | What::PutAll { .. } | What::Commit { .. } => NodeOf::Several,
            What::Enq { .. } | What::Deq { .. } | What::Mv { .. } => NodeOf::Several,
            What::Sync { .. } | What::Scan { .. } | What::Pull { .. } => NodeOf::NoNode,
            What::Trim { .. } | What::Get { .. } | What::GetAll { .. } => NodeOf::NoNode,
            What::Read { .. } | What::Ls { .. } | What::Peek { .. } => NodeOf::NoNode,
        }
    }

    /// What it says, beside what it is about.
    pub fn content(&self) -> Content<'_>
        ensures { said_by result ≡ content_of self.now }
    {
        match self {
            What::Append { text, .. } | What::Stop { text, .. } | What::Only { text, .. } => {
                Content::Text(text.as_bytes())
            }
            What::Put { key, value, .. } => Content::Pair(key.as_bytes(), value.as_bytes()),
            What::Get { key, .. } | What::Del { key, .. } => Content::Key(key.as_bytes()),
            What::PutAll { pairs, .. } | What::Commit { pairs, .. } => Content::Pairs(
                pairs.as_slice(),
            ),
            What::GetAll { keys, .. } | What::Read { keys, .. } => Content::Keys(keys.as_slice()),
            What::Enq { value, .. } => Content::Value(value.as_bytes()),
            What::Sync { .. } | What::Scan { .. } | What::Pull { .. } => Content::Nothing,
            What::Trim { .. } | What::Deq { .. } => Content::Nothing,
            What::Mk { path, value, .. } => Content::PathValue(path.as_bytes(), value.as_bytes()),
            What::Rm { path, .. } => Content::Path(path.as_bytes()),
            What::Mv { source, target, .. } => Content::Paths(source.as_bytes(), target.as_bytes()),
            What::Ls { path, .. } => Content::Folder(path.as_bytes()),
            What::Peek { key, .. } | What::Decide { key, .. } => Content::Key(key.as_bytes()),
        }
    }
}

impl Given {
    /// What a command asks for, by what its fields gave.
    pub fn into_what(self, word: Word) -> What
        requires { word ≡ words.Stop → self.number ≤ 255 }
        ensures { result ≡ what_of word self }
    {
        let given = self;
        let object = given.object;
        match word {
            Word::Append => What::Append {
                colours: given.colours,
                text: given.text,
            },
            Word::Stop => What::Stop {
                steps: given.number as u8,
                colours: given.colours,
                text: given.text,
            },
            Word::Sync => What::Sync {
                colour: given.colour,
            },
            Word::Scan => What::Scan {
                colours: given.colours,
            },
            Word::Pull => What::Pull {
                region: given.region,
                colour: given.colour,
            },
            Word::Trim => What::Trim {
                colour: given.colour,
            },
            Word::Put => What::Put {
                object,
                key: given.key,
                value: given.value,
            },
            Word::Get => What::Get {
                object,
                key: given.key,
            },
            Word::Del => What::Del {
                object,
                key: given.key,
            },
            Word::PutAll => What::PutAll {
                object,
                pairs: given.pairs,
            },
            Word::GetAll => What::GetAll {
                object,
                keys: given.keys,
            },
            Word::Read => What::Read {
                object,
                keys: given.keys,
            },
            Word::Commit => What::Commit {
                object,
                pairs: given.pairs,
            },
            Word::Enq => What::Enq {
                object,
                value: given.value,
            },
            Word::Deq => What::Deq { object },
            Word::Only => What::Only {
                colour: given.colour,
                text: given.text,
            },
            Word::Mk => What::Mk {
                object,
                path: given.path,
                value: given.value,
            },
            Word::Rm => What::Rm {
                object,
                path: given.path,
            },
            Word::Mv => What::Mv {
                object,
                source: given.path,
                target: given.target,
            },
            Word::Ls => What::Ls {
                object,
                path: given.path,
            },
            Word::Peek => What::Peek {
                object,
                key: given.key,
            },
            Word::Decide => What::Decide {
                object,
                key: given.key,
            },
        }
    }
}
