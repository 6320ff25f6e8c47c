// How large a script may be, and what is in it.
ghost use Rattle.std.specs.Prelude.{◌≡◌};
ghost use Rattle.script_text.specs.Versions.{limits_in, AreWithin};

/// What differs between the versions of a script's text: the most names of each kind, the most rows that a client may
/// be given, and how many it has where the script does not say.
#[derive(Clone, Copy, Debug, PartialEq, Eq)]
pub struct Limits {
    pub regions: usize,
    pub colours: usize,
    pub clients: usize,
    pub objects: usize,
    pub rows: u32,
    pub unsaid_rows: u32,
}

/// The limits of version 1.
pub const VERSION_1: Limits = Limits {
    regions: 4,
    colours: 16,
    clients: 16,
    objects: 16,
    rows: 4096,
    unsaid_rows: 4096,
};

/// The limits of version 2.
pub const VERSION_2: Limits = Limits {
    regions: 4,
    colours: 64,
    clients: 64,
    objects: 64,
    rows: 1024,
    unsaid_rows: 256,
};

/// The limits of a version.
pub fn limits_in(version: u8) -> Limits
    ensures limits { result ≡ limits_in version }
    ensures within { AreWithin result }
{
    if version == 2 { VERSION_2 } else { VERSION_1 }
}

/// The most bytes that a script may have.
pub const MAX_BYTES: usize = 1_048_576;

/// The most lines that a script may have.
pub const MAX_LINES: u32 = 20_000;

/// The most bytes of a name.
pub const MAX_NAME: usize = 12;

/// The most bytes of a key or a value.
pub const MAX_KEY: usize = 16;

/// The most names of a path in a tree.
pub const MAX_PATH_NAMES: usize = 4;

/// The most bytes of a name in a path.
pub const MAX_PATH_NAME: usize = 8;

/// The most digits of a number of rows.
pub const ROWS_DIGITS: usize = 10;

/// The most digits of a number of steps.
pub const STEPS_DIGITS: usize = 3;
