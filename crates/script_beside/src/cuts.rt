// A script's bytes, cut into its header and parts behind it.
ghost use Rattle.std.specs.Prelude.{◌≤◌};
ghost use Rattle.script_text.specs.declared.limits.TheConstants.{MAX_BYTES};

use script_text::Script;

/// A part of the lines behind the header.
#[derive(Drop)]
pub struct Cut<'a> {
    pub bytes: &'a [u8],
    /// How many lines stand between the header and it.
    pub before: u32,
    ghost few: { before ≤ MAX_BYTES },
}

/// A script's bytes in parts.
#[derive(Drop)]
pub struct Parted<'a> {
    /// The lines up to `begin`.
    pub header: &'a [u8],
    /// What the header says.
    pub script: Script,
    /// The lines behind it.
    pub cuts: Vec<Cut<'a>>,
}
