// A published copy of a column: looks that wait for nobody.
mod absorb;
pub(crate) mod beside;
pub(crate) mod copied;
pub(crate) mod copies;
pub(crate) mod desk;
pub(crate) mod name;
pub(crate) mod publish;
pub(crate) mod rule;
pub(crate) mod shelf;
pub(crate) mod shown;
