// The rule of the copies, and what each kind of step tells.
ghost use Rattle.std.specs.Prelude.{None};
ghost use Rattle.chain_store.specs.CopyRule.{IsTold, Finds};

use crate::read_view::copied::{Copied, News};
use crate::read_view::name::ColumnName;
use atomic_table::{Join, Split};
use crossbeam_utils::rule::{Outcome, Protocol};
use left_right::reader::Reader;
use left_right::writer::Writer;

/// A copy shows just what the pass in it has seen, and is of the column that each reader knows.
pub struct Shows;

impl Protocol<Copied, Option<ColumnName>> for Shows {
    ghost holds = { IsTold };

    ghost first = { None };
}

/// Enters a copy, or publishes one.
pub struct Finding;

impl Outcome<Copied, Option<ColumnName>> for Finding {
    ghost then = { Finds };
}

/// Tells which column it is.
pub(crate) struct Naming;

impl Split<Option<ColumnName>> for Naming {
    ghost left = { λ v. v };

    ghost right = { λ v. v };
}

impl Join<Option<ColumnName>> for Naming {
    ghost both = { λ _ w. w };

    ghost spent = { None };
}

/// A reader of the copies.
pub type ViewReader = Reader<Copied, Option<ColumnName>, Shows>;

/// Their writer.
pub type ViewWriter = Writer<Copied, News, Option<ColumnName>, Shows>;
