// What clauses know of a copy. No value of these is made.
ghost use base.Fml.{ftrue};
ghost use Rattle.atomic_table.specs.Seated.{TableId, table_id_coded};

use crate::told::{Tag, Told};
use col_core::View;
use std::collections::LinkedList;
use std::marker::Model;

/// Which column it is: what never changes of it, and the table of its turns.
pub struct ColumnName {
    pub tag: Option<Tag>,
    pub ghost table: { TableId } by { table_id_coded },
}

impl Model for ColumnName {
    ghost also_owns = { λ _. ftrue };
}

/// What a copy shows, the history that it shows, and the column whose history it is.
pub struct Shape {
    pub view: View,
    pub seen: LinkedList<Told>,
    pub column: ColumnName,
}
