// Keys of tables, which hash and compare by their bytes.
ghost use Rattle.std.specs.Prelude.{◌∷◌, []};
ghost use Rattle.std.specs.Str.{bytes_eq};
ghost use Rattle.std.proofs.Common.{ap};
ghost use Rattle.std.specs.Cmp.{on_equiv, on_per, partial_equiv_from_equiv};
ghost use Rattle.std.specs.Cmp.Lexicographic.{bytes_decides, nat_list_eq_equiv};

use indexmap::Equivalent;
use log_node::Text;
use std::hash::{Hash, Hasher};
use std::marker::Model;

/// A key that is kept in a table.
#[derive(Drop)]
pub struct TableKey {
    pub(crate) text: Text,
}

impl Model for TableKey {
    ghost use Rattle.std.specs.Prelude.{List, ℕ};

    ghost Value = { List ℕ };

    ghost view = { λ k. k.text };
}

impl PartialEq for TableKey {
    ghost eq = { bytes_eq };

    ghost laws = { partial_equiv_from_equiv nat_list_eq_equiv };

    fn eq(&self, other: &TableKey) -> bool {
        self.text.as_bytes() == other.text.as_bytes()
    }
}

impl Eq for TableKey {
    ghost laws = { nat_list_eq_equiv };
}

impl Hash for TableKey {
    ghost hash_input = { λ k. k ∷ [] };

    ghost respects_eq = { λ x y h. ap (λ k. k ∷ []) ((bytes_decides x y).0 h) };

    fn hash<H: Hasher>(&self, state: &mut H) {
        state.write(self.text.as_bytes());
    }
}

/// A key that is looked up in a table.
#[derive(Clone, Copy)]
pub struct AskedKey<'a> {
    pub(crate) bytes: &'a [u8],
}

impl<'a> PartialEq for AskedKey<'a> {
    ghost eq = { λ x y. bytes_eq x.bytes.now y.bytes.now };

    ghost laws = { on_per (λ x. x.bytes.now) (partial_equiv_from_equiv nat_list_eq_equiv) };

    fn eq(&self, other: &AskedKey<'a>) -> bool {
        self.bytes == other.bytes
    }
}

impl<'a> Eq for AskedKey<'a> {
    ghost laws = { on_equiv (λ x. x.bytes.now) nat_list_eq_equiv };
}

impl<'a> Hash for AskedKey<'a> {
    ghost hash_input = { λ x. x.bytes.now ∷ [] };

    ghost respects_eq = { λ x y h. ap (λ k. k ∷ []) ((bytes_decides x.bytes.now y.bytes.now).0 h) };

    fn hash<H: Hasher>(&self, state: &mut H) {
        state.write(self.bytes);
    }
}

impl<'a> Equivalent<TableKey> for AskedKey<'a> {
    ghost equivalent = { λ q k. bytes_eq q.bytes.now k };

    ghost respects_hash = { λ q k h. ap (λ l. l ∷ []) ((bytes_decides q.bytes.now k).0 h) };

    ghost respects_eq = { λ q x y. nat_list_eq_equiv.congr q.bytes.now x y };

    fn equivalent(&self, key: &TableKey) -> bool {
        self.bytes == key.text.as_bytes()
    }
}
