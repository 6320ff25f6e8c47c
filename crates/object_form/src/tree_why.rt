// Why a change of a tree fails, and the words for it.
use std::fmt;

/// Why a change of a tree fails: the first reason that holds, in this order. A make: `Exists`, `NoParent`. A removal: `Missing`,
/// `NotEmpty`. A move: `Missing`, `Inside`, `Exists`, `NoParent`, `Deep`.
#[derive(Clone, Copy, Debug, PartialEq, Eq)]
pub enum TreeWhy {
    /// The path that is made, or the target of a move, is there.
    Exists,
    /// That path without its last name is not there.
    NoParent,
    /// The path that is removed, or the source of a move, is not there.
    Missing,
    /// A path that is there goes on from the one that is removed.
    NotEmpty,
    /// The target of a move is the source or goes on from it.
    Inside,
    /// A path that moves would have more than 4 names.
    Deep,
}

impl TreeWhy {
    ghost use Rattle.std.specs.Prelude.{◌≡◌};
    ghost use Rattle.object_form.specs.Reasons.{why_text};

    /// The reason as one word.
    pub fn as_str(&self) -> &'static str
        ensures { result.now ≡ why_text self.now }
    {
        match self {
            TreeWhy::Exists => "exists",
            TreeWhy::NoParent => "noparent",
            TreeWhy::Missing => "missing",
            TreeWhy::NotEmpty => "notempty",
            TreeWhy::Inside => "inside",
            TreeWhy::Deep => "deep",
        }
    }
}

impl fmt::Display for TreeWhy {
    ghost use Rattle.std.specs.Prelude.{Some};
    ghost use Rattle.object_form.specs.Reasons.{why_text};

    ghost output = { λ why. Some (why_text why) };

    fn fmt<W: fmt::Write>(&self, f: &mut fmt::Formatter<W>) -> fmt::Result {
        f.write_str(self.as_str())
    }
}
