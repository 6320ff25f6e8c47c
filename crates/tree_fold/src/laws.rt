//! Laws of the texts of paths and changes, and of the names in a path. Each function does nothing, and its contract is the law.
ghost use Rattle.tree_fold.specs.Laws.{PathsReadAsOne, ChangeTextsDiffer, ReadsAsOneChange, ChangesReadBack, ChangesFit, ChangesArePlain, FormsAreNoChanges, NamesAreAnswered, NamesAreOne};

/// Each text is that of one path or of none.
pub fn paths_read_as_one()
    ensures { PathsReadAsOne }
{}

/// No two changes have one text.
pub fn texts_differ()
    ensures { ChangeTextsDiffer }
{}

/// Each text is read as one change or as none.
pub fn reads_as_one()
    ensures { ReadsAsOneChange }
{}

/// What is written of a change is read as this change.
pub fn reads_back()
    ensures { ChangesReadBack }
{}

/// The text of a change is one that a node may have.
pub fn changes_fit()
    ensures { ChangesFit }
{}

/// The text of a change is a plain one to the other objects.
pub fn changes_are_plain()
    ensures { ChangesArePlain }
{}

/// The text of a form of the other objects is no change.
pub fn forms_are_no_changes()
    ensures { FormsAreNoChanges }
{}

/// What is computed of a path is what is answered of it: its names, or nothing.
pub fn names_are_answered()
    ensures { NamesAreAnswered }
{}

/// One thing alone is answered of a path.
pub fn names_are_one()
    ensures { NamesAreOne }
{}
