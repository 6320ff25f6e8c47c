//! Laws of the texts of forms. Each function does nothing, and its contract is the law.
ghost use Rattle.object_form.specs.Laws.{TextsDiffer, ReadsAsOne, ReadsBack, FormsFit};

/// No two forms have one text.
pub fn texts_differ()
    ensures { TextsDiffer }
{}

/// Each text is read as exactly one form.
pub fn reads_as_one()
    ensures { ReadsAsOne }
{}

/// What is written of a form is read as this form.
pub fn reads_back()
    ensures { ReadsBack }
{}

/// The text of a form is one that a node may have.
pub fn forms_fit()
    ensures { FormsFit }
{}
