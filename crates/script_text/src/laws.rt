// Laws of the grammar and of the faults.
ghost use Rattle.std.specs.Prelude.{◌≡◌, ◌↔◌, ◌<◌, ◌+◌, ℕ, List, None, length};
ghost use Rattle.script_text.specs.declared.limits.TheConstants.{MAX_LINES};
ghost use Rattle.script_text.specs.declared.item.Item.{Item};
ghost use Rattle.script_text.specs.Grammar.{AreLines};
ghost use Rattle.script_text.specs.Faults.{fault_of};
ghost use Rattle.script_text.specs.Laws.{IsSound, RowsAreWithinLimits};

/// The next line after some that say items has no fault exactly where it is passed over or says
/// an item that may follow those.
pub fn a_line_is_faulty_or_sound()
    ensures { (lines : List (List ℕ)) (said : List Item) (line : List ℕ)
        → AreLines lines said → length lines < MAX_LINES
        → (fault_of said (length lines + 1) line ≡ None) ↔ IsSound said (length lines + 1) line }
{}

/// What is read as a script lets each client begin at most as many appends to several colours as its version allows.
pub fn rows_are_within_limits()
    ensures { RowsAreWithinLimits }
{}
