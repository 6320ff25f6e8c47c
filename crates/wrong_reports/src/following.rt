// Conditions that follow from others. Each function does nothing, and its contract is the law.
ghost use Rattle.wrong_reports.specs.Following.{EntersAboveItsFloor, RaisesOnce};

/// A node's stamp is above its floor.
pub fn enters_above_its_floor()
    ensures { EntersAboveItsFloor }
{}

/// There is one raise to a stamp at most.
pub fn raises_once()
    ensures { RaisesOnce }
{}
