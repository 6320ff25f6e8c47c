//! Laws of the definitions. Each function does nothing, and its contract is the law.
ghost use Rattle.playback.specs.Laws.{PlayOrderIsLawful, RegionOrderIsLawful};

/// The order that is computed is the play order.
pub fn play_order_is_lawful()
    ensures { PlayOrderIsLawful }
{}

/// Lines that are merged are in the order of the region.
pub fn region_order_is_lawful()
    ensures { RegionOrderIsLawful }
{}
