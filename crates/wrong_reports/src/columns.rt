// Columns that are not as they may be.
ghost use Rattle.wrong_reports.specs.Cases.{IsUnlawful};
ghost use Rattle.wrong_reports.specs.Columns.{another_clock, another_line, another_queue, another_cut, another_base};
ghost use Rattle.wrong_reports.specs.Columns.{another_regions_name, another_colours_name, a_missing_column, another_version};

/// The closing line shows the clock.
#[tactic(auto, using(crate::proofs::WrongColumns::clock))]
pub fn another_clock_is_unlawful()
    ensures { IsUnlawful another_clock }
{}

/// The closing line shows the line.
#[tactic(auto, using(crate::proofs::WrongColumns::line))]
pub fn another_line_is_unlawful()
    ensures { IsUnlawful another_line }
{}

/// The closing line shows the queue.
#[tactic(auto, using(crate::proofs::WrongColumns::queue))]
pub fn another_queue_is_unlawful()
    ensures { IsUnlawful another_queue }
{}

/// The closing line shows the cut.
#[tactic(auto, using(crate::proofs::WrongColumns::cut_shown))]
pub fn another_cut_is_unlawful()
    ensures { IsUnlawful another_cut }
{}

/// The closing line shows the base.
#[tactic(auto, using(crate::proofs::WrongColumns::base))]
pub fn another_base_is_unlawful()
    ensures { IsUnlawful another_base }
{}

/// A column has its region's name.
#[tactic(auto, using(crate::proofs::WrongColumns::region_name))]
pub fn another_regions_name_is_unlawful()
    ensures { IsUnlawful another_regions_name }
{}

/// A column has its colour's name.
#[tactic(auto, using(crate::proofs::WrongColumns::colour_name))]
pub fn another_colours_name_is_unlawful()
    ensures { IsUnlawful another_colours_name }
{}

/// Each column is shown.
#[tactic(auto, using(crate::proofs::WrongColumns::missing))]
pub fn a_missing_column_is_unlawful()
    ensures { IsUnlawful a_missing_column }
{}

/// A report has the version of its script.
#[tactic(auto, using(crate::proofs::WrongColumns::version))]
pub fn another_version_is_unlawful()
    ensures { IsUnlawful another_version }
{}
