// Laws of the load's runs.
ghost use Rattle.load_script.specs.Laws.{EachAppendStands, LoadOfOne, LoadsComeToTheirSummary, LoadsFit, LoadsOfEights};

use lawful_run::{
    closing_lines_rise, nothing_else_stands, one_command, one_key, returned_appends_stand,
};

/// The script of a load fits, and only appends, syncs and pulls.
pub fn loads_fit()
    ensures { LoadsFit }
{}

/// Where no command found want of memory, each append of a load stands, and its report shows its summary.
pub fn loads_come_to_their_summary()
    ensures stands { EachAppendStands }
    ensures summary { LoadsComeToTheirSummary }
{
    returned_appends_stand();
    closing_lines_rise();
    one_key();
    one_command();
    nothing_else_stands();
}

/// What small loads come to, and those of a multiple of eight rounds.
pub fn loads_are_so_large()
    ensures one { LoadOfOne }
    ensures eights { LoadsOfEights }
{}
