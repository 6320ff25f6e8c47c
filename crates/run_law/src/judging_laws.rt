// Laws of the rules, as a walk over commands decides them. Each function does nothing, and its contract is the law.
ghost use Rattle.run_law.specs.Judging.{JudgedIsLawful, RulesAllStand, RulesAreAsked};

use col_core::region_order_is_unique;
use object_law::fourteenth_is_decided;
use part_fold::decisions_are_plain;
use playback::region_order_is_lawful;
use run_rules::{
    broken_is_unlawful, first_rules_decided, later_rules_decided, lawful_runs_keep_rules,
    ninth_rule_decided, rules_make_lawful,
};

/// Rule by rule, what is asked of a report that keeps those before, at the account by which the rule is decided.
pub fn rules_are_asked()
    ensures { RulesAreAsked }
{
    first_rules_decided();
    later_rules_decided();
    ninth_rule_decided();
    fourteenth_is_decided();
    region_order_is_unique();
    region_order_is_lawful();
    decisions_are_plain();
}

/// Where a report keeps the rules to a number, they hold at these accounts.
pub fn rules_stand()
    ensures { RulesAllStand }
{
    first_rules_decided();
    later_rules_decided();
    region_order_is_unique();
    region_order_is_lawful();
    decisions_are_plain();
}

/// A report that hides nothing is judged to be lawful where it is that of a lawful run.
pub fn judged_is_lawful()
    ensures { JudgedIsLawful }
{
    lawful_runs_keep_rules();
    rules_make_lawful();
    broken_is_unlawful();
}
