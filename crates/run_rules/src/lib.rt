//! The rules of a lawful run, one by one.
#![tactic(auto)]

mod laws;

pub use laws::{
    broken_is_unlawful, computed_account_agrees, computed_account_decides, computed_account_keeps,
    computed_finds_are_right, computed_finds_decide, computed_finds_keep, finds_are_right,
    finds_decide, finds_keep, finds_tell, first_rules_decided, found_account_decides,
    found_account_keeps, later_rules_decided, lawful_runs_keep_rules, least_is_one,
    ninth_rule_decided, nodes_are_found, nodes_are_told, nodes_change_no_step, one_account_decides,
    right_finds_decide, rule_one_forms, rules_make_lawful, same_finds_decide, told_accounts_agree,
    told_finds_agree, told_nodes_agree,
};
