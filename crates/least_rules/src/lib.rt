//! Of reports that are not lawful, which rule of a lawful run is the least that they break.
#![tactic(auto)]

mod appends;
mod columns;
mod replies;
mod rows;
mod stops;

pub use appends::{
    a_single_of_nobody_breaks_rule_5, an_append_at_another_position_breaks_rule_6,
    an_append_under_another_stamp_breaks_rule_6,
};
pub use columns::{
    a_missing_column_breaks_rule_1, a_settling_of_what_is_not_open_breaks_rule_2,
    a_stamp_that_is_not_next_breaks_rule_2, a_trim_with_a_stamp_breaks_rule_2,
    an_event_by_nobody_breaks_rule_2, an_id_that_enters_twice_breaks_rule_2,
    another_base_breaks_rule_2, another_clock_breaks_rule_2, another_colours_name_breaks_rule_1,
    another_cut_breaks_rule_2, another_line_breaks_rule_2, another_queue_breaks_rule_2,
    another_regions_name_breaks_rule_1, another_version_breaks_rule_1,
};
pub use replies::{
    a_colour_without_a_point_breaks_rule_1, a_dequeue_answered_as_an_append_breaks_rule_1,
    a_full_that_needs_no_row_breaks_rule_1, a_look_at_what_is_not_there_breaks_rule_4,
    a_missing_reply_breaks_rule_1, a_moved_that_was_not_breaks_rule_12,
    a_node_under_another_stamp_breaks_rule_9, a_path_that_is_not_missing_breaks_rule_13,
    a_row_that_is_not_told_breaks_rule_1, a_scan_of_more_nodes_breaks_rule_9,
    a_scan_without_a_raise_breaks_rule_1, a_scan_without_a_sync_breaks_rule_1,
    a_snapshot_of_what_is_not_there_breaks_rule_9, a_sync_answered_as_a_trim_breaks_rule_1,
    a_sync_of_another_colour_breaks_rule_1, a_value_of_another_key_breaks_rule_1,
    a_value_of_nothing_breaks_rule_10, a_wrong_line_breaks_rule_1, a_wrong_name_breaks_rule_1,
    a_wrong_word_breaks_rule_1, an_append_in_another_colour_breaks_rule_1,
    an_append_that_shows_a_node_breaks_rule_1, an_event_that_is_not_there_breaks_rule_4,
    another_commands_answer_breaks_rule_1, more_plays_than_nodes_breaks_rule_9,
    no_stamp_with_stamps_left_breaks_rule_11, refused_at_home_breaks_rule_11,
    undecided_where_nothing_waits_breaks_rule_14,
};
pub use rows::an_outcome_of_other_marks_breaks_rule_3;
pub use stops::{a_row_left_open_breaks_rule_8, a_stop_before_its_steps_breaks_rule_7};
