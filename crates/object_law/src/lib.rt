//! Which of the rules that objects decide a report of a script keeps: the tenth, the thirteenth and the fourteenth.
#![tactic(auto)]

mod account_tables;
mod among_map;
mod causal_plays;
mod decided;
mod decided_laws;
mod decided_nodes;
mod decided_plays;
mod decisions_by_stamp;
mod decisions_noted;
mod drafts;
mod finds;
mod found;
mod found_laws;
mod found_plays;
mod fourteenth;
mod judged_tables;
mod key_order;
mod keys_read;
mod line_play;
mod node_said;
mod node_table;
mod node_told;
mod object_laws;
mod order_ids;
mod part_plays;
mod play_walk;
mod queue_plays;
mod read_places;
mod reads_by_stamp;
mod region_play;
mod ruled_plays;
mod several_plays;
mod shard_plays;
mod showing;
mod tenth;
mod thirteenth;
mod told_nodes;
mod tree_play;
mod tx_plays;
mod tx_told;

pub use account_tables::show;
pub use finds::{Decisions, Finds};
pub use found::finds_of;
pub use fourteenth::keeps_fourteenth;
pub use judged_tables::{nodes_decided, nodes_found};
pub use node_table::NodeTable;
pub use object_laws::{
    fourteenth_is_decided, fourteenth_is_of_parts, showing_is_found, tenth_is_right,
    thirteenth_is_said,
};
pub use showing::{keeps_showing, shows_decisions};
pub use tenth::keeps_tenth;
pub use thirteenth::keeps_thirteenth;
