//! What a transactional map is for that is played by its parts: a peek tells what the whole map has.
#![tactic(auto)]

mod laws;

pub use laws::{decisions_are_true, peeks_agree, scripts_keep_apart, up_to_is_there};
