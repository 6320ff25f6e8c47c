//! How what one client has seen explains its replies, and goes on doing so as more is seen.
#![tactic(auto)]

mod laws;

pub use laws::{
    appends_stand, copies_are_true, counted_steps_are_all, kept_stays, pieces_stand, pulls_stand,
    reads_stand, replies_are_explained, several_stand, stops_stand, syncs_stand, trims_stand,
    unshown_stand,
};
