// What stands between the steps of an append.
use std::marker::Sync;
use std::sync::Wait;

/// What stands between the steps of an append. It changes no answer.
pub trait Gate: Sync {
    /// Called by a client after each step of an append that is not its last; steps count from 1. It may wait.
    fn pass<R: Wait>(&self, rt: &R, client: u8, step: u8);
}

/// Does nothing.
pub struct OpenGate;

impl Gate for OpenGate {
    fn pass<R: Wait>(&self, _rt: &R, _client: u8, _step: u8) {}
}
