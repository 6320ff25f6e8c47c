// How far an append goes.
ghost use Rattle.std.specs.Prelude.{◌≡◌, ◌≢◌, true, false, Some};

use fuzzy_io::Gate;
use std::sync::Wait;

/// Whose append it is, after which of its steps it stops, if after any, and which is its last.
#[derive(Clone, Copy)]
pub(crate) struct Course {
    pub(crate) client: u8,
    pub(crate) stop: Option<u8>,
    pub(crate) last: u8,
}

impl Course {
    // Whether the append goes on after the step. The gate is then passed, but not after the last step.
    pub(crate) fn goes_on<R: Wait, G: Gate>(self, rt: &R, gate: &G, step: u8) -> bool
        ensures on { result ≡ true → self.stop ≢ Some step }
        ensures stops { result ≡ false → self.stop ≡ Some step }
    {
        if self.stop == Some(step) {
            return false;
        }
        if step < self.last {
            gate.pass(rt, self.client, step);
        }
        true
    }
}
