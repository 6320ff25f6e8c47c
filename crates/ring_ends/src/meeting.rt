// Both ends of a ring at hand.
ghost use Rattle.std.specs.Prelude.{◌≡◌};
ghost use mathlib.Core.List.{IsPrefix};
ghost use Rattle.ring_ends.specs.Rings.{ring_sent, ring_received, gone, got};

use crate::receives::Receives;
use crate::sends::Sends;

/// What came out of a ring is a beginning of what went into it: learnt where both ends are at hand.
pub fn check(sends: &mut Sends, receives: &mut Receives)
    requires { ring_sent sends.old ≡ ring_received receives.old }
    ensures sends { (ring_sent sends.new ≡ ring_sent sends.old) × (gone sends.new ≡ gone sends.old) }
    ensures receives { (ring_received receives.new ≡ ring_received receives.old) × (got receives.new ≡ got receives.old) }
    ensures waiting { receives.new.waiting ≡ receives.old.waiting }
    ensures begins { IsPrefix (got receives.old) (gone sends.old) }
{
    receives.consumer.slots_beside(&mut sends.producer);
}
