// AckClear: the proxy acknowledges a clear, once no pin lies in its range.
ghost use Rattle.clear_rounds.specs.declared.Phase.{Phase as phase};
ghost use Rattle.hybrid_model.specs.AckClear.{may_ack_clear};
ghost use Rattle.hybrid_model.specs.Sides as sides;
ghost use Rattle.proxy_worker.specs.Shown.{linux_of};
ghost use Rattle.std.specs.Prelude.{◌≡◌, true};

use crate::proxy::Proxy;
use clear_rounds::{Phase, Round};

impl Proxy {
    /// Whether the Clear of the round may be acknowledged: it was fetched, and no pin lies in the closing range.
    pub fn may_ack_clear(&self, round: &Round) -> bool
        ensures { result ≡ may_ack_clear (linux_of self.now) round.now }
    {
        match round.now() {
            Some((Phase::Taken, range)) => !self.pins.in_range(range.lo, range.hi),
            _ => false,
        }
    }

    /// The Clear of the round, whose range no pin lies in, is acknowledged.
    pub fn ack_clear(&self, round: &mut Round)
        requires { may_ack_clear (linux_of self.now) round.old ≡ true }
        ensures { round.new ≡ sides.with_phase round.old phase.Acked }
    {
        round.acked();
    }
}
