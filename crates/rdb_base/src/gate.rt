//! The trait of whoever stops clients before a step of theirs.

ghost use Rattle.std.specs.Prelude.{ℕ, List, ◌↔◌, IsTrue, Contains};

/// Says which clients are stopped, and before which of their steps.
pub trait Gate {
    /// The pairs of a client and the number of the step, from 1, before which it is stopped.
    ghost stopped: { Self → List (ℕ × ℕ) };

    /// Whether the client is to be stopped before this step.
    fn stops(&self, client: u32, step: u64) -> bool
        ensures { IsTrue result ↔ Contains (stopped self.now) (client, step) };
}

/// Stops nobody.
#[derive(Clone, Copy, Debug, PartialEq, Eq)]
pub struct NoGate;

impl Gate for NoGate {
    ghost use Rattle.std.specs.Prelude.{[]};

    ghost stopped = { λ _. [] };

    fn stops(&self, _client: u32, _step: u64) -> bool {
        false
    }
}
