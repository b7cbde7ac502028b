// Parts of a cluster that are single values.
ghost use Rattle.std.specs.Prelude.{◌≡◌};
ghost use Rattle.reh_types.specs.Scalars.{first_scalars, scalar_at, with_scalar};

use std::mem;

/// The parts of a cluster that are single values.
#[derive(Clone, Copy, PartialEq, Eq)]
pub struct Scalars {
    /// The clock, in ticks.
    pub clock: u64,
    /// Whether AutoRecovery is enabled.
    pub enabled: bool,
}

/// One of these parts, with the value that it is to have.
#[derive(Clone, Copy, PartialEq, Eq)]
pub enum Scalar {
    /// The clock, in ticks.
    Clock(u64),
    /// Whether AutoRecovery is enabled.
    Enabled(bool),
}

impl Scalars {
    /// As a rehearsal begins, with AutoRecovery enabled or not.
    pub fn new(enabled: bool) -> Scalars
        ensures { result ≡ first_scalars enabled }
    {
        Scalars { clock: 0, enabled }
    }

    /// Swaps the value with what stands at its place.
    pub fn exchange(&mut self, scalar: &mut Scalar)
        ensures scalars { self.new ≡ with_scalar self.old scalar.old }
        ensures scalar { scalar.new ≡ scalar_at self.old scalar.old }
    {
        match scalar {
            Scalar::Clock(clock) => mem::swap(&mut self.clock, clock),
            Scalar::Enabled(enabled) => mem::swap(&mut self.enabled, enabled),
        }
    }
}
