//! The type of a certificate that one element comes before another: a non-empty list of steps.
ghost use Rattle.std.specs.Prelude.{◌≡◌, ◌≢◌, []};

use crate::Step;
use std::marker::Model;

/// A certificate that one element stands before another. It is seen as the list of its steps. There is at least one,
/// and the first claims what the certificate is for.
#[derive(Drop)]
pub struct Proof {
    steps: Vec<Step>,
}

impl Model for Proof {
    ghost use Rattle.std.specs.Prelude.{◌≢◌, []};
    ghost use Rattle.order_proof.specs.Certificates.{Certificate};

    ghost Value = { Certificate };

    ghost view = { λ p. p.steps.items };

    ghost invariant = { λ p. p.steps.items ≢ [] };
}

impl Proof {
    pub(crate) fn new(steps: Vec<Step>) -> Proof
        requires { steps.items ≢ [] }
        ensures { result ≡ steps.items }
    {
        Proof { steps }
    }

    pub fn as_slice(&self) -> &[Step]
        ensures { result.now ≡ self.now }
    {
        self.steps.as_slice()
    }
}
