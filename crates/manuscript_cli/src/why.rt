//! The command `why`: the certificate that one scalar stands before another.
ghost use Rattle.std.specs.Prelude.{IfOk, IfSome, IsNone};
ghost use Rattle.fugue_ids.specs.Identifiers.{Identifier};
ghost use Rattle.order_proof.specs.Certificates.{Claims, IsValid};
ghost use Rattle.manuscript_cli.specs.Why.{HasPlaces, why_reports};

use crate::held::Held;
use command_kinds::{Refusal, Report, ReportResult, gone_out};
use fugue_ids::{ElementId, NoMemory};
use order_proof::{Proof, prove, write_proof};
use outer_ports::Sink;
use replica_core::Replica;
use std::alloc::Global;

/// Why the first of two scalars of a section stands before the second: sections and scalars count from 0.
#[derive(Clone, Copy)]
pub(crate) struct Why {
    pub section: usize,
    pub first: u32,
    pub second: u32,
}

impl Why {
    /// The elements of the two scalars, where they are shown and stand in this order.
    fn elements(&self, replica: &Replica) -> Option<(ElementId, ElementId)>
        ensures some { IfSome result (λ (x, y).
            HasPlaces replica.now.held.history self.now.section self.now.first self.now.second x y) }
        ensures none { IsNone result → (x y : Identifier)
            → ¬ (HasPlaces replica.now.held.history self.now.section self.now.first self.now.second x y) }
    {
        if self.first >= self.second {
            return None;
        }
        let first = replica.scalar_at(self.section, self.first as usize)?;
        let second = replica.scalar_at(self.section, self.second as usize)?;
        Some((first, second))
    }

    /// The certificate that the first of the two elements stands before the second.
    fn proof(
        &self,
        alloc: Global,
        replica: &Replica,
        x: ElementId,
        y: ElementId,
    ) -> Result<Proof, NoMemory>
        requires { HasPlaces replica.now.held.history self.now.section self.now.first self.now.second x y }
        ensures valid { IfOk result (λ proof. IsValid replica.now.held.history proof) }
        ensures claims { IfOk result (λ proof. Claims x y proof) }
    {
        prove(alloc, &Held { replica }, x, y)
    }
}

impl Report for Why {
    ghost Tells = { λ what. why_reports what.section what.first what.second };

    fn write<O: Sink>(&self, alloc: Global, replica: &Replica, output: &mut O) -> ReportResult {
        let Some((x, y)) = self.elements(replica) else {
            return Err(Refusal::NoSuchPlaces);
        };
        let proof = self.proof(alloc, replica, x, y)?;
        gone_out(write_proof(&proof, output))
    }

    fn laws(&self) {}
}
