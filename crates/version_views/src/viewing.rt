//! The manuscript of the operations that were accepted first.
ghost use Rattle.std.specs.Prelude.{◌≤◌, length};
ghost use Rattle.origin_model.specs.edits.State.{IsSound};
ghost use Rattle.version_views.specs.Views.{WritesView, view};

use crate::fronts::front_of;
use fugue_ids::{Failed, NoMemory};
use outer_ports::Sink;
use replica_core::Replica;
use std::alloc::Global;

/// Why a view was not written.
#[derive(Clone, Copy, Debug)]
pub enum ViewFault {
    /// The sink failed, and its count of faults rose. A front of the view is written.
    SinkFault,
    /// Nothing was written.
    NoMemory,
}

impl From<NoMemory> for ViewFault {
    ghost use Rattle.std.specs.Prelude.{◌≡◌};
    ghost use Rattle.version_views.specs.declared.viewing.ViewFault.TheVariants.{NoMemory as no_memory};

    ghost from_gives = { λ _ e. e ≡ no_memory };

    fn from(_e: NoMemory) -> ViewFault {
        ViewFault::NoMemory
    }
}

/// Writes the manuscript of the first n operations, in the order in which they were accepted: that of a version, where
/// n is its count. What takes memory is done before the first byte goes out.
pub fn write_view<O: Sink>(
    alloc: Global,
    replica: &Replica,
    n: usize,
    output: &mut O,
) -> Result<(), ViewFault>
    requires { n ≤ length replica.now.held.history }
    ensures text { WritesView (O.seen output.old) (O.seen output.new) result (view replica.now.held.history n) }
    ensures sound { IsSound replica.now }
{
    let front = front_of(alloc, replica, n)?;
    let written = front.write_manuscript(output);
    front.discard();
    match written {
        Ok(()) => Ok(()),
        Err(Failed) => Err(ViewFault::SinkFault),
    }
}
