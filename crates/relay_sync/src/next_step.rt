//! One event taken from a listener (session opened, bytes received, session gone), its bytes copied.
ghost use Rattle.std.specs.Prelude.{◌≡◌, ◌≢◌, ◌≤◌, ◌∷◌, [], Err, IfErr, IfOk, IfSome, List, OnOk, length};
ghost use Rattle.fugue_ids.specs.Causes.{Faulted};
ghost use Rattle.outer_ports.specs.declared.dock.MemStep.{MemStep as AnyStep};
ghost use Rattle.relay_sync.specs.Sending.{DockRisesFor, GivesSteps, IsDockFault};
ghost use Rattle.relay_sync.specs.Serving.{Spends};
ghost use Rattle.relay_sync.specs.declared.serving.ServeFault.TheVariants.{DockFault, TooLong};

use crate::serving::ServeFault;
use fugue_ids::{BUFFER, ByteList, NoMemory};
use outer_ports::{Dock, DockStep, MemStep};
use std::alloc::Global;

/// Takes the next step of the dock, with its bytes. After an allocation failure the step is lost.
pub(crate) fn next_step<D: Dock>(alloc: Global, dock: &mut D) -> Result<MemStep, ServeFault>
    ensures ok { IfOk result (λ step. GivesSteps (D.seen dock.old) (D.seen dock.new) (step ∷ [])) }
    ensures err { IfErr result
        (λ fault. (steps : List AnyStep) × GivesSteps (D.seen dock.old) (D.seen dock.new) steps × (length steps ≤ 1)
        × IfSome (D.seen dock.old).ends (λ ends. Spends fault steps (D.seen dock.old) (D.seen dock.new))) }
    ensures counts_no_fault { IfSome (D.seen dock.old).ends
        (λ ends. OnOk result ((D.seen dock.new).faults ≡ (D.seen dock.old).faults)) }
    ensures dock_fault { result ≡ Err DockFault → Faulted (D.seen dock.old).faults (D.seen dock.new).faults }
    ensures reported { DockRisesFor (IsDockFault result) (D.seen dock.old) (D.seen dock.new) }
    ensures not_long { result ≢ Err TooLong }
{
    let mut buffer = [0; BUFFER];
    let Ok(step) = dock.next(&mut buffer) else {
        return Err(ServeFault::DockFault);
    };
    match step {
        DockStep::Opened(session) => Ok(MemStep::Opened(session)),
        DockStep::Gone(session) => Ok(MemStep::Gone(session)),
        DockStep::Bytes(session, count) => match copy_of(alloc, &buffer[..count]) {
            Ok(bytes) => Ok(MemStep::Bytes(session, bytes)),
            Err(_) => Err(ServeFault::NoMemory),
        },
    }
}

fn copy_of(alloc: Global, bytes: &[u8]) -> Result<ByteList, NoMemory>
    ensures { IfOk result (λ copy. copy ≡ bytes.now) }
{
    let bytes = bytes.to_vec(alloc)?;
    Ok(ByteList::new(bytes))
}
