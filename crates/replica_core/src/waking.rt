//! What a change of the accepted or of the waiting operations does to the marks.

ghost use Rattle.std.specs.Prelude.{◌≡◌, ◌≢◌, ◌<◌, ◌≤◌, ◌↔◌, ◌++◌, ◌∷◌, [], Some, false, drop, length, remove};
ghost use Rattle.std.specs.Prelude.{slice_get, AllPairs, OnOk, OnErr, IfErr};
ghost use Rattle.causal_inbox.specs.Faults.{refused_op};
ghost use Rattle.origin_model.specs.operations.History.{HaveOtherIds};
ghost use Rattle.replica_core.specs.Due.{due_marks};

use crate::accepted::Accepted;
use crate::due::Due;
use causal_inbox::{OpenInbox, PushFault, is_decided};
use fugue_ids::{NoMemory, Op};

/// Tries anew those that rest on the newest accepted operation: all others are decided as before.
pub(crate) fn wake(inbox: &OpenInbox, accepted: &Accepted, due: &mut Due)
    requires marks { due.old ≡ due_marks (drop 1 accepted.now) inbox.now.ops }
    requires once { AllPairs (λ a b. a ≢ b) (accepted.now ++ inbox.now.ops) }
    requires own_ids { AllPairs HaveOtherIds (accepted.now ++ inbox.now.ops) }
    ensures { due.new ≡ due_marks accepted.now inbox.now.ops }
{
    let Some(id) = accepted.newest_id() else {
        return;
    };
    for k in 0..inbox.len() {
        let Some(position) = inbox.nth_naming(id, k) else {
            return;
        };
        due.put(
            position,
            is_decided(accepted.verdict(inbox.op_at(position))),
        );
    }
}

/// One more waits, which cannot leave yet. After an allocation failure all is as before.
pub(crate) fn wait(inbox: &mut OpenInbox, due: &mut Due, op: Op) -> Result<(), PushFault>
    ensures ok { OnOk result (inbox.new ≡ record inbox.old { ops = inbox.old.ops ++ op ∷ [] }) }
    ensures mark { OnOk result (due.new ≡ due.old ++ false ∷ []) }
    ensures full { (result ≡ Err (PushFault.Full op)) ↔ (length inbox.old.ops ≡ inbox.old.hold) }
    ensures err { OnErr result (inbox.new.ops ≡ inbox.old.ops) }
    ensures hold { inbox.new.hold ≡ inbox.old.hold }
    ensures marks { OnErr result (due.new ≡ due.old) }
    ensures handed_back { IfErr result (λ fault. refused_op fault ≡ op) }
    ensures within { length inbox.new.ops ≤ inbox.new.hold }
{
    match inbox.push(op) {
        Ok(()) => match due.push() {
            Ok(()) => Ok(()),
            Err(NoMemory) => {
                let op = inbox.remove(inbox.len() - 1);
                Err(PushFault::NoMemory(op))
            }
        },
        Err(fault) => Err(fault),
    }
}

/// The operation at the position waits no longer. Those after it close up.
pub(crate) fn leave(inbox: &mut OpenInbox, due: &mut Due, position: usize) -> Op
    requires within { position < length inbox.old.ops }
    requires marks { length due.old ≡ length inbox.old.ops }
    ensures op { slice_get inbox.old.ops position ≡ Some result }
    ensures rest { inbox.new.ops ≡ remove inbox.old.ops position }
    ensures hold { inbox.new.hold ≡ inbox.old.hold }
    ensures mark { due.new ≡ remove due.old position }
{
    due.remove(position);
    inbox.remove(position)
}
