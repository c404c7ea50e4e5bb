//! A slow replica that follows the definitions literally: the reference for differential tests.

ghost use Rattle.std.specs.Prelude.{◌≡◌, ◌∷◌, [], OnOk, OnErr, IfErr, IfOk};
ghost use Rattle.fugue_ids.specs.Outs.{WritesBytes};
ghost use Rattle.origin_model.specs.declared.operations.Verdict.TheVariants.{Ready};
ghost use Rattle.origin_model.specs.operations.History.{accepted};
ghost use Rattle.origin_model.specs.operations.Verdict.{verdict as verdict_on, Lawful};
ghost use Rattle.origin_model.specs.order.Order.{order};
ghost use Rattle.origin_model.specs.order.Printed.{shown as shown_on, manuscript};

use crate::operations::lookup::{Lookup, contains_op, find_holder};
use crate::operations::named::verdict_in;
use crate::operations::roles::fits;
use crate::order::listing::{Listed, elements_in, list_newest};
use crate::order::printing::{shown_in, write_manuscript};
use crate::{NoMemoryFor, Place, Role, Verdict};
use fugue_ids::{ElementId, Failed, NoMemory, Op, Out};
use std::alloc::Global;
use std::marker::Model;

/// A replica that follows the definitions plainly: it searches lists, and places an element by its chains of origins.
///
/// It is seen as its history, the newest operation first.
#[derive(Drop)]
pub struct PlainReplica {
    alloc: Global,
    ops: Vec<Op>,
    listed: Vec<Listed>,
}

impl Model for PlainReplica {
    ghost use Rattle.std.specs.Prelude.{List, reverse};
    ghost use Rattle.fugue_ids.specs.declared.op.Op.{Op};
    ghost use Rattle.origin_model.specs.operations.Verdict.{Lawful};
    ghost use Rattle.origin_model.specs.order.Listed.{ListsAll};

    ghost Value = { List Op };

    ghost view = { λ replica. reverse replica.ops.items };

    ghost invariant = { λ replica. record {
      lawful : Lawful (reverse replica.ops.items);
      listed : ListsAll (reverse replica.ops.items) replica.listed.items;
    } };
}

impl Lookup for PlainReplica {
    ghost history = { λ replica. replica };

    fn equals(&self, id: ElementId, op: &Op) -> Option<bool> {
        match find_holder(&self.ops, id) {
            Some(holder) => Some(*holder == *op),
            None => None,
        }
    }

    fn has_delete(&self, target: ElementId) -> bool {
        contains_op(&self.ops, &Op::Delete { target })
    }

    fn fits(&self, id: ElementId, role: Role) -> Option<bool> {
        match find_holder(&self.ops, id) {
            Some(holder) => Some(fits(role, holder)),
            None => None,
        }
    }
}

impl PlainReplica {
    /// A replica that holds nothing. It takes no memory.
    #[tactic(auto, unfolding(crate::specs::order::Order::order))]
    pub fn new(alloc: Global) -> PlainReplica
        ensures { result ≡ [] }
    {
        PlainReplica {
            alloc,
            ops: Vec::new(alloc),
            listed: Vec::new(alloc),
        }
    }

    /// The accepted operations, the oldest first.
    pub fn ops(&self) -> &[Op]
        ensures accepted { result.now ≡ accepted self.now }
        ensures lawful { Lawful self.now }
    {
        self.ops.as_slice()
    }

    /// What an operation is against the accepted ones.
    pub fn verdict(&self, op: &Op) -> Verdict
        ensures { result ≡ verdict_on self.now op.now }
    {
        verdict_in(self, op)
    }

    /// The elements of a place in order, hidden ones too.
    pub fn elements(&self, place: Place) -> Result<Vec<ElementId>, NoMemory>
        ensures { IfOk result (λ elements. elements.items ≡ order place self.now) }
    {
        Ok(elements_in(self.alloc, &self.listed, &place)?)
    }

    /// The elements of a place that no Delete names, in order.
    pub fn shown(&self, place: Place) -> Result<Vec<ElementId>, NoMemory>
        ensures { IfOk result (λ elements. elements.items ≡ shown_on place self.now) }
    {
        Ok(shown_in(self.alloc, &self.ops, &self.listed, &place)?)
    }

    /// Takes in an operation that is Ready.
    pub fn accept(&mut self, op: Op) -> Result<(), NoMemoryFor>
        requires { verdict_on self.old op ≡ Ready }
        ensures ok { OnOk result (self.new ≡ op ∷ self.old) }
        ensures err { OnErr result (self.new ≡ self.old) }
        ensures op_back { IfErr result (λ e. e.op ≡ op) }
    {
        if let Err(refused) = self.ops.push(op) {
            return Err(NoMemoryFor { op: refused.value });
        }
        match list_newest(self.alloc, &self.ops, &mut self.listed) {
            Ok(()) => Ok(()),
            Err(_) => {
                let op = self.ops.pop().unwrap();
                Err(NoMemoryFor { op })
            }
        }
    }

    /// Writes the manuscript: what is shown of each shown section, in the order of the catalogue. It takes no memory.
    pub fn print_into<O: Out>(&self, output: &mut O) -> Result<(), Failed>
        ensures { WritesBytes (O.seen output.old) (O.seen output.new) result (manuscript self.now) }
    {
        write_manuscript(output, &self.ops, &self.listed)
    }
}
