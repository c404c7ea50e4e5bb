//! A certificate is read from its text, line by line.

ghost use Rattle.std.specs.Prelude.{◌≡◌, ◌≢◌, [], ◌∷◌, ◌++◌, List, ℕ, All, Some, IfOk, IfSome, IsNone, map, flat_map, ◌↔◌};
ghost use Rattle.fugue_ids.specs.Identifiers.{Identifier};
ghost use Rattle.order_proof.specs.declared.step.Reason.{Reason as AnyReason};
ghost use Rattle.order_proof.specs.declared.step.Reason.TheVariants.{Prefix};
ghost use Rattle.order_proof.specs.declared.step.Step.{Step as AnyStep};
ghost use Rattle.order_proof.specs.Certificates.{Certificate};
ghost use Rattle.order_proof.specs.Texts.{ProofLine as AnyLine, proof_line_text, reason_line, step_lines, step_text, written_step};
ghost use Rattle.order_proof.specs.Texts.{word_with_ids};
ghost use Rattle.order_proof.specs.Readings.{sibling_lines};
ghost use Rattle.order_proof.specs.Readings.{IsPossible, IsReadAs, IsProofText};

use crate::text_parts::{Unread, read_ids, split_at_byte};
use crate::{Chain, Proof, Reason, Step};
use fugue_ids::{ElementId, NoMemory};
use std::alloc::{AllocFailed, Global};

/// Why a certificate was not read.
#[derive(Clone, Copy)]
pub(crate) enum TextFault {
    /// The text is that of no certificate.
    NoProof,
    NoMemory,
}

impl<T: Drop> From<AllocFailed<T>> for TextFault {
    ghost use Rattle.std.specs.Prelude.{◌≡◌};
    ghost use Rattle.order_proof.specs.declared.reading.TextFault.{TextFault};

    ghost from_gives = { λ _ fault. fault ≡ TextFault.NoMemory };

    fn from(_: AllocFailed<T>) -> TextFault {
        TextFault::NoMemory
    }
}

impl Proof {
    /// Reads the text of a certificate. Returns None where the text is that of none. In steps by `Prefix` the chains
    /// that the text leaves out are empty.
    pub fn read(alloc: Global, text: &[u8]) -> Result<Option<Proof>, NoMemory>
        ensures none { IfOk result (λ found. IsNone found ↔ ((c : Certificate) → ¬ (IsProofText text.now c))) }
        ensures proof { IfOk result (λ found. IfSome found (λ proof.
            IsProofText text.now proof × (map written_step proof ≡ proof))) }
        ensures every { (c : Certificate) → IsProofText text.now c
            → IfOk result (λ found. found ≡ Some (map written_step c)) }
    {
        match read_steps(alloc, text) {
            Ok(steps) => Ok(Some(Proof::new(steps))),
            Err(TextFault::NoProof) => Ok(None),
            Err(TextFault::NoMemory) => Err(NoMemory),
        }
    }
}

/// Reads steps to the end of the text, one at least.
fn read_steps(alloc: Global, text: &[u8]) -> Result<Vec<Step>, TextFault>
    ensures steps { IfOk result (λ steps. IsProofText text.now steps.items × (map written_step steps.items ≡ steps.items)) }
    ensures every { (c : Certificate) → IsProofText text.now c → IsReadAs result (λ steps. steps.items ≡ map written_step c) }
{
    if text.is_empty() {
        return Err(TextFault::NoProof);
    }
    let mut steps = Vec::new(alloc);
    let mut lines = Unread { rest: text };
    'steps: while !lines.rest.is_empty() {
        steps.push(lines.read_step(alloc)?)?;
    }
    Ok(steps)
}

impl<'a> Unread<'a> {
    /// Reads a line of this word and identifiers.
    fn read_chain(&mut self, alloc: Global, word: &[u8]) -> Result<Chain, TextFault>
        ensures line { IfOk result (λ ids.
            (self.old.rest.now ≡ word_with_ids word.now ids ++ self.new.rest.now) × All IsPossible ids) }
        ensures every { (ids : List Identifier) (more : List ℕ) → All IsPossible ids
            → self.old.rest.now ≡ word_with_ids word.now ids ++ more
            → IsReadAs result (λ found. (found ≡ ids) × (self.new.rest.now ≡ more)) }
    {
        if !self.takes(word) {
            return Err(TextFault::NoProof);
        }
        let Some((line, rest)) = split_at_byte(self.rest, b'\n') else {
            return Err(TextFault::NoProof);
        };
        self.rest = rest;
        Ok(Chain::new(read_ids(alloc, line)?))
    }

    /// Reads a line of this word and two identifiers.
    fn read_pair(&mut self, alloc: Global, word: &[u8]) -> Result<(ElementId, ElementId), TextFault>
        ensures line { IfOk result (λ (x, y). (self.old.rest.now ≡ word_with_ids word.now (x ∷ y ∷ []) ++ self.new.rest.now)
            × All IsPossible (x ∷ y ∷ [])) }
        ensures every { (x y : Identifier) (more : List ℕ) → All IsPossible (x ∷ y ∷ [])
            → self.old.rest.now ≡ word_with_ids word.now (x ∷ y ∷ []) ++ more
            → IsReadAs result (λ pair. (pair.0 ≡ x) × (pair.1 ≡ y) × (self.new.rest.now ≡ more)) }
    {
        let chain = self.read_chain(alloc, word)?;
        let ids = chain.as_slice();
        if ids.len() == 2 {
            Ok((ids[0], ids[1]))
        } else {
            Err(TextFault::NoProof)
        }
    }

    /// Reads the line of a reason that is not `Prefix`.
    fn read_reason(&mut self, alloc: Global) -> Result<Reason, TextFault>
        ensures line { IfOk result (λ reason.
            (self.old.rest.now ≡ proof_line_text (reason_line reason) ++ self.new.rest.now)
            × All IsPossible ((reason_line reason).ids) × (reason ≢ Prefix)) }
        ensures every { (reason : AnyReason) (more : List ℕ) → All IsPossible ((reason_line reason).ids)
            → reason ≢ Prefix → self.old.rest.now ≡ proof_line_text (reason_line reason) ++ more
            → IsReadAs result (λ found. (found ≡ reason) × (self.new.rest.now ≡ more)) }
    {
        if self.takes(b"inner\n") {
            return Ok(Reason::Inner);
        }
        if self.takes(b"end\n") {
            return Ok(Reason::End);
        }
        if self.takes(b"tie\n") {
            return Ok(Reason::Tie);
        }
        let (p, q) = self.read_pair(alloc, b"later")?;
        Ok(Reason::Later(p, q))
    }

    /// Reads the lines of a step.
    fn read_step(&mut self, alloc: Global) -> Result<Step, TextFault>
        ensures lines { IfOk result (λ step. (self.old.rest.now ≡ step_text step ++ self.new.rest.now)
            × All (λ (l : AnyLine). All IsPossible l.ids) (step_lines step) × (written_step step ≡ step)) }
        ensures every { (step : AnyStep) (more : List ℕ) → All (λ (l : AnyLine). All IsPossible l.ids) (step_lines step)
            → self.old.rest.now ≡ step_text step ++ more
            → IsReadAs result (λ found. (found ≡ written_step step) × (self.new.rest.now ≡ more)) }
    {
        let (x, y) = self.read_pair(alloc, b"claim")?;
        let down = self.read_chain(alloc, b"down")?;
        if self.takes(b"prefix\n") {
            return Ok(Step::by_prefix(alloc, x, y, down));
        }
        self.read_sibling_step(alloc, x, y, down)
    }

    /// Reads the lines of a step that is not by `Prefix`, from its third line on.
    fn read_sibling_step(
        &mut self,
        alloc: Global,
        x: ElementId,
        y: ElementId,
        down_x: Chain,
    ) -> Result<Step, TextFault>
        ensures lines { IfOk result (λ step.
            (self.old.rest.now ≡ flat_map proof_line_text (sibling_lines step) ++ self.new.rest.now)
            × All (λ (l : AnyLine). All IsPossible l.ids) (sibling_lines step)
            × (step.x ≡ x) × (step.y ≡ y) × (step.down_x ≡ down_x) × (step.reason ≢ Prefix)) }
        ensures every { (step : AnyStep) (more : List ℕ)
            → All (λ (l : AnyLine). All IsPossible l.ids) (sibling_lines step)
            → step.x ≡ x → step.y ≡ y → step.down_x ≡ down_x → step.reason ≢ Prefix
            → self.old.rest.now ≡ flat_map proof_line_text (sibling_lines step) ++ more
            → IsReadAs result (λ found. (found ≡ step) × (self.new.rest.now ≡ more)) }
    {
        let down_y = self.read_chain(alloc, b"down")?;
        let right_x = self.read_chain(alloc, b"right")?;
        let right_y = self.read_chain(alloc, b"right")?;
        let reason = self.read_reason(alloc)?;
        Ok(Step {
            x,
            y,
            down_x,
            down_y,
            right_x,
            right_y,
            reason,
        })
    }
}
