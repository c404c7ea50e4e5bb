//! Edits, by positions in what is shown, where sections and elements count from 0; and notes, by identifiers.

ghost use Rattle.std.specs.Prelude.{◌≡◌, ◌≢◌, Err, IfErr, IfOk, OnErr, OnOk};
ghost use Rattle.std.specs.Str.{chars};
ghost use Rattle.origin_model.specs.edits.Edits.{Put, Cut, Add, DropSection};
ghost use Rattle.origin_model.specs.taking.Taking.{IsSettled};
ghost use Rattle.origin_model.specs.edits.Refusal.{RefusesExactly};
ghost use Rattle.origin_model.specs.edits.Effect.{IsMade, Lands, LeavesUnmade};
ghost use Rattle.origin_model.specs.edits.Noting.{AreHeld, IsNoted, RefusesNote, ShowsAsBefore};
ghost use Rattle.origin_model.specs.edits.State.{IsSound};

mod joining;
mod limits;
mod planning;

use crate::Replica;
use fugue_ids::{Body, NoteNames, Title};
use origin_model::EditFault;

impl Replica {
    /// Puts a text into a section, before the shown element at the position or after all of them. Returns how many
    /// operations were made.
    pub fn put(&mut self, section: usize, at: usize, text: &str) -> Result<u32, EditFault>
        requires { IsSettled self.old.held }
        ensures made { IfOk result (λ n. IsMade self.old self.new (Put section at (chars text.now)) n) }
        ensures lands { OnOk result (Lands self.old self.new (Put section at (chars text.now))) }
        ensures refused { RefusesExactly self.old (Put section at (chars text.now)) result }
        ensures unmade { IfErr result
            (λ fault. LeavesUnmade self.old self.new (Put section at (chars text.now)) fault) }
        ensures settled { IsSettled self.new.held }
        ensures sound { IsSound self.new }
    {
        match self.text_spot(section, at, text) {
            Ok(spot) => Ok(self.type_text(spot, text)?),
            Err(fault) => Err(fault),
        }
    }

    /// Deletes n shown elements of a section, from the position on. Returns how many operations were made.
    pub fn cut(&mut self, section: usize, at: usize, n: usize) -> Result<u32, EditFault>
        requires { IsSettled self.old.held }
        ensures made { IfOk result (λ count. IsMade self.old self.new (Cut section at n) count) }
        ensures lands { OnOk result (Lands self.old self.new (Cut section at n)) }
        ensures refused { RefusesExactly self.old (Cut section at n) result }
        ensures unmade { IfErr result (λ fault. LeavesUnmade self.old self.new (Cut section at n) fault) }
        ensures settled { IsSettled self.new.held }
        ensures sound { IsSound self.new }
    {
        let targets = self.targets(section, at, n)?;
        self.delete_each(&targets.section, &targets.ids)?;
        Ok(n as u32)
    }

    /// Adds a section, before the shown one at the position or after all of them. Returns 1.
    pub fn add(&mut self, at: usize, title: Title) -> Result<u32, EditFault>
        requires { IsSettled self.old.held }
        ensures made { IfOk result (λ n. IsMade self.old self.new (Add at title) n) }
        ensures lands { OnOk result (Lands self.old self.new (Add at title)) }
        ensures refused { RefusesExactly self.old (Add at title) result }
        ensures unmade { IfErr result (λ fault. LeavesUnmade self.old self.new (Add at title) fault) }
        ensures settled { IsSettled self.new.held }
        ensures sound { IsSound self.new }
    {
        let op = self.section_op(at, title)?;
        self.join(op)?;
        Ok(1)
    }

    /// Deletes a section. Returns 1.
    pub fn drop_section(&mut self, section: usize) -> Result<u32, EditFault>
        requires { IsSettled self.old.held }
        ensures made { IfOk result (λ n. IsMade self.old self.new (DropSection section) n) }
        ensures lands { OnOk result (Lands self.old self.new (DropSection section)) }
        ensures refused { RefusesExactly self.old (DropSection section) result }
        ensures unmade { IfErr result (λ fault. LeavesUnmade self.old self.new (DropSection section) fault) }
        ensures settled { IsSettled self.new.held }
        ensures sound { IsSound self.new }
    {
        let op = self.drop_op(section)?;
        self.join(op)?;
        Ok(1)
    }

    /// Makes a note on elements and notes that are held. Returns 1.
    pub fn note(&mut self, names: NoteNames, code: u8, body: Body) -> Result<u32, EditFault>
        requires settled { IsSettled self.old.held }
        requires held { AreHeld self.old.held.history names }
        ensures made { IfOk result (λ n. IsNoted self.old self.new names code body n) }
        ensures shown { ShowsAsBefore self.old self.new }
        ensures refused { RefusesNote self.old result }
        ensures no_section { result ≢ Err EditFault.NoSection }
        ensures no_position { result ≢ Err EditFault.OutOfRange }
        ensures unmade { OnErr result (self.new ≡ self.old) }
        ensures settled { IsSettled self.new.held }
        ensures sound { IsSound self.new }
    {
        let op = self.note_op(names, code, body)?;
        self.join(op)?;
        Ok(1)
    }
}
