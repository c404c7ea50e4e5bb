//! A piece of a file in memory: decodes the whole frames at its start and delivers their operations.
ghost use Rattle.std.specs.Prelude.{◌≡◌, ◌≢◌, ◌<◌, ◌≤◌, ◌+◌, ◌*◌, [], None, length, List, ℕ, IfOk, OnOk, vec_capacity};
ghost use Rattle.fugue_ids.specs.declared.op.Op.{Op};
ghost use Rattle.replica_file.specs.Loading.{CanTake, IsSameButHeld};
ghost use Rattle.replica_file.specs.Pieces.{AreBad, IsReading, Lacks, PieceSteps, TakesInPiece};

use crate::loading::Loading;
use crate::stop::Stop;
use fugue_ids::NoMemory;
use op_frame::{FrameFault, FrameReader};
use origin_model::Grammar;
use outer_ports::{Source, SureSource};
use std::alloc::Global;

/// How many bytes of a file are read at once.
pub(crate) const PIECE: usize = 65_536;

/// Some bytes of a file in memory, on their way into a replica.
#[derive(Drop)]
struct Piece {
    reader: FrameReader,
    source: SureSource,
    len: u64,
    /// The scalars of the Texts that the reader gave at once. It has room for one from the start, so that no read
    /// fails for lack of it.
    text: Vec<char>,
}

impl Piece {
    fn new(alloc: Global, bytes: Vec<u8>, grammar: Grammar) -> Result<Piece, NoMemory>
        ensures reading { IfOk result (λ piece.
            IsReading bytes.items [] piece.reader (⟦<SureSource as Source>⟧.seen piece.source)) }
        ensures grammar { IfOk result (λ piece. piece.reader.grammar ≡ grammar) }
        ensures len { IfOk result (λ piece. piece.len ≡ length bytes.items) }
        ensures room { IfOk result (λ piece. 0 < vec_capacity piece.text) }
    {
        let len = bytes.len() as u64;
        let mut text = Vec::new(alloc);
        text.reserve(1)?;
        let reader = match grammar {
            Grammar::Version1 => FrameReader::old(alloc, len)?,
            Grammar::Version2 => FrameReader::new(alloc, len)?,
        };
        Ok(Piece {
            reader,
            source: SureSource::new(bytes, PIECE),
            len,
            text,
        })
    }

    /// Delivers the next operations. Where no whole frame is left, it returns how many bytes the frames before that
    /// have.
    fn take_next(&mut self, loading: &mut Loading) -> Result<Option<u64>, Stop>
        requires no_fault { self.old.reader.fault ≡ None }
        requires room { 0 < vec_capacity self.old.text }
        requires ready { CanTake loading.old.replica }
        ensures steps { (bytes : List ℕ) (ops : List Op)
            → IsReading bytes ops self.old.reader (⟦<SureSource as Source>⟧.seen self.old.source)
            → self.old.len ≡ length bytes
            → PieceSteps self.old.reader.grammar bytes ops loading.old.finds_place loading.old.replica loading.new.finds_place
            loading.new.replica
            self.new.reader (⟦<SureSource as Source>⟧.seen self.new.source) result }
        ensures no_fault { result ≡ Ok None → self.new.reader.fault ≡ None }
        ensures goes_on { result ≡ Ok None → self.old.reader.offset + 3 * length self.new.reader.todo
            < self.new.reader.offset + 3 * length self.old.reader.todo }
        ensures within { self.new.reader.offset ≤ self.new.reader.limit }
        ensures limit { self.new.reader.limit ≡ self.old.reader.limit }
        ensures grammar { self.new.reader.grammar ≡ self.old.reader.grammar }
        ensures len { self.new.len ≡ self.old.len }
        ensures room { 0 < vec_capacity self.new.text }
        ensures ready { OnOk result (CanTake loading.new.replica) }
        ensures same { OnOk result (IsSameButHeld loading.old.replica loading.new.replica) }
        ensures not_disk { result ≢ Err Stop.Disk }
    {
        match self.reader.next_run(&mut self.source, &mut self.text) {
            Ok(Some(next)) => {
                loading.take(next, self.text.as_slice())?;
                Ok(None)
            }
            Ok(None) => Ok(Some(self.len)),
            Err(FrameFault::CutShort(offset)) => Ok(Some(offset)),
            Err(FrameFault::NoMemory) => Err(Stop::NoMemory),
            Err(FrameFault::BadFrame(_)) => Err(Stop::Bad),
            // Neither occurs: the piece is in memory, and within the limit.
            Err(FrameFault::ReadFault) => Err(Stop::Bad),
            Err(FrameFault::TooLong) => Err(Stop::Bad),
        }
    }
}

/// Delivers the whole frames at the front of a piece, and returns how many bytes they have.
pub(crate) fn take_piece(
    alloc: Global,
    bytes: Vec<u8>,
    grammar: Grammar,
    loading: &mut Loading,
) -> Result<u64, Stop>
    requires { CanTake loading.old.replica }
    ensures took { IfOk result (λ len. TakesInPiece grammar bytes.items len loading.old.finds_place loading.old.replica
        loading.new.finds_place loading.new.replica) }
    ensures bad { result ≡ Err Stop.Bad → AreBad grammar bytes.items }
    ensures memory { result ≡ Err Stop.NoMemory
        → Lacks grammar (λ rest. rest ≡ bytes.items) bytes.items loading.old.finds_place loading.old.replica }
    ensures ready { OnOk result (CanTake loading.new.replica) }
    ensures same { OnOk result (IsSameButHeld loading.old.replica loading.new.replica) }
    ensures not_disk { result ≢ Err Stop.Disk }
{
    let mut piece = Piece::new(alloc, bytes, grammar)?;
    'frames: loop {
        match piece.take_next(loading) {
            Ok(None) => {}
            Ok(Some(len)) => return Ok(len),
            Err(stop) => return Err(stop),
        }
    }
}
