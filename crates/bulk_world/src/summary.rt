//! The summary of two replicas, and its text.
ghost use Rattle.std.specs.Prelude.{◌≡◌, length, IfOk};
ghost use Rattle.std.specs.Str.{chars};
ghost use Rattle.fugue_ids.specs.Outs.{WritesBytes};
ghost use Rattle.origin_model.specs.order.Printed.{manuscript};
ghost use Rattle.bulk_world.specs.Summary.{are_same, sum_of as sum_over, summary_text, summary_of};
ghost use Rattle.bulk_world.specs.Summary.{equality_word as word_of};

use fugue_ids::{Failed, NoMemory, Out, write_pieces};
use itoa::Buffer;
use outer_ports::MemSink;
use replica_core::Replica;
use std::alloc::Global;

/// What is reported of a bulk manuscript.
#[derive(Clone, Copy, Debug, PartialEq, Eq)]
pub struct Summary {
    /// How many operations the first replica accepted.
    pub operations: usize,
    /// How many scalars it shows of the section.
    pub scalars: usize,
    /// The sum over them of the position, counted from 1, times the scalar.
    pub sum: u32,
    /// Whether both replicas have the same manuscript.
    pub is_equal: bool,
}

/// What is reported of two replicas.
pub(crate) fn summarize(
    alloc: Global,
    first: &Replica,
    second: &Replica,
) -> Result<Summary, NoMemory>
    ensures { IfOk result (λ reported. reported ≡ summary_of first.now second.now) }
{
    let is_equal = have_same_manuscript(alloc, first, second)?;
    let operations = first.accepted().len();
    match first.text_of(0)? {
        Some(text) => Ok(summary_by(operations, text.as_str(), is_equal)),
        None => Ok(summary_by(operations, "", is_equal)),
    }
}

/// The summary by the text of the section.
fn summary_by(operations: usize, text: &str, is_equal: bool) -> Summary
    ensures { result ≡ record {
      operations = operations;
      scalars = length (chars text.now);
      sum = sum_over (chars text.now);
      is_equal = is_equal;
    } }
{
    Summary {
        operations,
        scalars: text.chars().count(),
        sum: sum_of(text),
        is_equal,
    }
}

/// The sum over the scalars of the position, counted from 1, times the scalar, modulo 2^32.
fn sum_of(text: &str) -> u32
    ensures { result ≡ sum_over (chars text.now) }
{
    let mut sum = 0u32;
    let mut place = 1u32;
    'summed: for ch in text.chars() {
        sum = sum.wrapping_add(place.wrapping_mul(u32::from(ch)));
        place = place.wrapping_add(1);
    }
    sum
}

fn have_same_manuscript(alloc: Global, first: &Replica, second: &Replica) -> Result<bool, NoMemory>
    ensures { IfOk result (λ same. same
        ≡ are_same (manuscript first.now.held.history) (manuscript second.now.held.history)) }
{
    let one = printed(alloc, first)?;
    let two = printed(alloc, second)?;
    Ok(one.written() == two.written())
}

/// The manuscript of a replica.
fn printed(alloc: Global, replica: &Replica) -> Result<MemSink, NoMemory>
    ensures { IfOk result (λ sink. sink.written ≡ manuscript replica.now.held.history) }
{
    let mut sink = MemSink::new(alloc, usize::MAX, Vec::new(alloc));
    match replica.write_manuscript(&mut sink) {
        Ok(()) => Ok(sink),
        // A sink in memory fails for lack of memory alone.
        Err(_) => Err(NoMemory),
    }
}

fn equality_word(is_equal: bool) -> &'static [u8]
    ensures { result.now ≡ word_of is_equal }
{
    if is_equal { b"equal" } else { b"different" }
}

/// Writes the four lines of a summary.
pub fn write_summary<O: Out>(output: &mut O, summary: &Summary) -> Result<(), Failed>
    ensures { WritesBytes (O.seen output.old) (O.seen output.new) result (summary_text summary.now) }
{
    let [mut operations, mut scalars, mut sum] = [Buffer::new(), Buffer::new(), Buffer::new()];
    write_pieces(
        output,
        &[
            b"operations ",
            operations.format(summary.operations).as_bytes(),
            b"\n",
            b"scalars ",
            scalars.format(summary.scalars).as_bytes(),
            b"\n",
            b"sum ",
            sum.format(summary.sum).as_bytes(),
            b"\n",
            equality_word(summary.is_equal),
            b"\n",
        ],
    )
}
