//! The text of certificates: read, and written as it was.

use crate::assertions::holds_at;
use order_proof::{Proof, write_proof};
use outer_ports::MemSink;
use std::test::Fail;

/// Texts of certificates, valid or not.
const TEXTS: &[&[u8]] = &[
    b"claim 1.1 3.0\ndown 1.1 3.0\nprefix\n",
    b"claim 1.1 3.0\ndown\nprefix\n",
    b"claim 3.0 2.1\ndown 3.0\ndown 2.1\nright 3.0\nright 2.1\nlater 1.0 2.0\n\
claim 2.0 1.0\ndown 2.0\ndown 1.0\nright 1.0 2.0\nright 1.0\ninner\n",
    b"claim 1.0 2.0\ndown\ndown\nright\nright\nend\n",
    b"claim 4294967295.4294967295 1.0\ndown 1.0\ndown 2.0\nright 1.0\nright 2.0\ntie\n",
];

/// Texts of none: each differs from the first or the fourth in one thing.
const NONE: &[&[u8]] = &[
    b"",
    b"\n",
    b"claim 1.1 3.0\ndown 1.1 3.0\nprefix",
    b"claim 1.1 3.0\ndown 1.1 3.0\nprefix\n\n",
    b"claim 1.1 3.0\ndown 1.1 3.0\nprefix\nclaim 1.1 3.0\n",
    b"claim 1.1 3.0\ndown 1.1 3.0\n",
    b"claim 1.1 3.0\ndown 1.1 3.0\nprefix \n",
    b"claim 1.1 3.0\ndown 1.1 3.0\nprefix 1.1\n",
    b"claim 1.1 3.0\ndown 1.1 3.0 \nprefix\n",
    b"claim 1.1 3.0\ndown  1.1 3.0\nprefix\n",
    b"claim 1.1\ndown 1.1 3.0\nprefix\n",
    b"claim 1.1 3.0 1.1\ndown 1.1 3.0\nprefix\n",
    b"claims 1.1 3.0\ndown 1.1 3.0\nprefix\n",
    b" claim 1.1 3.0\ndown 1.1 3.0\nprefix\n",
    b"claim 0.1 3.0\ndown 1.1 3.0\nprefix\n",
    b"claim 01.1 3.0\ndown 1.1 3.0\nprefix\n",
    b"claim 1.01 3.0\ndown 1.1 3.0\nprefix\n",
    b"claim +1.1 3.0\ndown 1.1 3.0\nprefix\n",
    b"claim 1.1.1 3.0\ndown 1.1 3.0\nprefix\n",
    b"claim 1 3.0\ndown 1.1 3.0\nprefix\n",
    b"claim 1. 3.0\ndown 1.1 3.0\nprefix\n",
    b"claim .1 3.0\ndown 1.1 3.0\nprefix\n",
    b"claim 4294967296.1 3.0\ndown 1.1 3.0\nprefix\n",
    b"claim 1.4294967296 3.0\ndown 1.1 3.0\nprefix\n",
    b"claim 1.1 3.0\r\ndown 1.1 3.0\nprefix\n",
    b"claim 1.0 2.0\ndown\nright\nright\nend\n",
    b"claim 1.0 2.0\ndown\ndown\nright\nend\n",
    b"claim 1.0 2.0\ndown\ndown\nright\nright\nprefix\n",
    b"claim 1.0 2.0\ndown\ndown\nright\nright\nlater 1.0\n",
    b"claim 1.0 2.0\ndown\ndown\nright\nright\nlater 1.0 2.0 3.0\n",
    b"claim 1.0 2.0\ndown\ndown\nright\nright\nend 1.0\n",
    // A byte that is no part of a scalar.
    b"claim \xff.1 3.0\ndown 1.1 3.0\nprefix\n",
];

#[test]
fn texts_of_certificates_are_read_and_written(rt: HostRuntime) -> Result<(), Fail> {
    for (texts, are_certificates) in [(TEXTS, true), (NONE, false)] {
        for text in texts {
            let proof = Proof::read(rt.alloc(), text)?;
            let mut sink = MemSink::new(rt.alloc(), 7, Vec::new(rt.alloc()));
            let comes_back = match &proof {
                Some(proof) => { write_proof(proof, &mut sink).is_ok() && sink.written() == *text }
                None => false,
            };
            let is_read = proof.is_some();
            drop(sink);
            drop(proof);
            let wanted = (are_certificates, are_certificates);
            holds_at(&rt, text, (is_read, comes_back) == wanted);
        }
    }
    Ok(())
}
