//! A client's TCP connections to a port of the loopback interface, over a buffer.

ghost use Rattle.std.specs.Prelude.{◌≡◌, ◌<◌, length, None, IsErr, IsSome, IfOk, OnOk, OnErr, []};
ghost use Rattle.std.specs.Io.{ReadsAtMost, WritesAtMost};
ghost use Rattle.outer_ports.specs.Counts.{CountsFaults};
ghost use Rattle.outer_ports.specs.wire.Streams.{Hears, Says};
ghost use Rattle.outer_ports.specs.wire.Wires.{Dials, WireReads, WireWrites};
ghost use Rattle.std.specs.Io.KnownBytes.{prepend_known};

use crate::causes::tell_port;
use crate::faults::{Faults, taken};
use crate::watch::{limit, patience};
use crate::wire::ahead::Ahead;
use crate::{Wire, retry};
use fugue_ids::Failed;
use std::io::{self, ErrorKind, Read, Write};
use std::net::{Ipv4Addr, Net, OpenStream, SocketAddr, SocketAddrV4, TcpStream};

/// A stream that is read in pieces of up to 4,096 bytes, so that bytes asked for one by one cost few calls of the
/// system. What is written goes out at once. It takes no memory.
#[derive(Drop)]
pub(crate) struct Buffered<S: Drop> {
    stream: S,
    ahead: Ahead,
}

impl<S: Drop> Buffered<S> {
    /// Nothing is read yet.
    pub(crate) fn new(stream: S) -> Buffered<S>
        ensures stream { result.stream ≡ stream }
        ensures ahead { result.ahead ≡ [] }
    {
        Buffered {
            stream,
            ahead: Ahead::none(),
        }
    }
}

impl<S: Read + Drop> Read for Buffered<S> {
    ghost remaining = { λ b. prepend_known b.ahead (S.remaining b.stream) };

    fn read(&mut self, buf: &mut [u8]) -> io::Result<usize> {
        if self.ahead.is_empty() {
            self.ahead.fill(&mut self.stream)?;
        }
        self.ahead.give(buf)
    }
}

impl<S: Write + Drop> Write for Buffered<S> {
    ghost contents = { λ b. S.contents b.stream };

    fn write(&mut self, piece: &[u8]) -> io::Result<usize> {
        self.stream.write(piece)
    }

    fn flush(&mut self) -> io::Result<()> {
        self.stream.flush()
    }
}

/// A connection to a port of 127.0.0.1. It does not tell what passes. It may read ahead of what is asked for.
///
/// Each call waits for the peer for a minute at most. Why a dial failed goes to `errors`, in a line.
#[derive(Drop)]
pub struct TcpWire<R: Net + AllocGlobal + Drop, E: Write + Drop> {
    net: R,
    errors: E,
    /// None until a call of `dial` went well.
    stream: Option<Buffered<R::Stream>>,
    faults: Faults,
}

impl<R: Net + AllocGlobal + Drop, E: Write + Drop> TcpWire<R, E> {
    /// No port is dialled yet: until then reads and writes fail.
    pub fn new(net: R, errors: E) -> TcpWire<R, E>
        ensures seen { ⟦<TcpWire<R, E> as Wire>⟧.seen result
            ≡ record { dials = None; left = None; said = None; faults = 0; room = None } }
        ensures apart { result.stream ≡ None }
    {
        TcpWire {
            net,
            errors,
            stream: None,
            faults: Faults::none(),
        }
    }
}

impl<R: Net + AllocGlobal + Drop, E: Write + Drop> Wire for TcpWire<R, E> {
    ghost seen = { λ w. record { dials = None; left = None; said = None; faults = w.faults; room = None } };

    fn dial(&mut self, port: u16) -> Result<(), Failed>
        ensures dials { Dials (⟦<TcpWire<R, E> as Wire>⟧.seen self.old) (⟦<TcpWire<R, E> as Wire>⟧.seen self.new)
            result port }
        ensures faults { CountsFaults self.old.faults self.new.faults result }
        ensures connected { OnOk result (IsSome self.new.stream) }
        ensures kept { OnErr result (self.new.stream ≡ self.old.stream) }
    {
        let given = connect(&self.net, port);
        if let Err(error) = &given {
            tell_port(self.net.alloc(), &mut self.errors, port, error);
        }
        self.stream = Some(Buffered::new(self.faults.pass(given)?));
        Ok(())
    }

    fn read(&mut self, buf: &mut [u8]) -> Result<usize, Failed>
        ensures reads { WireReads (⟦<TcpWire<R, E> as Wire>⟧.seen self.old) (⟦<TcpWire<R, E> as Wire>⟧.seen self.new)
            result buf.new }
        ensures faults { CountsFaults self.old.faults self.new.faults result }
        ensures missing { self.old.stream ≡ None → IsErr result }
        ensures stream { Hears (⟦<Buffered<R::Stream> as Read>⟧.remaining) self.old.stream self.new.stream result
            buf.new }
    {
        self.faults.pass(hear(&mut self.stream, buf))
    }

    fn write(&mut self, piece: &[u8]) -> Result<usize, Failed>
        ensures writes { WireWrites (⟦<TcpWire<R, E> as Wire>⟧.seen self.old) (⟦<TcpWire<R, E> as Wire>⟧.seen self.new)
            result piece.now }
        ensures faults { CountsFaults self.old.faults self.new.faults result }
        ensures missing { self.old.stream ≡ None → IsErr result }
        ensures stream { Says (⟦<Buffered<R::Stream> as Write>⟧.contents) self.old.stream self.new.stream result
            piece.now }
    {
        self.faults.pass(say(&mut self.stream, piece))
    }
}

/// A connection to the port, whose calls wait for a minute at most. One to itself is none: where nobody listens at the
/// port, the system may have taken it for this end.
fn connect<R: Net>(net: &R, port: u16) -> io::Result<R::Stream> {
    let peer = SocketAddr::V4(SocketAddrV4::new(Ipv4Addr::LOCALHOST, port));
    let stream = TcpStream::connect_timeout(net, &peer, patience())?;
    set_up(&stream, &peer)?;
    Ok(stream)
}

/// Its calls wait for a minute at most, where it is none to itself.
fn set_up<S: OpenStream>(stream: &S, peer: &SocketAddr) -> io::Result<()> {
    if stream.local_addr()? == *peer {
        return Err(io::Error::from(ErrorKind::ConnectionRefused));
    }
    limit(stream, patience())
}

/// What a read of the stream gives, where there is one.
fn hear<S: Read>(stream: &mut Option<S>, buf: &mut [u8]) -> io::Result<usize>
    ensures missing { stream.old ≡ None → IsErr result }
    ensures bound { ReadsAtMost result buf.new }
    ensures stream { Hears S.remaining stream.old stream.new result buf.new }
{
    match stream {
        Some(stream) => retry::read(stream, buf),
        None => Err(io::Error::from(ErrorKind::NotConnected)),
    }
}

/// What a write to the stream gives, where there is one.
fn say<S: Write>(stream: &mut Option<S>, piece: &[u8]) -> io::Result<usize>
    ensures missing { stream.old ≡ None → IsErr result }
    ensures bound { WritesAtMost result piece.now }
    ensures some { IfOk result (λ count. 0 < length piece.now → 0 < count) }
    ensures stream { Says S.contents stream.old stream.new result piece.now }
{
    match stream {
        Some(stream) => taken(retry::write(stream, piece), piece),
        None => Err(io::Error::from(ErrorKind::NotConnected)),
    }
}
