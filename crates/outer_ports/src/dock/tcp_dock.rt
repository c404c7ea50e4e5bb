//! A listener on a TCP port of the loopback interface, which serves one connection at a time.

ghost use Rattle.std.specs.Prelude.{◌≡◌, ◌≢◌, ◌<◌, ◌*◌, length, true, false, Ok, None, IsErr, IsOk, IsSome, IfOk, OnOk};
ghost use Rattle.std.specs.Prelude.{OnErr};
ghost use Rattle.std.specs.Io.{ReadsAtMost, WritesAtMost};
ghost use Rattle.std.specs.Io.KnownBytes.{ReadConsumes, WriteAppends};
ghost use Rattle.fugue_ids.specs.Causes.{HasCause};
ghost use Rattle.outer_ports.specs.Calls.{risen};
ghost use Rattle.outer_ports.specs.Counts.{CountsFaults};
ghost use Rattle.outer_ports.specs.dock.Steps.{InTurn};
ghost use Rattle.outer_ports.specs.dock.Docks.{Listens, Takes, Sends, EndsSession};
ghost use Rattle.outer_ports.specs.dock.Streams.{Accepts, Brings, GoesNowhere, Reaches, Stays};

use crate::causes::tell_port;
use crate::faults::{Faults, taken};
use crate::retry::MOST_CALLS;
use crate::watch::Watch;
use crate::{Dock, DockStep, retry};
use fugue_ids::Failed;
use std::io::{self, ErrorKind, Read, Write};
use std::net::{Ipv4Addr, Net, OpenListener, OpenStream, Shutdown, TcpListener};
use std::time::{Clock, Duration};

/// For how many milliseconds a failure of accept that passes is waited out at once.
const PAUSE: u64 = 100;

/// Numbers of the system's errors that accept gives for one connection, or while something is wanting (accept(2)): no
/// descriptor is left to the system (23) or to the process (24), there is no memory (12, 105), or the network had an
/// error (64, 71, 92, 95, 100, 101, 112, 113).
const PASSING: [i32; 12] = [12, 23, 24, 64, 71, 92, 95, 100, 101, 105, 112, 113];

/// Listens on 127.0.0.1, and brings one connection after another, numbered from 0. It does not tell what passes.
///
/// A peer that is lost (it resets, is silent for a minute, or takes nothing for as long), or whose session has lasted
/// for ten minutes, is Gone at the next step. What is sent to a session that is not there, or that was ended, goes
/// nowhere. Only the listening socket makes a call fail. Why it could not listen goes to `errors`, in a line.
#[derive(Drop)]
pub struct TcpDock<R: Net + Clock + AllocGlobal + Drop, E: Write + Drop> {
    net: R,
    errors: E,
    listener: Option<R::Listener>,
    /// The connection of the session that is open: None where there is none, and where the peer is lost.
    stream: Option<R::Stream>,
    /// When the session began that is open.
    watch: Option<Watch>,
    is_open: bool,
    /// Nothing more is sent to the session that is open.
    is_ended: bool,
    /// The number of the session that is open, or of the next one.
    session: u32,
    faults: Faults,
}

impl<R: Net + Clock + AllocGlobal + Drop, E: Write + Drop> TcpDock<R, E> {
    pub fn new(net: R, errors: E) -> TcpDock<R, E>
        ensures open { (result.is_open ≡ false) × (result.is_ended ≡ false) }
        ensures session { result.session ≡ 0 }
        ensures apart { (result.listener ≡ None) × (result.stream ≡ None) }
        ensures seen { ⟦<TcpDock<R, E> as Dock>⟧.seen result ≡ record {
          listens = None;
          taken = None;
          coming = None;
          sent = λ s. None;
          ended = None;
          ended_at = None;
          faults = 0;
          room = λ s. None;
          ends = None;
        } }
    {
        TcpDock {
            net,
            errors,
            listener: None,
            stream: None,
            watch: None,
            is_open: false,
            is_ended: false,
            session: 0,
            faults: Faults::none(),
        }
    }

    /// Opens the next session.
    fn open(&mut self) -> Result<DockStep, Failed>
        requires closed { self.old.is_open ≡ false }
        ensures opened { IfOk result (λ step. step ≡ DockStep.Opened self.old.session) }
        ensures turn { OnOk result
            ((self.new.is_open ≡ true) × (self.new.is_ended ≡ false) × (self.new.session ≡ self.old.session)) }
        ensures stream { OnOk result (Accepts self.new.stream self.old.faults self.new.faults) }
        ensures missing { self.old.listener ≡ None → IsErr result }
        ensures listener { self.new.listener ≡ self.old.listener }
        ensures stays { OnErr result (self.new ≡ record self.old { faults = self.new.faults }) }
        ensures failed { OnErr result (self.new.faults ≡ risen self.old.faults) }
        ensures cause { HasCause self.old.faults self.new.faults result }
    {
        let Some(listener) = &self.listener else {
            return self
                .faults
                .pass(Err(io::Error::from(ErrorKind::NotConnected)));
        };
        let stream = self.faults.pass(accept(listener, &self.net))?;
        // A peer whose time cannot be told is lost before it is heard.
        self.watch = self.faults.pass(Watch::new(&self.net)).ok();
        self.stream = if self.watch.is_some() {
            Some(stream)
        } else {
            None
        };
        self.is_open = true;
        self.is_ended = false;
        Ok(DockStep::Opened(self.session))
    }
}

/// Listens at the port. Why it could not goes to `errors`, in a line.
fn bind<R: Net + AllocGlobal, E: Write>(
    net: &R,
    errors: &mut E,
    port: u16,
) -> io::Result<R::Listener> {
    let given = TcpListener::bind(net, (Ipv4Addr::LOCALHOST, port));
    if let Err(error) = &given {
        tell_port(net.alloc(), errors, port, error);
    }
    given
}

/// The next connection. What fails for one connection alone, or for a while, is waited out.
fn accept<L: OpenListener>(listener: &L, clock: &impl Clock) -> io::Result<L::Stream> {
    'calls: for _ in 1..MOST_CALLS {
        match listener.accept() {
            Ok((stream, _)) => return Ok(stream),
            Err(error) if does_pass(&error) => clock.sleep(Duration::from_millis(PAUSE)),
            Err(error) => return Err(error),
        }
    }
    let (stream, _) = listener.accept()?;
    Ok(stream)
}

/// Whether a failure of accept says nothing of the listening socket.
fn does_pass(error: &io::Error) -> bool {
    match error.kind() {
        ErrorKind::Interrupted | ErrorKind::ConnectionAborted | ErrorKind::PermissionDenied => true,
        _ => error
            .raw_os_error()
            .is_some_and(|number| PASSING.contains(&number)),
    }
}

/// Reads once, while the session has time.
fn read_in_time<S: Read + OpenStream>(
    clock: &impl Clock,
    watch: Option<Watch>,
    stream: &mut S,
    buf: &mut [u8],
) -> io::Result<usize>
    ensures bound { ReadsAtMost result buf.new }
    ensures len { length buf.new ≡ length buf.old }
    ensures bytes { ReadConsumes (S.remaining stream.old) (S.remaining stream.new) result buf.new }
{
    limit_by(clock, watch, stream)?;
    retry::read(stream, buf)
}

/// Writes once, while the session has time.
fn write_in_time<S: Write + OpenStream>(
    clock: &impl Clock,
    watch: Option<Watch>,
    stream: &mut S,
    piece: &[u8],
) -> io::Result<usize>
    ensures bound { WritesAtMost result piece.now }
    ensures bytes { WriteAppends (S.contents stream.old) (S.contents stream.new) result piece.now }
{
    limit_by(clock, watch, stream)?;
    retry::write(stream, piece)
}

fn limit_by<S: OpenStream>(clock: &impl Clock, watch: Option<Watch>, stream: &S) -> io::Result<()> {
    match watch {
        Some(watch) => watch.limit(clock, stream),
        None => Ok(()),
    }
}

impl<R: Net + Clock + AllocGlobal + Drop, E: Write + Drop> Dock for TcpDock<R, E> {
    ghost seen = { λ d. record {
      listens = None;
      coming = None;
      taken = None;
      sent = λ s. None;
      room = λ s. None;
      ends = None;
      ended = None;
      ended_at = None;
      faults = d.faults;
    } };

    fn listen(&mut self, port: u16) -> Result<(), Failed>
        ensures listens { Listens (⟦<TcpDock<R, E> as Dock>⟧.seen self.old) (⟦<TcpDock<R, E> as Dock>⟧.seen self.new)
            result port }
        ensures faults { CountsFaults self.old.faults self.new.faults result }
        ensures bound { OnOk result (IsSome self.new.listener) }
        ensures kept { OnErr result (self.new.listener ≡ self.old.listener) }
        ensures others { self.new
            ≡ record self.old { listener = self.new.listener; errors = self.new.errors; faults = self.new.faults } }
    {
        let given = bind(&self.net, &mut self.errors, port);
        self.listener = Some(self.faults.pass(given)?);
        Ok(())
    }

    fn next(&mut self, buf: &mut [u8]) -> Result<DockStep, Failed>
        requires room { 0 < length buf.old }
        ensures takes { Takes (⟦<TcpDock<R, E> as Dock>⟧.seen self.old) (⟦<TcpDock<R, E> as Dock>⟧.seen self.new)
            result buf.new }
        ensures turn { IfOk result (λ step. InTurn step
            (record { is_open = self.old.is_open; is_ended = self.old.is_ended; session = self.old.session })
            (record { is_open = self.new.is_open; is_ended = self.new.is_ended; session = self.new.session })) }
        ensures lost { self.old.is_open ≡ true → IsOk result }
        ensures stream { IfOk result (λ step. Brings R.Stream.remaining step self.old.stream self.new.stream
            self.old.faults self.new.faults buf.new) }
        ensures gone { self.old.is_open ≡ true → self.old.stream ≡ None → result ≡ Ok (DockStep.Gone self.old.session) }
        ensures missing { self.old.is_open ≡ false → self.old.listener ≡ None → IsErr result }
        ensures listener { self.new.listener ≡ self.old.listener }
        ensures stays { OnErr result (self.new ≡ record self.old { faults = self.new.faults }) }
        ensures failed { OnErr result (self.new.faults ≡ risen self.old.faults) }
    {
        if !self.is_open {
            return self.open();
        }
        let session = self.session;
        if let Some(stream) = &mut self.stream
            && let Ok(count) = self
                .faults
                .pass(read_in_time(&self.net, self.watch, stream, buf))
            && count > 0
        {
            return Ok(DockStep::Bytes(session, count));
        }
        self.stream = None;
        self.is_open = false;
        self.session = session.saturating_add(1);
        Ok(DockStep::Gone(session))
    }

    fn send(&mut self, session: u32, piece: &[u8]) -> Result<usize, Failed>
        ensures sends { Sends (⟦<TcpDock<R, E> as Dock>⟧.seen self.old) (⟦<TcpDock<R, E> as Dock>⟧.seen self.new)
            result session piece.now }
        ensures lost { IsOk result }
        ensures stream { session ≡ self.old.session → self.old.is_ended ≡ false
            → Reaches R.Stream.contents self.old.stream self.new.stream self.old.faults self.new.faults result piece.now }
        ensures ended { self.old.is_ended ≡ true
            → GoesNowhere self.old.stream self.new.stream self.old.faults self.new.faults result piece.now }
        ensures elsewhere { session ≢ self.old.session
            → GoesNowhere self.old.stream self.new.stream self.old.faults self.new.faults result piece.now }
        ensures others { self.new ≡ record self.old { stream = self.new.stream; faults = self.new.faults } }
    {
        if session == self.session
            && !self.is_ended
            && let Some(stream) = &mut self.stream
        {
            let given = write_in_time(&self.net, self.watch, stream, piece);
            match self.faults.pass(taken(given, piece)) {
                Ok(count) => return Ok(count),
                Err(_) => self.stream = None,
            }
        }
        Ok(piece.len())
    }

    /// The peer sees the end of what is sent to it. What it still sends comes as before, until it is Gone.
    fn end(&mut self, session: u32) -> Result<(), Failed>
        ensures ends { EndsSession (⟦<TcpDock<R, E> as Dock>⟧.seen self.old) (⟦<TcpDock<R, E> as Dock>⟧.seen self.new)
            result session }
        ensures lost { IsOk result }
        ensures stream { session ≡ self.old.session
            → Stays self.old.stream self.new.stream self.old.faults self.new.faults }
        ensures ended { session ≡ self.old.session → self.new.is_ended ≡ true }
        ensures elsewhere { session ≢ self.old.session → self.new ≡ self.old }
        ensures others { self.new
            ≡ record self.old { stream = self.new.stream; is_ended = self.new.is_ended; faults = self.new.faults } }
    {
        if session != self.session {
            return Ok(());
        }
        self.is_ended = true;
        if let Some(stream) = &self.stream
            && self.faults.pass(stream.shutdown(Shutdown::Write)).is_err()
        {
            self.stream = None;
        }
        Ok(())
    }
}
