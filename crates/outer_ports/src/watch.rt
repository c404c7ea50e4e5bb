//! How long a peer is waited for.
ghost use Rattle.std.specs.Prelude.{◌≡◌, ◌*◌};
ghost use Rattle.std.specs.Duration.{as_nanos};

use std::io::{self, ErrorKind};
use std::net::OpenStream;
use std::time::{Clock, Duration, Instant};

/// For how many seconds a peer may be silent, or take nothing.
const PATIENCE: u64 = 60;

/// For how many seconds a session may go on, whatever its peer sends or takes.
const SESSION: u64 = 600;

/// When a session began.
#[derive(Clone, Copy)]
pub(crate) struct Watch {
    begun: Instant,
}

impl Watch {
    pub(crate) fn new(clock: &impl Clock) -> io::Result<Watch> {
        Ok(Watch {
            begun: Instant::now(clock)?,
        })
    }

    /// Lets the next call on the stream wait for a minute, or for what is left of the session. Where nothing is left,
    /// the time is over.
    pub(crate) fn limit<S: OpenStream>(&self, clock: &impl Clock, stream: &S) -> io::Result<()> {
        let passed = Instant::now(clock)?.saturating_duration_since(self.begun);
        let left = Duration::from_secs(SESSION).saturating_sub(passed);
        if left.is_zero() {
            return Err(io::Error::from(ErrorKind::TimedOut));
        }
        limit(stream, left.min(patience()))
    }
}

/// How long a peer is waited for at once.
pub(crate) fn patience() -> Duration
    ensures { as_nanos result ≡ 60 * 1_000_000_000 }
{
    Duration::from_secs(PATIENCE)
}

/// The calls on the stream wait for its peer no longer than this.
pub(crate) fn limit<S: OpenStream>(stream: &S, time: Duration) -> io::Result<()> {
    stream.set_read_timeout(Some(time))?;
    stream.set_write_timeout(Some(time))
}
