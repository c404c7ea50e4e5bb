//! An offline editor for a manuscript that several authors change on their own machines.
#![tactic(auto)]

use lines::{Lines, PortLines};
use manuscript_cli::{Command, Refusal, Status, read_words, run, tell};
use outer_ports::{FileDisk, Opening, StdSink, StdSource, TcpDock, TcpWire};
use reasons::Reasons;
use reporting::{
    COPY_IT, INPUT, MAKE_ANOTHER, MERGE_IT, OUTPUT, ReportingFile, ReportingNotes, ReportingStream,
};
use seen::{Role, Seen};
use standard::{Held, hold_closed};
use std::env;
use std::hash::RandomState;
use std::io::{self, ErrorKind};
use std::process::ExitCode;
use std::rt::Env;
use usage::tell_usage;

mod lines;
mod reasons;
mod reporting;
mod seen;
mod standard;
mod usage;

/// The words of the command line, the first of which names the program.
fn words(rt: &(impl Env + AllocGlobal)) -> io::Result<Vec<String>> {
    env::args(rt)?.collect(rt.alloc()).map_err(io::Error::from)
}

/// The name that the program was called by, without its folder.
fn program_of(words: &[String]) -> &str {
    let called = match words.first() {
        Some(word) => word.as_str(),
        None => "",
    };
    match called.rsplit('/').next() {
        Some(name) if !name.is_empty() => name,
        _ => PROGRAM,
    }
}

/// What the program is called where nobody says so.
const PROGRAM: &str = "manuscript";

/// Why a file could not be opened, in words that tell what to do where there is none.
fn cause_of(error: io::Error, command: Option<Command>, role: Role) -> io::Error {
    if error.kind() != ErrorKind::NotFound {
        return error;
    }
    match (command, role) {
        (Some(Command::New(_, _)), _) => io::Error::from(ErrorKind::NotADirectory),
        (_, Role::Home) => io::Error::other("no such file (manuscript new makes one)"),
        (Some(Command::Revise | Command::ReviseSince(_)), Role::Guest) => {
            io::Error::other("no such file (manuscript arrange FILE > BASE prints one)")
        }
        (_, Role::Guest) => error,
    }
}

/// The file that the words' command is about, and the other one that it reads.
fn paths(command: Option<Command>, words: &[String]) -> (Option<&str>, Option<&str>) {
    match command {
        Some(command) => command.files(words),
        None => (None, None),
    }
}

/// What the file that the command is about is opened for.
fn opening_of(command: Option<Command>) -> Opening {
    command.map_or(Opening::Reading, Command::opening)
}

/// What to do where the disk reports an error of the file that the command is about.
fn way_out_of_home(command: Option<Command>) -> &'static str {
    match opening_of(command) {
        Opening::Creating => MAKE_ANOTHER,
        Opening::Reading | Opening::Writing => MERGE_IT,
    }
}

/// And of the other one that it reads.
fn way_out_of_guest(command: Option<Command>) -> &'static str {
    match command {
        Some(Command::Revise | Command::ReviseSince(_)) => COPY_IT,
        _ => MERGE_IT,
    }
}

/// The port that the words name.
fn port_of(command: Option<Command>, words: &[String]) -> &str {
    match (command, words) {
        (Some(Command::Relay(_, _)), [_, port, ..])
        | (Some(Command::Sync(_, _)), [_, _, port, ..]) => port.as_str(),
        _ => "",
    }
}

/// Opens the file, where there is one. Why the system refused it is reported once the file is asked.
fn open_file<'a>(
    rt: &HostRuntime,
    path: Option<&'a str>,
    command: Option<Command>,
    role: Role,
    lines: &'a Lines<'a>,
    seen: &'a Seen,
) -> ReportingFile<'a> {
    let (opening, way_out) = match role {
        Role::Home => (opening_of(command), way_out_of_home(command)),
        Role::Guest => (Opening::Reading, way_out_of_guest(command)),
    };
    let (file, refused) = match path.map(|path| FileDisk::open(rt, path, opening)) {
        None => (FileDisk::closed(), None),
        Some(Ok(file)) => (file, None),
        Some(Err(error)) => (FileDisk::closed(), Some(cause_of(error, command, role))),
    };
    let name = path.unwrap_or("");
    ReportingFile::new(file, refused, role, name, way_out, lines, seen)
}

/// Does what the words ask for on the streams of the process, the files that the words name, and the network of this
/// machine. Where the words are no command, it says why.
fn obey(
    rt: &HostRuntime,
    words: &[String],
    held: &Held,
    hasher: RandomState,
    lines: &Lines<'_>,
) -> Status {
    let command = read_words(words);
    if command.is_none() {
        tell_usage(lines, words);
    }
    let seen = Seen::new();
    let (path, other) = paths(command, words);
    let reasons = Reasons {
        lines,
        seen: &seen,
        command,
        home: path.unwrap_or(""),
        guest: other.unwrap_or(""),
        port: port_of(command, words),
    };
    let mut home = open_file(rt, path, command, Role::Home, lines, &seen);
    let other = if home.file().is_open() { other } else { None };
    let mut guest = open_file(rt, other, command, Role::Guest, lines, &seen);
    let input = ReportingStream::new(rt.stdin(), INPUT, held.input.is_some(), lines, &seen);
    let output = ReportingStream::new(rt.stdout(), OUTPUT, held.output.is_some(), lines, &seen);
    let status = run(
        rt.alloc(),
        words,
        &mut StdSource::new(input),
        &mut StdSink::new(output),
        &mut StdSink::new(ReportingNotes::new(rt.stderr(), reasons)),
        &mut home,
        &mut guest,
        &mut TcpWire::new(*rt, PortLines::new(lines)),
        &mut TcpDock::new(*rt, PortLines::new(lines)),
        hasher,
    );
    if let Some(path) = path {
        home.file().remove_unfinished(rt, path);
    }
    status
}

/// Runs on the process.
fn run_on_process(rt: &HostRuntime) -> Status {
    let mut notes = StdSink::new(rt.stderr());
    let Ok(held) = hold_closed(rt) else {
        Lines::new(rt, PROGRAM).tell_alone(NOT_HELD);
        return tell(&mut notes, Refusal::Outside);
    };
    let called = match words(rt) {
        Ok(called) => called,
        Err(error) if error.kind() == ErrorKind::OutOfMemory => {
            return tell(&mut notes, Refusal::NoMemory);
        }
        Err(_) => {
            // No command has such words.
            Lines::new(rt, PROGRAM).tell_alone("a word of the command is not UTF-8");
            return tell(&mut notes, Refusal::Words);
        }
    };
    let lines = Lines::new(rt, program_of(&called));
    let Ok(hasher) = RandomState::new(rt) else {
        lines.tell_alone("the system gave no random number");
        return tell(&mut notes, Refusal::Outside);
    };
    obey(rt, called.get(1..).unwrap_or(&[]), &held, hasher, &lines)
}

const NOT_HELD: &str = "a standard stream is closed, and nothing could be opened in its place";

fn main(rt: HostRuntime) -> ExitCode {
    ExitCode::from(run_on_process(&rt).code())
}
