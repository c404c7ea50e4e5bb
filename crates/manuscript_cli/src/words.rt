//! The parser of the command line: which words are a command, its arguments, and its file names.
ghost use Rattle.std.specs.Prelude.{◌≡◌, ◌↔◌, ◌∷◌, List, [], ℕ, IfSome, IsTrue, Some, codes, map, string_bytes};
ghost use Rattle.std.specs.Option.{option_copied};
ghost use Rattle.manuscript_cli.specs.Command.{HasFiles, IsCommand, IsLineWord, NamesFile, NamesMoment, NamesNamed};
ghost use Rattle.manuscript_cli.specs.Command.{NamesRemark, NamesTwo, last_word, third_word};
ghost use Rattle.manuscript_cli.specs.Number.{IsNumber};
ghost use Rattle.manuscript_cli.specs.declared.words.TheConstants.{GREATEST_PORT as greatest_port};

use crate::Command;
use crate::number::read_number;
use bulk_world::MOST_TURNS;
use fugue_ids::{GREATEST_HOLD, LONGEST_BODY, LONGEST_TITLE, has_line_end};
use passage_remarks::is_spelled;
use version_views::LONGEST_NAME;

/// How many operations may wait where `show` stands alone.
const USUAL_HOLD: u32 = 65_536;

/// The greatest number of a replica.
const GREATEST_REPLICA: u32 = u32::MAX;

const GREATEST_PORT: u32 = 65_535;

const GREATEST_SEED: u32 = u32::MAX;

/// The greatest place in a relay's log.
const GREATEST_CURSOR: u32 = u32::MAX;

/// The greatest number of a section, of a place, or of characters.
const GREATEST_PLACE: u32 = u32::MAX;

/// The greatest moment: a number of accepted operations.
const GREATEST_MOMENT: u32 = u32::MAX;

/// The greatest number of a remark.
const GREATEST_REMARK: u32 = u32::MAX;

/// How many sessions a relay serves at most.
const MOST_SESSIONS: u32 = 65_535;

/// Reads the words of the command line. Returns None where they are those of no command.
pub fn read_words(words: &[String]) -> Option<Command>
    ensures { IsCommand (map string_bytes words.now) result }
{
    match words {
        [name, rest @ ..] => read_command(name, rest),
        [] => None,
    }
}

/// Reads a command's name, and the words after it.
fn read_command(name: &str, rest: &[String]) -> Option<Command>
    ensures { IsCommand (name.now ∷ map string_bytes rest.now) result }
{
    match name {
        "about" => rest.is_empty().then_some(Command::About),
        "show" => read_show(rest),
        "edit" => is_file(rest).then_some(Command::Edit),
        "print" => is_file(rest).then_some(Command::Print),
        "take" => is_file(rest).then_some(Command::Take),
        "send" => is_file(rest).then_some(Command::Send),
        "check" => is_file(rest).then_some(Command::Check),
        "arrange" => is_file(rest).then_some(Command::Arrange),
        "authors" => is_file(rest).then_some(Command::Authors),
        "moments" => is_file(rest).then_some(Command::Moments),
        "list" => is_file(rest).then_some(Command::List),
        "comments" => is_file(rest).then_some(Command::Comments),
        "remarks" => is_file(rest).then_some(Command::Remarks),
        "versions" => is_file(rest).then_some(Command::Versions),
        "version" => is_named(rest).then_some(Command::Version),
        "view" => is_named(rest).then_some(Command::View),
        "merge" => are_files(rest).then_some(Command::Merge),
        "revise" => read_revise(rest),
        "relay" => read_relay(rest),
        "bulk" => read_bulk(rest),
        "withdraw" => read_withdraw(rest),
        "past" => read_moment(rest).map(Command::Past),
        "changes" => read_moment(rest).map(Command::Changes),
        "new" => read_new(rest),
        "sync" => read_sync(rest),
        "move" => read_move(rest),
        "retitle" => read_retitle(rest),
        "remark" => is_remark(rest).then_some(Command::Remark),
        "why" => read_why(rest),
        "comment" => read_comment(rest),
        _ => None,
    }
}

fn read_show(rest: &[String]) -> Option<Command>
    ensures { IsCommand (codes "show" ∷ map string_bytes rest.now) result }
{
    match rest {
        [] => Some(Command::Show(USUAL_HOLD)),
        [hold] => read_number(hold, 1, GREATEST_HOLD).map(Command::Show),
        _ => None,
    }
}

/// Whether the words are one file name.
fn is_file(rest: &[String]) -> bool
    ensures { (name : List ℕ) → IsTrue result ↔ NamesFile name (name ∷ map string_bytes rest.now) }
{
    match rest {
        [file] => !file.is_empty(),
        _ => false,
    }
}

/// Whether the words are two file names.
fn are_files(rest: &[String]) -> bool
    ensures { (name : List ℕ) → IsTrue result ↔ NamesTwo name (name ∷ map string_bytes rest.now) }
{
    match rest {
        [file, other] => !file.is_empty() && !other.is_empty(),
        _ => false,
    }
}

/// Whether the words are a file and the name of a version.
fn is_named(rest: &[String]) -> bool
    ensures { (name : List ℕ) → IsTrue result ↔ NamesNamed name (name ∷ map string_bytes rest.now) }
{
    match rest {
        [file, name] => !file.is_empty() && is_line(name, LONGEST_NAME),
        _ => false,
    }
}

/// Whether the words are a file, a passage and a comment's text.
fn is_remark(rest: &[String]) -> bool
    ensures { IsTrue result ↔ NamesRemark (codes "remark" ∷ map string_bytes rest.now) }
{
    match rest {
        [file, passage, text] => !file.is_empty()
            && is_spelled(passage.as_bytes())
            && is_line(text, LONGEST_BODY),
        _ => false,
    }
}

/// Whether the word is one line of at most so many bytes.
fn is_line(word: &str, most: usize) -> bool
    ensures { IsTrue result ↔ IsLineWord most word.now }
{
    !word.is_empty() && word.len() <= most && !has_line_end(word.as_bytes())
}

fn read_revise(rest: &[String]) -> Option<Command>
    ensures { IsCommand (codes "revise" ∷ map string_bytes rest.now) result }
{
    match rest {
        [file, base] if !file.is_empty() && !base.is_empty() => Some(Command::Revise),
        [file, base, number] if !file.is_empty() && !base.is_empty() => {
            read_number(number, 0, GREATEST_MOMENT).map(Command::ReviseSince)
        }
        _ => None,
    }
}

fn read_withdraw(rest: &[String]) -> Option<Command>
    ensures { IsCommand (codes "withdraw" ∷ map string_bytes rest.now) result }
{
    match rest {
        [file, number] if !file.is_empty() => {
            read_number(number, 1, GREATEST_REMARK).map(Command::Withdraw)
        }
        _ => None,
    }
}

/// Reads the words of a file and of a number of operations.
fn read_moment(rest: &[String]) -> Option<u32>
    ensures moment { IfSome result (λ n. (name : List ℕ) → NamesMoment name (name ∷ map string_bytes rest.now) n) }
    ensures every { (name : List ℕ) (n : ℕ) → NamesMoment name (name ∷ map string_bytes rest.now) n → result ≡ Some n }
{
    match rest {
        [file, number] if !file.is_empty() => read_number(number, 0, GREATEST_MOMENT),
        _ => None,
    }
}

fn read_relay(rest: &[String]) -> Option<Command>
    ensures { IsCommand (codes "relay" ∷ map string_bytes rest.now) result }
{
    let [port, sessions] = rest else {
        return None;
    };
    let port = read_port(port)?;
    let sessions = read_number(sessions, 1, MOST_SESSIONS)?;
    Some(Command::Relay(port, sessions))
}

fn read_bulk(rest: &[String]) -> Option<Command>
    ensures { IsCommand (codes "bulk" ∷ map string_bytes rest.now) result }
{
    let [seed, count] = rest else {
        return None;
    };
    let seed = read_number(seed, 0, GREATEST_SEED)?;
    let count = read_number(count, 1, MOST_TURNS)?;
    Some(Command::Bulk(seed, count))
}

/// Reads the number of a port.
fn read_port(word: &str) -> Option<u16>
    ensures number { IfSome result (λ n. IsNumber word.now 1 greatest_port n) }
    ensures every { (n : ℕ) → IsNumber word.now 1 greatest_port n → result ≡ Some n }
{
    let port = read_number(word, 1, GREATEST_PORT)?;
    Some(port as u16)
}

fn read_move(rest: &[String]) -> Option<Command>
    ensures { IsCommand (codes "move" ∷ map string_bytes rest.now) result }
{
    match rest {
        [file, section, place] if !file.is_empty() => {
            let section = read_number(section, 1, GREATEST_PLACE)?;
            let place = read_number(place, 1, GREATEST_PLACE)?;
            Some(Command::Move(section, place))
        }
        _ => None,
    }
}

fn read_retitle(rest: &[String]) -> Option<Command>
    ensures { IsCommand (codes "retitle" ∷ map string_bytes rest.now) result }
{
    match rest {
        [file, section, title] if !file.is_empty() && is_line(title, LONGEST_TITLE) => {
            read_number(section, 1, GREATEST_PLACE).map(Command::Retitle)
        }
        _ => None,
    }
}

fn read_sync(rest: &[String]) -> Option<Command>
    ensures { IsCommand (codes "sync" ∷ map string_bytes rest.now) result }
{
    match rest {
        [file, port, cursor] if !file.is_empty() => {
            let port = read_port(port)?;
            let cursor = read_number(cursor, 0, GREATEST_CURSOR)?;
            Some(Command::Sync(port, cursor))
        }
        _ => None,
    }
}

fn read_new(rest: &[String]) -> Option<Command>
    ensures { IsCommand (codes "new" ∷ map string_bytes rest.now) result }
{
    match rest {
        [file, number, hold] if !file.is_empty() => {
            let replica = read_number(number, 1, GREATEST_REPLICA)?;
            let hold = read_number(hold, 1, GREATEST_HOLD)?;
            Some(Command::New(replica, hold))
        }
        _ => None,
    }
}

fn read_why(rest: &[String]) -> Option<Command>
    ensures { IsCommand (codes "why" ∷ map string_bytes rest.now) result }
{
    match rest {
        [file, section, first, second] => why_of(file, section, first, second),
        _ => None,
    }
}

fn why_of(file: &str, section: &str, first: &str, second: &str) -> Option<Command>
    ensures { IsCommand (codes "why" ∷ file.now ∷ section.now ∷ first.now ∷ second.now ∷ []) result }
{
    if file.is_empty() {
        return None;
    }
    let section = read_number(section, 1, GREATEST_PLACE)?;
    let first = read_number(first, 0, GREATEST_PLACE)?;
    let second = read_number(second, 0, GREATEST_PLACE)?;
    Some(Command::Why(section, first, second))
}

fn read_comment(rest: &[String]) -> Option<Command>
    ensures { IsCommand (codes "comment" ∷ map string_bytes rest.now) result }
{
    match rest {
        [file, section, first, count, text] => comment_of(file, section, first, count, text),
        _ => None,
    }
}

fn comment_of(file: &str, section: &str, first: &str, count: &str, text: &str) -> Option<Command>
    ensures { IsCommand
        (codes "comment" ∷ file.now ∷ section.now ∷ first.now ∷ count.now ∷ text.now ∷ []) result }
{
    if file.is_empty() || !is_line(text, LONGEST_BODY) {
        return None;
    }
    let section = read_number(section, 1, GREATEST_PLACE)?;
    let first = read_number(first, 0, GREATEST_PLACE)?;
    let count = read_number(count, 1, GREATEST_PLACE)?;
    Some(Command::Comment(section, first, count))
}

/// The third of the words: the passage, where a command takes one.
pub(crate) fn third_of(words: &[String]) -> &str
    ensures { result.now ≡ third_word (map string_bytes words.now) }
{
    match words.get(2) {
        Some(word) => word.as_str(),
        None => "",
    }
}

/// The last of the words: the title, the comment or the name, where a command takes one.
pub(crate) fn last_of(words: &[String]) -> &str
    ensures { result.now ≡ last_word (map string_bytes words.now) }
{
    match words.last() {
        Some(word) => word.as_str(),
        None => "",
    }
}

/// The file that the command of the words is about, and the other file that it reads. Words of no command have none.
pub fn files_of(words: &[String]) -> (Option<&str>, Option<&str>)
    ensures { HasFiles (map string_bytes words.now) (option_copied result.0) (option_copied result.1) }
{
    match read_words(words) {
        Some(command) => command.files(words),
        None => (None, None),
    }
}
