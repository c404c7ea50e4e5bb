//! How the commands are asked for.

use crate::lines::Lines;
use fugue_ids::{GREATEST_HOLD, LONGEST_BODY, LONGEST_TITLE, has_line_end};
use passage_remarks::is_spelled;

/// What a word of a command may be.
#[derive(Clone, Copy)]
enum Word {
    /// The name of a file.
    File(&'static str),
    /// A number from one to another.
    Number(&'static str, u32, u32),
    /// One line of so many bytes at most.
    Line(&'static str, usize),
    /// A passage, in which `\n` stands for LF and `\\` for a backslash.
    Passage(&'static str),
}

/// How a command is asked for: its name, how many words it needs after that, what they may be, and how all is shown.
struct Form {
    name: &'static str,
    least: usize,
    words: &'static [Word],
    shown: &'static str,
}

const FILE: Word = Word::File("FILE");

const OTHER: Word = Word::File("OTHER");

const BASE: Word = Word::File("BASE");

const REPLICA: Word = Word::Number("REPLICA", 1, u32::MAX);

const HOLD: Word = Word::Number("HOLD", 1, GREATEST_HOLD);

const PORT: Word = Word::Number("PORT", 1, 65_535);

const SESSIONS: Word = Word::Number("SESSIONS", 1, 65_535);

const CURSOR: Word = Word::Number("CURSOR", 0, u32::MAX);

const SEED: Word = Word::Number("SEED", 0, u32::MAX);

const COUNT: Word = Word::Number("COUNT", 1, 1_000_000);

/// A section, counted from 1.
const SECTION: Word = Word::Number("K", 1, u32::MAX);

/// A place among the sections, counted from 1.
const PLACE: Word = Word::Number("J", 1, u32::MAX);

/// A place in a section, counted from 0, and another one.
const FIRST: Word = Word::Number("P", 0, u32::MAX);

const SECOND: Word = Word::Number("Q", 0, u32::MAX);

const LETTERS: Word = Word::Number("N", 1, u32::MAX);

/// A remark, counted from 1.
const REMARK: Word = Word::Number("C", 1, u32::MAX);

/// How many operations were accepted.
const MOMENT: Word = Word::Number("N", 0, u32::MAX);

const TITLE: Word = Word::Line("TITLE", LONGEST_TITLE);

const TEXT: Word = Word::Line("TEXT", LONGEST_BODY);

const PASSAGE: Word = Word::Passage("PASSAGE");

const NAME: Word = Word::Line("NAME", 120);

const FORMS: [Form; 30] = [
    Form {
        name: "new",
        least: 3,
        words: &[FILE, REPLICA, HOLD],
        shown: "new FILE REPLICA HOLD",
    },
    Form {
        name: "list",
        least: 1,
        words: &[FILE],
        shown: "list FILE",
    },
    Form {
        name: "arrange",
        least: 1,
        words: &[FILE],
        shown: "arrange FILE",
    },
    Form {
        name: "print",
        least: 1,
        words: &[FILE],
        shown: "print FILE",
    },
    Form {
        name: "revise",
        least: 2,
        words: &[FILE, BASE, MOMENT],
        shown: "revise FILE BASE [N] < DRAFT",
    },
    Form {
        name: "past",
        least: 2,
        words: &[FILE, MOMENT],
        shown: "past FILE N",
    },
    Form {
        name: "moments",
        least: 1,
        words: &[FILE],
        shown: "moments FILE",
    },
    Form {
        name: "changes",
        least: 2,
        words: &[FILE, MOMENT],
        shown: "changes FILE N",
    },
    Form {
        name: "authors",
        least: 1,
        words: &[FILE],
        shown: "authors FILE",
    },
    Form {
        name: "edit",
        least: 1,
        words: &[FILE],
        shown: "edit FILE < SCRIPT",
    },
    Form {
        name: "move",
        least: 3,
        words: &[FILE, SECTION, PLACE],
        shown: "move FILE K J",
    },
    Form {
        name: "retitle",
        least: 3,
        words: &[FILE, SECTION, TITLE],
        shown: "retitle FILE K TITLE",
    },
    Form {
        name: "merge",
        least: 2,
        words: &[FILE, OTHER],
        shown: "merge FILE OTHER",
    },
    Form {
        name: "send",
        least: 1,
        words: &[FILE],
        shown: "send FILE > FRAMES",
    },
    Form {
        name: "take",
        least: 1,
        words: &[FILE],
        shown: "take FILE < FRAMES",
    },
    Form {
        name: "show",
        least: 0,
        words: &[HOLD],
        shown: "show [HOLD] < FRAMES",
    },
    Form {
        name: "relay",
        least: 2,
        words: &[PORT, SESSIONS],
        shown: "relay PORT SESSIONS",
    },
    Form {
        name: "sync",
        least: 3,
        words: &[FILE, PORT, CURSOR],
        shown: "sync FILE PORT CURSOR",
    },
    Form {
        name: "comment",
        least: 5,
        words: &[FILE, SECTION, FIRST, LETTERS, TEXT],
        shown: "comment FILE K P N TEXT",
    },
    Form {
        name: "comments",
        least: 1,
        words: &[FILE],
        shown: "comments FILE",
    },
    Form {
        name: "remarks",
        least: 1,
        words: &[FILE],
        shown: "remarks FILE",
    },
    Form {
        name: "withdraw",
        least: 2,
        words: &[FILE, REMARK],
        shown: "withdraw FILE C",
    },
    Form {
        name: "remark",
        least: 3,
        words: &[FILE, PASSAGE, TEXT],
        shown: "remark FILE PASSAGE TEXT",
    },
    Form {
        name: "version",
        least: 2,
        words: &[FILE, NAME],
        shown: "version FILE NAME",
    },
    Form {
        name: "versions",
        least: 1,
        words: &[FILE],
        shown: "versions FILE",
    },
    Form {
        name: "view",
        least: 2,
        words: &[FILE, NAME],
        shown: "view FILE NAME",
    },
    Form {
        name: "why",
        least: 4,
        words: &[FILE, SECTION, FIRST, SECOND],
        shown: "why FILE K P Q",
    },
    Form {
        name: "check",
        least: 1,
        words: &[FILE],
        shown: "check FILE < CERTIFICATE",
    },
    Form {
        name: "bulk",
        least: 2,
        words: &[SEED, COUNT],
        shown: "bulk SEED COUNT",
    },
    Form {
        name: "about",
        least: 0,
        words: &[],
        shown: "about",
    },
];

/// What is reported where no command is named. It fits a screen.
const HELP: &str = "\
begin, and look
  new FILE REPLICA HOLD       makes the file of an author: new ann.ms 1 100
  list FILE                   prints what it holds, and numbers its sections
  arrange FILE, print FILE    print the manuscript: as arranged, as it was made
  past FILE N, moments FILE   prints it as it was at N; each save, with its N
  changes FILE N              prints what came since; authors FILE: who wrote it
write
  revise FILE BASE < DRAFT    saves a draft of what arrange printed to BASE
  revise FILE BASE N < DRAFT  the same, where list printed accepted N then
  edit FILE < SCRIPT          add P TITLE, put K P TEXT, cut K P N, drop K
  move FILE K J, retitle FILE K TITLE
exchange
  merge FILE OTHER            takes in the file of another author
  send FILE > FRAMES, take FILE < FRAMES, show [HOLD] < FRAMES
  relay PORT SESSIONS, sync FILE PORT CURSOR
comments and versions
  remark FILE PASSAGE TEXT, remarks FILE, withdraw FILE C
  comment FILE K P N TEXT, comments FILE
  version FILE NAME, versions FILE, view FILE NAME
the order, a trial, and what this is
  why FILE K P Q, check FILE < CERTIFICATE, bulk SEED COUNT, about
The scripts manuscript-write FILE and manuscript-exchange FILE FOLDER use these.
";

/// Tells why the words are no command.
pub(crate) fn tell_usage(lines: &Lines<'_>, words: &[String]) {
    let Some(name) = words.first() else {
        return tell_help(lines);
    };
    if matches!(name.as_str(), "help" | "--help" | "-h") {
        return tell_help(lines);
    }
    match form_of(name) {
        Some(form) => tell_form(lines, form, &words[1..]),
        None => lines.tell(name, "no such command (help tells all)"),
    }
}

/// What is reported where a title, a comment or a name is followed by more words.
const QUOTES: &str = "    (quotes make one word of several: 'two words')";

fn tell_help(lines: &Lines<'_>) {
    let program = lines.program();
    if let Ok(text) = format!(in lines.alloc();
        "usage: {program} COMMAND [WORD ..]    (man manuscript tells more)\n{HELP}"
    ) {
        lines.write(&text);
    }
}

fn form_of(name: &str) -> Option<&'static Form> {
    FORMS.iter().find(|form| form.name == name)
}

/// Tells the form of the command, or which of the words is none of those that it has there.
fn tell_form(lines: &Lines<'_>, form: &Form, words: &[String]) {
    let shown = form.shown;
    if form.least <= words.len() && words.len() <= form.words.len() {
        for (word, given) in form.words.iter().zip(words) {
            if !word.reads(given) {
                return word.tell(lines, shown, given);
            }
        }
    }
    let program = lines.program();
    let hint = match form.words.last() {
        Some(Word::Line(_, _)) if words.len() > form.words.len() => QUOTES,
        _ => "",
    };
    if let Ok(text) = format!(in lines.alloc(); "usage: {program} {shown}{hint}\n") {
        lines.write(&text);
    }
}

impl Word {
    fn reads(self, given: &str) -> bool {
        match self {
            Word::File(_) => !given.is_empty(),
            Word::Number(_, low, high) => is_number(given, low, high),
            Word::Passage(_) => is_spelled(given.as_bytes()),
            Word::Line(_, most) => {
                !given.is_empty() && given.len() <= most && !has_line_end(given.as_bytes())
            }
        }
    }

    /// Tells what the word may be.
    fn tell(self, lines: &Lines<'_>, shown: &str, given: &str) {
        let alloc = lines.alloc();
        let reason = match self {
            Word::Number(name, low, high) => {
                format!(in alloc;
                    "{name} is a number from {low} to {high}, without leading zeros, and '{given}' is none"
                )
            }
            Word::File(name) | Word::Line(name, _) | Word::Passage(name) if given.is_empty() => {
                format!(in alloc; "{name} is empty")
            }
            Word::Line(name, most) if given.len() > most => {
                let length = given.len();
                format!(in alloc; "{name} has {length} bytes, and {most} is the most")
            }
            Word::Passage(name) => {
                format!(in alloc;
                    "{name} has \\n for a line end and \\\\ for a backslash, and no other of either"
                )
            }
            Word::File(name) | Word::Line(name, _) => {
                format!(in alloc; "{name} has a line end, and is to be one line")
            }
        };
        if let Ok(reason) = reason {
            lines.tell(shown, reason);
        }
    }
}

/// Whether the word is a number as commands write it.
fn is_number(word: &str, low: u32, high: u32) -> bool {
    if matches!(word.as_bytes(), [b'+', ..] | [b'0', _, ..]) {
        return false;
    }
    match word.parse::<u32>() {
        Ok(number) => low <= number && number <= high,
        Err(_) => false,
    }
}
