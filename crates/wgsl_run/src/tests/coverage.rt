//! What the lines of scripts meet, counted: each command, accepted and with each refusal of it, cells in each address
//! space with each access mode, and members with attributes.

use std::alloc::Global;
use std::fmt::Write;
use std::process::Abort;

/// How many times each has to be met.
const OFTEN: u32 = 20;

/// The first word of a line that has another one than a command.
const NO_COMMAND: &str = "no command";

/// What a line is that is carried out.
const ACCEPTED: &str = "accepted";

/// A command, and what its line is answered: the refusals of each, in their order. Each cell of a script is made from
/// bytes, so it holds no reference, and each of its parts has bytes: `dump` has no `NoValue`. No line has
/// `NotReadWrite`, which is that of a call without a command, nor `Memory`, since memory is there.
const ANSWERS: [[&str; 2]; 38] = [
    ["struct", ACCEPTED],
    ["struct", "BadLine"],
    ["new", ACCEPTED],
    ["new", "BadLine"],
    ["new", "NoValue"],
    ["member", ACCEPTED],
    ["member", "BadLine"],
    ["member", "NoHandle"],
    ["member", "NotRead"],
    ["member", "Component"],
    ["index", ACCEPTED],
    ["index", "BadLine"],
    ["index", "NoHandle"],
    ["index", "NotRead"],
    ["index", "NotIndexable"],
    ["index", "OutOfBounds"],
    ["read", ACCEPTED],
    ["read", "BadLine"],
    ["read", "NoHandle"],
    ["read", "NotRead"],
    ["write", ACCEPTED],
    ["write", "BadLine"],
    ["write", "NoHandle"],
    ["write", "NoValue"],
    ["write", "NotWrite"],
    ["write", "WriteRefType"],
    ["copy", ACCEPTED],
    ["copy", "BadLine"],
    ["copy", "NoHandle"],
    ["copy", "NotRead"],
    ["copy", "NotWrite"],
    ["copy", "WriteRefType"],
    ["dump", ACCEPTED],
    ["dump", "BadLine"],
    ["dump", "NoHandle"],
    ["dump", "NotRead"],
    [NO_COMMAND, "BadLine"],
    ["no word", "nothing"],
];

const COMMANDS: [&str; 8] = [
    "struct", "new", "member", "index", "read", "write", "copy", "dump",
];

const SPACES: [&str; 6] = [
    "function",
    "private",
    "workgroup",
    "uniform",
    "storage",
    "handle",
];

const ACCESSES: [&str; 3] = ["read", "write", "read_write"];

/// The attributes that a member may have.
const ATTRIBUTES: [&str; 3] = ["align", "size", "align and size"];

#[derive(Clone, Copy)]
struct Count {
    met: [&'static str; 2],
    times: u32,
}

/// A structure of a script that has a member with these attributes.
#[derive(Clone, Copy)]
struct Attributed {
    number: usize,
    attributes: &'static str,
}

/// How many times each is met.
#[derive(Drop)]
pub(super) struct Coverage {
    alloc: Global,
    counts: Vec<Count>,
    /// Of the script that is at hand.
    attributed: Vec<Attributed>,
}

/// The command that the word is.
fn command_of(word: &str) -> &'static str {
    let command = COMMANDS.iter().find(|command| **command == word);
    command.copied().unwrap_or(NO_COMMAND)
}

/// The attributes of a member.
fn attributes_of(member: &str) -> Option<&'static str> {
    match (member.contains("@align("), member.contains("@size(")) {
        (true, true) => Some("align and size"),
        (true, false) => Some("align"),
        (false, true) => Some("size"),
        (false, false) => None,
    }
}

/// The number of a structure called `S` and a number.
fn structure_of(word: &str) -> Option<usize> {
    word.strip_prefix('S')?.parse().ok()
}

impl Coverage {
    /// Nothing is met yet.
    pub(super) fn new(rt: &impl Abort, alloc: Global) -> Self {
        let mut coverage = Coverage {
            alloc,
            counts: Vec::new(alloc),
            attributed: Vec::new(alloc),
        };
        for met in ANSWERS {
            coverage.ask(rt, met);
        }
        for space in SPACES {
            for access in ACCESSES {
                coverage.ask(rt, [space, access]);
            }
        }
        for attributes in ATTRIBUTES {
            coverage.ask(rt, ["struct", attributes]);
            coverage.ask(rt, ["new", attributes]);
        }
        coverage
    }

    fn ask(&mut self, rt: &impl Abort, met: [&'static str; 2]) {
        let count = Count { met, times: 0 };
        self.counts.push(count).expect(rt, "memory");
    }

    /// Counts what has to be asked for.
    fn count(&mut self, rt: &impl Abort, first: &str, second: &str) {
        for count in self.counts.iter_mut() {
            let [asked_first, asked_second] = count.met;
            if asked_first == first && asked_second == second {
                count.times = count.times.saturating_add(1);
                return;
            }
        }
        panic!(rt; "{first} {second} can't be met");
    }

    /// The next lines are those of another script.
    pub(super) fn begin(&mut self) {
        self.attributed.clear();
    }

    /// Counts the line, which prints the answer.
    pub(super) fn add(&mut self, rt: &impl Abort, line: &str, answer: Option<&str>) {
        let line = line.strip_suffix('\r').unwrap_or(line);
        let words = line.split(' ').filter(|word| !word.is_empty());
        let words: Vec<&str> = words.collect(self.alloc).expect(rt, "memory");
        let command = words.first().copied().map(command_of);
        match (command, answer) {
            (Some(command), Some(answer)) => match answer.strip_prefix("refused ") {
                Some(refusal) => self.count(rt, command, refusal),
                None => {
                    self.count(rt, command, ACCEPTED);
                    self.add_accepted(rt, words.as_slice());
                }
            },
            (_, None) => self.count(rt, "no word", "nothing"),
            (None, Some(_)) => panic!(rt; "an answer to nothing"),
        }
    }

    /// Counts what the words of a line have, which is carried out.
    fn add_accepted(&mut self, rt: &impl Abort, words: &[&str]) {
        match words {
            ["struct", name, members @ ..] => self.add_structure(rt, name, members),
            ["new", ty, space, access, _] => {
                self.count(rt, space, access);
                self.add_cell(rt, ty);
            }
            _ => {}
        }
    }

    fn add_structure(&mut self, rt: &impl Abort, name: &str, members: &[&str]) {
        for member in members {
            let Some(attributes) = attributes_of(member) else {
                continue;
            };
            self.count(rt, "struct", attributes);
            if let Some(number) = structure_of(name) {
                let attributed = Attributed { number, attributes };
                self.attributed.push(attributed).expect(rt, "memory");
            }
        }
    }

    /// Counts a cell with a structure whose members have attributes.
    fn add_cell(&mut self, rt: &impl Abort, ty: &str) {
        let number = structure_of(ty);
        for attributes in ATTRIBUTES {
            let is_attributed = self.attributed.iter().any(|attributed| {
                Some(attributed.number) == number && attributed.attributes == attributes
            });
            if is_attributed {
                self.count(rt, "new", attributes);
            }
        }
    }

    /// Asserts that each is met often.
    pub(super) fn assert_met(&self, rt: &impl Abort) {
        let mut missing = String::new(self.alloc);
        for count in &self.counts {
            let Count { met, times } = *count;
            let [first, second] = met;
            if times < OFTEN {
                write!(missing, " {first} {second} {times},").expect(rt, "memory");
            }
        }
        assert!(rt; missing.is_empty(), "met less than {OFTEN} times:{missing}");
    }
}
