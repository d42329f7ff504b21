//! Scripts that seeds give, of every command, type word and attribute, refused ones too: they print what the same
//! calls on a session answer.

use crate::tests::coverage::Coverage;
use crate::tests::output_of;
use crate::tests::reading::{Reader, text};
use std::alloc::{AllocError, Global};
use std::fmt::Write;
use std::process::Abort;

/// Numbers that a seed gives, one after the other.
#[derive(Drop)]
struct Numbers {
    state: u64,
}

impl Numbers {
    fn next(&mut self) -> u64 {
        self.state = self
            .state
            .wrapping_mul(6364136223846793005)
            .wrapping_add(1442695040888963407);
        self.state >> 33
    }

    /// A number below the limit, which is not 0; 0 where it is.
    fn below(&mut self, limit: usize) -> usize {
        self.next().checked_rem(limit as u64).unwrap_or(0) as usize
    }

    /// One of the words.
    fn pick<'a>(&mut self, words: &[&'a str]) -> &'a str {
        words.get(self.below(words.len())).copied().unwrap_or("")
    }
}

const SCALARS: [&str; 4] = ["i32", "u32", "i64", "u64"];

const NAMES: [&str; 7] = ["a", "b", "c", "_d", "e9", "9e", "f-g"];

const ATTRIBUTES: [&str; 24] = [
    "",
    "",
    "",
    "",
    "",
    "",
    "",
    "",
    "@align(8)",
    "@align(16)",
    "@align(32)",
    "@align(64)",
    "@size(32)",
    "@size(64)",
    "@size(128)",
    "@align(8)@size(64)",
    "@align(32)@size(64)",
    "@size(128)@align(32)",
    "@align(3)",
    "@align(0)",
    "@size(1)",
    "@align(4)@align(8)",
    "@size(4)@align(4)@size(4)",
    "@size(4294967296)",
];

const COUNTS: [&str; 16] = [
    ",2",
    ",2",
    ",2",
    ",2",
    ",3",
    ",3",
    ",1",
    ",0000000002",
    "",
    "",
    "",
    ",0",
    ",4294967295",
    ",4294967296",
    ",x",
    ",",
];

const SPACES: [&str; 13] = [
    "function",
    "function",
    "private",
    "private",
    "workgroup",
    "workgroup",
    "uniform",
    "uniform",
    "storage",
    "storage",
    "handle",
    "handle",
    "Storage",
];

const ACCESSES: [&str; 12] = [
    "read_write",
    "read_write",
    "read_write",
    "read_write",
    "read_write",
    "read",
    "read",
    "read",
    "write",
    "write",
    "write",
    "readwrite",
];

/// What lines are made of: the numbers of a seed, and what the lines so far have made.
#[derive(Drop)]
struct Maker {
    alloc: Global,
    numbers: Numbers,
    reader: Reader,
    /// How many structures there are: they are called `S0`, `S1` and so on.
    structs: usize,
    /// The handles that were made with a value of one.
    wholes: Vec<usize>,
}

impl Maker {
    /// The number of a structure; one of eight is not there.
    fn structure_number(&mut self) -> usize {
        match self.numbers.below(8) {
            0 => self.structs,
            _ => self.numbers.below(self.structs),
        }
    }

    /// A word for a type that is no array.
    fn element(&mut self, rt: &impl Abort) -> String {
        let number = self.structure_number();
        let numbers = &mut self.numbers;
        let scalar = numbers.pick(&SCALARS);
        let columns = numbers.pick(&["2", "3", "4"]);
        let rows = numbers.pick(&["2", "3", "4"]);
        let word = match numbers.below(10) {
            0 | 1 if self.structs > 0 => format!(in self.alloc; "S{number}"),
            2 | 3 => format!(in self.alloc; "vec{columns}<{scalar}>"),
            4 | 5 => format!(in self.alloc; "mat{columns}x{rows}<{scalar}>"),
            6 => format!(in self.alloc; "atomic<{scalar}>"),
            _ => String::from_str(self.alloc, scalar),
        };
        word.expect(rt, "memory")
    }

    /// A word for a type.
    fn ty(&mut self, rt: &impl Abort) -> String {
        let arrays = match self.numbers.below(40) {
            0 => 17,
            1 | 2 | 3 | 4 => 2,
            5 | 6 | 7 | 8 | 9 | 10 | 11 | 12 => 1,
            _ => 0,
        };
        let mut word = self.element(rt);
        for _ in 0..arrays {
            let count = self.numbers.pick(&COUNTS);
            word = format!(in self.alloc; "array<{word}{count}>").expect(rt, "memory");
        }
        word
    }

    /// A line that defines a structure.
    fn structure(&mut self, rt: &impl Abort) -> String {
        let number = self.structs;
        let mut line = match self.numbers.below(20) {
            0 => text(rt, self.alloc, "struct u32"),
            1 => text(rt, self.alloc, "struct 9S"),
            2 => text(rt, self.alloc, "struct S0"),
            _ => format!(in self.alloc; "struct S{number}").expect(rt, "memory"),
        };
        let members = match self.numbers.below(12) {
            0 => 0,
            _ => self.numbers.below(3).wrapping_add(1),
        };
        for _ in 0..members {
            let attributes = self.numbers.pick(&ATTRIBUTES);
            let name = self.numbers.pick(&NAMES[..5]);
            let ty = self.ty(rt);
            write!(line, " {attributes}{name}:{ty}").expect(rt, "memory");
        }
        line
    }

    /// Notes what the line prints: whether there is one more structure, or a handle of one.
    fn note(&mut self, rt: &impl Abort, line: &str, answer: &str) {
        let mut words = line.split(' ').filter(|word| !word.is_empty());
        match (words.next(), words.next()) {
            (Some("struct"), _) if answer == "done" => {
                self.structs = self.structs.wrapping_add(1);
            }
            (Some("new"), Some(ty)) if ty.starts_with('S') && answer.starts_with('&') => {
                let made = self.reader.handles().saturating_sub(1);
                self.wholes.push(made).expect(rt, "memory");
            }
            _ => {}
        }
    }

    /// A line that names a member: three of four, if there is one, of a structure.
    fn member(&mut self, handle: usize) -> Result<String, AllocError> {
        let name = self.numbers.pick(&NAMES);
        let i = self.numbers.below(self.wholes.len());
        let handle = match self.wholes.get(i) {
            Some(whole) if self.numbers.below(4) > 0 => *whole,
            _ => handle,
        };
        format!(in self.alloc; "member &{handle} {name}")
    }

    /// Adds the digits of as many bytes, of a few more or of a few less.
    fn push_bytes(&mut self, rt: &impl Abort, line: &mut String, size: Option<u32>) {
        let size = size.unwrap_or(4).min(400) as usize;
        let len = match self.numbers.below(8) {
            0 => size.saturating_sub(1),
            1 => size.saturating_add(4),
            2 | 3 | 4 => size.saturating_add(32),
            _ => size,
        };
        line.push(' ').expect(rt, "memory");
        let is_upper = self.numbers.below(4) == 0;
        for _ in 0..len {
            let byte = self.numbers.below(256);
            if is_upper {
                write!(line, "{byte:02X}").expect(rt, "memory");
            } else {
                write!(line, "{byte:02x}").expect(rt, "memory");
            }
        }
    }

    /// A word for the type of a cell: two of five or more name a structure, and one of five or more is a runtime-sized
    /// array.
    fn cell_type(&mut self, rt: &impl Abort) -> String {
        match self.numbers.below(10) {
            0 | 1 | 2 | 3 if self.structs > 0 => {
                let number = self.structure_number();
                format!(in self.alloc; "S{number}").expect(rt, "memory")
            }
            4 | 5 => {
                let element = self.element(rt);
                format!(in self.alloc; "array<{element}>").expect(rt, "memory")
            }
            _ => self.ty(rt),
        }
    }

    /// A line that makes a cell.
    fn cell(&mut self, rt: &impl Abort) -> String {
        let ty = self.cell_type(rt);
        let space = self.numbers.pick(&SPACES);
        let access = self.numbers.pick(&ACCESSES);
        let size = self.reader.size_of(rt, ty.as_str());
        let mut line = format!(in self.alloc; "new {ty} {space} {access}").expect(rt, "memory");
        self.push_bytes(rt, &mut line, size);
        line
    }

    /// A line that writes.
    fn write(&mut self, rt: &impl Abort, handle: usize) -> String {
        let size = self.reader.size_at(handle);
        let mut line = format!(in self.alloc; "write &{handle}").expect(rt, "memory");
        self.push_bytes(rt, &mut line, size);
        line
    }

    /// A line of a script.
    fn line(&mut self, rt: &impl Abort) -> String {
        let alloc = self.alloc;
        // One handle more than there are: it is not there.
        let limit = self.reader.handles().wrapping_add(1);
        let from = self.numbers.below(limit);
        let to = self.numbers.below(limit);
        let i = self.numbers.below(4);
        let line = match self.numbers.below(24) {
            0 | 1 | 2 => Ok(self.structure(rt)),
            3 | 4 | 5 | 6 | 7 => Ok(self.cell(rt)),
            8 | 9 | 10 | 11 => self.member(from),
            12 | 13 | 14 => format!(in alloc; "index &{from} {i}"),
            15 | 16 => format!(in alloc; "read &{from}"),
            17 | 18 | 19 => Ok(self.write(rt, from)),
            20 => format!(in alloc; "copy &{from} &{to}"),
            21 => format!(in alloc; "copy &{from} &{from}"),
            _ => format!(in alloc; "dump &{from}"),
        };
        line.expect(rt, "memory")
    }

    /// A line as it is, or in another form, or broken.
    fn mangled(&mut self, rt: &impl Abort) -> String {
        let mut line = self.line(rt);
        match self.numbers.below(40) {
            0 => drop(line.pop()),
            1 => line.push_str(" x").expect(rt, "memory"),
            2 => line = format!(in self.alloc; "  {line}  ").expect(rt, "memory"),
            3 => line.push('\r').expect(rt, "memory"),
            4 => line.push_str("\r\r").expect(rt, "memory"),
            5 => line.push('\t').expect(rt, "memory"),
            6 => line.clear(),
            7 => line = text(rt, self.alloc, "   "),
            8 => line = line
                .as_str()
                .to_ascii_uppercase(self.alloc)
                .expect(rt, "memory"),
            9 => line = line.replace(self.alloc, " ", "  ").expect(rt, "memory"),
            10 => line = line.replace(self.alloc, "&", "").expect(rt, "memory"),
            _ => {}
        }
        line
    }
}

/// Asserts what the script of the seed prints, counts its lines, and adds them and what they print.
fn assert_script(
    rt: &impl Abort,
    alloc: Global,
    seed: u64,
    coverage: &mut Coverage,
    all: &mut String,
) {
    coverage.begin();
    let mut maker = Maker {
        alloc,
        numbers: Numbers { state: seed },
        reader: Reader::new(rt, alloc),
        structs: 0,
        wholes: Vec::new(alloc),
    };
    let mut script = String::new(alloc);
    let mut wanted = String::new(alloc);
    for _ in 0..LINES {
        let line = maker.mangled(rt);
        writeln!(script, "{line}").expect(rt, "memory");
        let answer = maker.reader.print(rt, line.as_str());
        let printed = answer.as_ref().map(String::as_str);
        coverage.add(rt, line.as_str(), printed);
        if let Some(answer) = answer {
            maker.note(rt, line.as_str(), answer.as_str());
            writeln!(wanted, "{answer}").expect(rt, "memory");
        }
    }
    drop(maker);
    let output = output_of(alloc, script.as_bytes()).expect(rt, "a run to its end");
    assert_eq!(rt; output.as_slice(), wanted.as_bytes(), "seed {seed}");
    all.push_str(script.as_str()).expect(rt, "memory");
    all.push_str(wanted.as_str()).expect(rt, "memory");
}

const SCRIPTS: u64 = 200;

const LINES: usize = 50;

#[test]
fn scripts_of_seeds_print_what_their_calls_answer(rt: HostRuntime) {
    let mut all = String::new(rt.alloc());
    let mut coverage = Coverage::new(&rt, rt.alloc());
    for seed in 0..SCRIPTS {
        assert_script(&rt, rt.alloc(), seed, &mut coverage, &mut all);
    }
    coverage.assert_met(&rt);
    drop(coverage);
    let reader = Reader::new(&rt, rt.alloc());
    assert!(rt; reader.are_in(all.as_str()));
    drop(reader);
}
