//! Places in a source, as a person counts them.

ghost use Rattle.std.specs.Prelude.{◌≡◌, ◌≤◌, ℕ, List, IfOk, length, All, ◌≢◌};
ghost use Rattle.wgsl_source.specs.Places.{line_starts};

use std::alloc::{AllocError, Global};
use std::marker::Model;

/// A place in a source: its line, and its column in that line in characters, both from 1.
#[derive(Clone, Copy, Debug, PartialEq, Eq)]
pub struct Place {
    pub line: usize,
    pub column: usize,
}

/// Where the lines of a source begin, in bytes.
#[derive(Debug, Drop)]
pub struct Lines {
    starts: Vec<usize>,
}

// Where they begin.
impl Model for Lines {
    ghost Value = { List ℕ };

    ghost view = { λ lines. lines.starts.items };
}

/// They are equal that begin at the same bytes.
impl PartialEq for Lines {
    ghost use Rattle.std.specs.Cmp.{partial_equiv_from_equiv};
    ghost use Rattle.std.specs.Cmp.Lexicographic.{nat_list_eq_equiv, pointwise};
    ghost use Rattle.std.specs.Prelude.{nat_eq};

    ghost eq = { pointwise nat_eq };

    ghost laws = { partial_equiv_from_equiv nat_list_eq_equiv };

    fn eq(&self, other: &Lines) -> bool {
        self.starts == other.starts
    }
}

impl Eq for Lines {
    ghost use Rattle.std.specs.Cmp.Lexicographic.{nat_list_eq_equiv};

    ghost laws = { nat_list_eq_equiv };
}

impl Lines {
    /// The lines of the text: each ends with LF, or where the text does.
    pub fn new(alloc: Global, text: &str) -> Result<Self, AllocError>
        ensures { IfOk result (λ lines. lines ≡ line_starts text.now) }
    {
        let mut starts = vec![in alloc; 0]?;
        for (at, byte) in text.as_bytes().iter().enumerate() {
            if *byte == b'\n' {
                starts.push(at.saturating_add(1))?;
            }
        }
        Ok(Lines { starts })
    }

    /// The place of a byte of the text, which is the text that the lines were made of.
    pub fn place(&self, text: &str, at: usize) -> Place
        ensures line { result.line ≤ length self.now }
        ensures column { 1 ≤ result.column }
    {
        let line = self.line_at(at);
        let before = text.get(self.start(line)..at).unwrap_or("");
        Place {
            line,
            column: before.chars().count().saturating_add(1),
        }
    }

    /// The text of a line, from 1, without its end.
    pub fn line<'a>(&self, text: &'a str, line: usize) -> &'a str
        ensures { All (λ byte. byte ≢ 10) result.now }
    {
        let whole = text.get(self.start(line)..).unwrap_or("");
        match whole.split_once('\n') {
            Some((line, _)) => line.strip_suffix('\r').unwrap_or(line),
            None => whole,
        }
    }

    // The line of the byte, from 1.
    fn line_at(&self, at: usize) -> usize
        ensures { result ≤ length self.now }
    {
        self.starts.partition_point(|start| *start <= at)
    }

    fn start(&self, line: usize) -> usize {
        self.starts
            .get(line.saturating_sub(1))
            .copied()
            .unwrap_or(usize::MAX)
    }
}
