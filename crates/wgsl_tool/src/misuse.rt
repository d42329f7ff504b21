//! Why the words of a command ask for nothing that there is.

use std::fmt;

/// Why the words of a command ask for nothing that there is.
#[derive(Clone, Copy, Debug, PartialEq, Eq)]
pub(crate) enum Misuse<'a> {
    NoCommand,
    /// No command has this name.
    Command(&'a str),
    /// The command has no such flag.
    Flag(&'a str),
    /// A word belongs behind this flag.
    NoValue(&'a str),
    /// No stage has this name.
    Stage(&'a str),
    /// No dialect has this name.
    Dialect(&'a str),
    /// It is no `NAME=VALUE`.
    Define(&'a str),
    /// The value of this override is no integer and no truth value.
    Value(&'a str, &'a str),
    /// Another format is asked for already.
    SecondFormat(&'a str),
    SecondExpression,
    NoFile,
}

impl fmt::Display for Misuse<'_> {
    fn fmt<W: fmt::Write>(&self, f: &mut fmt::Formatter<W>) -> fmt::Result {
        match self {
            Misuse::NoCommand => f.write_str("a command is missing"),
            Misuse::Command(word) => write!(f, "no command is named `{word}`"),
            Misuse::Flag(word) => write!(f, "the command has no flag `{word}`"),
            Misuse::NoValue(flag) => write!(f, "a word is missing behind `{flag}`"),
            Misuse::Stage(word) => {
                write!(
                    f,
                    "no stage is named `{word}`: there are const, override and exec"
                )
            }
            Misuse::Dialect(word) => {
                write!(f, "no dialect is named `{word}`: there are wgsl and crate")
            }
            Misuse::Define(word) => {
                write!(f, "`{word}` is no value of an override: that is NAME=VALUE")
            }
            Misuse::Value(name, value) => {
                write!(
                    f,
                    "the value of `{name}={value}` is no integer, true or false"
                )
            }
            Misuse::SecondFormat(flag) => { write!(f, "`{flag}` asks for a second format") }
            Misuse::SecondExpression => f.write_str("a second expression is given"),
            Misuse::NoFile => f.write_str("a file is missing"),
        }
    }
}
