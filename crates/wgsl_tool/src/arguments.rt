//! What the words of a command ask for.

ghost use Rattle.std.specs.Prelude.{◌≡◌, ◌≢◌, IfSome, IsNone, Some};
ghost use Rattle.wgsl_rules.specs.declared.syntax.ShaderStage.{ShaderStage};
ghost use Rattle.wgsl_functions.specs.declared.parameters.Dialect.{Dialect};
ghost use Rattle.wgsl_tool.specs.Flags.{flag_of};
ghost use Rattle.wgsl_tool.specs.Stages.{dialect_word, stage_word};
ghost use Rattle.wgsl_report.specs.declared.format.Format.{Format};

use crate::misuse::Misuse;
use std::alloc::{AllocError, Global};
use wgsl_eval::{Dialect, Settings};
use wgsl_report::{Define, Format, Request, define_of};
use wgsl_rules::ShaderStage;

/// What is asked of sources.
#[derive(Clone, Copy, Debug, PartialEq, Eq)]
pub(crate) enum Command {
    Layout,
    Eval,
}

/// What is asked for, and of which sources.
#[derive(Drop)]
pub(crate) struct Arguments<'a> {
    pub(crate) command: Command,
    pub(crate) files: Vec<&'a str>,
    /// An expression, which is evaluated in the scope of each source, or by itself where there is none.
    pub(crate) expression: Option<&'a str>,
    /// Of which names, where none are all, and how.
    pub(crate) request: Request<'a>,
    /// What overrides are given, in the order of the words.
    pub(crate) defines: Vec<Define<'a>>,
}

/// What the words behind the program's name ask for.
#[derive(Drop)]
pub(crate) enum Asked<'a> {
    Help,
    Version,
    Sources(Arguments<'a>),
    /// Nothing that there is.
    Nothing(Misuse<'a>),
}

/// A flag that a word stands behind.
#[derive(Clone, Copy, PartialEq, Eq)]
enum Valued {
    Stage,
    Expression,
    Dialect,
    Define,
}

/// What the words ask for so far.
#[derive(Drop)]
struct Words<'a> {
    arguments: Arguments<'a>,
    has_format: bool,
    /// The flag that the next word stands behind.
    open: Option<(Valued, &'a str)>,
    asks_help: bool,
}

/// What the words behind the program's name ask for. Flags stand anywhere behind the command.
///
/// The only error is that memory is wanting.
pub(crate) fn arguments_of(alloc: Global, words: &[String]) -> Result<Asked<'_>, AllocError> {
    let Some((first, rest)) = words.split_first() else {
        return Ok(Asked::Nothing(Misuse::NoCommand));
    };
    match first.as_str() {
        "--help" | "-h" => Ok(Asked::Help),
        "--version" | "-V" => Ok(Asked::Version),
        "layout" => asked_of(alloc, Command::Layout, rest),
        "eval" => asked_of(alloc, Command::Eval, rest),
        other => Ok(Asked::Nothing(Misuse::Command(other))),
    }
}

fn asked_of<'a>(
    alloc: Global,
    command: Command,
    words: &'a [String],
) -> Result<Asked<'a>, AllocError> {
    let mut asked = Words::new(alloc, command);
    for word in words {
        if let Some(misuse) = asked.take(word.as_str())? {
            return Ok(Asked::Nothing(misuse));
        }
    }
    Ok(asked.finish())
}

impl<'a> Words<'a> {
    fn new(alloc: Global, command: Command) -> Words<'a> {
        Words {
            arguments: Arguments {
                command,
                files: Vec::new(alloc),
                expression: None,
                request: Request {
                    format: Format::Table,
                    settings: Settings {
                        stage: ShaderStage::Const,
                        is_strict: false,
                        dialect: Dialect::Wgsl,
                    },
                    names: Vec::new(alloc),
                },
                defines: Vec::new(alloc),
            },
            has_format: false,
            open: None,
            asks_help: false,
        }
    }

    // Takes a word, and answers why it belongs nowhere.
    fn take(&mut self, word: &'a str) -> Result<Option<Misuse<'a>>, AllocError> {
        match self.open.take() {
            Some((valued, _)) => self.set_value(valued, word),
            None if is_flag(word) => self.take_flag(word),
            None => {
                self.take_name(word)?;
                Ok(None)
            }
        }
    }

    fn take_flag(&mut self, word: &'a str) -> Result<Option<Misuse<'a>>, AllocError> {
        if word == "--help" || word == "-h" {
            self.asks_help = true;
            return Ok(None);
        }
        if word == "--strict" {
            self.arguments.request.settings.is_strict = true;
            return Ok(None);
        }
        if let Some(format) = format_of(word) {
            return Ok(self.set_format(format, word));
        }
        if let Some(valued) = self.valued(word) {
            self.open = Some((valued, word));
            return Ok(None);
        }
        self.take_joined(word)
    }

    // A flag with its value behind `=`, and `-D` with it right behind.
    fn take_joined(&mut self, word: &'a str) -> Result<Option<Misuse<'a>>, AllocError> {
        if let Some(define) = word.strip_prefix("-D") {
            return self.set_value(Valued::Define, define);
        }
        let Some((flag, value)) = word.split_once('=') else {
            return Ok(Some(Misuse::Flag(word)));
        };
        match self.valued(flag) {
            Some(valued) => self.set_value(valued, value),
            None => Ok(Some(Misuse::Flag(word))),
        }
    }

    fn valued(&self, flag: &str) -> Option<Valued> {
        match (self.arguments.command, flag) {
            (_, "--stage") => Some(Valued::Stage),
            (Command::Eval, "-e") => Some(Valued::Expression),
            (_, "--dialect") => Some(Valued::Dialect),
            (_, "-D") => Some(Valued::Define),
            (_, _) => None,
        }
    }

    fn set_value(
        &mut self,
        valued: Valued,
        value: &'a str,
    ) -> Result<Option<Misuse<'a>>, AllocError> {
        match valued {
            Valued::Stage => match stage_of(value) {
                Some(stage) => self.arguments.request.settings.stage = stage,
                None => return Ok(Some(Misuse::Stage(value))),
            },
            Valued::Dialect => match dialect_of(value) {
                Some(dialect) => self.arguments.request.settings.dialect = dialect,
                None => return Ok(Some(Misuse::Dialect(value))),
            },
            Valued::Define => match define_of(value) {
                Some(define) => self.arguments.defines.push(define)?,
                None => return Ok(Some(Misuse::Define(value))),
            },
            Valued::Expression => {
                if self.arguments.expression.is_some() {
                    return Ok(Some(Misuse::SecondExpression));
                }
                self.arguments.expression = Some(value);
            }
        }
        Ok(None)
    }

    // One format alone, and of values as a table or as JSON.
    fn set_format(&mut self, format: Format, word: &'a str) -> Option<Misuse<'a>> {
        if self.arguments.command == Command::Eval && format != Format::Json {
            return Some(Misuse::Flag(word));
        }
        if self.has_format && self.arguments.request.format != format {
            return Some(Misuse::SecondFormat(word));
        }
        self.has_format = true;
        self.arguments.request.format = format;
        None
    }

    // A name of a declaration, or a file: the first word is one, and each that no declaration is named.
    fn take_name(&mut self, word: &'a str) -> Result<(), AllocError> {
        let is_name = self.arguments.command == Command::Layout
            && !self.arguments.files.is_empty()
            && !is_file(word);
        if is_name {
            self.arguments.request.names.push(word)?;
        } else {
            self.arguments.files.push(word)?;
        }
        Ok(())
    }

    // What is asked for, where no word is missing.
    fn finish(self) -> Asked<'a> {
        if self.asks_help {
            return Asked::Help;
        }
        if let Some((_, flag)) = self.open {
            return Asked::Nothing(Misuse::NoValue(flag));
        }
        if self.arguments.files.is_empty() && self.arguments.expression.is_none() {
            return Asked::Nothing(Misuse::NoFile);
        }
        Asked::Sources(self.arguments)
    }
}

// A word that begins so is neither a file nor a name; `-` alone is standard input.
fn is_flag(word: &str) -> bool {
    word.starts_with('-') && word != "-"
}

// Whether a word is a file and no name: names have neither.
fn is_file(word: &str) -> bool {
    word == "-" || word.contains(['.', '/'])
}

// The format that a flag asks for.
fn format_of(word: &str) -> Option<Format>
    ensures some { IfSome result (λ format. flag_of format ≡ Some word.now) }
    ensures none { IsNone result → (format : Format) → flag_of format ≢ Some word.now }
{
    match word {
        "--bytes" => Some(Format::Bytes),
        "--json" => Some(Format::Json),
        "--rust" => Some(Format::Rust),
        "--rust=bytemuck" => Some(Format::Bytemuck),
        "--c" => Some(Format::C),
        _ => None,
    }
}

// The stage of the word.
fn stage_of(word: &str) -> Option<ShaderStage>
    ensures some { IfSome result (λ stage. stage_word stage ≡ word.now) }
    ensures none { IsNone result → (stage : ShaderStage) → stage_word stage ≢ word.now }
{
    match word {
        "const" => Some(ShaderStage::Const),
        "override" => Some(ShaderStage::Override),
        "exec" => Some(ShaderStage::Exec),
        _ => None,
    }
}

// The dialect of the word.
fn dialect_of(word: &str) -> Option<Dialect>
    ensures some { IfSome result (λ dialect. dialect_word dialect ≡ word.now) }
    ensures none { IsNone result → (dialect : Dialect) → dialect_word dialect ≢ word.now }
{
    match word {
        "wgsl" => Some(Dialect::Wgsl),
        "crate" => Some(Dialect::Crate),
        _ => None,
    }
}
