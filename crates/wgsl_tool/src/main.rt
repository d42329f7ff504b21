//! Tells how the types of a WGSL source lie in the memory that a shader shares with its host.
#![tactic(auto)]

mod arguments;
mod misuse;

use arguments::{Arguments, Asked, Command, arguments_of};
use misuse::Misuse;
use std::process::ExitCode;
use std::rt::{Env, Files};
use std::{env, fs, io};
use wgsl_report::{
    Define, End, Format, GivenValues, Report, VERSION, expression_value, is_expression, layouts_of,
    value_in_scope, values_given, values_of,
};

const USAGE: &str = "\
usage: wgsl_tool layout [FLAG ..] FILE .. [NAME ..]
       wgsl_tool eval [FLAG ..] FILE ..
       wgsl_tool eval [FLAG ..] [FILE ..] -e EXPRESSION

`layout` prints where the members of each structure of a WGSL source stand in memory, and how large the
buffers of its storage and uniform variables are. With names, prints these alone; for programs,
also the structures inside them. The source is standard input where FILE is `-`. Words behind the first
FILE are files where they have a `.` or a `/`, and else names.

  --bytes     draws rows of 16 bytes
  --json      the same as without a flag, for programs to read
  --rust      structures of the host in Rust, whose offsets its compiler checks
  --rust=bytemuck  the same with the traits Pod and Zeroable
  --c         structures of the host in C and C++, whose offsets its compiler checks

`eval` prints the type and the value of each constant, or of the expression, which may name what the
source declares, and checks the assertions of the module.

  --json      the same for programs to read

Of both:

  -D NAME=VALUE  the value of an override, by its name or by its number
  --stage STAGE  when the values are needed: `const` for the module, `override` for a pipeline, or `exec`
              while it runs
  --strict    what is warned of and what is left out is a fault
  --dialect DIALECT  `wgsl`, or `crate` for what the Rust crate has beyond it: matrices of integers, integers of
              64 bits, and bits of abstract integers

  --help      prints this
  --version   prints the version

Both warn of what the standard refuses and the library answers. The status is 0, or 1 for faults in
the source and for names that it does not have or that have no layout, 2 for wrong arguments, 3 for
what cannot be read or written and where memory is wanting.
";

fn main(rt: HostRuntime) -> ExitCode {
    let end = match run(&rt) {
        Ok(end) => end,
        Err(error) => {
            let _ = eprintln!(rt; "wgsl_tool: {error}");
            End::Io
        }
    };
    ExitCode::from(end.status())
}

fn run<R: AllocGlobal + Input + Print + Eprint + Files + Env>(rt: &R) -> io::Result<End> {
    let mut words = Vec::new(rt.alloc());
    for word in env::args(rt)?.skip(1) {
        words.push(word)?;
    }
    match arguments_of(rt.alloc(), words.as_slice())? {
        Asked::Nothing(misuse) => print_misuse(rt, misuse),
        Asked::Help => {
            print!(rt; "{USAGE}")?;
            Ok(End::Well)
        }
        Asked::Version => {
            println!(rt; "wgsl_tool {VERSION}")?;
            Ok(End::Well)
        }
        Asked::Sources(arguments) => {
            let end = print_asked(rt, &arguments);
            drop(arguments);
            end
        }
    }
}

fn print_asked<R: AllocGlobal + Input + Print + Eprint + Files>(
    rt: &R,
    arguments: &Arguments<'_>,
) -> io::Result<End> {
    let (defines, settings) = (arguments.defines.as_slice(), arguments.request.settings);
    match values_given(rt.alloc(), defines, settings)? {
        Ok(defined) => {
            let end = print_sources(rt, arguments, &defined);
            drop(defined);
            end
        }
        Err(Define { name, value }) => print_misuse(rt, Misuse::Value(name, value)),
    }
}

fn print_misuse<R: Eprint>(rt: &R, misuse: Misuse<'_>) -> io::Result<End> {
    eprint!(rt; "wgsl_tool: {misuse}\n\n{USAGE}")?;
    Ok(End::Usage)
}

// Prints what is asked for of each source in turn, and ends as the worst of them.
fn print_sources<R: AllocGlobal + Input + Print + Eprint + Files>(
    rt: &R,
    arguments: &Arguments<'_>,
    defined: &GivenValues<'_>,
) -> io::Result<End> {
    if let (true, Some(expression)) = (arguments.files.is_empty(), arguments.expression) {
        let value = expression_value(rt.alloc(), expression, &arguments.request)?;
        return print_report(rt, value);
    }
    let is_list = arguments.files.len() > 1 && arguments.request.format == Format::Json;
    if is_list {
        print!(rt; "[\n")?;
    }
    let mut end = End::Well;
    let mut printed = 0usize;
    for file in &arguments.files {
        match read(rt, file) {
            Ok(source) => {
                print_heading(rt, arguments, file, printed)?;
                printed = printed.saturating_add(1);
                end = end.or_worse(print_source(rt, file, source.as_str(), arguments, defined)?);
            }
            Err(error) => {
                eprintln!(rt; "wgsl_tool: {file}: {error}")?;
                end = End::Io;
            }
        }
    }
    if is_list {
        print!(rt; "]\n")?;
    }
    Ok(end)
}

// What stands before what is printed of one of several sources, behind so many others.
fn print_heading<R: Print>(
    rt: &R,
    arguments: &Arguments<'_>,
    file: &str,
    printed: usize,
) -> io::Result<()> {
    if arguments.files.len() < 2 {
        return Ok(());
    }
    let between = if printed == 0 { "" } else { "\n" };
    match arguments.request.format {
        Format::Json if printed == 0 => Ok(()),
        Format::Json => print!(rt; ",\n"),
        Format::Table | Format::Bytes => print!(rt; "{between}{file}:\n"),
        Format::Rust | Format::Bytemuck | Format::C => print!(rt; "{between}// {file}\n"),
    }
}

// What is asked for of one source. An expression is evaluated in its scope, where it is one.
fn print_source<R: AllocGlobal + Print + Eprint>(
    rt: &R,
    file: &str,
    text: &str,
    arguments: &Arguments<'_>,
    defined: &GivenValues<'_>,
) -> io::Result<End> {
    let alloc = rt.alloc();
    let request = &arguments.request;
    match (arguments.command, arguments.expression) {
        (Command::Layout, _) => {
            print_report(rt, layouts_of(alloc, file, text, request, defined)?)
        }
        (Command::Eval, None) => {
            print_report(rt, values_of(alloc, file, text, request, defined)?)
        }
        (Command::Eval, Some(expression)) => {
            if !is_expression(alloc, expression)? {
                return print_report(rt, expression_value(alloc, expression, request)?);
            }
            let (told, value) = value_in_scope(alloc, file, text, expression, request, defined)?;
            match print_report(rt, told) {
                Ok(end) => Ok(end.or_worse(print_report(rt, value)?)),
                Err(error) => {
                    drop(value);
                    Err(error)
                }
            }
        }
    }
}

fn print_report<R: Print + Eprint>(rt: &R, report: Report) -> io::Result<End> {
    let printed = print_texts(rt, &report);
    let end = report.end();
    drop(report);
    printed?;
    Ok(end)
}

fn print_texts<R: Print + Eprint>(rt: &R, report: &Report) -> io::Result<()> {
    print!(rt; "{}", report.output)?;
    eprint!(rt; "{}", report.errors)
}

fn read<R: AllocGlobal + Input + Files>(rt: &R, file: &str) -> io::Result<String> {
    if file == "-" {
        io::read_to_string(rt.alloc(), rt.reader())
    } else {
        fs::read_to_string(rt, file)
    }
}
