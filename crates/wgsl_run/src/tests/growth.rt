//! Runs in which memory may be refused at any growth: they accept either answer, and check what must
//! be so after each.

use crate::tests::{assert_same, assert_that, output_of};
use std::alloc::{AllocError, Global};
use std::io::Write;
use std::process::Abort;
use std::rt::Env;
use std::{io, str};
use wgsl_script::{RunFault, run_script};

const REFUSED: &[u8] = b"refused Memory";

/// The lines that a script prints, and how its run ends.
#[derive(Drop)]
struct Run {
    lines: Vec<Vec<u8>>,
    outcome: Result<(), RunFault>,
}

/// Runs the script. The lines are copied to their own list, so that a refused growth there ends the test early, and not
/// wrongly.
fn run_of(alloc: Global, script: &[u8]) -> Result<Run, AllocError> {
    let mut reader = script;
    let mut output = Vec::with_capacity(alloc, 4096)?;
    let outcome = run_script(alloc, &mut reader, &mut output);
    let mut lines = Vec::new(alloc);
    for line in output.split(|byte| *byte == b'\n') {
        lines.push(Vec::from_slice(alloc, line)?)?;
    }
    let _end = lines.pop();
    Ok(Run { lines, outcome })
}

fn is_line(lines: &Vec<Vec<u8>>, i: usize, wanted: &[u8]) -> bool {
    lines.get(i).is_some_and(|line| line.as_slice() == wanted)
}

/// Whether the line is the wanted one, or is not there or refused for want of memory.
fn is_or_refused(lines: &Vec<Vec<u8>>, i: usize, wanted: &[u8]) -> bool {
    i >= lines.len() || is_line(lines, i, wanted) || is_line(lines, i, REFUSED)
}

/// Whether the lines are the wanted ones.
fn are_lines(lines: &Vec<Vec<u8>>, wanted: &[&[u8]]) -> bool {
    lines.len() == wanted.len()
        && lines
            .iter()
            .zip(wanted)
            .all(|(line, wanted)| line.as_slice() == *wanted)
}

/// Whether the run ended for want of memory.
fn wanted_memory(run: &Run) -> bool {
    matches!(run.outcome, Err(RunFault::Memory))
}

/// Asserts that a run of the script ended well, or for want of memory. One growth alone is refused: where a line differed
/// or the run ended early, the script runs again, and prints each line whole.
fn assert_whole_in_the_end(
    rt: &impl Abort,
    alloc: Global,
    script: &[u8],
    run: Run,
    wanted: &[&[u8]],
) {
    let is_well = run.outcome.is_ok();
    assert_that(rt, is_well || wanted_memory(&run));
    if !is_well || !are_lines(&run.lines, wanted) {
        let again = run_of(alloc, script).expect(rt, "memory");
        assert_that(rt, are_lines(&again.lines, wanted));
        assert_that(rt, again.outcome.is_ok());
        drop(again);
    }
    drop(run);
}

#[test]
fn the_first_line_that_differs_is_refused_for_memory(rt: HostRuntime) {
    let script = b"struct S a:u32 b:vec3<u32>
struct T a:S b:vec2<u32>
new T storage read_write 010000000000000000000000000000000200000003000000040000000000000005000000060000000000000000000000
member &0 a
member &1 b
index &2 2
write &3 09000000
read &0
write &0 00
member &0 c
";
    let wanted: [&[u8]; 10] = [
        b"done",
        b"done",
        b"&0",
        b"&1",
        b"&2",
        b"&3",
        b"done",
        b"T(S(1u, vec3(2u, 3u, 9u)), vec2(5u, 6u))",
        b"refused NoValue",
        b"refused Component",
    ];
    let Ok(run) = run_of(rt.alloc(), script) else {
        return;
    };
    let first = (0..10).find(|i| !is_line(&run.lines, *i, wanted[*i]));
    match first {
        None => assert_that(&rt, run.outcome.is_ok()),
        Some(i) if i < run.lines.len() => assert_that(&rt, is_line(&run.lines, i, REFUSED)),
        Some(_) => assert_that(&rt, wanted_memory(&run)),
    }
    assert_whole_in_the_end(&rt, rt.alloc(), script, run, &wanted);
}

#[test]
fn a_write_that_is_refused_memory_changes_nothing(rt: HostRuntime) {
    let script = b"new vec2<u32> storage read_write 0100000002000000
write &0 0300000004000000
read &0
";
    let Ok(run) = run_of(rt.alloc(), script) else {
        return;
    };
    if is_line(&run.lines, 0, b"&0") {
        let held: &[u8] = if is_line(&run.lines, 1, b"done") {
            b"vec2(3u, 4u)"
        } else {
            b"vec2(1u, 2u)"
        };
        assert_that(&rt, is_or_refused(&run.lines, 1, b"done"));
        assert_that(&rt, is_or_refused(&run.lines, 2, held));
    }
    let wanted: [&[u8]; 3] = [b"&0", b"done", b"vec2(3u, 4u)"];
    assert_whole_in_the_end(&rt, rt.alloc(), script, run, &wanted);
}

#[test]
fn a_handle_that_is_refused_memory_takes_no_number(rt: HostRuntime) {
    let script = b"new u32 storage read 01000000
new u32 storage read 02000000
read &0
";
    let Ok(run) = run_of(rt.alloc(), script) else {
        return;
    };
    let is_made = is_line(&run.lines, 0, b"&0");
    assert_that(&rt, is_or_refused(&run.lines, 0, b"&0"));
    assert_that(
        &rt,
        is_or_refused(&run.lines, 1, if is_made { b"&1" } else { b"&0" }),
    );
    if is_made {
        assert_that(&rt, is_or_refused(&run.lines, 2, b"1u"));
    }
    let wanted: [&[u8]; 3] = [b"&0", b"&1", b"1u"];
    assert_whole_in_the_end(&rt, rt.alloc(), script, run, &wanted);
}

#[test]
fn cells_of_one_structure_want_memory_or_are_made(rt: HostRuntime) {
    let script = b"struct S a:u32
new S storage read 01000000
new S storage read 02000000
new S storage read 03000000
read &2
";
    let Ok(run) = run_of(rt.alloc(), script) else {
        return;
    };
    if is_line(&run.lines, 3, b"&2") {
        assert_that(&rt, is_or_refused(&run.lines, 4, b"S(3u)"));
    }
    let wanted: [&[u8]; 5] = [b"done", b"&0", b"&1", b"&2", b"S(3u)"];
    assert_whole_in_the_end(&rt, rt.alloc(), script, run, &wanted);
}

#[test]
fn an_element_of_wide_vectors_is_read_or_refused_memory(rt: HostRuntime) {
    let script =
        b"new array<vec3<i64>> storage read_write 01000000000000000200000000000000030000000000000000000000000000000400000000000000050000000000000006000000000000000000000000000000
index &0 1
read &1
";
    let Ok(run) = run_of(rt.alloc(), script) else {
        return;
    };
    assert_that(&rt, is_or_refused(&run.lines, 0, b"&0"));
    if is_line(&run.lines, 0, b"&0") {
        assert_that(&rt, is_or_refused(&run.lines, 1, b"&1"));
    }
    if is_line(&run.lines, 1, b"&1") {
        assert_that(&rt, is_or_refused(&run.lines, 2, b"vec3(4li, 5li, 6li)"));
    }
    let wanted: [&[u8]; 3] = [b"&0", b"&1", b"vec3(4li, 5li, 6li)"];
    assert_whole_in_the_end(&rt, rt.alloc(), script, run, &wanted);
}

/// Lines, what each prints, and how many growths of memory it asks for outside of the calls of a session and of those to
/// and from bytes, before it makes these. The words of a line are one list, which grows a second time for a fifth word;
/// the bytes of a word are another, and a name is a third. All that a refused line asks for may be outside. Where it is
/// not said, the line prints more than those before it, and so asks for memory behind the calls too.
const LINES: [(&str, &str, Option<usize>); 16] = [
    ("struct S a:u32 b:vec3<u32>", "done", Some(usize::MAX)),
    (
        "new S storage read_write 0100000000000000000000000000000002000000030000000400000000000000",
        "&0",
        None,
    ),
    ("read &0", "S(1u, vec3(2u, 3u, 4u))", None),
    (
        "dump &0",
        "0100000000000000000000000000000002000000030000000400000000000000",
        None,
    ),
    ("member &0 b", "&1", Some(2)),
    ("index &1 2", "&2", Some(1)),
    ("read &0", "S(1u, vec3(2u, 3u, 4u))", Some(1)),
    ("write &1 070000000800000009000000", "done", Some(2)),
    ("copy &2 &2", "done", Some(1)),
    (
        "dump &0",
        "0100000000000000000000000000000007000000080000000900000000000000",
        Some(1),
    ),
    ("new u32 storage read 05000000", "&3", Some(3)),
    ("index &0 0", "refused NotIndexable", Some(1)),
    ("member &0 c", "refused Component", Some(2)),
    ("member &9 b", "refused NoHandle", Some(usize::MAX)),
    (
        "new u32 storage read 0",
        "refused BadLine",
        Some(usize::MAX),
    ),
    ("struct S a:u32", "refused BadLine", Some(usize::MAX)),
];

/// The number that the tool which refuses growths has under the name; none where there is no such tool.
fn number_of(rt: &impl Env, name: &str) -> Option<usize> {
    let mut digits = [0u8; 32];
    let count = rt.var(name, &mut digits).ok()?;
    str::from_utf8(digits.get(..count)?).ok()?.parse().ok()
}

/// Takes lines, and notes how many growths of memory were asked for as each comes.
#[derive(Drop)]
struct Noting<'a, R: Env> {
    rt: &'a R,
    taken: Vec<u8>,
    lines: usize,
    asked: [usize; 16],
}

impl<R: Env> Write for Noting<'_, R> {
    fn write(&mut self, buf: &[u8]) -> io::Result<usize> {
        if let Some(asked) = self.asked.get_mut(self.lines) {
            *asked = number_of(self.rt, "REFUSE_ASKED").unwrap_or(0);
        }
        self.lines = self.lines.saturating_add(1);
        self.taken.extend_from_slice(buf)?;
        Ok(buf.len())
    }

    fn flush(&mut self) -> io::Result<()> {
        Ok(())
    }
}

/// The script of the lines, and a list for what they print.
fn script(alloc: Global) -> Result<(String, Vec<u8>), AllocError> {
    let mut script = String::new(alloc);
    for (line, _, _) in LINES {
        script.push_str(line)?;
        script.push('\n')?;
    }
    Ok((script, Vec::with_capacity(alloc, 4096)?))
}

/// The number of the first line that is not printed as wanted; none where all are.
fn first_other(taken: &[u8]) -> Option<usize> {
    taken
        .split(|byte| *byte == b'\n')
        .zip(LINES)
        .position(|(printed, (_, wanted, _))| printed != wanted.as_bytes())
}

#[test]
fn want_of_memory_within_a_call_is_told_and_other_want_ends_the_run(rt: HostRuntime) {
    let alloc = rt.alloc();
    let Ok((script, taken)) = script(alloc) else {
        return;
    };
    let mut noting = Noting {
        rt: &rt,
        taken,
        lines: 0,
        asked: [0; 16],
    };
    let mut reader = script.as_bytes();
    let outcome = run_script(alloc, &mut reader, &mut noting);
    let Some(line) = first_other(&noting.taken) else {
        assert_same(&rt, outcome, Ok(()));
        return;
    };
    let ends = noting.lines == line;
    let wanted = if ends { Err(RunFault::Memory) } else { Ok(()) };
    assert_same(&rt, outcome, wanted);
    let printed = noting.taken.split(|byte| *byte == b'\n').nth(line);
    assert_that(&rt, ends || printed == Some(REFUSED));
    // One growth alone is refused, so the script runs whole again.
    let again = output_of(alloc, script.as_bytes()).expect(&rt, "memory");
    assert_that(&rt, first_other(&again).is_none());
    let before = line.checked_sub(1).and_then(|last| noting.asked.get(last));
    let outside = LINES.get(line).and_then(|row| row.2);
    if let (Some(outside), Some(refused)) = (outside, number_of(&rt, "REFUSE_GROWTH")) {
        // the place of the growth among those of the line, from 1
        let place = refused.saturating_sub(*before.unwrap_or(&0));
        assert_eq!(rt; ends, place <= outside, "growth {place} of line {line}");
    }
}
