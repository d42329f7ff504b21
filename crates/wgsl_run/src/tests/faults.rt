use crate::output::Buffered;
use crate::run_buffered;
use crate::tests::{assert_prints, assert_same, assert_that};
use std::alloc::Global;
use std::io;
use std::io::{Read, Write};
use std::process::Abort;
use wgsl_script::{RunFault, run_script};

/// Gives one byte a call. It fails in one call, behind so many others, and gives bytes again in those after it.
#[derive(Drop)]
struct Flaky {
    bytes: &'static [u8],
    before: usize,
    kind: io::ErrorKind,
}

impl Read for Flaky {
    fn read(&mut self, buf: &mut [u8]) -> io::Result<usize> {
        let fails = self.before == 0;
        self.before = self.before.wrapping_sub(1);
        if fails {
            return Err(self.kind.into());
        }
        if self.bytes.is_empty() || buf.is_empty() {
            return Ok(0);
        }
        buf[0] = self.bytes[0];
        self.bytes = &self.bytes[1..];
        Ok(1)
    }
}

/// How a writer fails.
#[derive(Clone, Copy, Debug, PartialEq, Eq)]
enum Failure {
    Broken,
    Interrupted,
    TakesNothing,
}

/// Takes at most `most` bytes a call. It fails in one call, behind so many others, and takes bytes again in those
/// after it.
#[derive(Drop)]
struct Choppy {
    taken: Vec<u8>,
    most: usize,
    before: usize,
    failure: Failure,
}

impl Write for Choppy {
    fn write(&mut self, buf: &[u8]) -> io::Result<usize> {
        let fails = self.before == 0;
        self.before = self.before.wrapping_sub(1);
        if fails {
            return match self.failure {
                Failure::Broken => Err(io::ErrorKind::BrokenPipe.into()),
                Failure::Interrupted => Err(io::ErrorKind::Interrupted.into()),
                Failure::TakesNothing => Ok(0),
            };
        }
        let most = buf.len().min(self.most);
        self.taken.extend_from_slice(&buf[..most])?;
        Ok(most)
    }

    fn flush(&mut self) -> io::Result<()> {
        Ok(())
    }
}

/// Gives bytes for ever.
#[derive(Drop)]
struct Endless;

impl Read for Endless {
    fn read(&mut self, buf: &mut [u8]) -> io::Result<usize> {
        for byte in buf.iter_mut() {
            *byte = b'\n';
        }
        Ok(buf.len())
    }
}

const SCRIPT: &[u8] = b"new u32 storage read_write 07000000
read &0\r

write &0 09000000
read  &0 \nread &5
nonsense
dump &0";

const WANTED: &[u8] = b"&0
7u
done
9u
refused NoHandle
refused BadLine
09000000
";

/// Asserts how the run ends, behind so many reads or writes.
fn assert_ends(
    rt: &impl Abort,
    outcome: Result<(), RunFault>,
    wanted: Result<(), RunFault>,
    before: usize,
) {
    assert_eq!(rt; outcome, wanted, "after {before} calls");
    drop((outcome, wanted));
}

/// Asserts that what is wanted begins with what was written, behind so many writes.
fn assert_begins(rt: &impl Abort, taken: &[u8], before: usize) {
    assert!(rt; WANTED.starts_with(taken), "after {before} writes");
}

#[test]
fn the_script_prints_what_is_wanted(rt: HostRuntime) {
    assert_prints(&rt, rt.alloc(), SCRIPT, WANTED);
}

#[test]
fn a_script_that_comes_byte_by_byte_is_run(rt: HostRuntime) {
    let mut reader = Flaky {
        bytes: SCRIPT,
        before: usize::MAX,
        kind: io::ErrorKind::Other,
    };
    let mut output = Vec::new(rt.alloc());
    let outcome = run_script(rt.alloc(), &mut reader, &mut output);
    assert_same(&rt, outcome, Ok(()));
    assert_same(&rt, output.as_slice(), WANTED);
    drop(output);
}

#[test]
fn a_read_that_fails_at_any_call_runs_nothing(rt: HostRuntime) {
    for kind in [io::ErrorKind::Interrupted, io::ErrorKind::BrokenPipe] {
        // Each byte takes a call, and the end of the script one more.
        for before in 0..SCRIPT.len() + 2 {
            let mut reader = Flaky {
                bytes: SCRIPT,
                before,
                kind,
            };
            let mut output = Vec::new(rt.alloc());
            let outcome = run_script(rt.alloc(), &mut reader, &mut output);
            let (wanted, printed) = if before <= SCRIPT.len() {
                (Err(RunFault::Read), &[] as &[u8])
            } else {
                (Ok(()), WANTED)
            };
            assert_ends(&rt, outcome, wanted, before);
            assert_same(&rt, output.as_slice(), printed);
            drop(output);
        }
    }
}

/// A writer of at most so many bytes a call that fails in this way behind so many calls.
fn failing(alloc: Global, most: usize, before: usize, failure: Failure) -> Choppy {
    let taken = Vec::new(alloc);
    Choppy {
        taken,
        most,
        before,
        failure,
    }
}

const FAILURES: [Failure; 3] = [Failure::Broken, Failure::Interrupted, Failure::TakesNothing];

/// How a run ends of whose writes the one behind so many others fails, if it comes to that one.
fn outcome_of(before: usize, writes: usize) -> Result<(), RunFault> {
    if before < writes {
        Err(RunFault::Write)
    } else {
        Ok(())
    }
}

#[test]
fn a_write_that_fails_at_any_call_ends_the_run(rt: HostRuntime) {
    for failure in FAILURES {
        // Each byte takes a call.
        for before in 0..WANTED.len() + 1 {
            let mut script = SCRIPT;
            let mut writer = failing(rt.alloc(), 1, before, failure);
            let outcome = run_script(rt.alloc(), &mut script, &mut writer);
            let wanted = outcome_of(before, WANTED.len());
            assert_ends(&rt, outcome, wanted, before);
            assert_begins(&rt, writer.taken.as_slice(), before);
            assert_same(&rt, writer.taken.len(), before);
            drop(writer);
        }
    }
}

#[test]
fn a_line_is_written_at_once_where_it_is_taken(rt: HostRuntime) {
    // Seven lines, and so seven writes.
    for failure in FAILURES {
        for before in 0..8 {
            let mut script = SCRIPT;
            let mut writer = failing(rt.alloc(), usize::MAX, before, failure);
            let outcome = run_script(rt.alloc(), &mut script, &mut writer);
            let lines = writer.taken.iter().filter(|byte| **byte == b'\n').count();
            assert_same(&rt, lines, before.min(7));
            assert_ends(&rt, outcome, outcome_of(before, 7), before);
            drop(writer);
        }
    }
}

/// Asserts how a run ends whose output waits in a buffer of this capacity, and that what was written is the start of
/// what is wanted.
fn assert_buffered(
    rt: &impl Abort,
    alloc: Global,
    capacity: usize,
    before: usize,
    failure: Failure,
) {
    let mut script = SCRIPT;
    let writer = failing(alloc, 3, before, failure);
    let mut output = Buffered::new(alloc, capacity, writer).expect(rt, "memory");
    let outcome = run_buffered(alloc, &mut script, &mut output);
    let taken = output.writer.taken.as_slice();
    assert_begins(rt, taken, before);
    // No write comes behind the one that failed.
    let wanted = if taken.len() < WANTED.len() {
        assert_same(rt, output.writer.before, usize::MAX);
        Err(RunFault::Write)
    } else {
        Ok(())
    };
    assert_ends(rt, outcome, wanted, before);
    drop(output);
}

#[test]
fn a_write_of_the_program_that_fails_at_any_call_ends_the_run(rt: HostRuntime) {
    for failure in FAILURES {
        for capacity in [0, 1, 8, 20, 8192] {
            for before in 0..WANTED.len() + 1 {
                assert_buffered(&rt, rt.alloc(), capacity, before, failure);
            }
        }
    }
}

#[test]
fn an_endless_input_is_too_long(rt: HostRuntime) {
    let mut output = Vec::new(rt.alloc());
    let outcome = run_script(rt.alloc(), &mut Endless, &mut output);
    assert_same(&rt, outcome, Err(RunFault::TooLong));
    assert_that(&rt, output.is_empty());
}

/// Asserts the status and the text of the fault.
fn assert_told(rt: &impl Abort, fault: RunFault, status: u8, text: &str) {
    assert_same(rt, fault.status(), status);
    assert_same(rt, fault.text(), text);
    drop(fault);
}

#[test]
fn each_fault_has_its_status_and_text(rt: HostRuntime) {
    assert_told(&rt, RunFault::Read, 1, "read fault");
    assert_told(&rt, RunFault::Write, 1, "write fault");
    assert_told(&rt, RunFault::TooLong, 2, "input too long");
    assert_told(&rt, RunFault::Memory, 3, "out of memory");
}
