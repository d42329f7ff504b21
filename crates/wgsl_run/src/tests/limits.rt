use crate::tests::{
    Script, assert_answers, assert_each, assert_prints, assert_same, assert_that, output_of,
};
use std::alloc::{AllocError, Global};
use std::fmt::Write;
use std::process::Abort;
use wgsl_script::{LIMIT, RunFault, run_script};

/// A text of so many bytes.
fn repeated(alloc: Global, byte: u8, count: usize) -> Result<Vec<u8>, AllocError> {
    vec![in alloc; byte; count]
}

/// The text, then the byte so many times, then the other text.
fn joined(
    alloc: Global,
    first: &[u8],
    byte: u8,
    count: usize,
    last: &[u8],
) -> Result<Vec<u8>, AllocError> {
    let mut text = Vec::from_slice(alloc, first)?;
    text.extend_from_slice(repeated(alloc, byte, count)?.as_slice())?;
    text.extend_from_slice(last)?;
    Ok(text)
}

#[test]
fn a_script_of_the_greatest_length_is_run(rt: HostRuntime) {
    let first = b"new u32 storage read 05000000\nread &0\n";
    let script = joined(rt.alloc(), first, b'\n', LIMIT - first.len(), b"").expect(&rt, "memory");
    assert_same(&rt, script.len(), 1_048_576);
    assert_prints(&rt, rt.alloc(), script.as_slice(), b"&0\n5u\n");
}

#[test]
fn one_byte_more_is_too_long_and_runs_nothing(rt: HostRuntime) {
    let first = b"new u32 storage read 05000000\nread &0\n";
    let script = joined(rt.alloc(), first, b'\n', LIMIT - first.len() + 1, b"");
    let script = script.expect(&rt, "memory");
    assert_same(&rt, script.len(), 1_048_577);
    let mut reader = script.as_slice();
    let mut output = Vec::new(rt.alloc());
    let outcome = run_script(rt.alloc(), &mut reader, &mut output);
    assert_same(&rt, outcome, Err(RunFault::TooLong));
    assert_that(&rt, output.is_empty());
}

#[test]
fn a_line_of_a_megabyte_is_answered(rt: HostRuntime) {
    let word = repeated(rt.alloc(), b'x', 1_000_000).expect(&rt, "memory");
    assert_prints(&rt, rt.alloc(), word.as_slice(), b"refused BadLine\n");
    let spaces = joined(
        rt.alloc(),
        b"new u32 storage read 05000000\nread",
        b' ',
        1_000_000,
        b"&0",
    )
    .expect(&rt, "memory");
    assert_prints(&rt, rt.alloc(), spaces.as_slice(), b"&0\n5u\n");
    let digits = joined(
        rt.alloc(),
        b"new u32 storage read 05",
        b'0',
        1_000_000,
        b"\ndump &0",
    )
    .expect(&rt, "memory");
    assert_prints(&rt, rt.alloc(), digits.as_slice(), b"&0\n05000000\n");
    let bytes = repeated(rt.alloc(), 0xff, 1_000_000).expect(&rt, "memory");
    assert_prints(&rt, rt.alloc(), bytes.as_slice(), b"refused BadLine\n");
}

#[test]
fn a_name_may_be_long(rt: HostRuntime) {
    let script = joined(rt.alloc(), b"struct ", b'n', 500_000, b" a:u32\n").expect(&rt, "memory");
    assert_prints(&rt, rt.alloc(), script.as_slice(), b"done\n");
}

/// The line of a structure with so many members of a type, each a word.
fn wide(alloc: Global, name: &str, member: &str, count: usize) -> Result<String, AllocError> {
    let mut line = format!(in alloc; "struct {name}")?;
    for _ in 0..count {
        write!(line, " {member}")?;
    }
    line.push('\n')?;
    Ok(line)
}

/// Pushes the line of `wide`.
fn push_wide(
    rt: &impl Abort,
    alloc: Global,
    script: &mut String,
    name: &str,
    member: &str,
    count: usize,
) {
    let line = wide(alloc, name, member, count).expect(rt, "memory");
    script.push_str(line.as_str()).expect(rt, "memory");
}

#[test]
fn a_structure_has_at_most_4096_nodes(rt: HostRuntime) {
    let alloc = rt.alloc();
    let mut script = wide(alloc, "A", "a:u32", 4095).expect(&rt, "memory");
    push_wide(&rt, alloc, &mut script, "B", "a:u32", 4096);
    push_wide(&rt, alloc, &mut script, "C", "a:vec4<u32>", 2047);
    push_wide(&rt, alloc, &mut script, "D", "a:vec4<u32>", 2048);
    script.push_str("struct E a:A\n").expect(&rt, "memory");
    script
        .push_str("struct F a:C\nstruct G a:F\nstruct H a:C b:u32\n")
        .expect(&rt, "memory");
    let wanted = b"done
refused BadLine
done
refused BadLine
refused BadLine
done
refused BadLine
refused BadLine
";
    assert_prints(&rt, alloc, script.as_bytes(), wanted);
}

#[test]
fn nodes_of_structures_are_counted_with_their_members(rt: HostRuntime) {
    let alloc = rt.alloc();
    // Each has two of the one before and itself: 2, 5, 11, 23, and so on to 3071; then one more
    // would have 6143, and 1024 words of one node fit beside the last.
    let mut script = String::from_str(alloc, "struct T0 a:u32\n").expect(&rt, "memory");
    for i in 0..10 {
        let next = i + 1;
        writeln!(script, "struct T{next} a:T{i} b:T{i}").expect(&rt, "memory");
    }
    script
        .push_str("struct T11 a:T10 b:T10\n")
        .expect(&rt, "memory");
    push_wide(&rt, alloc, &mut script, "X a:T10", "b:u32", 1024);
    push_wide(&rt, alloc, &mut script, "Y a:T10", "b:u32", 1025);
    let mut wanted = String::new(alloc);
    for _ in 0..11 {
        wanted.push_str("done\n").expect(&rt, "memory");
    }
    wanted
        .push_str("refused BadLine\ndone\nrefused BadLine\n")
        .expect(&rt, "memory");
    assert_prints(&rt, alloc, script.as_bytes(), wanted.as_bytes());
}

/// Structures `T0` of a u32, and `T1` to `Tn`, each of the one before.
fn chain(alloc: Global, depth: usize) -> Result<String, AllocError> {
    let mut script = String::from_str(alloc, "struct T0 a:u32\n")?;
    for i in 0..depth {
        let next = i.saturating_add(1);
        writeln!(script, "struct T{next} a:T{i}")?;
    }
    Ok(script)
}

/// Asserts that a chain of so many structures and one more is made, read, written and dumped.
fn assert_chain_runs(rt: &impl Abort, alloc: Global, depth: usize) {
    let mut script = chain(alloc, depth).expect(rt, "memory");
    writeln!(script, "new T{depth} storage read_write 07000000").expect(rt, "memory");
    script
        .push_str("read &0\nwrite &0 08000000\ndump &0\nmember &0 a\n")
        .expect(rt, "memory");
    let mut wanted = String::new(alloc);
    let mut closed = String::new(alloc);
    for _ in 0..depth {
        wanted.push_str("done\n").expect(rt, "memory");
        closed.push(')').expect(rt, "memory");
    }
    wanted.push_str("done\n&0\n").expect(rt, "memory");
    for i in (0..depth).rev() {
        let n = i.saturating_add(1);
        write!(wanted, "T{n}(").expect(rt, "memory");
    }
    writeln!(wanted, "T0(7u){closed}\ndone\n08000000\n&1").expect(rt, "memory");
    assert_prints(rt, alloc, script.as_bytes(), wanted.as_bytes());
}

#[test]
fn a_chain_of_structures_is_made_read_written_and_dumped(rt: HostRuntime) {
    assert_chain_runs(&rt, rt.alloc(), 1000);
}

/// The word of so many arrays round a word.
fn arrays_of(alloc: Global, count: usize, word: &str) -> Result<String, AllocError> {
    let mut text = String::new(alloc);
    for _ in 0..count {
        text.push_str("array<")?;
    }
    text.push_str(word)?;
    for _ in 0..count {
        text.push('>')?;
    }
    Ok(text)
}

#[test]
fn a_type_word_has_at_most_16_nested_parts(rt: HostRuntime) {
    let alloc = rt.alloc();
    let of_scalars = arrays_of(alloc, 16, "u32").expect(&rt, "memory");
    let of_vectors = arrays_of(alloc, 15, "vec2<u32>").expect(&rt, "memory");
    let words = [of_scalars.as_str(), of_vectors.as_str()];
    assert_each(
        &rt,
        alloc,
        "new * storage read 00",
        &words,
        "refused NoValue",
    );
    let of_scalars = arrays_of(alloc, 17, "u32").expect(&rt, "memory");
    let of_vectors = arrays_of(alloc, 16, "vec2<u32>").expect(&rt, "memory");
    let words = [of_scalars.as_str(), of_vectors.as_str()];
    assert_each(
        &rt,
        alloc,
        "new * storage read 00",
        &words,
        "refused BadLine",
    );
    assert_each(&rt, alloc, "struct S a:*", &words, "refused BadLine");
}

#[test]
fn each_word_has_the_limit_of_its_own(rt: HostRuntime) {
    let alloc = rt.alloc();
    let deep = arrays_of(alloc, 16, "A").expect(&rt, "memory");
    let deeper = arrays_of(alloc, 16, "B").expect(&rt, "memory");
    let script = format!(in alloc;
        "struct A a:u32\nstruct B a:{deep} b:{deep}\nnew {deeper} storage read 00\n"
    ).expect(&rt, "memory");
    assert_prints(
        &rt,
        alloc,
        script.as_bytes(),
        b"done\ndone\nrefused NoValue\n",
    );
}

#[test]
fn a_type_word_of_a_megabyte_is_a_bad_line(rt: HostRuntime) {
    let word = arrays_of(rt.alloc(), 140_000, "u32").expect(&rt, "memory");
    assert_each(
        &rt,
        rt.alloc(),
        "new * storage read 00",
        &[word.as_str()],
        "refused BadLine",
    );
}

#[test]
fn the_type_of_a_word_has_at_most_4096_nodes(rt: HostRuntime) {
    let alloc = rt.alloc();
    let mut script = wide(alloc, "A", "a:u32", 4095).expect(&rt, "memory");
    push_wide(&rt, alloc, &mut script, "B", "a:u32", 4093);
    script
        .push_str("new A storage read 00\nnew array<A,2> storage read 00\n")
        .expect(&rt, "memory");
    script
        .push_str("new array<array<B,2>> storage read 00\n")
        .expect(&rt, "memory");
    script
        .push_str("new array<array<array<B,2>,2>,2> storage read 00\n")
        .expect(&rt, "memory");
    script
        .push_str("struct C a:array<B,2>\nstruct D a:array<array<B,2>,2>\n")
        .expect(&rt, "memory");
    let wanted = b"done
done
refused NoValue
refused BadLine
refused NoValue
refused BadLine
done
refused BadLine
";
    assert_prints(&rt, alloc, script.as_bytes(), wanted);
}

const COUNTS: Script = Script {
    shows: "counts reach to 4294967295",
    lines: &[
        (
            "new array<u32,4294967295> storage read 00",
            "refused NoValue",
        ),
        (
            "new array<u32,4294967296> storage read 00",
            "refused BadLine",
        ),
        (
            "new array<u32,9999999999> storage read 00",
            "refused BadLine",
        ),
        (
            "new array<u32,10000000000> storage read 00",
            "refused BadLine",
        ),
        ("struct S a:array<u32,4294967295>", "done"),
        ("struct T a:array<u32,4294967296>", "refused BadLine"),
    ],
};

#[test]
fn counts_reach_to_4294967295(rt: HostRuntime) {
    assert_answers(&rt, rt.alloc(), &COUNTS);
}

#[test]
fn many_definitions_cost_no_more_than_their_lines(rt: HostRuntime) {
    let script = chain(rt.alloc(), 4094).expect(&rt, "memory");
    let output = output_of(rt.alloc(), script.as_bytes()).expect(&rt, "memory");
    assert_same(&rt, output.len(), 5 * 4095);
    let script = chain(rt.alloc(), 4095).expect(&rt, "memory");
    let output = output_of(rt.alloc(), script.as_bytes()).expect(&rt, "memory");
    assert_that(&rt, output.ends_with(b"done\nrefused BadLine\n"));
}
