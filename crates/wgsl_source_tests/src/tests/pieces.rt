//! What modules are made of, one piece behind the other.

use crate::tests::texts::{assert_text, reading_of, separate};
use std::alloc::{AllocError, Global};
use std::process::Abort;
use wgsl_source::{Piece, PieceKind};

const ROWS: [(&str, &str); 6] = [
    ("", ""),
    (
        "enable f16; const N = 1;\n;const_assert N < 2; @group(0) @binding(1) var a: u32;",
        "0-3 directive; 3-8 declaration 0; 8-9 semicolon; 9-14 assertion 0; 14-29 declaration 1",
    ),
    (
        "const A = 1; const = 2; fn f() { ; }",
        "0-5 declaration 0; 5-9 fault 6 expected a name; 9-16 declaration 1",
    ),
    (
        "alias A = u32 struct S { a: u32 };",
        "0-4 fault 4 expected `;`; 4-11 declaration 0; 11-12 semicolon",
    ),
    (
        "const_assert true; const N = (1",
        "0-3 assertion 0; 3-8 fault 8 expected `)`",
    ),
    (
        "@size(4) ; @align(8) enable f16; @ struct S { a: u32 }",
        "0-6 fault 5 expected a declaration; 6-14 fault 11 expected a declaration; 14-22 fault 16 expected a declaration",
    ),
];

fn add_pieces(text: &mut String, pieces: &[Piece]) -> Result<(), AllocError> {
    for piece in pieces {
        separate(text)?;
        add_piece(text, *piece)?;
    }
    Ok(())
}

fn add_piece(text: &mut String, piece: Piece) -> Result<(), AllocError> {
    let (start, end) = (piece.start, piece.end);
    write!(text, "{start}-{end} ")?;
    match piece.kind {
        PieceKind::Declaration(number) => write!(text, "declaration {number}"),
        PieceKind::Assertion(number) => write!(text, "assertion {number}"),
        PieceKind::Directive => text.push_str("directive"),
        PieceKind::Semicolon => text.push_str("semicolon"),
        PieceKind::Fault(token, reason) => write!(text, "fault {token} {reason}"),
    }
}

fn pieces_of(rt: &impl Abort, alloc: Global, source: &str) -> String {
    let reading = reading_of(rt, alloc, source);
    let mut text = String::new(alloc);
    add_pieces(&mut text, reading.pieces()).expect(rt, "memory");
    drop(reading);
    text
}

#[test]
fn modules_are_made_of_pieces(rt: HostRuntime) {
    for (source, wanted) in &ROWS {
        let pieces = pieces_of(&rt, rt.alloc(), source);
        assert_text(&rt, pieces, wanted, source);
    }
}
