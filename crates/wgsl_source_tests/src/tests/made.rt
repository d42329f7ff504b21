//! Sources that are made of pieces, as a number says.

use std::alloc::{AllocError, Global};

/// Numbers that follow from a seed (splitmix64, by Steele, Lea and Flood).
#[derive(Drop)]
struct Random {
    state: u64,
}

impl Random {
    fn word(&mut self) -> u64 {
        self.state = self.state.wrapping_add(0x9e37_79b9_7f4a_7c15);
        let mut mixed = self.state;
        mixed = (mixed ^ (mixed >> 30)).wrapping_mul(0xbf58_476d_1ce4_e5b9);
        mixed = (mixed ^ (mixed >> 27)).wrapping_mul(0x94d0_49bb_1331_11eb);
        mixed ^ (mixed >> 31)
    }

    // An index below `n`; 0 where that is 0.
    fn index(&mut self, n: usize) -> usize {
        (self.word() & 0xffff_ffff) as usize % n.max(1)
    }
}

/// A source that begins so, of up to `most` of the pieces behind it.
pub(super) fn source_of(
    alloc: Global,
    seed: u64,
    begin: &str,
    pieces: &[&str],
    most: usize,
) -> Result<String, AllocError> {
    let mut random = Random { state: seed };
    let mut source = String::from_str(alloc, begin)?;
    for _ in 0..random.index(most.saturating_add(1)) {
        if let Some(piece) = pieces.get(random.index(pieces.len())) {
            source.push_str(piece)?;
        }
    }
    Ok(source)
}

/// How many sources take one piece of each row.
pub(super) fn choices(rows: &[&[&str]]) -> usize {
    let mut count = 1usize;
    for row in rows {
        count = count.saturating_mul(row.len());
    }
    count
}

/// The source of this number among those that take one piece of each row.
pub(super) fn choice_of(
    alloc: Global,
    number: usize,
    rows: &[&[&str]],
) -> Result<String, AllocError> {
    let mut source = String::new(alloc);
    let mut left = number;
    for row in rows {
        if let Some(piece) = row.get(left % row.len().max(1)) {
            source.push_str(piece)?;
        }
        left /= row.len().max(1);
    }
    Ok(source)
}

/// A character for each byte that begins one of several bytes, from U+0100 on. They end as line breaks do.
const WIDE: &str = "\
\u{105}\u{145}\u{185}\u{1c5}\u{205}\u{245}\u{285}\u{2c5}\u{305}\u{345}\u{385}\u{3c5}\u{405}\u{445}\
\u{485}\u{4c5}\u{505}\u{545}\u{585}\u{5c5}\u{605}\u{645}\u{685}\u{6c5}\u{705}\u{745}\u{785}\u{7c5}\
\u{828}\u{1028}\u{2028}\u{3028}\u{4028}\u{5028}\u{6028}\u{7028}\u{8028}\u{9028}\u{a028}\u{b028}\
\u{c028}\u{d028}\u{e028}\u{f028}\u{10028}\u{40028}\u{80028}\u{c0028}\u{100028}";

/// Blank characters of three bytes, and characters that begin as these do.
const NEAR: &str = "\u{200d}\u{200e}\u{200f}\u{2027}\u{2029}\u{202a}\u{2068}\u{20a8}";

/// Each character up to U+00FF, one for each byte that may begin another, and all that begin a wide blank.
pub(super) fn characters_of(alloc: Global) -> Result<String, AllocError> {
    let mut characters = String::new(alloc);
    for byte in 0..=u8::MAX {
        characters.push(char::from(byte))?;
    }
    characters.push_str(WIDE)?;
    characters.push_str(NEAR)?;
    Ok(characters)
}

/// The character between two texts.
pub(super) fn between(
    alloc: Global,
    before: &str,
    character: char,
    behind: &str,
) -> Result<String, AllocError> {
    let mut source = String::from_str(alloc, before)?;
    source.push(character)?;
    source.push_str(behind)?;
    Ok(source)
}

/// A line comment of so many letters, the first text, so many letters more and the second text.
pub(super) fn comment_of(
    alloc: Global,
    letters: usize,
    first: &str,
    more: usize,
    second: &str,
) -> Result<String, AllocError> {
    let mut source = String::from_str(alloc, "//")?;
    for _ in 0..letters {
        source.push('a')?;
    }
    source.push_str(first)?;
    for _ in 0..more {
        source.push('a')?;
    }
    source.push_str(second)?;
    Ok(source)
}
