//! Columns as programs count them that hold texts in UTF-16.

use wgsl_source::{Lines, Place};

/// The column of a place of the text, from 1, in units of UTF-16. These are the lines of the text.
pub fn utf16_column(text: &str, lines: &Lines, place: Place) -> usize {
    let before = place.column.saturating_sub(1);
    units_before(lines.line(text, place.line), before).saturating_add(1)
}

// How many units so many characters of the line have.
fn units_before(line: &str, characters: usize) -> usize {
    let mut units = 0usize;
    for character in line.chars().take(characters) {
        units = units.saturating_add(character.len_utf16());
    }
    units
}
