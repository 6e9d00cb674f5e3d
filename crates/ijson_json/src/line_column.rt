//! The line and column of a byte in a text, as editors count them.
ghost use Rattle.std.specs.Prelude.{◌≡◌, Some, take};
ghost use Rattle.ijson_json.specs.Located.{place_text};
ghost use Rattle.ijson_json.specs.LineColumn.{Follows, begins};

use std::fmt;

/// A line and a column in a text, both counted from 1. A column counts characters, not bytes.
#[derive(Clone, Copy, Debug, PartialEq, Eq)]
pub struct LineColumn {
    /// 1 plus the number of line feeds before the position.
    pub line: usize,
    /// 1 plus the number of characters before the position in the same line.
    pub column: usize,
}

/// Displays as `line 2, column 7`.
impl fmt::Display for LineColumn {
    ghost output = { λ place. Some (place_text place.line place.column) };

    fn fmt<W: fmt::Write>(&self, f: &mut fmt::Formatter<W>) -> fmt::Result {
        write!(f, "line {}, column {}", self.line, self.column)
    }
}

/// Returns the line and column of the byte at offset `at`.
///
/// The line and column are counted from 1, the offset from 0. If `at` is past the end of `text`,
/// returns the position of the end. Use the function to report the offset of a `JsonError`.
///
/// # Cost
///
/// Linear in the text before `at`. Does not allocate.
pub fn line_and_column(text: &str, at: usize) -> LineColumn
    ensures { Follows (take at text.now) result.line result.column }
{
    let bytes = text.as_bytes();
    let before = if at < bytes.len() {
        &bytes[..at]
    } else {
        bytes
    };
    let mut lines: usize = 0;
    let mut characters: usize = 0;
    for byte in before {
        if *byte == b'\n' {
            lines += 1;
            characters = 0;
        } else if begins_character(*byte) {
            characters += 1;
        }
    }
    LineColumn {
        line: lines.saturating_add(1),
        column: characters.saturating_add(1),
    }
}

/// Returns `true` if `byte` begins a character in UTF-8, so it is not a continuation byte.
fn begins_character(byte: u8) -> bool
    ensures { result ≡ begins byte }
{
    byte < 128 || byte >= 192
}
