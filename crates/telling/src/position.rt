//! Positions in a text, as editors tell them.

ghost use Rattle.std.specs.Prelude.{◌≡◌, ◌≤◌, ◌+◌, ◌++◌, length, take, drop};
ghost use Rattle.telling.specs.Positions.{begins_char, before_feed, line_of, column_of, without_return, text_of};

/// A position in a text: its line and its column, which count from 1, and the text of the line.
#[derive(Clone, Copy, Debug)]
pub struct Position<'t> {
    pub line: usize,
    /// How many characters begin before the position in its line, and one more.
    pub column: usize,
    pub text: &'t str,
}

/// Whether a character begins with the byte, in a text.
pub(crate) fn begins_char(byte: u8) -> bool
    ensures { result ≡ begins_char byte }
{
    byte < 128 || byte >= 192
}

/// Where the line ends that goes on at the offset.
fn line_end(bytes: &[u8], offset: usize) -> usize
    requires { offset ≤ length bytes.now }
    ensures { result ≡ offset + length (before_feed (drop offset bytes.now)) }
{
    let mut end = offset;
    'bytes: while end < bytes.len() && bytes[end] != b'\n' {
        end += 1;
    }
    end
}

/// The line without a carriage return at its end.
pub(crate) fn without_return(line: &str) -> &str
    ensures { result.now ≡ without_return line.now }
{
    match line.strip_suffix("\r") {
        Some(rest) => rest,
        None => line,
    }
}

/// The position of the offset in the text; of an offset past its end, the position of the end.
pub fn place(text: &str, offset: usize) -> Position<'_>
    ensures line { result.line ≡ line_of text.now offset }
    ensures column { result.column ≡ column_of text.now offset }
    ensures text { result.text.now ≡ text_of text.now offset }
{
    let bytes = text.as_bytes();
    let offset = offset.min(bytes.len());
    let mut line: usize = 1;
    let mut column: usize = 1;
    let mut start: usize = 0;
    for at in 0..offset {
        if bytes[at] == b'\n' {
            line += 1;
            column = 1;
            start = at + 1;
        } else if begins_char(bytes[at]) {
            column += 1;
        }
    }
    let end = line_end(bytes, offset);
    Position {
        line,
        column,
        text: without_return(&text[start..end]),
    }
}
