//! Lines and columns.

ghost use Rattle.std.specs.Prelude.{◌≡◌, ◌≤◌, length, min};
ghost use Rattle.vital_lex.specs.Places.{line_of, column_of};
ghost use Rattle.vital_lex.specs.TextPosition.{IsPosition};

/// An offset of a text with its line and its column, each from 1. A line ends at LF, and the column counts bytes.
///
/// It goes on from where it is, so offsets that rise cost each byte of the text once.
#[derive(Clone, Copy, PartialEq, Eq)]
pub struct TextPosition {
    /// The number of bytes before it.
    pub offset: usize,
    pub line: u32,
    pub column: u32,
}

impl TextPosition {
    /// The beginning of a text.
    pub fn start(text: &[u8]) -> TextPosition
        requires { length text.now ≤ 16777216 }
        ensures position { IsPosition text.now result }
        ensures offset { result.offset ≡ 0 }
    {
        let _ = text.len();
        TextPosition {
            offset: 0,
            line: 1,
            column: 1,
        }
    }

    /// The position of a later offset.
    fn forward(self, text: &[u8], offset: usize) -> TextPosition
        requires position { IsPosition text.now self }
        requires later { self.offset ≤ offset }
        requires inside { offset ≤ length text.now }
        ensures position { IsPosition text.now result }
        ensures offset { result.offset ≡ offset }
    {
        let mut line = self.line;
        let mut column = self.column;
        for i in self.offset..offset {
            if text[i] == b'\n' {
                line += 1;
                column = 1;
            } else {
                column += 1;
            }
        }
        TextPosition {
            offset,
            line,
            column,
        }
    }

    /// The position of an offset, or of the text's end if the offset is past it.
    pub fn seek(self, text: &[u8], offset: u32) -> TextPosition
        requires { IsPosition text.now self }
        ensures position { IsPosition text.now result }
        ensures offset { result.offset ≡ min offset (length text.now) }
        ensures line { result.line ≡ line_of text.now offset }
        ensures column { result.column ≡ column_of text.now offset }
    {
        let offset = (offset as usize).min(text.len());
        if offset < self.offset {
            TextPosition::start(text).forward(text, offset)
        } else {
            self.forward(text, offset)
        }
    }
}

/// The line and the column of an offset, each from 1. A line ends at LF, and the column counts bytes.
pub fn line_column(text: &[u8], offset: u32) -> (u32, u32)
    requires size { length text.now ≤ 16777216 }
    requires inside { offset ≤ length text.now }
    ensures line { result.0 ≡ line_of text.now offset }
    ensures column { result.1 ≡ column_of text.now offset }
{
    let position = TextPosition::start(text).seek(text, offset);
    (position.line, position.column)
}
