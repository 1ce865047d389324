//! Where colors begin and end in a line of results.

ghost use Rattle.std.specs.Prelude.{◌≡◌, fold};
ghost use Rattle.rv_terminal.specs.Colors.{margin_mark, position_after_first, is_empty, line_mark, mark_before, mark_text, position_after};
ghost use Rattle.rv_terminal.specs.Colors.{position_in_line, sign_mark, word_mark};

/// The change of color before a byte, for which the terminal gets an escape sequence.
#[derive(Clone, Copy)]
pub(crate) enum Mark {
    Nothing,
    Red,
    Green,
    /// Back to the default color.
    End,
}

/// The position in a line of results, on which the colors depend.
#[derive(Clone, Copy)]
pub(crate) enum LinePosition {
    /// After this many spaces at the start of a line, at most five.
    Margin(u8),
    /// In the first word of a line, if it is colored.
    Word,
    /// In a line that is colored up to its end.
    Line,
    /// In the part of a line that is not colored.
    Rest,
}

// The number of spaces before the signs of expected and actual results.
const MARGIN: u8 = 5;

// The first byte of a terminal's escape sequences.
const ESCAPE: u8 = 0x1b;

impl Mark {
    /// Returns the escape sequence for this change of color; empty for `Nothing`.
    pub(crate) fn text(self) -> &'static str
        ensures { result.now ≡ mark_text self }
    {
        match self {
            Mark::Nothing => "",
            Mark::Red => "\x1b[31m",
            Mark::Green => "\x1b[32m",
            Mark::End => "\x1b[0m",
        }
    }

    /// Whether there is no change of color.
    pub(crate) fn is_empty(self) -> bool
        ensures { result ≡ is_empty self }
    {
        matches!(self, Mark::Nothing)
    }
}

impl LinePosition {
    /// Returns the change of color before a byte at this position.
    pub(crate) fn mark_before(self, byte: u8) -> Mark
        ensures { result ≡ mark_before self byte }
    {
        if byte == ESCAPE {
            Mark::End
        } else {
            self.line_mark(byte)
        }
    }

    // Returns the change of color before a byte at this position that does not begin an escape sequence.
    fn line_mark(self, byte: u8) -> Mark
        ensures { result ≡ line_mark self byte }
    {
        match self {
            LinePosition::Margin(spaces) => margin_mark(spaces, byte),
            LinePosition::Word if byte == b' ' => Mark::End,
            LinePosition::Word | LinePosition::Line if byte == b'\n' => Mark::End,
            _ => Mark::Nothing,
        }
    }

    /// Returns the position after a byte at this position.
    pub(crate) fn after(self, byte: u8) -> LinePosition
        ensures { result ≡ position_after self byte }
    {
        match byte {
            b'\n' => LinePosition::Margin(0),
            ESCAPE => LinePosition::Rest,
            _ => self.position_in_line(byte),
        }
    }

    // Returns the position after a byte that is neither a line feed nor the start of an escape sequence.
    fn position_in_line(self, byte: u8) -> LinePosition
        ensures { result ≡ position_in_line self byte }
    {
        match self {
            LinePosition::Margin(spaces) if byte == b' ' => {
                if spaces < MARGIN {
                    LinePosition::Margin(spaces + 1)
                } else {
                    LinePosition::Rest
                }
            }
            LinePosition::Margin(spaces) => position_after_first(spaces, byte),
            LinePosition::Word if byte == b' ' => LinePosition::Rest,
            position => position,
        }
    }

    /// Returns the position after these bytes, if the first of them is at this position.
    pub(crate) fn after_bytes(self, bytes: &[u8]) -> LinePosition
        ensures { result ≡ fold position_after self bytes.now }
    {
        let mut position = self;
        for byte in bytes {
            position = position.after(*byte);
        }
        position
    }
}

// Returns the change of color before the first byte of a line that is not a space; `spaces` is the number of spaces before it.
fn margin_mark(spaces: u8, byte: u8) -> Mark
    ensures { result ≡ margin_mark spaces byte }
{
    if spaces == 0 {
        word_mark(byte)
    } else if spaces == MARGIN {
        sign_mark(byte)
    } else {
        Mark::Nothing
    }
}

// Returns the change of color before the first byte of a line that does not begin with spaces.
fn word_mark(byte: u8) -> Mark
    ensures { result ≡ word_mark byte }
{
    match byte {
        b'F' => Mark::Red,
        b'P' => Mark::Green,
        _ => sign_mark(byte),
    }
}

// Returns red before a minus, green before a plus, and no change before any other byte.
fn sign_mark(byte: u8) -> Mark
    ensures { result ≡ sign_mark byte }
{
    match byte {
        b'-' => Mark::Red,
        b'+' => Mark::Green,
        _ => Mark::Nothing,
    }
}

// Returns the position after the first byte of a line that is not a space; `spaces` is the number of spaces before it.
fn position_after_first(spaces: u8, byte: u8) -> LinePosition
    ensures { result ≡ position_after_first spaces byte }
{
    if margin_mark(spaces, byte).is_empty() {
        LinePosition::Rest
    } else if byte == b'-' || byte == b'+' {
        LinePosition::Line
    } else {
        LinePosition::Word
    }
}
