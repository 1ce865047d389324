//! The line tables of an image.
ghost use Rattle.std.specs.Prelude.{◌<◌, ◌^◌, length};

/// The string sections that headers refer to.
#[derive(Clone, Copy)]
pub struct StringSections<'a> {
    /// `.debug_line_str`.
    pub line_str: &'a [u8],
    /// `.debug_str`.
    pub str: &'a [u8],
}

/// The sections of an image that hold its line tables.
#[derive(Clone, Copy)]
pub struct LineTables<'a> {
    /// `.debug_line`.
    pub lines: &'a [u8],
    /// The string sections.
    pub strings: StringSections<'a>,
    pub ghost short: { length lines.now < 2 ^ 32 },
}
