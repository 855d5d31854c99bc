/// What stands next in the input.
#[derive(Clone, Copy, Debug, PartialEq, Eq)]
pub enum Line<'a> {
    /// A line of at most 80 bytes, without its newline.
    Text(&'a [u8]),
    /// 81 bytes without a newline.
    TooLong,
    /// 1 to 80 bytes without a newline, before the end of input.
    CutShort,
    /// The end of input, at the start of a line.
    End,
}
