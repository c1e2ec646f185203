/// A part of a line.
#[derive(Clone, Copy)]
pub enum Part<'a> {
    /// A text as it stands.
    Text(&'a str),
    /// A text in which a backslash, a line feed, a tab and a carriage return are written as `\\`, `\n`, `\t` and `\r`.
    Escaped(&'a str),
    /// A number in decimal digits.
    Number(u64),
}
