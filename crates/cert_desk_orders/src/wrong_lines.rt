//! Wrong lines of orders files, and what is wrong with them.

/// What is wrong with a line of an orders file.
#[derive(Clone, Copy, Debug, PartialEq, Eq)]
pub enum Why {
    /// The line isn't UTF-8.
    NotUtf8,
    /// There is no such word.
    UnknownWord,
    /// The word comes before the first order.
    BeforeOrders,
    /// The order that begins in this line lacks the word.
    MissingWord,
    /// The word needs a value.
    NoValue,
    /// Nothing may follow the word.
    HasValue,
    /// The value isn't allowed for the word.
    BadValue,
    /// The word occurs before in the order, and may occur only once.
    Repeated,
}

/// A wrong line of an orders file.
#[derive(Clone, Copy, Debug)]
pub struct WrongLine<'a> {
    /// The number of the line, counted from 1.
    pub number: u64,
    /// The word of the line, or the word that is missing. It is empty if the line isn't UTF-8.
    pub word: &'a str,
    /// What is wrong with the line.
    pub why: Why,
}
