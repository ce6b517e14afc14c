//! The words of a text, and what may come next.

use rack::Name;

/// A word of a text.
#[derive(Debug, Drop)]
pub(crate) enum Word {
    /// The name of an item.
    Name(Name),
    /// An integer: its value where that is a whole number below 2^64.
    Number(Option<u64>),
    /// What a string in quotes says.
    Text(Name),
    /// `=`
    Equals,
    /// `{`
    Open,
    /// `}`
    Close,
    /// `[`
    ListOpen,
    /// `]`
    ListClose,
    /// `,`
    Comma,
}

/// What a text of the grammar goes on with.
#[derive(Clone, Copy, Debug, PartialEq, Eq)]
pub(crate) enum Turn {
    /// An item's name, or what closes the section.
    Item,
    /// What follows a name: `=` or `{`.
    Body,
    /// A value.
    Value,
    /// A value, or the end of the empty list.
    FirstValue,
    /// What follows a value in a list: `,` or `]`.
    Separator,
}

/// A place in a text.
#[derive(Clone, Copy, Debug, PartialEq, Eq)]
pub(crate) struct Place {
    /// How many sections are open.
    pub(crate) sections: usize,
    /// How many lists are open.
    pub(crate) lists: usize,
    /// What comes next.
    pub(crate) turn: Turn,
}
