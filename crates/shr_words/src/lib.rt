//! The words of the program: which form they are, and the numbers in it.
//!
//! [`form_of`] reads the words after the program's name. It first looks at each by itself: none is empty or begins with a dash,
//! and the first is the name of a form. `clap` then parses them, as a command with one subcommand a form, whose arguments are
//! positional; and numbers are read from the texts by the program's own rules, so that signs, spaces and prefixes are none.
//!
//! **The contract for the layer above**: [`form_of`] answers the form that `specs/Forms.antt` gives of the words' bytes, and
//! refuses them exactly where they are none. Want of memory in the parse is the one other answer.
#![tactic(auto)]

mod forms;
mod layout;
mod parsing;

pub use forms::{Form, WordsFault, form_of};
pub use layout::{LayoutRequest, MOST_SIZES};
