//! The statuses that the program ends with.

ghost use Rattle.std.specs.Prelude.{◌≡◌};
ghost use Rattle.shr_tool.specs.StatusCode.{code_of};

/// How a run ended.
#[derive(Clone, Copy, Debug, PartialEq, Eq)]
pub enum Status {
    /// Nothing below came.
    Done,
    /// The words are no form of the program.
    Words,
    /// The script was longer than its limit.
    Limit,
    /// The source failed.
    Source,
    /// The sink failed.
    Sink,
    /// A refusal was printed that ends the run.
    Refused,
    /// No memory could be had.
    Memory,
    /// A sector was refused, since too many of its copies are lost, and none of the others came.
    Spent,
}

impl Status {
    /// The number that the program ends with.
    pub fn code(self) -> u8
        ensures { result ≡ code_of self }
    {
        match self {
            Status::Done => 0,
            Status::Words => 2,
            Status::Limit => 3,
            Status::Source => 4,
            Status::Sink => 5,
            Status::Refused => 6,
            Status::Memory => 7,
            Status::Spent => 8,
        }
    }
}
