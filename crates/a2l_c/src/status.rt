//! How a call ended, as a number for C.

ghost use Rattle.std.specs.Prelude.{◌≡◌};
ghost use Rattle.a2l_c.specs.Status.{number_of};

/// How a call ended.
#[derive(Clone, Copy, Debug, PartialEq, Eq)]
pub(crate) enum Status {
    /// What was asked for is there.
    Done,
    /// An allocation was refused. The same call may be made again.
    Memory,
    /// The file can't be answered.
    Refused,
    /// A context keeps one unit at least.
    Capacity,
    /// The handle isn't open.
    Closed,
    /// The handle is open already.
    Open,
    /// There is no such answer, frame or piece.
    Outside,
    /// The path is longer than the buffer, which stays as it is. The struct is filled.
    Short,
}

impl Status {
    /// Its number, as the header has it.
    pub(crate) fn number(self) -> u32
        ensures { result ≡ number_of self }
    {
        match self {
            Status::Done => 0,
            Status::Memory => 1,
            Status::Refused => 2,
            Status::Capacity => 3,
            Status::Closed => 4,
            Status::Open => 5,
            Status::Outside => 6,
            Status::Short => 7,
        }
    }
}
