// How a run ends.
ghost use Rattle.std.specs.Prelude.{◌≡◌};

/// How a run of the program ended.
#[derive(Clone, Copy, PartialEq, Eq)]
pub enum Status {
    /// The script was read to its end and answered, and no reply begins with `no `.
    Done,
    /// The same, where some reply begins with `no `.
    Refused,
    /// The words of the command line weren't understood.
    Usage,
    /// The source failed.
    ReadFault,
    /// The sink failed.
    WriteFault,
    /// The script is too long.
    InputLong,
    NoMemory,
    /// There is no such script.
    NoScript,
}

impl Status {
    ghost use Rattle.ls_shell.specs.Statuses.{code_of};

    /// The number that the process ends with: 0 to 7.
    pub fn code(self) -> u8
        ensures { result ≡ code_of self }
    {
        match self {
            Status::Done => 0,
            Status::Refused => 1,
            Status::Usage => 2,
            Status::ReadFault => 3,
            Status::WriteFault => 4,
            Status::InputLong => 5,
            Status::NoMemory => 6,
            Status::NoScript => 7,
        }
    }
}
