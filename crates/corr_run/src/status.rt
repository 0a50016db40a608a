// How a run ended.
ghost use Rattle.std.specs.Prelude.{◌≡◌, ℕ};

/// How a run ended.
#[derive(Clone, Copy, Debug, PartialEq, Eq)]
pub enum Status {
    /// A report or a summary was written, and each of its blocks is whole.
    Solved,
    /// A generated game was written.
    Written,
    /// The verdict was written that each rule holds.
    Yes,
    /// The verdict was written that some rule doesn't.
    No,
    /// The input was refused, and the line that says why was written.
    Refused,
    /// A report, a summary or a verdict was written, and some block names a tableau that is too wide.
    TooWide,
    /// The words mean no command, and the usage line was written.
    Usage,
    /// Memory was wanting.
    NoMemory,
    /// The source could not be read.
    ReadFault,
    /// The sink could not be written.
    WriteFault,
}

impl Status {
    ghost use Rattle.corr_run.specs.ExitNumber.{exit_number};

    /// The number that the process ends with: below 64 where the command was carried out, else of `sysexits.h`.
    pub fn code(&self) -> u8
        ensures { result ≡ exit_number self.now }
    {
        match self {
            Status::Solved => 0,
            Status::Written => 0,
            Status::Yes => 0,
            Status::No => 1,
            Status::Refused => 2,
            Status::TooWide => 3,
            Status::Usage => 64,
            Status::NoMemory => 70,
            Status::ReadFault => 72,
            Status::WriteFault => 74,
        }
    }
}
