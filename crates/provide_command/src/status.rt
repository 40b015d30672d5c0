//! How a command ends.

ghost use Rattle.std.specs.Prelude.{◌≡◌, true};
ghost use Rattle.provide_command.specs.Outcome.{status_of};
ghost use Rattle.provide_command.specs.Promise.{code_of, is_told};

/// How a command ends. The numbers are the exit statuses of the program.
#[derive(Clone, Copy, Debug, PartialEq, Eq)]
pub enum Status {
    Done = 0,
    NoMemory = 1,
    ReadFault = 2,
    WriteFault = 3,
    Usage = 4,
    BadTopology = 5,
    BadScript = 6,
    DiskFault = 7,
    Long = 8,
    Differ = 9,
    NotAJournal = 10,
}

impl Status {
    /// The exit status of the program.
    pub fn code(self) -> u8
        ensures { result ≡ code_of self }
    {
        self as u8
    }
}

/// An end that the bytes of the input and those of the journal determine.
#[derive(Clone, Copy, Debug, PartialEq, Eq)]
pub enum Ending {
    Done,
    BadTopology,
    Long,
    NotAJournal,
}

impl Ending {
    pub(crate) fn status(self) -> Status
        ensures status { result ≡ status_of self }
        ensures not_usage { result ≡ Status.Usage → ⊥ }
        ensures told { is_told result ≡ true }
    {
        match self {
            Ending::Done => Status::Done,
            Ending::BadTopology => Status::BadTopology,
            Ending::Long => Status::Long,
            Ending::NotAJournal => Status::NotAJournal,
        }
    }
}
