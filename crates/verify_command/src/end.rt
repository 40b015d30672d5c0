//! How the command ends.

ghost use Rattle.std.specs.Prelude.{◌≡◌};
ghost use Rattle.verify_command.specs.Ends.{code_of};

/// How `verify` ends. The numbers are exit statuses of a program.
#[derive(Clone, Copy, Debug, PartialEq, Eq)]
pub enum VerifyEnd {
    /// What is found of the trace is written.
    Done = 0,
    NoMemory = 1,
    ReadFault = 2,
    WriteFault = 3,
    BadTopology = 5,
    /// The input is too long, or there are too many events.
    Long = 8,
}

impl VerifyEnd {
    /// The exit status of a program.
    pub fn code(self) -> u8
        ensures { result ≡ code_of self }
    {
        self as u8
    }
}
