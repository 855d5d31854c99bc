ghost use Rattle.std.specs.Prelude.{◌≡◌, ◌⊎◌};
ghost use Rattle.billiards_cli.specs.Codes.{code_of};
ghost use Rattle.billiards_cli.specs.Services.{status_after};

use mcb_ends::Failed;

/// How a run ended.
#[derive(Clone, Copy, Debug, PartialEq, Eq)]
pub enum Status {
    /// The answer was written.
    Done,
    /// The answer was written, and it is that something was not shown.
    NotShown,
    /// The arguments of the command line ask for nothing.
    Usage,
    /// The input or an argument was refused, and the refusal was written.
    Malformed,
    /// The source failed.
    ReadFault,
    /// The sink failed.
    WriteFault,
    /// Memory was wanting.
    OutOfMemory,
    /// A limit was reached before the answer was whole.
    Full,
}

impl Status {
    /// The exit status of the process, from 0 to 7.
    pub fn code(self) -> u8
        ensures { result ≡ code_of self }
    {
        match self {
            Status::Done => 0,
            Status::NotShown => 1,
            Status::Usage => 2,
            Status::Malformed => 3,
            Status::ReadFault => 4,
            Status::WriteFault => 5,
            Status::OutOfMemory => 6,
            Status::Full => 7,
        }
    }
}

/// How a run ends whose answer was to be written: with this status, where it was.
pub(crate) fn after_writing(status: Status, written: Result<(), Failed>) -> Status
    ensures after { result ≡ status_after status written }
    ensures either { (result ≡ status) ⊎ (result ≡ Status.WriteFault) }
{
    match written {
        Ok(()) => status,
        Err(Failed) => Status::WriteFault,
    }
}
