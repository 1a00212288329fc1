// How a run ended.
ghost use Rattle.std.specs.Prelude.{◌≡◌};
ghost use Rattle.pc_faults.specs.Codes.{line_status, status_code, written_status};

use crate::fault::Fault;
use line_writing::WriteFault;
use pc_outside::{Failed, ReadError, Refused};

/// How a run ended.
#[derive(Clone, Copy, Debug, PartialEq, Eq)]
pub enum Status {
    /// The whole output was written.
    Done,
    /// The input has a fault; this is its first one.
    Input(Fault),
    /// A read failed.
    SourceFault,
    /// A write failed.
    SinkFault,
    /// There was not enough memory.
    NoMemory,
}

impl Status {
    /// The exit status of the program.
    pub fn code(&self) -> u8
        ensures { result ≡ status_code self.now }
    {
        match self {
            Status::Done => 0,
            Status::Input(_) => 2,
            Status::SourceFault => 3,
            Status::SinkFault => 4,
            Status::NoMemory => 5,
        }
    }

    /// How a run ends, given the result of its last writes.
    pub fn after_writes(written: Result<(), Failed>) -> Status
        ensures { result ≡ written_status written }
    {
        match written {
            Ok(()) => Status::Done,
            Err(_) => Status::SinkFault,
        }
    }

    /// How a run ends, given the result of its last line.
    pub fn after_line(written: Result<(), WriteFault>) -> Status
        ensures { result ≡ line_status written }
    {
        match written {
            Ok(()) => Status::Done,
            Err(WriteFault::Failed) => Status::SinkFault,
            Err(WriteFault::NoMemory) => Status::NoMemory,
        }
    }
}

impl From<ReadError> for Status {
    ghost use Rattle.pc_faults.specs.Codes.{read_status};

    ghost from_gives = { λ error status. status ≡ read_status error };

    fn from(error: ReadError) -> Status {
        match error {
            ReadError::TooLong => Status::Input(Fault::SourceTooLong),
            ReadError::Failed => Status::SourceFault,
            ReadError::NoMemory => Status::NoMemory,
        }
    }
}

impl From<Refused<Fault>> for Status {
    ghost use Rattle.pc_faults.specs.Codes.{refused_status};

    ghost from_gives = { λ refused status. status ≡ refused_status refused };

    fn from(refused: Refused<Fault>) -> Status {
        match refused {
            Refused::Fault(fault) => Status::Input(fault),
            Refused::NoMemory => Status::NoMemory,
        }
    }
}
