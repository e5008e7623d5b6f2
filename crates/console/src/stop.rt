// Why a line is not carried out, and how that is said.
ghost use Rattle.std.specs.Prelude.{◌≡◌, Err};
ghost use Rattle.std.specs.IoError.{error_kind};
ghost use Rattle.std.specs.declared.io.ErrorKind.TheVariants.{OutOfMemory};
ghost use Rattle.console.specs.declared.stop.Stop.TheVariants as stop;
ghost use Rattle.console.specs.Said.{said};

use orders::Fault;
use refusal::Refusal;
use std::alloc::AllocError;
use std::{fmt, io};

#[derive(Debug, Drop)]
pub enum Stop {
    // A word of the line is wrong.
    Fault(Fault),
    // A question is answered no.
    Refused(Refusal),
    // What the line asks for cannot be, for this reason.
    Cannot(&'static str),
    // Nothing can be printed, or no memory is left.
    Io(io::Error),
}

impl fmt::Display for Stop {
    ghost output = { said };

    fn fmt<W: fmt::Write>(&self, f: &mut fmt::Formatter<W>) -> fmt::Result {
        match self {
            Stop::Fault(fault) => write!(f, "{fault}"),
            Stop::Refused(refusal) => write!(f, "refused {}: {refusal}", refusal.number()),
            Stop::Cannot(reason) => f.write_str(reason),
            Stop::Io(error) => write!(f, "{error}"),
        }
    }
}

impl From<Fault> for Stop {
    ghost from_gives = { λ fault s. s ≡ stop.Fault fault };

    fn from(fault: Fault) -> Stop {
        Stop::Fault(fault)
    }
}

impl From<Refusal> for Stop {
    ghost from_gives = { λ refusal s. s ≡ stop.Refused refusal };

    fn from(refusal: Refusal) -> Stop {
        Stop::Refused(refusal)
    }
}

impl From<io::Error> for Stop {
    ghost from_gives = { λ error s. s ≡ stop.Io error };

    fn from(error: io::Error) -> Stop {
        Stop::Io(error)
    }
}

impl From<AllocError> for Stop {
    ghost from_gives = { λ _ s. (error : _) × (s ≡ stop.Io error) × (error_kind error ≡ OutOfMemory) };

    fn from(error: AllocError) -> Stop {
        Stop::Io(error.into())
    }
}

impl Stop {
    // Says why. What cannot be said is the caller's to handle.
    pub fn say(self, rt: &HostRuntime) -> io::Result<()>
        ensures { (error : _) → self ≡ stop.Io error → result ≡ Err error }
    {
        match self {
            Stop::Io(error) => Err(error),
            reason => println!(rt; "{reason}"),
        }
    }
}
