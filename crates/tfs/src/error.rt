// Why a request is refused, and what stops a replay.
ghost use Rattle.std.specs.Prelude.{◌≡◌};
ghost use Rattle.tfs.specs.declared.error.Error.TheVariants as error;
ghost use Rattle.tfs.specs.declared.error.ReplayError.TheVariants as replay_error;
ghost use Rattle.tfs.specs.Told.{error_number, error_place, stopped};

use tfs_refusal::{Fault, Refusal};
use tfs_replay::Stop;

// The volume is not consistent, or the request asks for what it may not.
#[derive(Clone, Copy, Debug, PartialEq, Eq)]
pub enum Error {
    Inconsistent(Fault),
    Refused(Refusal),
}

impl Error {
    // The number of the broken rule, 1 to 7, or of the refusal, 8 and above.
    pub fn number(self) -> u32
        ensures { result ≡ error_number self }
    {
        match self {
            Error::Inconsistent(fault) => fault.rule(),
            Error::Refused(refusal) => refusal.number(),
        }
    }

    // The slot or block at fault, 0 of a refusal.
    pub fn place(self) -> u32
        ensures { result ≡ error_place self }
    {
        match self {
            Error::Inconsistent(fault) => fault.place(),
            Error::Refused(_) => 0,
        }
    }
}

impl From<Fault> for Error {
    ghost from_gives = { λ fault made. made ≡ error.Inconsistent fault };

    fn from(fault: Fault) -> Error {
        Error::Inconsistent(fault)
    }
}

impl From<Refusal> for Error {
    ghost from_gives = { λ refusal made. made ≡ error.Refused refusal };

    fn from(refusal: Refusal) -> Error {
        Error::Refused(refusal)
    }
}

// What stops a replay: an inconsistent volume; or the record, from 1, that is malformed or whose request, which has been run, answers otherwise than expected.
#[derive(Clone, Copy, Debug, PartialEq, Eq)]
pub enum ReplayError {
    Inconsistent(Fault),
    Malformed(usize),
    Differs(usize),
}

impl From<Fault> for ReplayError {
    ghost from_gives = { λ fault made. made ≡ replay_error.Inconsistent fault };

    fn from(fault: Fault) -> ReplayError {
        ReplayError::Inconsistent(fault)
    }
}

impl From<Stop> for ReplayError {
    ghost from_gives = { λ stop made. made ≡ stopped stop };

    fn from(stop: Stop) -> ReplayError {
        match stop {
            Stop::Malformed(k) => ReplayError::Malformed(k),
            Stop::Differs(k) => ReplayError::Differs(k),
        }
    }
}
