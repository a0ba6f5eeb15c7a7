// Why a request on the timing file is refused.
ghost use Rattle.std.specs.Prelude.{◌≡◌};
ghost use Rattle.timing.specs.declared.error.Error.TheVariants as error;
ghost use Rattle.timing.specs.Told.{error_number, error_place, of_tfs};

use tfs::{Fault, Refusal};

// The volume is not consistent, TFS refuses, or what stands in the file does.
#[derive(Clone, Copy, Debug, PartialEq, Eq)]
pub enum Error {
    Inconsistent(Fault),
    Refused(Refusal),
    // board number 0: the file has no values
    NoBoard,
    // the file has another size
    WrongSize,
    OtherBoard,
    OtherMaker,
}

impl Error {
    // The number of the broken rule, 1 to 7, or of the refusal: TFS's, or 34 to 37.
    pub fn number(self) -> u32
        ensures { result ≡ error_number self }
    {
        match self {
            Error::Inconsistent(fault) => fault.rule(),
            Error::Refused(refusal) => refusal.number(),
            Error::NoBoard => 34,
            Error::WrongSize => 35,
            Error::OtherBoard => 36,
            Error::OtherMaker => 37,
        }
    }

    // The slot or block at fault, 0 of a refusal.
    pub fn place(self) -> u32
        ensures { result ≡ error_place self }
    {
        match self {
            Error::Inconsistent(fault) => fault.place(),
            Error::Refused(_)
            | Error::NoBoard
            | Error::WrongSize
            | Error::OtherBoard
            | Error::OtherMaker => 0,
        }
    }
}

impl From<Fault> for Error {
    ghost from_gives = { λ fault made. made ≡ error.Inconsistent fault };

    fn from(fault: Fault) -> Error {
        Error::Inconsistent(fault)
    }
}

impl From<tfs::Error> for Error {
    ghost from_gives = { λ refused made. made ≡ of_tfs refused };

    fn from(refused: tfs::Error) -> Error {
        match refused {
            tfs::Error::Inconsistent(fault) => Error::Inconsistent(fault),
            tfs::Error::Refused(refusal) => Error::Refused(refusal),
        }
    }
}
