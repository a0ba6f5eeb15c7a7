// Why a request is refused.
ghost use Rattle.std.specs.Prelude.{◌≡◌};
ghost use Rattle.romfs.specs.declared.error.Error.TheVariants as error;
ghost use Rattle.romfs.specs.Error.{error_number, error_place};

use romfs_refusal::{Fault, Refusal};

// The check does not accept the image, or the request asks for what is not there.
#[derive(Clone, Copy, Debug, PartialEq, Eq)]
pub enum Error {
    Inconsistent(Fault),
    Refused(Refusal),
}

impl Error {
    // The number of the broken rule, 21 to 29, or of the refusal, 30 or 31.
    pub fn number(self) -> u32
        ensures { result ≡ error_number self }
    {
        match self {
            Error::Inconsistent(fault) => fault.rule(),
            Error::Refused(refusal) => refusal.number(),
        }
    }

    // The offset of the header at fault, 0 of a fault of the volume and of a refusal.
    pub fn place(self) -> u32
        ensures { result ≡ error_place self }
    {
        match self {
            Error::Inconsistent(fault) => fault.place(),
            Error::Refused(_) => 0,
        }
    }
}

impl From<Fault> for Error {
    ghost from_gives = { λ fault made. made ≡ error.Inconsistent fault };

    fn from(fault: Fault) -> Error {
        Error::Inconsistent(fault)
    }
}

impl From<Refusal> for Error {
    ghost from_gives = { λ refusal made. made ≡ error.Refused refusal };

    fn from(refusal: Refusal) -> Error {
        Error::Refused(refusal)
    }
}
