// Why an image or a request is refused: what is wrong with the image, or with the request.
#![tactic(auto)]

ghost use Rattle.std.specs.Prelude.{◌≡◌};
ghost use Rattle.romfs_refusal.specs.Refusal.{rule, place, number};

// What is wrong with an image: the first broken rule, and the offset of the header that breaks it.
#[derive(Clone, Copy, Debug, PartialEq, Eq)]
pub enum Fault {
    ImageTooShort,
    BadMagic,
    BadFullSize,
    BadVolumeSum,
    // a volume name with no end
    BadVolumeName,
    // a header with a wrong end, name, sum, spec.info or size
    BadHeader(u32),
    // a header whose next or first header does not lie between its end and its bound
    BadNesting(u32),
    // a header whose list would be the ninth level
    TooDeep(u32),
    // a header whose link does not lead to a header of the right type
    BadLink(u32),
}

impl Fault {
    // The number of the broken rule, 21 to 29.
    pub fn rule(self) -> u32
        ensures { result ≡ rule self }
    {
        match self {
            Fault::ImageTooShort => 21,
            Fault::BadMagic => 22,
            Fault::BadFullSize => 23,
            Fault::BadVolumeSum => 24,
            Fault::BadVolumeName => 25,
            Fault::BadHeader(_) => 26,
            Fault::BadNesting(_) => 27,
            Fault::TooDeep(_) => 28,
            Fault::BadLink(_) => 29,
        }
    }

    // The offset of the header that breaks it, 0 for the volume header.
    pub fn place(self) -> u32
        ensures { result ≡ place self }
    {
        match self {
            Fault::ImageTooShort
            | Fault::BadMagic
            | Fault::BadFullSize
            | Fault::BadVolumeSum
            | Fault::BadVolumeName => 0,
            Fault::BadHeader(at)
            | Fault::BadNesting(at)
            | Fault::TooDeep(at)
            | Fault::BadLink(at) => at,
        }
    }
}

// What is wrong with a request on an image that the check accepts.
#[derive(Clone, Copy, Debug, PartialEq, Eq)]
pub enum Refusal {
    NoSuchName = 30,
    // no reached header stands at the offset, or one of a type that the request is not for
    NoSuchHeader = 31,
}

impl Refusal {
    // The number of the refusal, 30 or 31.
    pub fn number(self) -> u32
        ensures { result ≡ number self }
    {
        self as u32
    }
}
