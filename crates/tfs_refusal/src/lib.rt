// Why a volume or a request is refused: what is wrong with the volume, or with the request.
#![tactic(auto)]

ghost use Rattle.std.specs.Prelude.{◌≡◌};
ghost use Rattle.tfs_refusal.specs.Refusal.{rule, place, number};

// What is wrong with a volume: the first broken rule, and the lowest slot or block that breaks it.
#[derive(Clone, Copy, Debug, PartialEq, Eq)]
pub enum Fault {
    ImageTooShort,
    BadMagic,
    BadLabel,
    // a slot that is neither free nor a file's, or repeats a name
    BadSlot(u32),
    // the slot of an inode with a wrong size or a wrong block number
    BadInode(u32),
    // a block that two files have, or one twice
    BlockTwice(u32),
    // a block that the map has wrong
    MapWrong(u32),
}

impl Fault {
    // The number of the broken rule, 1 to 7.
    pub fn rule(self) -> u32
        ensures { result ≡ rule self }
    {
        match self {
            Fault::ImageTooShort => 1,
            Fault::BadMagic => 2,
            Fault::BadLabel => 3,
            Fault::BadSlot(_) => 4,
            Fault::BadInode(_) => 5,
            Fault::BlockTwice(_) => 6,
            Fault::MapWrong(_) => 7,
        }
    }

    // The slot or block that breaks it, 0 for the header.
    pub fn place(self) -> u32
        ensures { result ≡ place self }
    {
        match self {
            Fault::ImageTooShort | Fault::BadMagic | Fault::BadLabel => 0,
            Fault::BadSlot(at)
            | Fault::BadInode(at)
            | Fault::BlockTwice(at)
            | Fault::MapWrong(at) => at,
        }
    }
}

// What is wrong with a request on a consistent volume.
#[derive(Clone, Copy, Debug, PartialEq, Eq)]
pub enum Refusal {
    NameNotAllowed = 8,
    SizeTooLarge = 9,
    NameExists = 10,
    NoFreeSlot = 11,
    NoRoom = 12,
    NoSuchName = 13,
    NoSuchSlot = 14,
    OffsetPastEnd = 15,
    NoSuchStore = 32,
}

impl Refusal {
    // The number of the refusal, 8 and above.
    pub fn number(self) -> u32
        ensures { result ≡ number self }
    {
        self as u32
    }
}
