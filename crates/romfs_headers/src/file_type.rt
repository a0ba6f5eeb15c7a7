// The types of files.
ghost use Rattle.std.specs.Prelude.{◌≡◌, ◌%◌, ◌||◌, ◌==◌};
ghost use Rattle.romfs_spec.specs.Layout.{has_data};
ghost use Rattle.romfs_headers.specs.FileType.{type_number};

#[derive(Clone, Copy, Debug, PartialEq, Eq)]
pub enum FileType {
    HardLink = 0,
    Directory = 1,
    Regular = 2,
    SymbolicLink = 3,
    BlockDevice = 4,
    CharacterDevice = 5,
    Socket = 6,
    Fifo = 7,
}

impl FileType {
    // The type in the low three bits of a header's first word.
    pub fn of_word(word: usize) -> FileType
        ensures { type_number result ≡ word % 8 }
    {
        match word % 8 {
            0 => FileType::HardLink,
            1 => FileType::Directory,
            2 => FileType::Regular,
            3 => FileType::SymbolicLink,
            4 => FileType::BlockDevice,
            5 => FileType::CharacterDevice,
            6 => FileType::Socket,
            _ => FileType::Fifo,
        }
    }

    // Its number, as in the rules.
    pub fn number(self) -> u32
        ensures { result ≡ type_number self }
    {
        self as u32
    }

    #[tactic(auto, unfolding(romfs_spec::specs::Layout::has_data))]
    pub fn has_data(self) -> bool
        ensures { result ≡ has_data (type_number self) }
    {
        matches!(self, FileType::Regular | FileType::SymbolicLink)
    }

    // Whether its spec.info is 0.
    pub fn has_no_info(self) -> bool
        ensures { result ≡ (type_number self == 2 || (type_number self == 3 || (type_number self == 6 || type_number self == 7))) }
    {
        matches!(
            self,
            FileType::Regular | FileType::SymbolicLink | FileType::Socket | FileType::Fifo
        )
    }
}
