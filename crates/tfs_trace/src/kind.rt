// The kinds of requests by their numbers in a trace.
ghost use Rattle.tfs_trace.specs.Kind.{Decodes};

#[derive(Clone, Copy)]
pub enum Kind {
    Create,
    Remove,
    Read,
    Write,
    Free,
}

// A number that is no kind's.
#[derive(Clone, Copy)]
pub struct UnknownKind(pub u32);

impl TryFrom<u32> for Kind {
    type Error = UnknownKind;

    ghost try_from_gives = { Decodes };

    fn try_from(number: u32) -> Result<Self, UnknownKind> {
        match number {
            1 => Ok(Kind::Create),
            2 => Ok(Kind::Remove),
            3 => Ok(Kind::Read),
            4 => Ok(Kind::Write),
            5 => Ok(Kind::Free),
            _ => Err(UnknownKind(number)),
        }
    }
}
