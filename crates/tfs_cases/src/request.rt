// The requests, by their numbers in the packed form.

#[derive(Clone, Copy)]
pub enum Request {
    Volume(Volume),
    Store(Store),
    Timing(Timing),
}

// Those on a volume, whose arguments all stand in the case.
#[derive(Clone, Copy)]
pub enum Volume {
    Check,
    Format,
    Create,
    Remove,
    Read,
    Write,
    List,
    FreeBytes,
    Replay,
    Mend,
}

// Those for the k-th store of a request.
#[derive(Clone, Copy)]
pub enum Store {
    Create,
    Remove,
    Write,
}

// Those on the timing file.
#[derive(Clone, Copy)]
pub enum Timing {
    Store,
    OpenLid,
    Boot,
    StoreBlock,
    OpenLidBlock,
}

// A number that is no request's.
#[derive(Clone, Copy)]
pub struct Unknown;

impl TryFrom<u8> for Request {
    type Error = Unknown;

    fn try_from(number: u8) -> Result<Request, Unknown> {
        Ok(match number {
            1 => Request::Volume(Volume::Check),
            2 => Request::Volume(Volume::Format),
            3 => Request::Volume(Volume::Create),
            4 => Request::Volume(Volume::Remove),
            5 => Request::Volume(Volume::Read),
            6 => Request::Volume(Volume::Write),
            7 => Request::Volume(Volume::List),
            8 => Request::Volume(Volume::FreeBytes),
            9 => Request::Volume(Volume::Replay),
            12 => Request::Store(Store::Create),
            13 => Request::Store(Store::Remove),
            14 => Request::Store(Store::Write),
            15 => Request::Volume(Volume::Mend),
            22 => Request::Timing(Timing::Store),
            23 => Request::Timing(Timing::OpenLid),
            24 => Request::Timing(Timing::Boot),
            25 => Request::Timing(Timing::StoreBlock),
            26 => Request::Timing(Timing::OpenLidBlock),
            _ => return Err(Unknown),
        })
    }
}
