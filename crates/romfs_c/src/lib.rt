// The romfs requests for C. The header is romfs.h; a slice passes as a pointer and then a length.
#![tactic(auto)]

ghost use Rattle.std.specs.Prelude.{◌≡◌};
ghost use Rattle.romfs_spec.specs.Check as rules;
ghost use Rattle.romfs_spec.specs.Requests as requests;
ghost use Rattle.romfs_spec.specs.Requests.{checked, granted, refused};
ghost use Rattle.romfs_c.specs.Result.{result_of, header_of, content_of};

// The refusal's number, 0 for granted; its place; the value granted.
#[repr(C)]
#[derive(Clone, Copy)]
pub struct RomfsResult {
    pub refusal: u32,
    pub place: u32,
    pub value: u32,
}

// The refusal and its place; the fields of the entry.
#[repr(C)]
#[derive(Clone, Copy)]
pub struct RomfsHeader {
    pub refusal: u32,
    pub place: u32,
    pub file_type: u32,
    pub executable: u32,
    pub info: u32,
    pub size: u32,
    pub next: u32,
    pub name_length: u32,
}

// The refusal and its place; where the content begins, and its length.
#[repr(C)]
#[derive(Clone, Copy)]
pub struct RomfsPart {
    pub refusal: u32,
    pub place: u32,
    pub offset: u32,
    pub length: u32,
}

fn granted(value: u32) -> RomfsResult
    ensures { result ≡ result_of (granted value) }
{
    RomfsResult {
        refusal: 0,
        place: 0,
        value,
    }
}

fn refused(refusal: u32, place: u32) -> RomfsResult
    ensures { result ≡ result_of (refused refusal place) }
{
    RomfsResult {
        refusal,
        place,
        value: 0,
    }
}

// The first fault of the image.
#[unsafe(no_mangle)]
pub extern "C" fn romfs_check(image: &[u8]) -> RomfsResult
    ensures { result ≡ result_of (checked (rules.check image.now) (granted 0)) }
{
    match romfs::check(image) {
        Ok(()) => granted(0),
        Err(fault) => refused(fault.rule(), fault.place()),
    }
}

// The header of a name in the list of a directory; 0 is the root list.
#[unsafe(no_mangle)]
pub extern "C" fn romfs_find(image: &[u8], directory: u32, name: &[u8]) -> RomfsResult
    ensures { result ≡ result_of (requests.find image.now directory name.now) }
{
    match romfs::find(image, directory, name) {
        Ok(at) => granted(at),
        Err(error) => refused(error.number(), error.place()),
    }
}

fn no_header(refusal: u32, place: u32) -> RomfsHeader
    ensures { result ≡ header_of (refused refusal place) }
{
    RomfsHeader {
        refusal,
        place,
        file_type: 0,
        executable: 0,
        info: 0,
        size: 0,
        next: 0,
        name_length: 0,
    }
}

// The entry at a header.
#[unsafe(no_mangle)]
pub extern "C" fn romfs_entry(image: &[u8], at: u32) -> RomfsHeader
    ensures { result ≡ header_of (requests.entry image.now at) }
{
    match romfs::entry(image, at) {
        Ok(header) => RomfsHeader {
            refusal: 0,
            place: 0,
            file_type: header.file_type.number(),
            executable: u32::from(header.executable),
            info: header.info,
            size: header.size,
            next: header.next,
            name_length: header.name_length,
        },
        Err(error) => no_header(error.number(), error.place()),
    }
}

// Where the content of a file lies in the image.
#[unsafe(no_mangle)]
pub extern "C" fn romfs_content(image: &[u8], at: u32) -> RomfsPart
    ensures { result ≡ content_of (requests.content_start image.now at) (requests.content_length image.now at) }
{
    match romfs::content_part(image, at) {
        Ok(part) => RomfsPart {
            refusal: 0,
            place: 0,
            offset: part.offset,
            length: part.length,
        },
        Err(error) => RomfsPart {
            refusal: error.number(),
            place: error.place(),
            offset: 0,
            length: 0,
        },
    }
}
