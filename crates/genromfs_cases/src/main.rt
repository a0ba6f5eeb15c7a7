// Runs images that genromfs made through the romfs requests: each is accepted or refused as expected, and each path of the input
// leads to the expected header, entry and content. host/romfs_images.sh makes the input and says what its form is.
#![tactic(auto)]

use packed::cases::differing;
use romfs::{Error, Header, Refusal};
use std::io;
use std::io::Read;

// Where a path has led: a header, and the length of its name.
#[derive(Clone, Copy)]
struct Place {
    at: u32,
    name_length: u32,
}

// ---- what the requests give

// An entry: type, executable, spec.info, size, next header, length of the name.
fn numbers(header: Header) -> [u32; 6] {
    [
        header.file_type.number(),
        u32::from(header.executable),
        header.info,
        header.size,
        header.next,
        header.name_length,
    ]
}

// What is printed of a refused entry: no entry has its type.
const REFUSED: [u32; 6] = [1000, 0, 0, 0, 0, 0];

// Whether the length request gives the size of a file or a symbolic link, and is refused for the rest.
fn right_length(length: Result<u32, Error>, file_type: u32, size: u32) -> bool {
    let data = file_type == 2 || file_type == 3;
    match length {
        Ok(length) => data && length == size,
        Err(error) => !data && error == Error::Refused(Refusal::NoSuchHeader),
    }
}

// ---- lookups

// Whether something of lookup number k is right. If not, the name of it is printed.
fn right(rt: &impl Print, k: u32, what: &str, holds: bool) -> io::Result<bool> {
    if !holds {
        print!(rt; "\n  lookup {k}: {what}")?;
    }
    Ok(holds)
}

// Whether two numbers are the same. If not, they are printed.
fn same(rt: &impl Print, k: u32, what: &str, want: u32, got: u32) -> io::Result<bool> {
    if want != got {
        print!(rt; "\n  lookup {k}: {what} is not {want} but {got}")?;
    }
    Ok(want == got)
}

// One name further on a path, or the refusal of the last find. The name is read in any case.
fn step<R: Read>(
    input: &mut R,
    image: &[u8],
    from: Result<Place, u32>,
) -> io::Result<Result<Place, u32>> {
    let mut room = [0u8; 4096];
    let name = packed::bytes(input, &mut room)?;
    let name_length = name.len() as u32;
    Ok(from.and_then(|place| {
        romfs::find(image, place.at, name)
            .map(|at| Place { at, name_length })
            .map_err(Error::number)
    }))
}

// So many names from the root on.
fn walk<R: Read>(input: &mut R, image: &[u8], names: u32) -> io::Result<Result<Place, u32>> {
    let mut place = Ok(Place {
        at: 0,
        name_length: 0,
    });
    for _ in 0..names {
        place = step(input, image, place)?;
    }
    Ok(place)
}

// The entry that a lookup is to find; the length of its name is that of the last name of the path.
fn expected<R: Read>(input: &mut R, name_length: u32) -> io::Result<[u32; 6]> {
    let file_type = packed::number(input)?;
    let executable = packed::number(input)?;
    let info = packed::number(input)?;
    let size = packed::number(input)?;
    let next = packed::number(input)?;
    Ok([file_type, executable, info, size, next, name_length])
}

// What the numbers of an entry are.
const PARTS: [&str; 6] = [
    "the type",
    "executable",
    "spec.info",
    "the size",
    "the next header",
    "the length of the name",
];

fn same_entry(rt: &impl Print, k: u32, want: [u32; 6], got: [u32; 6]) -> io::Result<bool> {
    for ((what, want), got) in PARTS.iter().zip(want).zip(got) {
        if !same(rt, k, what, want, got)? {
            return Ok(false);
        }
    }
    Ok(true)
}

fn same_content(
    rt: &impl Print,
    k: u32,
    image: &[u8],
    at: u32,
    file_type: u32,
    size: u32,
    content: &[u8],
) -> io::Result<bool> {
    let length = right_length(romfs::content_length(image, at), file_type, size);
    let bytes = romfs::content(image, at) == content;
    Ok(
        right(rt, k, "the length of the content differs", length)?
            && right(rt, k, "the content differs", bytes)?,
    )
}

// Lookup number k: whether it comes out as expected.
fn lookup<R: Read>(rt: &impl Print, input: &mut R, k: u32, image: &[u8]) -> io::Result<bool> {
    let names = packed::number(input)?;
    let place = walk(input, image, names)?;
    let refusal = packed::number(input)?;
    let at = packed::number(input)?;
    // a refused find leads to no header, whose offset and length of name are 0 in the input
    let (found_refusal, found) = match place {
        Ok(place) => (0, place),
        Err(number) => (
            number,
            Place {
                at: 0,
                name_length: 0,
            },
        ),
    };
    let want = expected(input, found.name_length)?;
    let mut room = [0u8; 65536];
    let content = packed::bytes(input, &mut room)?;
    if !same(rt, k, "the refusal", refusal, found_refusal)?
        || !same(rt, k, "the header", at, found.at)?
    {
        return Ok(false);
    }
    Ok(
        refusal != 0
            || same_entry(
                rt,
                k,
                want,
                romfs::entry(image, at).map_or(REFUSED, numbers),
            )? && same_content(rt, k, image, at, want[0], want[3], content)?,
    )
}

// ---- images

// Whether the check gives the expected verdict, which is printed.
fn judged<R: Read>(rt: &impl Print, input: &mut R, image: &[u8]) -> io::Result<bool> {
    let (number, place) = match romfs::check(image) {
        Ok(()) => {
            print!(rt; ": accepted")?;
            (0, 0)
        }
        Err(fault) => {
            let (rule, place) = (fault.rule(), fault.place());
            print!(rt; ": refused {rule}, place {place}")?;
            (rule, place)
        }
    };
    let want_number = packed::number(input)?;
    let want_place = packed::number(input)?;
    Ok(number == want_number && place == want_place)
}

// The next image: whether all of it comes out as expected.
fn image<R: Read>(rt: &impl Print, input: &mut R) -> io::Result<bool> {
    let mut name_room = [0u8; 4096];
    let name = packed::bytes(input, &mut name_room)?;
    rt.write_all(name)?;
    let mut room = [0u8; 65536];
    let image = packed::bytes(input, &mut room)?;
    let right = judged(rt, input, image)?;
    let count = packed::number(input)?;
    let differ = differing(count, |k| lookup(rt, input, k, image))?;
    println!(rt; ", {count} lookups, {differ} differ")?;
    Ok(right && differ == 0)
}

fn main(rt: HostRuntime) -> io::Result<()> {
    let mut input = rt.reader();
    let count = packed::number(&mut input)?;
    let differ = differing(count, |_| image(&rt, &mut input))?;
    println!(rt; "{count} images, {differ} differ")
}
