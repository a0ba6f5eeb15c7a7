// Runs the numbers that the rules name and that are no theorems: a size over the largest, an image one byte too short, and
// a full directory with and without free blocks.
#![tactic(auto)]

use answer_line::print_answer;
use std::{fmt, io};
use tfs::Entry;

// What stands in a slot: nothing, or the file of an inode number.
#[derive(Clone, Copy)]
struct Slot(Option<Entry>);

impl fmt::Display for Slot {
    fn fmt<W: fmt::Write>(&self, f: &mut fmt::Formatter<W>) -> fmt::Result {
        match self.0 {
            None => write!(f, "free"),
            Some(entry) => {
                let inode = entry.inode;
                write!(f, "{inode}")
            }
        }
    }
}

// ---- requests and their lines

fn format(rt: &impl Print, what: &str, image: &mut [u8], label: &[u8]) -> io::Result<()> {
    print_answer(rt, what, tfs::format(image, label).map(|()| "granted"))
}

fn create(rt: &impl Print, what: &str, image: &mut [u8], name: &[u8], size: u32) -> io::Result<()> {
    print_answer(rt, what, tfs::create(image, name, size))
}

fn remove(rt: &impl Print, what: &str, image: &mut [u8], name: &[u8]) -> io::Result<()> {
    print_answer(rt, what, tfs::remove(image, name).map(|()| "granted"))
}

fn check(rt: &impl Print, image: &[u8]) -> io::Result<()> {
    print_answer(rt, "  check: ", tfs::check(image).map(|()| "consistent"))
}

fn free_bytes(rt: &impl Print, image: &[u8]) -> io::Result<()> {
    print_answer(rt, "  free bytes: ", tfs::free_bytes(image))
}

// ---- the numbers

// The largest file is 65,024 bytes.
fn sizes(rt: &impl Print, image: &mut [u8]) -> io::Result<()> {
    format(rt, "format 131 blocks: ", image, b"LARGE")?;
    create(rt, "  create 65025 bytes: ", image, b"FILE", 65025)?;
    create(
        rt,
        "  create 4294967295 bytes: ",
        image,
        b"FILE",
        4294967295,
    )?;
    free_bytes(rt, image)
}

// Every request on an image of 1,535 bytes, in two halves.
fn short(rt: &impl Print, image: &mut [u8]) -> io::Result<()> {
    println!(rt; "1535 bytes")?;
    format(rt, "  format: ", image, b"SHORT")?;
    create(rt, "  create: ", image, b"FILE", 0)?;
    remove(rt, "  remove: ", image, b"FILE")
}

fn short_too(rt: &impl Print, image: &mut [u8]) -> io::Result<()> {
    check(rt, image)?;
    let mut buf = [0u8; 8];
    let read = tfs::read(image, b"FILE", 0, &mut buf).map(|moved| moved.count);
    print_answer(rt, "  read: ", read)?;
    let written = tfs::write(image, b"FILE", 0, b"12345678").map(|moved| moved.count);
    print_answer(rt, "  write: ", written)?;
    print_answer(rt, "  list: ", tfs::list(image, 0).map(Slot))?;
    free_bytes(rt, image)
}

// Creates empty files "A", "B" and so on, until one is refused; how many were granted.
fn fill(image: &mut [u8]) -> usize {
    (b'A'..=b'Z')
        .take_while(|letter| tfs::create(image, &[*letter], 0).is_ok())
        .count()
}

// A name that stands in a full directory, and a new one.
fn two_names(rt: &impl Print, image: &mut [u8]) -> io::Result<()> {
    create(rt, "  create A: ", image, b"A", 0)?;
    create(rt, "  create Y, 65024 bytes: ", image, b"Y", 65024)?;
    create(rt, "  create NEW: ", image, b"NEW", 0)?;
    create(rt, "  create NEW, 65024 bytes: ", image, b"NEW", 65024)
}

// A full directory.
fn full(rt: &impl Print, what: &str, image: &mut [u8]) -> io::Result<()> {
    format(rt, what, image, b"FULL")?;
    let created = fill(image);
    println!(rt; "  empty files created: {created}")?;
    check(rt, image)?;
    free_bytes(rt, image)?;
    two_names(rt, image)
}

fn main(rt: HostRuntime) -> io::Result<()> {
    let mut large = [0u8; 67072];
    sizes(&rt, &mut large)?;
    let mut tiny = [0u8; 1535];
    short(&rt, &mut tiny)?;
    short_too(&rt, &mut tiny)?;
    full(&rt, "format 131 blocks: ", &mut large)?;
    let mut small = [0u8; 14336];
    full(&rt, "format 28 blocks: ", &mut small)?;
    remove(&rt, "  remove C: ", &mut small, b"C")?;
    create(&rt, "  create NEW: inode number ", &mut small, b"NEW", 0)
}
