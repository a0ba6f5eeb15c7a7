// Shows the main job: a volume is formatted, a file created, written and read back; then one byte of the map is damaged,
// and the volume is refused with the fault and its place.
#![tactic(auto)]

use answer_line::print_answer;
use std::{fmt, io};
use tfs::Transferred;

// The count of bytes that were read or written, and the blocks that they lie in.
#[derive(Clone, Copy)]
struct Moved(Transferred);

impl fmt::Display for Moved {
    fn fmt<W: fmt::Write>(&self, f: &mut fmt::Formatter<W>) -> fmt::Result {
        let Transferred { count, blocks } = self.0;
        write!(f, "{count} bytes, content blocks: {blocks}")
    }
}

fn write(
    rt: &impl Print,
    what: &str,
    image: &mut [u8],
    name: &[u8],
    offset: u32,
    bytes: &[u8],
) -> io::Result<()> {
    print_answer(rt, what, tfs::write(image, name, offset, bytes).map(Moved))
}

fn read(rt: &impl Print, what: &str, image: &[u8], offset: u32, buf: &mut [u8]) -> io::Result<()> {
    print_answer(
        rt,
        what,
        tfs::read(image, b"TIMING", offset, buf).map(Moved),
    )
}

fn check(rt: &impl Print, image: &[u8]) -> io::Result<()> {
    print_answer(rt, "check: ", tfs::check(image).map(|()| "consistent"))
}

// Writes into the file and reads it back.
fn use_file(rt: &impl Print, image: &mut [u8]) -> io::Result<()> {
    write(
        rt,
        "write 5 bytes at 510: ",
        image,
        b"TIMING",
        510,
        b"hello",
    )?;
    let mut back = [0u8; 5];
    read(rt, "read 5 bytes at 510: ", image, 510, &mut back)?;
    rt.write_all(b"read back: ")?;
    rt.write_all(&back)?;
    rt.write_all(b"\n")?;
    write(rt, "write at the end: ", image, b"TIMING", 1000, b"hello")?;
    write(rt, "write past the end: ", image, b"TIMING", 1001, b"hello")?;
    write(
        rt,
        "write to a name that does not stand: ",
        image,
        b"TIMER",
        1001,
        b"hello",
    )?;
    print_answer(rt, "free bytes: ", tfs::free_bytes(image))?;
    check(rt, image)
}

fn damage(rt: &impl Print, image: &mut [u8; 65536]) -> io::Result<()> {
    println!(rt; "one byte of the map is damaged")?;
    image[515] = 7;
    check(rt, image)?;
    let mut back = [0u8; 5];
    read(rt, "read TIMING: ", image, 10, &mut back)
}

fn main(rt: HostRuntime) -> io::Result<()> {
    let mut image = [0u8; 65536];
    print_answer(
        &rt,
        "format PUMP: ",
        tfs::format(&mut image, b"PUMP").map(|()| "granted"),
    )?;
    print_answer(
        &rt,
        "create TIMING, 1000 bytes: inode number ",
        tfs::create(&mut image, b"TIMING", 1000),
    )?;
    use_file(&rt, &mut image)?;
    damage(&rt, &mut image)
}
