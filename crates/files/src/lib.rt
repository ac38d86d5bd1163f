// Files in the working directory as the programs read them: a missing file is an empty text; one that is there and cannot be read to its
// end is said on standard error. And what a program made, written to standard output.
#![tactic(auto)]

ghost use Rattle.std.specs.Prelude.{◌≡◌, min, length, take};
ghost use Rattle.files.specs.Fits.{Fits};

use std::io::{Error, ErrorKind, Read};
use std::rt::Files;
use std::{fs, io};

// A file could not be read, which is said on standard error.
#[derive(Clone, Copy, Debug, PartialEq, Eq)]
pub struct Unread;

// The first n bytes of a buffer, or all.
pub fn front(buf: &[u8], n: usize) -> &[u8]
    ensures { result.now ≡ take n buf.now }
{
    &buf[..n.min(buf.len())]
}

// A line on standard error: what failed, and why. Where that cannot be written either, there is nowhere left to say so.
fn say(rt: &impl Eprint, what: &str, why: Error) {
    let _ = eprintln!(rt; "{what}: {why}");
}

// Says why a file could not be read.
fn failed(rt: &impl Eprint, path: &str, why: Error) -> Unread {
    say(rt, path, why);
    Unread
}

// The most bytes of a buffer that is lent.
pub const BUFFER_BYTES: usize = 262144;

// Reads until the buffer is full, the file ends or a read fails. A proved loop has to end, and this one ends by itself: each turn but the
// last reads a byte, and no buffer that is lent has more than BUFFER_BYTES.
fn read_all(file: &mut impl Read, buf: &mut [u8]) -> io::Result<usize>
    ensures { Fits result buf.new }
{
    let mut done = 0;
    for _ in 0..=BUFFER_BYTES {
        let n = file.read(&mut buf[done..])?;
        if n == 0 {
            return Ok(done);
        }
        done += n;
    }
    Err(Error::other("too many reads"))
}

// Reads the front of a file into a buffer: how many bytes, as std's `read` says it, for `front` to take. For a text the buffer has a byte
// more than a text may have, so that one that is too long is seen as such. A name that is not UTF-8 cannot be opened, which is said too; the
// name stays bytes, since a &str would ask more of callers.
pub fn read_file(rt: &(impl Files + Eprint), path: &[u8], buf: &mut [u8]) -> Result<usize, Unread>
    ensures { Fits result buf.new }
{
    let Ok(path) = str::from_utf8(path) else {
        let why = Error::from(ErrorKind::InvalidFilename);
        return Err(failed(rt, "a file's name", why));
    };
    let mut file = match fs::open(rt, path) {
        Ok(file) => file,
        Err(e) if e.kind() == ErrorKind::NotFound => return Ok(0),
        Err(e) => return Err(failed(rt, path, e)),
    };
    read_all(&mut file, buf).map_err(|e| failed(rt, path, e))
}

// Writes the first n bytes of a buffer, or all, to standard output, and says where that fails. The result is how many bytes were to be
// written, of a count and a buffer as a caller has them; how many the system took is beyond a contract.
pub fn write_front(rt: &(impl Print + Eprint), buf: &[u8], n: usize) -> usize
    ensures { result ≡ min n (length buf.now) }
{
    let text = front(buf, n);
    if let Err(e) = rt.write_all(text) {
        say(rt, "standard output", e);
    }
    text.len()
}
