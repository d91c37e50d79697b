// Files by path and standard output, for programs. A failure is told on standard error where it happens, once and by name: a caller has only
// to stop.
#![tactic(auto)]

ghost use Rattle.std.specs.Prelude.{◌≡◌, ◌≢◌, Some, Ok, IsNone, IsOk, IsErr, IfOk, MatchResult};
ghost use Rattle.std.specs.Result.{IfErr};
ghost use Rattle.std.specs.IoError.{error_kind};
ghost use Rattle.files.specs.Counts.{IsPrefixLen};
ghost use Rattle.files.specs.Got.{Filled, ReadsOn, left};

use std::io::{Cursor, ErrorKind, Read, Write};
use std::rt::Files;
use std::{fs, io};

// A failure that has been told on standard error.
#[derive(Clone, Copy, Debug, PartialEq, Eq)]
pub struct Told;

// A read that failed, which has been told, and how many bytes came before.
#[derive(Clone, Copy, Debug, PartialEq, Eq)]
pub struct Unread {
    pub told: Told,
    pub count: usize,
}

impl From<Unread> for Told {
    fn from(unread: Unread) -> Told {
        unread.told
    }
}

// What reading gave: how many bytes, and whether the file has ended; if not, the buffer is full and there may be more.
#[derive(Clone, Copy, Debug, PartialEq, Eq)]
pub struct Got {
    pub count: usize,
    pub ended: bool,
}

// Room for what the system says of an error; what there is no room for is left off.
const ROOM: usize = 256;

// Tells a failure: what failed, a colon and why, without the number that std writes behind it. Nothing is left to do where standard error
// fails too.
fn tell(rt: &impl Eprint, what: &str, why: io::Error) -> Told {
    let mut words = Cursor::new([0; ROOM]);
    let _ = write!(words, "{why}");
    let count = (words.position() as usize).min(ROOM);
    let said = str::from_utf8(&words.get_ref()[..count]).unwrap_or("");
    let said = said
        .split_once(" (os error ")
        .map_or(said, |(said, _)| said);
    let _ = eprintln!(rt; "{what}: {said}");
    Told
}

// Opens a file to read; a missing file is none.
pub fn open<R: Files + Eprint>(rt: &R, path: &str) -> Result<Option<R::File>, Told> {
    found(rt, path, fs::open(rt, path))
}

// What opening a file found. "A missing file counts as empty": it gives no file and no failure; any other failure is told.
fn found<F: Drop>(rt: &impl Eprint, path: &str, opened: io::Result<F>) -> Result<Option<F>, Told>
    ensures { MatchResult opened
        (λ file. result ≡ Ok (Some file))
        (λ why. (error_kind why ≡ ErrorKind.NotFound → result ≡ Ok None) × (error_kind why ≢ ErrorKind.NotFound → IsErr result)) }
{
    match opened {
        Ok(file) => Ok(Some(file)),
        Err(why) if why.kind() == ErrorKind::NotFound => Ok(None),
        Err(why) => Err(tell(rt, path, why)),
    }
}

// Reads until the buffer is full, the file has ended or a read fails, which is told.
fn read_full<F: Read>(
    rt: &impl Eprint,
    file: &mut F,
    path: &str,
    buf: &mut [u8],
) -> Result<Got, Unread>
    ensures filled { IfOk result (λ got. Filled got buf.new) }
    ensures failed { IfErr result (λ unread. IsPrefixLen unread.count buf.new) }
    ensures reads { IfOk result (λ got. ReadsOn (F.remaining file.old) (F.remaining file.new) got buf.new) }
{
    let mut count = 0;
    while count < buf.len() {
        match file.read(&mut buf[count..]) {
            Ok(0) => return Ok(Got { count, ended: true }),
            Ok(n) => count += n,
            Err(why) => return Err(Unread {
                told: tell(rt, path, why),
                count,
            }),
        }
    }
    Ok(Got {
        count,
        ended: false,
    })
}

// The next part of a file, until the buffer is full: a file larger than memory is read by parts. The path names a failure.
pub fn read_part<F: Read>(
    rt: &impl Eprint,
    file: &mut Option<F>,
    path: &str,
    buf: &mut [u8],
) -> Result<Got, Unread>
    ensures filled { IfOk result (λ got. Filled got buf.new) }
    ensures failed { IfErr result (λ unread. IsPrefixLen unread.count buf.new) }
    ensures missing { IsNone file.old → IsOk result }
    ensures reads { IfOk result (λ got. ReadsOn (left F.remaining file.old) (left F.remaining file.new) got buf.new) }
{
    match file {
        Some(file) => read_full(rt, file, path, buf),
        None => Ok(Got {
            count: 0,
            ended: true,
        }),
    }
}

// Closes a file, as a program over many files would run out of them; a missing file has nothing to close.
pub fn close<F: Drop>(file: Option<F>) {
    drop(file);
}

// The first bytes of a file, at most as many as there is room for.
pub fn load(rt: &(impl Files + Eprint), path: &str, buf: &mut [u8]) -> Result<Got, Unread>
    ensures filled { IfOk result (λ got. Filled got buf.new) }
    ensures failed { IfErr result (λ unread. IsPrefixLen unread.count buf.new) }
{
    let mut file = match open(rt, path) {
        Ok(file) => file,
        Err(told) => return Err(Unread { told, count: 0 }),
    };
    let got = read_part(rt, &mut file, path, buf);
    close(file);
    got
}

// Writes to standard output, or tells the failure.
pub fn print(rt: &(impl Print + Eprint), text: &[u8]) -> Result<(), Told> {
    rt.write_all(text).map_err(|why| tell(rt, "write", why))
}
