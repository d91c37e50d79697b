// The lines of the sheet, each written into a lent buffer from a place on: a function hands back the place behind what it wrote. A page is such a
// buffer with its place, seen as the text written so far. The bytes are those of model's text definitions.
#![tactic(auto)]

ghost use Rattle.std.specs.Prelude.{◌≡◌, ◌++◌, [], ◌+◌, ◌≤◌, ◌<◌, length};
ghost use Rattle.laws.specs.Text.{decimal};
ghost use Rattle.model.specs.Sheet.{bad_size_line, bad_cues_line, size_line, refused_line, turns_line, log_line, entry_line};
ghost use Rattle.text.specs.Lines.{two_digits, ended, named, LineRoom, LineMore};
ghost use Rattle.text.specs.Written.{write, RoomFrom};

use model::Size;
use std::marker::Model;

// Bytes as they are: the words of a line, with what stands behind them.
fn word(out: &mut [u8], at: usize, w: &[u8]) -> usize
    requires { at + length w.now ≤ length out.old }
    ensures { record { bytes = out.new; place = result } ≡ write out.old at w.now }
{
    let end = at + w.len();
    out[at..end].copy_from_slice(w);
    end
}

// The digit of a number below 10.
fn digit(x: u64) -> u8
    requires { x < 10 }
    ensures { result ≡ 48 + x }
{
    b'0' + x as u8
}

// A number below 100 with both its digits.
fn pair(out: &mut [u8], at: usize, x: u64) -> usize
    requires { (x < 100) × (at + 2 ≤ length out.old) }
    ensures { record { bytes = out.new; place = result } ≡ write out.old at (two_digits x) }
{
    out[at] = digit(x / 10);
    out[at + 1] = digit(x % 10);
    at + 2
}

// A number below 100 in decimal, with no needless zero.
fn short(out: &mut [u8], at: usize, x: u64) -> usize
    requires { (x < 100) × (at + 2 ≤ length out.old) }
    ensures { record { bytes = out.new; place = result } ≡ write out.old at (decimal x) }
{
    if x < 10 {
        out[at] = digit(x);
        return at + 1;
    }
    pair(out, at, x)
}

// A number in decimal, with no needless zeros: what stands before its last two digits, then these, so that no digit is written twice.
pub fn decimal(out: &mut [u8], at: usize, x: u64) -> usize
    requires { at + 20 ≤ length out.old }
    ensures { record { bytes = out.new; place = result } ≡ write out.old at (decimal x) }
{
    if x < 100 {
        return short(out, at, x);
    }
    let end = decimal(out, at, x / 100);
    pair(out, end, x % 100)
}

// A number and the byte behind it: a space or a newline.
fn ended(out: &mut [u8], at: usize, x: u64, end: u8) -> usize
    requires { at + 21 ≤ length out.old }
    ensures { record { bytes = out.new; place = result } ≡ write out.old at (ended x end) }
{
    let behind = decimal(out, at, x);
    out[behind] = end;
    behind + 1
}

// A word, a number and the byte behind it.
fn named(out: &mut [u8], at: usize, w: &[u8], x: u64, end: u8) -> usize
    requires { at + (length w.now + 21) ≤ length out.old }
    ensures { record { bytes = out.new; place = result } ≡ write out.old at (named w.now x end) }
{
    let behind = word(out, at, w);
    ended(out, behind, x, end)
}

// "prints `bad size` alone"
pub fn bad_size(out: &mut [u8], at: usize) -> usize
    requires { RoomFrom out.old at }
    ensures { record { bytes = out.new; place = result } ≡ write out.old at bad_size_line }
{
    word(out, at, b"bad size\n")
}

// "the first bad cue record prints `bad cues` and its index from 0, alone"
pub fn bad_cues(out: &mut [u8], at: usize, index: u64) -> usize
    requires { RoomFrom out.old at }
    ensures { record { bytes = out.new; place = result } ≡ write out.old at (bad_cues_line index) }
{
    named(out, at, b"bad cues ", index, b'\n')
}

// "the size line"
pub fn size_line(out: &mut [u8], at: usize, size: Size) -> usize
    requires { RoomFrom out.old at }
    ensures { record { bytes = out.new; place = result } ≡ write out.old at (size_line size) }
{
    let racks = size.racks as u64;
    let lanes = size.lanes as u64;
    let rounds = size.rounds as u64;
    let a = named(out, at, b"racks ", racks, b' ');
    let b = named(out, a, b"lanes ", lanes, b' ');
    named(out, b, b"rounds ", rounds, b'\n')
}

// "for each refused turn `refused`, its index from 0, its number"
pub fn refused_line(out: &mut [u8], at: usize, index: u64, number: u8) -> usize
    requires { RoomFrom out.old at }
    ensures { record { bytes = out.new; place = result } ≡ write out.old at (refused_line index number) }
{
    let a = named(out, at, b"refused ", index, b' ');
    ended(out, a, number as u64, b'\n')
}

// "a line of turns read, taken and refused"
pub fn turns_line(out: &mut [u8], at: usize, read: u64, taken: u64, refused: u64) -> usize
    requires { RoomFrom out.old at }
    ensures { record { bytes = out.new; place = result } ≡ write out.old at (turns_line read taken refused) }
{
    let a = named(out, at, b"turns ", read, b' ');
    let b = named(out, a, b"taken ", taken, b' ');
    named(out, b, b"refused ", refused, b'\n')
}

// "`log`, rack, lane, `finished` rounds, `length`"
pub fn log_line(
    out: &mut [u8],
    at: usize,
    rack: usize,
    lane: usize,
    finished: usize,
    length: usize,
) -> usize
    requires { RoomFrom out.old at }
    ensures { record { bytes = out.new; place = result } ≡ write out.old at (log_line rack lane finished length) }
{
    let a = named(out, at, b"log ", rack as u64, b' ');
    let b = ended(out, a, lane as u64, b' ');
    let c = named(out, b, b"finished ", finished as u64, b' ');
    named(out, c, b"length ", length as u64, b'\n')
}

// "each entry: place, issuer, number, code"
pub fn entry_line(
    out: &mut [u8],
    at: usize,
    place: usize,
    issuer: u8,
    number: u8,
    code: u16,
) -> usize
    requires { RoomFrom out.old at }
    ensures { record { bytes = out.new; place = result } ≡ write out.old at (entry_line place issuer number code) }
{
    let a = ended(out, at, place as u64, b' ');
    let b = ended(out, a, issuer as u64, b' ');
    let c = ended(out, b, number as u64, b' ');
    ended(out, c, code as u64, b'\n')
}

// The text written so far, of at most `N` bytes, with no heap.
#[derive(Drop)]
pub struct Page<const N: usize> {
    bytes: [u8; N],
    count: usize,
}

impl<const N: usize> Model for Page<N> {
    ghost use Rattle.std.specs.Prelude.{take, List, ℕ, ◌≤◌};

    ghost Value = { List ℕ };

    ghost view = { λ page. take page.count page.bytes };

    ghost invariant = { λ page. page.count ≤ N };
}

impl<const N: usize> Page<N> {
    // An empty page.
    pub fn new() -> Page<N>
        ensures { result ≡ [] }
    {
        Page {
            bytes: [0; N],
            count: 0,
        }
    }

    pub fn text(&self) -> &[u8]
        ensures { result.now ≡ self.now }
    {
        &self.bytes[..self.count]
    }

    pub fn clear(&mut self)
        ensures { self.new ≡ [] }
    {
        self.count = 0;
    }

    pub fn decimal(&mut self, x: u64)
        requires { length self.old + 20 ≤ N }
        ensures text { self.new ≡ self.old ++ decimal x }
        ensures near { length self.new ≤ length self.old + 20 }
    {
        self.count = decimal(&mut self.bytes, self.count, x);
    }

    pub fn bad_size(&mut self)
        requires { LineRoom N self.old }
        ensures text { self.new ≡ self.old ++ bad_size_line }
        ensures near { LineMore self.old self.new }
    {
        self.count = bad_size(&mut self.bytes, self.count);
    }

    pub fn bad_cues(&mut self, index: u64)
        requires { LineRoom N self.old }
        ensures text { self.new ≡ self.old ++ bad_cues_line index }
        ensures near { LineMore self.old self.new }
    {
        self.count = bad_cues(&mut self.bytes, self.count, index);
    }

    pub fn size_line(&mut self, size: Size)
        requires { LineRoom N self.old }
        ensures text { self.new ≡ self.old ++ size_line size }
        ensures near { LineMore self.old self.new }
    {
        self.count = size_line(&mut self.bytes, self.count, size);
    }

    pub fn refused_line(&mut self, index: u64, number: u8)
        requires { LineRoom N self.old }
        ensures text { self.new ≡ self.old ++ refused_line index number }
        ensures near { LineMore self.old self.new }
    {
        self.count = refused_line(&mut self.bytes, self.count, index, number);
    }

    pub fn turns_line(&mut self, read: u64, taken: u64, refused: u64)
        requires { LineRoom N self.old }
        ensures text { self.new ≡ self.old ++ turns_line read taken refused }
        ensures near { LineMore self.old self.new }
    {
        self.count = turns_line(&mut self.bytes, self.count, read, taken, refused);
    }

    pub fn log_line(&mut self, rack: usize, lane: usize, finished: usize, length: usize)
        requires { LineRoom N self.old }
        ensures text { self.new ≡ self.old ++ log_line rack lane finished length }
        ensures near { LineMore self.old self.new }
    {
        self.count = log_line(&mut self.bytes, self.count, rack, lane, finished, length);
    }

    pub fn entry_line(&mut self, place: usize, issuer: u8, number: u8, code: u16)
        requires { LineRoom N self.old }
        ensures text { self.new ≡ self.old ++ entry_line place issuer number code }
        ensures near { LineMore self.old self.new }
    {
        self.count = entry_line(&mut self.bytes, self.count, place, issuer, number, code);
    }
}
