// The sheet's work on lent buffers: what `sheet` reads is judged, played and told here, and its functions only read, call and write.
#![tactic(auto)]

ghost use Rattle.std.specs.Prelude.{◌≡◌, ◌≤◌, length};
ghost use Rattle.model.specs.InUse.{card_of, logs_of};
ghost use Rattle.model.specs.Sheet.{size_of, size_given, load_cues};
ghost use Rattle.model.specs.Night.{pieces};
ghost use Rattle.text.specs.Written.{write};
ghost use Rattle.tell.specs.Cues.{loaded};
ghost use Rattle.tell.specs.Turns.{TurnsReady, tell_turns};
ghost use Rattle.tell.specs.Log.{EntriesReady, LogReady, entries_text, log_text};

use model::{Rack, Refusal, Size, logs};

// A record is 4 bytes.
const RECORD: usize = 4;

// "size.rec (4 bytes: n, k, R, 0)"
pub fn size_of(bytes: &[u8]) -> Size
    requires { 4 ≤ length bytes.now }
    ensures { result ≡ size_of bytes.now }
{
    Size {
        racks: bytes[0].into(),
        lanes: bytes[1].into(),
        rounds: bytes[2].into(),
    }
}

// "A size.rec that is not 4 bytes, has a size out of range or a last byte not zero": false for these.
#[tactic(auto, unfolding(model::specs::Sheet::size_given))]
pub fn size_given(bytes: &[u8]) -> bool
    ensures { result ≡ size_given bytes.now }
{
    bytes.len() == RECORD && sizes::size_fits(size_of(bytes)) && bytes[3] == 0
}

// How many records a part of turns.rec has, the last one perhaps short.
#[tactic(auto, using(turns::proofs::Pieces::pieces_count))]
pub fn records_in(bytes: &[u8]) -> u64
    ensures { result ≡ length (pieces bytes.now) }
{
    bytes.len().div_ceil(RECORD) as u64
}

// A cue record that is refused, and its index.
#[derive(Clone, Copy, Debug, PartialEq, Eq)]
pub struct BadCue {
    pub refusal: Refusal,
    pub index: u64,
}

// The cue records one after the other, to the first bad one: "the first bad cue record prints `bad cues` and its index from 0". How many there
// were, if none is bad.
pub fn tell_cues(racks: usize, lanes: usize, lists: &mut [u8], bytes: &[u8]) -> Result<u64, BadCue>
    ensures { loaded result lists.new ≡ load_cues racks lanes lists.old 0 (pieces bytes.now) }
{
    let mut index = 0;
    let mut at = 0;
    while at < bytes.len() {
        let end = turns::place_behind(bytes, at);
        if let Err(refusal) = cues::add_cue(racks, lanes, lists, &bytes[at..end]) {
            return Err(BadCue { refusal, index });
        }
        index += 1;
        at = end;
    }
    Ok(index)
}

// "under it each entry: place, issuer, number, code", for the first `count` entries of a log, from the place `at` of the buffer on.
fn tell_entries(
    lanes: usize,
    logs: &[u8],
    lists: &[u8],
    start: usize,
    lane: usize,
    count: usize,
    at: usize,
    out: &mut [u8],
) -> usize
    requires { EntriesReady lanes logs.now lists.now start lane count at out.old }
    ensures { record { bytes = out.new; place = result }
        ≡ write out.old at (entries_text lanes lists.now (logs_of logs.now) start lane count) }
{
    let mut end = at;
    for place in 0..count {
        let cue = logs::entry(logs, start + place);
        let issuer = usize::from(cue.issuer);
        let number = usize::from(cue.number);
        let code = cues::code_in(lanes, lists, issuer, lane, number);
        end = text::entry_line(out, end, place, cue.issuer, cue.number, code);
    }
    end
}

// "then for each rack and lane `log`, rack, lane, `finished` rounds, `length`, and under it each entry": one log, told from the buffer's start on.
pub fn tell_log(
    size: Size,
    logs: &[u8],
    lists: &[u8],
    rack: usize,
    lane: usize,
    finished: usize,
    out: &mut [u8],
) -> usize
    requires { LogReady size logs.now lists.now rack lane out.old }
    ensures { record { bytes = out.new; place = result }
        ≡ write out.old 0 (log_text size lists.now (logs_of logs.now) rack lane finished) }
{
    let start = logs::log_start(size, rack, lane);
    let count = logs::length_from(logs, start, size.rounds);
    let at = text::log_line(out, 0, rack, lane, finished, count);
    tell_entries(size.lanes, logs, lists, start, lane, count, at, out)
}

// What telling turns hands back: the racks, the place behind the lines written, and how many turns were taken.
#[derive(Clone, Copy, Debug)]
pub struct Told {
    pub racks: [Rack; 8],
    pub place: usize,
    pub taken: u64,
}

// "for each refused turn `refused`, its index from 0, its number": plays a part of turns.rec, whose first record has the index given, and
// writes the refused lines from the buffer's start on. Soundness is not tested between turns: a turn keeps it.
pub fn tell_turns(
    size: Size,
    cells: &mut [u8],
    logs: &mut [u8],
    decisions: &mut [u8],
    mut racks: [Rack; 8],
    bytes: &[u8],
    index: u64,
    out: &mut [u8],
) -> Told
    requires { TurnsReady size (card_of cells.old logs.old decisions.old racks) bytes.now out.old index }
    ensures { record {
      card = card_of cells.new logs.new decisions.new result.racks;
      text = record { bytes = out.new; place = result.place };
      taken = result.taken;
    }
        ≡ tell_turns size (card_of cells.old logs.old decisions.old racks)
        out.old 0 index 0 (pieces bytes.now) }
{
    let mut place = 0;
    let mut taken = 0;
    let mut number = index;
    let mut at = 0;
    while at < bytes.len() {
        let next = turns::place_behind(bytes, at);
        let turn = &bytes[at..next];
        let told = number;
        number += 1;
        at = next;
        let rack = play::rack_named(size, turn);
        match play::play_rack(size, cells, logs, decisions, racks[rack], turn) {
            Ok(after) => {
                racks[rack] = after;
                taken += 1;
            }
            Err(refusal) => place = text::refused_line(out, place, told, refusal.into()),
        }
    }
    Told {
        racks,
        place,
        taken,
    }
}
