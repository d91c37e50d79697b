// Prints the sheet of a night from the files size.rec, cues.rec and turns.rec. What is printed is made by the proved functions of `tell`,
// `text`, `cues` and `fresh`; files are read and lines written by `files`; here these are only called.
#![tactic(auto)]

ghost use Rattle.std.specs.Prelude.{◌≡◌, true, ◌*◌, ◌≤◌, IfOk, length};
ghost use Rattle.std.specs.Result.{OnErr};
ghost use Rattle.model.specs.InUse.{tables_of, card_of};
ghost use Rattle.model.specs.Size.{size_fits};
ghost use Rattle.model.specs.Cues.{lists_fit};
ghost use Rattle.tell.specs.Cut.{cues_read};
ghost use Rattle.tell.specs.Cues.{loaded};
ghost use Rattle.sheet.specs.Night.{Played, PartReady, PartDone, RackReady, LogsReady, NightReady};
ghost use Rattle.sheet.specs.Cut.{CuesOf};

use files::Told;
use model::{Rack, Size};
use std::io::Read;
use std::rt::Files;
use tell::BadCue;
use text::Page;

// How many bytes of size.rec are read: one more than "4 bytes", so that a longer file is seen.
const GIVEN: usize = 5;

// How many bytes of cues.rec are read: `cues_read` says why no more.
const CUES: usize = 8200;

// How many bytes of turns.rec are read at a time: 512 records.
const PART: usize = 4 * 512;

// 2^52 parts are 2^63 bytes, more than a file can have: so the loop over them has an end.
const PARTS: u64 = 4_503_599_627_370_496;

// The bytes of a lane's cue list: "at most 64 each", 2 bytes for a code.
const LIST: usize = 128;

// The cue lists of the largest size: 8 racks, 4 lanes.
const LISTS: usize = 8 * 4 * LIST;

// The cells of the largest size: 24 bytes for each of 8 racks, 4 lanes and 64 rounds.
const CELLS: usize = 24 * 8 * 4 * 64;

// The logs of the largest size: 2 bytes for each of 8 racks, 4 lanes and 64 rounds.
const LOGS: usize = 2 * 8 * 4 * 64;

// The decisions of the largest size: a byte for each of 4 lanes and 64 rounds.
const DECISIONS: usize = 4 * 64;

// Room for any line: `line_most` bounds them all.
const LINE: usize = 128;

// Room for what is printed at once: a line of each record of a part, or the 65 lines of a log.
const OUT: usize = 512 * LINE;

// The night so far: the racks, and how many turns were read and taken.
#[derive(Clone, Copy)]
struct Night {
    racks: [Rack; 8],
    read: u64,
    taken: u64,
}

// One part of turns.rec read, played and told; whether the file has ended.
fn play_some(
    rt: &(impl Print + Eprint),
    file: &mut Option<impl Read>,
    size: Size,
    cells: &mut [u8],
    logs: &mut [u8],
    decisions: &mut [u8],
    night: &mut Night,
    out: &mut [u8; OUT],
) -> Result<bool, Told>
    requires { PartReady size (card_of cells.old logs.old decisions.old night.old.racks) night.old.read night.old.taken }
    ensures { PartDone size (card_of cells.new logs.new decisions.new night.new.racks) night.old.read night.new.read night.new.taken }
{
    let mut buf = [0; PART];
    let got = files::read_part(rt, file, "turns.rec", &mut buf)?;
    let part = &buf[..got.count];
    let told = tell::tell_turns(
        size,
        cells,
        logs,
        decisions,
        night.racks,
        part,
        night.read,
        out,
    );
    // the prover follows an array into a field from a variable only
    let racks = told.racks;
    night.racks = racks;
    night.read += tell::records_in(part);
    night.taken += told.taken;
    files::print(rt, &out[..told.place])?;
    Ok(got.ended)
}

// All of turns.rec, part by part.
fn play_all(
    rt: &(impl Print + Eprint),
    file: &mut Option<impl Read>,
    size: Size,
    cells: &mut [u8],
    logs: &mut [u8],
    decisions: &mut [u8],
    night: &mut Night,
    out: &mut [u8; OUT],
) -> Result<(), Told>
    requires { (night.old.read ≡ 0) × PartReady size (card_of cells.old logs.old decisions.old night.old.racks) night.old.read night.old.taken }
    ensures { Played size (card_of cells.new logs.new decisions.new night.new.racks) night.new.read night.new.taken }
{
    for _ in 0..PARTS {
        if play_some(rt, file, size, cells, logs, decisions, night, out)? {
            break;
        }
    }
    Ok(())
}

// The logs of one rack.
fn print_rack(
    rt: &(impl Print + Eprint),
    size: Size,
    logs: &[u8],
    lists: &[u8],
    rack: usize,
    finished: usize,
    out: &mut [u8; OUT],
) -> Result<(), Told>
    requires { RackReady size logs.now lists.now rack }
{
    for lane in 0..size.lanes {
        let place = tell::tell_log(size, logs, lists, rack, lane, finished, out);
        files::print(rt, &out[..place])?;
    }
    Ok(())
}

// "then for each rack and lane"
fn print_racks(
    rt: &(impl Print + Eprint),
    size: Size,
    logs: &[u8],
    lists: &[u8],
    racks: [Rack; 8],
    out: &mut [u8; OUT],
) -> Result<(), Told>
    requires { LogsReady size logs.now lists.now racks }
{
    for rack in 0..size.racks {
        let finished = usize::from(racks[rack].round) - 1;
        print_rack(rt, size, logs, lists, rack, finished, out)?;
    }
    Ok(())
}

// Opens turns.rec and prints "the size line".
fn start<R: Files + Print + Eprint>(rt: &R, size: Size) -> Result<Option<R::File>, Told> {
    let file = files::open(rt, "turns.rec")?;
    let mut page = Page::<LINE>::new();
    page.size_line(size);
    files::print(rt, page.text())?;
    Ok(file)
}

// What is printed when all turns are played: "a line of turns read, taken and refused", and the logs.
fn print_played(
    rt: &(impl Print + Eprint),
    size: Size,
    logs: &[u8],
    lists: &[u8],
    night: Night,
    out: &mut [u8; OUT],
) -> Result<(), Told>
    requires { (night.taken ≤ night.read) × LogsReady size logs.now lists.now night.racks }
{
    let mut page = Page::<LINE>::new();
    page.turns_line(night.read, night.taken, night.read - night.taken);
    files::print(rt, page.text())?;
    print_racks(rt, size, logs, lists, night.racks, out)
}

// The night played and told, behind the size line.
fn print_night(
    rt: &(impl Print + Eprint),
    file: &mut Option<impl Read>,
    size: Size,
    cells: &mut [u8],
    logs: &mut [u8],
    decisions: &mut [u8],
    lists: &[u8],
) -> Result<(), Told>
    requires { NightReady size (tables_of cells.old logs.old decisions.old) lists.now }
{
    let Ok(racks) = fresh::fresh(size, cells, logs, decisions) else {
        unreachable!();
    };
    let mut night = Night {
        racks,
        read: 0,
        taken: 0,
    };
    let mut out = [0; OUT];
    play_all(rt, file, size, cells, logs, decisions, &mut night, &mut out)?;
    print_played(rt, size, logs, lists, night, &mut out)
}

// The tables of a size, on the stack.
#[tactic(auto, using(crate::proofs::Sizes::few_records, crate::proofs::Sizes::few_rows, crate::proofs::Sizes::tables_fit, crate::proofs::Parts::part_length))]
fn print_sheet(
    rt: &(impl Print + Eprint),
    file: &mut Option<impl Read>,
    size: Size,
    lists: &[u8],
) -> Result<(), Told>
    requires { (size_fits size ≡ true) × (lists_fit size.racks size.lanes lists.now ≡ true) }
{
    let mut cells = [0; CELLS];
    let mut logs = [0; LOGS];
    let mut decisions = [0; DECISIONS];
    let records = sizes::records(size);
    let cells = &mut cells[..24 * records];
    let logs = &mut logs[..2 * records];
    let decisions = &mut decisions[..size.rounds * size.lanes];
    print_night(rt, file, size, cells, logs, decisions, lists)
}

// "the first bad cue record prints `bad cues` and its index from 0, alone"
fn print_bad_cues(rt: &(impl Print + Eprint), index: u64) -> Result<(), Told> {
    let mut page = Page::<LINE>::new();
    page.bad_cues(index);
    files::print(rt, page.text())
}

// "prints `bad size` alone"
fn print_bad_size(rt: &(impl Print + Eprint)) -> Result<(), Told> {
    let mut page = Page::<LINE>::new();
    page.bad_size();
    files::print(rt, page.text())
}

// The cues listed from as much of cues.rec as the room takes: with that much these are the cues of the whole file.
#[tactic(auto, using(crate::proofs::Cut::cues_of_is))]
fn load_cues(
    rt: &(impl Files + Eprint),
    size: Size,
    lists: &mut [u8],
) -> Result<Result<u64, BadCue>, Told>
    ensures listed { IfOk result (λ cues. CuesOf size.racks size.lanes lists.old (loaded cues lists.new)) }
    ensures failed { OnErr result (lists.new ≡ lists.old) }
{
    let mut room = [0; CUES];
    let got = files::load(rt, "cues.rec", &mut room)?;
    Ok(tell::tell_cues(size.racks, size.lanes, lists, &room[..got.count]))
}

// The cues listed in the lists lent, then the sheet.
#[tactic(auto, using(crate::proofs::Sizes::lists_fit_is))]
fn print_listed(
    rt: &(impl Files + Print + Eprint),
    size: Size,
    lists: &mut [u8],
) -> Result<(), Told>
    requires { (size_fits size ≡ true) × (length lists.old ≡ 128 * (size.racks * size.lanes)) }
{
    if let Err(bad) = load_cues(rt, size, lists)? {
        return print_bad_cues(rt, bad.index);
    }
    let mut file = start(rt, size)?;
    print_sheet(rt, &mut file, size, lists)
}

// The cue lists of a size, on the stack.
#[tactic(auto, using(crate::proofs::Sizes::few_lists, crate::proofs::Parts::part_length))]
fn print_all(rt: &(impl Files + Print + Eprint), size: Size) -> Result<(), Told>
    requires { size_fits size ≡ true }
{
    let mut lists = [0; LISTS];
    let lists = &mut lists[..LIST * (size.racks * size.lanes)];
    print_listed(rt, size, lists)
}

// What is printed of the three files.
#[tactic(auto, using(crate::proofs::Sizes::given_four, crate::proofs::Sizes::given_fits))]
fn print_files(rt: &(impl Files + Print + Eprint)) -> Result<(), Told> {
    let mut given = [0; GIVEN];
    let got = files::load(rt, "size.rec", &mut given)?;
    let given = &given[..got.count];
    if !tell::size_given(given) {
        return print_bad_size(rt);
    }
    print_all(rt, tell::size_of(given))
}

fn main(rt: HostRuntime) {
    // a failure has been told where it happened: the exit status is 0 always
    let _ = print_files(&rt);
}
