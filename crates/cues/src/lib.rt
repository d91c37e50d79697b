// Cue lists in a lent table: 2-byte records of a code, low byte first, 64 for each rack and lane.
#![tactic(auto)]

ghost use Rattle.std.specs.Prelude.{◌≡◌, [], ◌∷◌, ◌+◌, ◌*◌, ◌≤◌, ◌<◌, ◌^◌, length};
ghost use Rattle.std.proofs.lemmas.List.Edits.{sets};
ghost use Rattle.model.specs.Refusal.{numbered, reply_number, reply_or};
ghost use Rattle.model.specs.Cues.{lists_fit, list_start, code_at, code_in, coded, code_of, add_cue};
ghost use Rattle.cues.specs.Adding.{out_of_range, Placed, list_cue};

use model::{Refusal, logs};

// "at most 64 each"
const MOST: usize = 64;

// Racks and lanes in range, and the length exact.
#[tactic(auto, unfolding(model::specs::Cues::lists_fit, model::specs::Cues::lists_length))]
fn lists_fit(racks: usize, lanes: usize, lists: &[u8]) -> bool
    ensures { result ≡ lists_fit racks lanes lists.now }
{
    (1..=8).contains(&racks)
        && (1..=4).contains(&lanes)
        && lists.len() == 2 * (racks * lanes * MOST)
}

// The number of a list's first record.
#[tactic(auto, unfolding(model::specs::Cues::list_start))]
fn list_start(lanes: usize, rack: usize, lane: usize) -> usize
    requires { list_start lanes rack lane < 2 ^ 63 }
    ensures { result ≡ list_start lanes rack lane }
{
    (rack * lanes + lane) * MOST
}

// "code (low byte first)"
#[tactic(auto, unfolding(model::specs::Cues::code_at))]
fn code_at(lists: &[u8], at: usize) -> u16
    requires { 2 * at + 2 ≤ length lists.now }
    ensures { result ≡ code_at lists.now at }
{
    let b = 2 * at;
    u16::from_le_bytes([lists[b], lists[b + 1]])
}

// "a number past its list is an idle cue, code 0"
#[tactic(auto, using(model::proofs::Length::length_most), unfolding(model::specs::Cues::code_in))]
pub fn code_in(lanes: usize, lists: &[u8], rack: usize, lane: usize, number: usize) -> u16
    requires { 2 * (list_start lanes rack lane + 64) ≤ length lists.now }
    ensures { result ≡ code_in lanes lists.now rack lane number }
{
    let start = list_start(lanes, rack, lane);
    match number.checked_sub(1) {
        Some(i) if i < logs::length_from(lists, start, MOST) => code_at(lists, start + i),
        _ => 0,
    }
}

// The code of a rack's and lane's cue: "The code is looked up when a sheet is printed".
#[tactic(auto, using(crate::proofs::Lists::list_within), unfolding(model::specs::Cues::coded, model::specs::Cues::code_of))]
pub fn code_of(
    racks: usize,
    lanes: usize,
    lists: &[u8],
    rack: usize,
    lane: usize,
    number: usize,
) -> Result<u16, Refusal>
    ensures { (record { number = reply_number result; code = reply_or 0 result } ≡ coded racks lanes lists.now rack lane number)
        × (numbered result ≡ code_of racks lanes lists.now rack lane number) }
{
    if !lists_fit(racks, lanes, lists) {
        return Err(Refusal::Misfit);
    }
    if racks <= rack || lanes <= lane {
        return Err(Refusal::NotThere);
    }
    Ok(code_in(lanes, lists, rack, lane, number))
}

// "rack, lane or code out of range .. or a short record"
#[tactic(auto, unfolding(crate::specs::Adding::out_of_range))]
fn out_of_range(racks: usize, lanes: usize, cue: &[u8]) -> bool
    ensures { result ≡ out_of_range racks lanes cue.now }
{
    match cue {
        &[rack, lane, low, high] => {
            racks <= usize::from(rack) || lanes <= usize::from(lane) || (low == 0 && high == 0)
        }
        _ => true,
    }
}

// Writes one code.
fn write_code(lists: &mut [u8], at: usize, low: u8, high: u8)
    requires { 2 * at + 2 ≤ length lists.old }
    ensures { lists.new ≡ sets lists.old (2 * at) (low ∷ high ∷ []) }
{
    let b = 2 * at;
    lists[b] = low;
    lists[b + 1] = high;
}

// A cue record in range put at the end of its list: "The order of records gives the numbers within a rack and lane". "a 65th cue" is refused.
#[tactic(auto, unfolding(crate::specs::Adding::list_cue, model::specs::Cues::listed))]
fn list_cue(lanes: usize, lists: &mut [u8], cue: &[u8]) -> Result<(), Refusal>
    requires { Placed lanes lists.old cue.now }
    ensures { record { number = reply_number result; lists = lists.new } ≡ list_cue lanes lists.old cue.now }
{
    let start = list_start(lanes, usize::from(cue[0]), usize::from(cue[1]));
    let used = logs::length_from(lists, start, MOST);
    if MOST <= used {
        return Err(Refusal::BadCue);
    }
    write_code(lists, start + used, cue[2], cue[3]);
    Ok(())
}

// A cue record added to the lists. "lists stay as before" at a refusal.
#[tactic(auto, using(crate::proofs::Lists::list_within), unfolding(model::specs::Cues::add_cue, model::specs::Cues::bad_cue, crate::specs::Adding::list_cue, crate::specs::Adding::out_of_range))]
pub fn add_cue(racks: usize, lanes: usize, lists: &mut [u8], cue: &[u8]) -> Result<(), Refusal>
    ensures { record { number = reply_number result; lists = lists.new } ≡ add_cue racks lanes lists.old cue.now }
{
    if !lists_fit(racks, lanes, lists) {
        Err(Refusal::Misfit)
    } else if out_of_range(racks, lanes, cue) {
        Err(Refusal::BadCue)
    } else {
        list_cue(lanes, lists, cue)
    }
}
