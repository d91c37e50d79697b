// What a firmware links, for Rattle: the public calls under their C names; `ports_c` exports each of them. Sizes are whole numbers, so that every
// one can be handed over and is judged by the call below; the eight racks cross in a struct, since an exported function takes no bare array.
#![tactic(auto)]

ghost use Rattle.std.specs.Prelude.{◌≡◌};
ghost use Rattle.model.specs.InUse.{logs_of, tables_of, card_of, outcome};
ghost use Rattle.model.specs.Refusal.{reply_number, reply_or};
ghost use Rattle.model.specs.Turn.{turned, soundness};
ghost use Rattle.model.specs.Fresh.{filled};
ghost use Rattle.model.specs.Logs.{log_entry, agree};
ghost use Rattle.model.specs.Cues.{add_cue, code_of};
ghost use Rattle.ports.specs.Told.{entry_told, agree_told, longer_told, code_told};

use model::{Rack, Refusal, Size};

// "The rack states are one fixed array of eight"
#[repr(C)]
#[derive(Clone, Copy, Debug, Default, PartialEq, Eq)]
pub struct Racks {
    pub rack: [Rack; 8],
}

// What a call that works on the racks hands back: 0 or the refusal's number, and the eight racks.
#[repr(C)]
#[derive(Clone, Copy, Debug, Default, PartialEq, Eq)]
pub struct Answer {
    pub number: u8,
    pub racks: Racks,
}

// What a log query answers: 0, the issuer and the cue's number; or the refusal's number and zeros.
#[repr(C)]
#[derive(Clone, Copy, Debug, Default, PartialEq, Eq)]
pub struct EntryAnswer {
    pub number: u8,
    pub issuer: u8,
    pub cue: u8,
}

// Which log is the longer: 0 the first, 1 the second, 2 if they do not agree; and the length in bytes of what `longer` hands back.
#[repr(C)]
#[derive(Clone, Copy, Debug, Default, PartialEq, Eq)]
pub struct LongerAnswer {
    pub which: u8,
    pub length: usize,
}

// What a query for a cue's code answers: 0 and the code; or the refusal's number and 0.
#[repr(C)]
#[derive(Clone, Copy, Debug, Default, PartialEq, Eq)]
pub struct CodeAnswer {
    pub number: u8,
    pub code: u16,
}

// 0, or the refusal's number.
fn number_of(reply: Result<(), Refusal>) -> u8
    ensures { result ≡ reply_number reply }
{
    match reply {
        Ok(()) => 0,
        Err(refusal) => refusal.into(),
    }
}

// Fills the three tables and hands back the racks, over `fresh::fresh`.
pub fn night_fresh(
    n: usize,
    k: usize,
    rounds: usize,
    cells: &mut [u8],
    logs: &mut [u8],
    decisions: &mut [u8],
) -> Answer
    ensures { outcome result.number cells.new logs.new decisions.new result.racks.rack
        ≡ filled (record { racks = n; lanes = k; rounds = rounds }) (tables_of cells.old logs.old decisions.old) }
{
    let size = Size {
        racks: n,
        lanes: k,
        rounds,
    };
    let filled = fresh::fresh(size, cells, logs, decisions);
    match filled {
        Ok(rack) => Answer {
            number: 0,
            racks: Racks { rack },
        },
        Err(refusal) => Answer {
            number: refusal.into(),
            racks: Racks {
                rack: [Rack::default(); 8],
            },
        },
    }
}

// The soundness test, over `card::sound`: 0, 1 or 2.
pub fn night_sound(
    n: usize,
    k: usize,
    rounds: usize,
    cells: &[u8],
    logs: &[u8],
    decisions: &[u8],
    racks: Racks,
) -> u8
    ensures { result ≡ soundness (record { racks = n; lanes = k; rounds = rounds })
        (card_of cells.now logs.now decisions.now racks.rack) }
{
    let size = Size {
        racks: n,
        lanes: k,
        rounds,
    };
    number_of(card::sound(size, cells, logs, decisions, racks.rack))
}

// One turn, over `card::turn`.
pub fn night_turn(
    n: usize,
    k: usize,
    rounds: usize,
    cells: &mut [u8],
    logs: &mut [u8],
    decisions: &mut [u8],
    racks: Racks,
    turn: &[u8],
) -> Answer
    ensures { outcome result.number cells.new logs.new decisions.new result.racks.rack
        ≡ turned (record { racks = n; lanes = k; rounds = rounds })
        (card_of cells.old logs.old decisions.old racks.rack) turn.now }
{
    let size = Size {
        racks: n,
        lanes: k,
        rounds,
    };
    let turned = card::turn(size, cells, logs, decisions, racks.rack, turn);
    match turned {
        Ok(rack) => Answer {
            number: 0,
            racks: Racks { rack },
        },
        Err(refusal) => Answer {
            number: refusal.into(),
            racks,
        },
    }
}

// The log query, over `entry::log_entry`.
pub fn night_log_entry(
    n: usize,
    k: usize,
    rounds: usize,
    logs: &[u8],
    rack: usize,
    lane: usize,
    place: usize,
) -> EntryAnswer
    ensures { result ≡ entry_told (log_entry (record { racks = n; lanes = k; rounds = rounds }) (logs_of logs.now) rack lane place) }
{
    let size = Size {
        racks: n,
        lanes: k,
        rounds,
    };
    match entry::log_entry(size, logs, rack, lane, place) {
        Ok(cue) => EntryAnswer {
            number: 0,
            issuer: cue.issuer,
            cue: cue.number,
        },
        Err(refusal) => EntryAnswer {
            number: refusal.into(),
            issuer: 0,
            cue: 0,
        },
    }
}

// Whether two logs agree, over `compare::agree`: 1 or 0.
pub fn night_agree(a: &[u8], b: &[u8]) -> u8
    ensures { result ≡ agree_told (agree a.now b.now) }
{
    u8::from(compare::agree(a, b))
}

// Which of two logs `compare::longer` hands back, and its length.
pub fn night_longer<'a>(a: &'a [u8], b: &'a [u8]) -> LongerAnswer
    ensures { result ≡ longer_told a.now b.now }
{
    if !compare::agree(a, b) {
        return LongerAnswer {
            which: 2,
            length: 0,
        };
    }
    let length = compare::longer(a, b).len();
    if a.len() < b.len() {
        return LongerAnswer { which: 1, length };
    }
    LongerAnswer { which: 0, length }
}

// A cue record added to the lists, over `cues::add_cue`: 0 or the refusal's number.
pub fn night_add_cue(n: usize, k: usize, lists: &mut [u8], cue: &[u8]) -> u8
    ensures { record { number = result; lists = lists.new } ≡ add_cue n k lists.old cue.now }
{
    number_of(cues::add_cue(n, k, lists, cue))
}

// The code of a rack's and lane's cue, over `cues::code_of`.
pub fn night_code_of(
    n: usize,
    k: usize,
    lists: &[u8],
    rack: usize,
    lane: usize,
    cue: usize,
) -> CodeAnswer
    ensures { result ≡ code_told (code_of n k lists.now rack lane cue) }
{
    match cues::code_of(n, k, lists, rack, lane, cue) {
        Ok(code) => CodeAnswer { number: 0, code },
        Err(refusal) => CodeAnswer {
            number: refusal.into(),
            code: 0,
        },
    }
}
