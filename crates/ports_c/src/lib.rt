// What a firmware links: the exports of libports.a, one for each call of `ports`, with its clause.
#![tactic(auto)]

ghost use Rattle.std.specs.Prelude.{◌≡◌};
ghost use Rattle.model.specs.InUse.{logs_of, tables_of, card_of, outcome};
ghost use Rattle.model.specs.Turn.{turned, soundness};
ghost use Rattle.model.specs.Fresh.{filled};
ghost use Rattle.model.specs.Logs.{log_entry, agree};
ghost use Rattle.model.specs.Cues.{add_cue, code_of};
ghost use Rattle.ports.specs.Told.{entry_told, agree_told, longer_told, code_told};

use ports::{Answer, CodeAnswer, EntryAnswer, LongerAnswer, Racks};

// `ports::night_fresh`.
#[unsafe(no_mangle)]
pub extern "C" fn night_fresh(
    n: usize,
    k: usize,
    rounds: usize,
    cells: &mut [u8],
    logs: &mut [u8],
    decisions: &mut [u8],
) -> Answer
    ensures { outcome result.number cells.new logs.new decisions.new result.racks.rack
        ≡ filled (record { racks = n; lanes = k; rounds = rounds }) (tables_of cells.old logs.old decisions.old) }
{
    ports::night_fresh(n, k, rounds, cells, logs, decisions)
}

// `ports::night_sound`.
#[unsafe(no_mangle)]
pub extern "C" fn night_sound(
    n: usize,
    k: usize,
    rounds: usize,
    cells: &[u8],
    logs: &[u8],
    decisions: &[u8],
    racks: Racks,
) -> u8
    ensures { result ≡ soundness (record { racks = n; lanes = k; rounds = rounds })
        (card_of cells.now logs.now decisions.now racks.rack) }
{
    ports::night_sound(n, k, rounds, cells, logs, decisions, racks)
}

// `ports::night_turn`.
#[unsafe(no_mangle)]
pub extern "C" fn night_turn(
    n: usize,
    k: usize,
    rounds: usize,
    cells: &mut [u8],
    logs: &mut [u8],
    decisions: &mut [u8],
    racks: Racks,
    turn: &[u8],
) -> Answer
    ensures { outcome result.number cells.new logs.new decisions.new result.racks.rack
        ≡ turned (record { racks = n; lanes = k; rounds = rounds })
        (card_of cells.old logs.old decisions.old racks.rack) turn.now }
{
    ports::night_turn(n, k, rounds, cells, logs, decisions, racks, turn)
}

// `ports::night_log_entry`.
#[unsafe(no_mangle)]
pub extern "C" fn night_log_entry(
    n: usize,
    k: usize,
    rounds: usize,
    logs: &[u8],
    rack: usize,
    lane: usize,
    place: usize,
) -> EntryAnswer
    ensures { result ≡ entry_told (log_entry (record { racks = n; lanes = k; rounds = rounds }) (logs_of logs.now) rack lane place) }
{
    ports::night_log_entry(n, k, rounds, logs, rack, lane, place)
}

// `ports::night_agree`.
#[unsafe(no_mangle)]
pub extern "C" fn night_agree(a: &[u8], b: &[u8]) -> u8
    ensures { result ≡ agree_told (agree a.now b.now) }
{
    ports::night_agree(a, b)
}

// `ports::night_longer`.
#[unsafe(no_mangle)]
pub extern "C" fn night_longer<'a>(a: &'a [u8], b: &'a [u8]) -> LongerAnswer
    ensures { result ≡ longer_told a.now b.now }
{
    ports::night_longer(a, b)
}

// `ports::night_add_cue`.
#[unsafe(no_mangle)]
pub extern "C" fn night_add_cue(n: usize, k: usize, lists: &mut [u8], cue: &[u8]) -> u8
    ensures { record { number = result; lists = lists.new } ≡ add_cue n k lists.old cue.now }
{
    ports::night_add_cue(n, k, lists, cue)
}

// `ports::night_code_of`.
#[unsafe(no_mangle)]
pub extern "C" fn night_code_of(
    n: usize,
    k: usize,
    lists: &[u8],
    rack: usize,
    lane: usize,
    cue: usize,
) -> CodeAnswer
    ensures { result ≡ code_told (code_of n k lists.now rack lane cue) }
{
    ports::night_code_of(n, k, lists, rack, lane, cue)
}
