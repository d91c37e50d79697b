// The inner turn: a turn on tables that are known to be sound.
#![tactic(auto)]

ghost use Rattle.std.specs.Prelude.{◌≡◌, false};
ghost use Rattle.model.specs.InUse.{tables_of, card_of, after_of, outcome};
ghost use Rattle.model.specs.Refusal.{reply_number, reply_or};
ghost use Rattle.model.specs.Turn.{bad_record, rack_of, turned};
ghost use Rattle.step.specs.Ready.{Tested};
ghost use Rattle.play.specs.Playable.{Playable};
ghost use Rattle.play.specs.Rack.{rack_named, rack_turned};

use model::{Rack, Refusal, Size};

// "turn not 4 bytes, last byte not zero, or rack at or above n"
#[tactic(auto, unfolding(model::specs::Turn::bad_record))]
fn bad_record(size: Size, turn: &[u8]) -> bool
    ensures { result ≡ bad_record size turn.now }
{
    turn.len() != 4 || turn[3] != 0 || size.racks <= turn[0] as usize
}

// The rack that a record names, 0 where the record is bad.
#[tactic(auto, using(model::proofs::Turns::good), unfolding(crate::specs::Rack::rack_named))]
pub fn rack_named(size: Size, turn: &[u8]) -> usize
    ensures { result ≡ rack_named size turn.now }
{
    if bad_record(size, turn) {
        return 0;
    }
    turn[0] as usize
}

// One turn of the rack that its record names: refused with 3 to 8 and nothing changed, or taken, with the rack afterwards.
#[tactic(auto, using(model::proofs::Turns::good, model::proofs::Refusals::not_zero, crate::proofs::Turned::act_ready), unfolding(crate::specs::Rack::rack_turned))]
pub fn play_rack(
    size: Size,
    cells: &mut [u8],
    logs: &mut [u8],
    decisions: &mut [u8],
    r: Rack,
    turn: &[u8],
) -> Result<Rack, Refusal>
    requires { bad_record size turn.now ≡ false → Tested size (tables_of cells.old logs.old decisions.old) (rack_of turn.now) r }
    ensures { record { number = reply_number result; after = after_of cells.new logs.new decisions.new (reply_or r result) }
        ≡ rack_turned size (tables_of cells.old logs.old decisions.old) r turn.now }
{
    if bad_record(size, turn) {
        return Err(Refusal::BadRecord);
    }
    let rack = turn[0] as usize;
    let lane = turn[1];
    let source = turn[2];
    refusal::refusal_of(cells, logs, decisions, size, rack, r, lane, source)?;
    Ok(step::act(cells, logs, decisions, size, rack, r, lane, source))
}

// One turn: refused with 3 to 8 and nothing changed, or taken, with one of the eight racks replaced.
pub fn play(
    size: Size,
    cells: &mut [u8],
    logs: &mut [u8],
    decisions: &mut [u8],
    mut racks: [Rack; 8],
    turn: &[u8],
) -> Result<[Rack; 8], Refusal>
    requires { Playable size (card_of cells.old logs.old decisions.old racks) }
    ensures { outcome (reply_number result) cells.new logs.new decisions.new (reply_or racks result)
        ≡ turned size (card_of cells.old logs.old decisions.old racks) turn.now }
{
    let rack = rack_named(size, turn);
    let after = play_rack(size, cells, logs, decisions, racks[rack], turn)?;
    racks[rack] = after;
    Ok(racks)
}
