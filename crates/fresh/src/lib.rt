// The public call that fills lent tables afresh and hands back the racks.
#![tactic(auto)]

ghost use Rattle.std.specs.Prelude.{◌≡◌, ◌<◌, replicate, ltb, cond};
ghost use Rattle.model.specs.InUse.{tables_of, outcome};
ghost use Rattle.model.specs.Record.{no_value};
ghost use Rattle.model.specs.Fresh.{table, own_first, fresh_rack, fresh_racks, zero_rack, filled};
ghost use Rattle.model.specs.Refusal.{reply_number, reply_or};

use model::{Cue, Rack, Refusal, Size, Value};
use std::array;

// What a fresh rack holds: "its own #1 at place 0 in each lane", and zeros in an unused lane.
#[tactic(auto, unfolding(model::specs::Fresh::table))]
fn fresh_held(size: Size, rack: u8) -> [Value; 4]
    ensures { result ≡ table 4 (λ lane. cond (ltb lane size.lanes) (own_first rack) no_value) }
{
    let own = Value {
        place: 0,
        cue: Cue {
            issuer: rack,
            number: 1,
        },
        previous: Cue::default(),
    };
    array::from_fn(|lane| if lane < size.lanes {
        own
    } else {
        Value::default()
    })
}

// "every rack at round 1, step 0, no first lane, nothing gathered, no result or news"
fn fresh_rack(size: Size, rack: u8) -> Rack
    ensures { result ≡ fresh_rack size rack }
{
    Rack {
        round: 1,
        first: 255,
        held: fresh_held(size, rack),
        ..Rack::default()
    }
}

// "Unused racks and lanes are zeros."
fn fresh_state(size: Size, rack: u8) -> Rack
    ensures { result ≡ cond (ltb rack size.racks) (fresh_rack size rack) zero_rack }
{
    if usize::from(rack) < size.racks {
        fresh_rack(size, rack)
    } else {
        Rack::default()
    }
}

// The states of all eight racks, of which those not fitted are zeros.
#[tactic(auto, unfolding(model::specs::Fresh::table))]
fn fresh_racks(size: Size) -> [Rack; 8]
    ensures { result ≡ fresh_racks size }
{
    array::from_fn(|rack| fresh_state(size, rack as u8))
}

// Fills the three tables and hands back the racks; refused, it leaves the tables as they were.
#[tactic(auto, unfolding(model::specs::Fresh::filled, model::specs::Fresh::fresh_card, model::specs::Turn::fits, sizes::specs::Lengths::lengths_fit))]
pub fn fresh(
    size: Size,
    cells: &mut [u8],
    logs: &mut [u8],
    decisions: &mut [u8],
) -> Result<[Rack; 8], Refusal>
    ensures { outcome (reply_number result) cells.new logs.new decisions.new (reply_or (replicate 8 zero_rack) result)
        ≡ filled size (tables_of cells.old logs.old decisions.old) }
{
    if !sizes::lengths_fit(size, cells.len(), logs.len(), decisions.len()) {
        return Err(Refusal::Misfit);
    }
    cells.fill(0);
    logs.fill(0);
    decisions.fill(255);
    Ok(fresh_racks(size))
}
