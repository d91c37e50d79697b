// The card's public calls on all its tables: the soundness test and the turn.
#![tactic(auto)]

ghost use Rattle.std.specs.Prelude.{◌≡◌};
ghost use Rattle.model.specs.InUse.{card_of, outcome};
ghost use Rattle.model.specs.Refusal.{reply_number, reply_or};
ghost use Rattle.model.specs.Turn.{turned, soundness};

use model::{Rack, Refusal, Size};

// Refused with 1 for sizes and lengths, with 2 for tables or states that are not sound.
pub fn sound(
    size: Size,
    cells: &[u8],
    logs: &[u8],
    decisions: &[u8],
    racks: [Rack; 8],
) -> Result<(), Refusal>
    ensures { reply_number result ≡ soundness size (card_of cells.now logs.now decisions.now racks) }
{
    if !sizes::lengths_fit(size, cells.len(), logs.len(), decisions.len()) {
        return Err(Refusal::Misfit);
    }
    if !sound::sound(size, cells, logs, decisions, racks) {
        return Err(Refusal::Unsound);
    }
    Ok(())
}

// One turn: refused with 1 to 8 and nothing changed, or taken.
#[tactic(auto, using(crate::proofs::Tests::refused, crate::proofs::Tests::playable, model::proofs::Refusals::not_zero))]
pub fn turn(
    size: Size,
    cells: &mut [u8],
    logs: &mut [u8],
    decisions: &mut [u8],
    racks: [Rack; 8],
    turn: &[u8],
) -> Result<[Rack; 8], Refusal>
    ensures { outcome (reply_number result) cells.new logs.new decisions.new (reply_or racks result)
        ≡ turned size (card_of cells.old logs.old decisions.old racks) turn.now }
{
    sound(size, cells, logs, decisions, racks)?;
    play::play(size, cells, logs, decisions, racks, turn)
}
