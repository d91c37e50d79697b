// "Sound, with no look at history": the second test of every public call. Each function's result is the definition of its name in model's specs.
#![tactic(auto)]

ghost use Rattle.std.specs.Prelude.{◌≡◌, true, length};
ghost use Rattle.model.specs.Size.{size_fits};
ghost use Rattle.model.specs.InUse.{logs_length, tables_of, card_of, logs_of};
ghost use Rattle.model.specs.Sound.{sound_logs, sound};
ghost use Rattle.model.proofs.Sizes.{Exact};

mod values; // values.rt: a cue, a value and a cell
mod tables; // tables.rt: the three lent tables
mod racks; // racks.rt: the eight rack states

use model::{Rack, Size};

// The log table, which is all that a log query is lent.
pub fn sound_logs(size: Size, logs: &[u8]) -> bool
    requires { (size_fits size ≡ true) × (length logs.now ≡ logs_length size) }
    ensures { result ≡ sound_logs size (logs_of logs.now) }
{
    tables::sound_logs(size, logs)
}

// The tables and the eight racks. The tables come first: a decision says whose offer a rack's first lane rests on.
#[tactic(auto, unfolding(model::specs::Sound::sound))]
pub fn sound(size: Size, cells: &[u8], logs: &[u8], decisions: &[u8], racks: [Rack; 8]) -> bool
    requires { Exact size (tables_of cells.now logs.now decisions.now) }
    ensures { result ≡ sound size (card_of cells.now logs.now decisions.now racks) }
{
    tables::sound_tables(size, cells, logs, decisions)
        && racks::sound_racks(size, cells, logs, decisions, racks)
}
