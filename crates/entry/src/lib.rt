// The log query.
#![tactic(auto)]

ghost use Rattle.std.specs.Prelude.{◌≡◌, true, length};
ghost use Rattle.model.specs.Size.{size_fits};
ghost use Rattle.model.specs.InUse.{logs_length, logs_of};
ghost use Rattle.model.specs.Record.{no_cue};
ghost use Rattle.model.specs.Logs.{is_there, queried, log_entry};
ghost use Rattle.model.specs.Refusal.{numbered, reply_number, reply_or};

use model::{Cue, Refusal, Size, logs};

// "log query: rack, lane or place not there": whether all are.
#[tactic(auto, using(model::proofs::Start::log_fits), unfolding(model::specs::Logs::is_there))]
fn is_there(size: Size, logs: &[u8], rack: usize, lane: usize, place: usize) -> bool
    requires { (size_fits size ≡ true) × (length logs.now ≡ logs_length size) }
    ensures { result ≡ is_there size (logs_of logs.now) rack lane place }
{
    rack < size.racks
        && lane < size.lanes
        && place < logs::length_from(logs, logs::log_start(size, rack, lane), size.rounds)
}

// The issuer and number at a place of a log; or a refusal for sizes and length, for a log table that is not sound, and for what is not there.
#[tactic(auto, using(model::proofs::Start::log_fits, model::proofs::Length::length_most), unfolding(model::specs::Logs::queried, model::specs::Logs::log_entry, model::specs::Logs::is_there, sizes::specs::Lengths::logs_fit))]
pub fn log_entry(
    size: Size,
    logs: &[u8],
    rack: usize,
    lane: usize,
    place: usize,
) -> Result<Cue, Refusal>
    ensures { (record { number = reply_number result; cue = reply_or no_cue result } ≡ queried size (logs_of logs.now) rack lane place)
        × (numbered result ≡ log_entry size (logs_of logs.now) rack lane place) }
{
    if !sizes::logs_fit(size, logs.len()) {
        return Err(Refusal::Misfit);
    }
    if !sound::sound_logs(size, logs) {
        return Err(Refusal::Unsound);
    }
    if !is_there(size, logs, rack, lane, place) {
        return Err(Refusal::NotThere);
    }
    let start = logs::log_start(size, rack, lane);
    Ok(logs::entry(logs, start + place))
}
