// "The round's last step also settles every lane. L is the log length as it then stands".
#![tactic(auto)]

ghost use Rattle.std.specs.Prelude.{◌≡◌, true, ◌+◌, ◌*◌, ◌≤◌, ◌<◌, length};
ghost use Rattle.model.specs.InUse.{logs_of};
ghost use Rattle.model.specs.Settle.{settled_log, settle_lanes, too_long};
ghost use Rattle.settle.specs.Fits.{log_at, lane_fits};
ghost use Rattle.settle.specs.Lent.{Room, Lent, LanesLent};

use model::{Cell, Rack, Size, Value, logs};

// "settles every lane", one after the other: each lane's own part of the log table is lent on.
pub fn settle_lanes(logs: &mut [u8], size: Size, rack: usize, r: Rack) -> Rack
    requires { LanesLent size logs.old rack r }
    ensures { record { logs = logs_of logs.new; rack = result } ≡ settle_lanes size rack (logs_of logs.old) r size.lanes }
{
    let mut q = r;
    for lane in 0..size.lanes {
        let a = 2 * logs::log_start(size, rack, lane);
        let e = a + 2 * size.rounds;
        q = q.settle(&mut logs[a..e], lane, rack as u8);
    }
    q
}

// The L that rules 1 and 2 would leave.
fn settled_length(logs: &[u8], start: usize, rounds: usize, res: Cell, news: Value) -> usize
    requires { Room logs.now start rounds }
    ensures { result ≡ (settled_log (log_at (logs_of logs.now) start rounds) res news).length }
{
    let before = logs::length_from(logs, start, rounds);
    let missed = news.place as usize == before + 1;
    let between = before + usize::from(missed);
    let due = res.is_committed() & (res.value.place as usize == between);
    between + usize::from(due)
}

// Settling would leave a lane's log no longer than R.
fn lane_fits(logs: &[u8], size: Size, rack: usize, r: Rack, lane: usize) -> bool
    requires { Lent size logs.now rack × (lane < size.lanes) }
    ensures { result ≡ lane_fits size rack (logs_of logs.now) r lane }
{
    let news = r.news[lane];
    let result = r.results[lane];
    let start = logs::log_start(size, rack, lane);
    let count = settled_length(logs, start, size.rounds, result, news);
    count <= size.rounds
}

// "settling would make a log longer than R"
pub fn too_long(logs: &[u8], size: Size, rack: usize, r: Rack) -> bool
    requires { Lent size logs.now rack }
    ensures { result ≡ too_long size rack (logs_of logs.now) r }
{
    !(0..size.lanes).all(|lane| lane_fits(logs, size, rack, r, lane))
}
