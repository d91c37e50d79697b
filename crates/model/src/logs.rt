// Logs in a lent table: 2-byte records of issuer and number. What each function gives is defined in model's specs.
ghost use Rattle.std.specs.Prelude.{◌≡◌, ◌+◌, ◌*◌, ◌≤◌, ◌<◌, length, eqb, cond, true};
ghost use Rattle.model.specs.Record.{no_cue, same_cue, entry_at};
ghost use Rattle.model.specs.Form.{stored};
ghost use Rattle.model.specs.InUse.{logs_of};
ghost use Rattle.model.specs.Size.{size_fits};
ghost use Rattle.model.specs.Table.{length_from, log_start};
ghost use Rattle.model.specs.Settle.{own_cues, last_entry};

use crate::{Cue, Size};

// One of the "records of issuer and number".
pub fn entry(table: &[u8], at: usize) -> Cue
    requires { 2 * at + 2 ≤ length table.now }
    ensures { result ≡ entry_at (logs_of table.now) at }
{
    let b = 2 * at;
    Cue {
        issuer: table[b],
        number: table[b + 1],
    }
}

// Writes one record.
pub fn store(table: &mut [u8], at: usize, c: Cue)
    requires { 2 * at + 2 ≤ length table.old }
    ensures { table.new ≡ stored (logs_of table.old) at c }
{
    let b = 2 * at;
    table[b] = c.issuer;
    table[b + 1] = c.number;
}

// Whether a record is a zero one.
#[tactic(auto, unfolding(crate::specs::Record::same_cue))]
fn zero_at(table: &[u8], at: usize) -> bool
    requires { 2 * at + 2 ≤ length table.now }
    ensures { result ≡ same_cue (entry_at (logs_of table.now) at) no_cue }
{
    entry(table, at) == Cue::default()
}

// "a log's length is the number of its records before the first zero one": of the records from `at` on, at most `most`.
pub fn length_from(table: &[u8], at: usize, most: usize) -> usize
    requires { 2 * (at + most) ≤ length table.now }
    ensures { result ≡ length_from (logs_of table.now) at most }
{
    for i in 0..most {
        if zero_at(table, at + i) {
            return i;
        }
    }
    most
}

// "the count of its own cues in this log": of the `count` records from `start` on, those that the rack issued.
pub fn own_cues(table: &[u8], start: usize, rack: u8, count: usize) -> u8
    requires { (2 * (start + count) ≤ length table.now) × (count ≤ 64) }
    ensures { result ≡ own_cues (logs_of table.now) start rack count }
{
    let mut own: u8 = 0;
    for i in 0..count {
        if entry(table, start + i).issuer == rack {
            own += 1;
        }
    }
    own
}

// "the last entry, or zeros at L = 0", of the `count` records from `start` on.
pub fn last_entry(table: &[u8], start: usize, count: usize) -> Cue
    requires { 2 * (start + count) ≤ length table.now }
    ensures { result ≡ last_entry (logs_of table.now) start count }
{
    if count == 0 {
        return Cue::default();
    }
    entry(table, start + (count - 1))
}

// "R per lane, the lanes of rack 0 first": the first record of a log.
pub fn log_start(size: Size, rack: usize, lane: usize) -> usize
    requires { (size_fits size ≡ true) × ((rack < size.racks) × (lane < size.lanes)) }
    ensures { result ≡ log_start size rack lane }
{
    (rack * size.lanes + lane) * size.rounds
}
