// The three lent tables, one pass over each.
ghost use Rattle.std.specs.Prelude.{◌≡◌, true, cond, ◌&&◌, ◌||◌, ◌+◌, ◌*◌, ◌≤◌, ◌<◌, eqb, ltb, length};
ghost use Rattle.model.specs.Form.{spare_at};
ghost use Rattle.laws.specs.Below.{below};
ghost use Rattle.model.specs.Size.{size_fits, decisions_length};
ghost use Rattle.model.specs.InUse.{cells_length, logs_length, tables_of, cells_of, logs_of};
ghost use Rattle.model.specs.Record.{no_cue, same_cue, entry_at};
ghost use Rattle.model.specs.Table.{undecided, section_of, log_length};
ghost use Rattle.model.specs.Sound.{sound_cue, sound_record, sound_section, sound_cells, sound_decisions, sound_entries, sound_log, sound_logs, sound_tables};
ghost use Rattle.model.proofs.Sizes.{Exact};

use crate::values::{sound_cell, sound_cue};
use model::{Cue, Section, Size, logs};

// A record of the cell table: "records marked 0 are all zeros and spare bytes are zero"
#[tactic(auto, unfolding(model::specs::Sound::sound_record, model::specs::Form::record_at))]
fn sound_record(size: Size, cells: &[u8], section: Section, i: usize) -> bool
    requires { (size_fits size ≡ true) × (8 * i + 8 ≤ length cells.now) }
    ensures { result ≡ sound_record size (cells_of cells.now) (section_of section) i }
{
    let b = 8 * i;
    sound_cell(size, section, cells::load(cells, i)) && cells[b + 6] == 0 && cells[b + 7] == 0
}

// One of the "three sections (offers, first cells, second cells) of 8-byte records".
#[tactic(auto, using(crate::proofs::Sizes::small, crate::proofs::Sizes::section_inside))]
fn sound_section(size: Size, cells: &[u8], section: Section) -> bool
    requires { (size_fits size ≡ true) × (length cells.now ≡ cells_length size) }
    ensures { result ≡ sound_section size (cells_of cells.now) (section_of section) }
{
    let count = size.rounds * size.lanes * size.racks;
    let start = section.index() * count;
    (start..start + count).all(|i| sound_record(size, cells, section, i))
}

// All three sections: "marks fit their section (0 or 1; 0 or 1; 0, 2 or 3)"
#[tactic(auto, unfolding(model::specs::Sound::sound_cells))]
fn sound_cells(size: Size, cells: &[u8]) -> bool
    requires { (size_fits size ≡ true) × (length cells.now ≡ cells_length size) }
    ensures { result ≡ sound_cells size (cells_of cells.now) }
{
    sound_section(size, cells, Section::Offers)
        && sound_section(size, cells, Section::FirstCells)
        && sound_section(size, cells, Section::SecondCells)
}

// One decision: the winning source, or "255 if none"
fn sound_decision(size: Size, source: u8) -> bool
    ensures { result ≡ (eqb source undecided || ltb source size.racks) }
{
    source == 255 || usize::from(source) < size.racks
}

// "decisions are 255 or below n"
fn sound_decisions(size: Size, decisions: &[u8]) -> bool
    requires { (size_fits size ≡ true) × (length decisions.now ≡ decisions_length size) }
    ensures { result ≡ sound_decisions size decisions.now }
{
    decisions.iter().all(|source| sound_decision(size, *source))
}

// "used entries have issuer below n and number 1 to R + 1, unused ones are zero"
#[tactic(auto, unfolding(model::specs::Record::same_cue, model::specs::Form::spare_at))]
fn sound_entry(size: Size, logs: &[u8], at: usize, used: bool) -> bool
    requires { (size_fits size ≡ true) × (2 * at + 2 ≤ length logs.now) }
    ensures { result
        ≡ (cond used (sound_cue size (entry_at (logs_of logs.now) at)) (same_cue (entry_at (logs_of logs.now) at) no_cue)
        && spare_at (logs_of logs.now) at) }
{
    let c = logs::entry(logs, at);
    if used {
        return sound_cue(size, c);
    }
    c == Cue::default()
}

// The R records of a log, of which the first `used` are.
fn sound_entries(size: Size, logs: &[u8], start: usize, used: usize) -> bool
    requires { (size_fits size ≡ true) × (2 * (start + size.rounds) ≤ length logs.now) }
    ensures { result ≡ sound_entries size (logs_of logs.now) start used }
{
    (0..size.rounds).all(|i| sound_entry(size, logs, start + i, i < used))
}

// "a log's length is the number of its records before the first zero one"
#[tactic(auto, using(model::proofs::Start::log_fits))]
pub fn log_length(size: Size, logs: &[u8], rack: usize, lane: usize) -> usize
    requires { (size_fits size ≡ true) × ((length logs.now ≡ logs_length size) × ((rack < size.racks) × (lane < size.lanes))) }
    ensures { result ≡ log_length size (logs_of logs.now) rack lane }
{
    logs::length_from(logs, logs::log_start(size, rack, lane), size.rounds)
}

// One log: "log length is at most R", since it is counted among its R records.
#[tactic(auto, using(model::proofs::Start::log_fits), unfolding(model::specs::Sound::sound_log))]
fn sound_log(size: Size, logs: &[u8], rack: usize, lane: usize) -> bool
    requires { (size_fits size ≡ true) × ((length logs.now ≡ logs_length size) × ((rack < size.racks) × (lane < size.lanes))) }
    ensures { result ≡ sound_log size (logs_of logs.now) rack lane }
{
    let start = logs::log_start(size, rack, lane);
    let used = log_length(size, logs, rack, lane);
    sound_entries(size, logs, start, used)
}

// The logs of one rack.
fn sound_rack_logs(size: Size, logs: &[u8], rack: usize) -> bool
    requires { (size_fits size ≡ true) × ((length logs.now ≡ logs_length size) × (rack < size.racks)) }
    ensures { result ≡ below size.lanes (λ lane. sound_log size (logs_of logs.now) rack lane) }
{
    (0..size.lanes).all(|lane| sound_log(size, logs, rack, lane))
}

// The logs of every rack.
pub fn sound_logs(size: Size, logs: &[u8]) -> bool
    requires { (size_fits size ≡ true) × (length logs.now ≡ logs_length size) }
    ensures { result ≡ sound_logs size (logs_of logs.now) }
{
    (0..size.racks).all(|rack| sound_rack_logs(size, logs, rack))
}

// The three lent tables.
#[tactic(auto, unfolding(model::specs::Sound::sound_tables))]
pub fn sound_tables(size: Size, cells: &[u8], logs: &[u8], decisions: &[u8]) -> bool
    requires { Exact size (tables_of cells.now logs.now decisions.now) }
    ensures { result ≡ sound_tables size (tables_of cells.now logs.now decisions.now) }
{
    sound_cells(size, cells) && sound_decisions(size, decisions) && sound_logs(size, logs)
}
