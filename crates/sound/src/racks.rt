// The eight rack states.
ghost use Rattle.std.specs.Prelude.{◌≡◌, true, cond, not, ◌&&◌, ◌<◌, ltb, length, get_or};
ghost use Rattle.std.specs.List.{fold};
ghost use Rattle.laws.specs.Below.{below};
ghost use Rattle.model.specs.Size.{size_fits, decisions_length};
ghost use Rattle.model.specs.InUse.{logs_length, tables_of, card_of, cells_of, logs_of};
ghost use Rattle.model.specs.Record.{no_cell, is_empty, same_cell};
ghost use Rattle.model.specs.Table.{section_of, read_cell, second_cells};
ghost use Rattle.model.specs.Sound.{unused_lane, unused_rack, sound_value, sound_cell, sound_decisions, sound_clock, sound_first};
ghost use Rattle.model.specs.Sound.{sound_gathered, sound_choice, sound_read_back, sound_written, sound_outcome, sound_held};
ghost use Rattle.model.specs.Sound.{sound_lane, sound_rack, sound_state, sound_racks};
ghost use Rattle.cells.specs.Here.{Here};
ghost use Rattle.model.proofs.Sizes.{Exact};
ghost use Rattle.sound.specs.Clocked.{Clocked};

use crate::tables::log_length;
use crate::values::{sound_cell, sound_value, zero_cell, zero_value};
use model::{Cell, Rack, Section, Size, Value};

// "round is 1 to R + 1, with step 0 at R + 1; step is below 2 + k(2n + 2)"
#[tactic(auto, using(model::proofs::Sizes::sizes), unfolding(model::specs::Sound::sound_clock))]
fn sound_clock(size: Size, r: Rack) -> bool
    requires { size_fits size ≡ true }
    ensures { result ≡ sound_clock size r }
{
    let round = usize::from(r.round);
    (1..=size.rounds + 1).contains(&round)
        && (round <= size.rounds || r.step == 0)
        && usize::from(r.step) < kind::round_steps(size)
}

// "first lane is below k when step is 2 or more, else 255"
#[tactic(auto, unfolding(model::specs::Sound::sound_first))]
fn sound_first(size: Size, r: Rack) -> bool
    ensures { result ≡ sound_first size r }
{
    if r.step < 2 {
        return r.first == 255;
    }
    usize::from(r.first) < size.lanes
}

// "gathered cells are sound for their section, and empty if not yet read"
#[tactic(auto, unfolding(model::specs::Record::same_cue, model::specs::Record::same_value, model::specs::Record::same_cell))]
fn sound_gathered_cell(size: Size, section: Section, read: bool, c: Cell) -> bool
    requires { size_fits size ≡ true }
    ensures { result ≡ cond read (sound_cell size (section_of section) c) (same_cell c no_cell) }
{
    if read {
        return sound_cell(size, section, c);
    }
    zero_cell(c)
}

// The eight cells gathered of one section, of which the first `read` are read.
fn sound_gathered_cells(size: Size, section: Section, read: usize, gathered: [Cell; 8]) -> bool
    requires { size_fits size ≡ true }
    ensures { result ≡ below 8 (λ i. cond (ltb i read)
        (sound_cell size (section_of section) (get_or gathered i no_cell)) (same_cell (get_or gathered i no_cell) no_cell)) }
{
    gathered
        .iter()
        .enumerate()
        .all(|(i, c)| sound_gathered_cell(size, section, i < read, *c))
}

// The first and the second cells gathered.
#[tactic(auto, using(model::proofs::Sizes::sizes), unfolding(model::specs::Sound::sound_gathered))]
fn sound_gathered(size: Size, r: Rack) -> bool
    requires { size_fits size ≡ true }
    ensures { result ≡ sound_gathered size r }
{
    sound_gathered_cells(
        size,
        Section::FirstCells,
        kind::firsts_read(size, r),
        r.firsts,
    ) && sound_gathered_cells(
        size,
        Section::SecondCells,
        kind::seconds_read(size, r),
        r.seconds,
    )
}

// Whether a cell of the table holds a value.
fn holds_value(
    size: Size,
    cells: &[u8],
    section: Section,
    round: usize,
    lane: usize,
    rack: usize,
) -> bool
    requires { Here size cells.now (section_of section) round lane rack }
    ensures { result ≡ not (is_empty (read_cell size (cells_of cells.now) (section_of section) round lane rack)) }
{
    !cells::read(cells, size, section, round, lane, rack).is_empty()
}

// "a rack's first lane is decided, for a source whose offer there is not empty"
#[tactic(auto, using(crate::proofs::Clock::present), unfolding(model::specs::Sound::sound_choice, model::specs::Table::decision_index, model::specs::Size::decisions_length))]
fn sound_choice(size: Size, cells: &[u8], decisions: &[u8], r: Rack) -> bool
    requires { Clocked size cells.now r × ((length decisions.now ≡ decisions_length size) × (sound_decisions size decisions.now ≡ true)) }
    ensures { result ≡ sound_choice size (cells_of cells.now) decisions.now r }
{
    if r.step < 2 {
        return true;
    }
    let round = usize::from(r.round);
    let first = usize::from(r.first);
    let source = usize::from(decisions[(round - 1) * size.lanes + first]);
    source != 255 && holds_value(size, cells, Section::Offers, round, first, source)
}

// "what it read back from itself equals them"
#[tactic(auto, using(crate::proofs::Clock::present), unfolding(model::specs::Sound::sound_read_back, model::specs::Record::same_cue, model::specs::Record::same_value, model::specs::Record::same_cell))]
fn sound_read_back(size: Size, cells: &[u8], rack: usize, r: Rack) -> bool
    requires { Clocked size cells.now r × (rack < size.racks) }
    ensures { result ≡ sound_read_back size (cells_of cells.now) rack r }
{
    let round = usize::from(r.round);
    let lane = kind::lane_at(size, r);
    (kind::firsts_read(size, r) <= rack
        || r.firsts[rack] == cells::read(cells, size, Section::FirstCells, round, lane, rack))
        && (kind::seconds_read(size, r) <= rack
            || r.seconds[rack] == cells::read(cells, size, Section::SecondCells, round, lane, rack))
}

// "in its present round the cells a rack has written hold a value"
#[tactic(auto, using(crate::proofs::Clock::present), unfolding(model::specs::Sound::sound_written))]
fn sound_written(size: Size, cells: &[u8], rack: usize, r: Rack, lane: usize) -> bool
    requires { Clocked size cells.now r × ((rack < size.racks) × (lane < size.lanes)) }
    ensures { result ≡ sound_written size (cells_of cells.now) rack r lane }
{
    let round = usize::from(r.round);
    let steps = kind::steps_in(size, r, lane);
    (r.step < 1 || holds_value(size, cells, Section::Offers, round, lane, rack))
        && (steps < 1 || holds_value(size, cells, Section::FirstCells, round, lane, rack))
        && (steps < size.racks + 2
            || holds_value(size, cells, Section::SecondCells, round, lane, rack))
}

// What a finished lane has: "a result and news"
fn has_outcome(size: Size, res: Cell, news: Value) -> bool
    requires { size_fits size ≡ true }
    ensures { result ≡ (not (is_empty res) && (sound_cell size second_cells res && sound_value size news)) }
{
    !res.is_empty() && sound_cell(size, Section::SecondCells, res) && sound_value(size, news)
}

// "each lane it has finished has a result and news, each other lane neither"
#[tactic(auto, using(model::proofs::Sizes::sizes), unfolding(model::specs::Sound::sound_outcome, model::specs::Record::same_cue, model::specs::Record::same_value, model::specs::Record::same_cell))]
fn sound_outcome(size: Size, r: Rack, lane: usize) -> bool
    requires { (size_fits size ≡ true) × (lane < 4) }
    ensures { result ≡ sound_outcome size r lane }
{
    let result = r.results[lane];
    let news = r.news[lane];
    if kind::steps_in(size, r, lane) == kind::block_steps(size) {
        return has_outcome(size, result, news);
    }
    zero_cell(result) && zero_value(news)
}

// "held place equals log length"
#[tactic(auto, using(model::proofs::Sizes::sizes), unfolding(model::specs::Sound::sound_held))]
fn sound_held(size: Size, logs: &[u8], rack: usize, r: Rack, lane: usize) -> bool
    requires { (size_fits size ≡ true) × ((length logs.now ≡ logs_length size) × ((rack < size.racks) × (lane < size.lanes))) }
    ensures { result ≡ sound_held size (logs_of logs.now) rack r lane }
{
    let v = r.held[lane];
    sound_value(size, v) && usize::from(v.place) == log_length(size, logs, rack, lane)
}

// "Unused .. lanes are zeros."
#[tactic(auto, unfolding(model::specs::Sound::unused_lane, model::specs::Record::same_cue, model::specs::Record::same_value, model::specs::Record::same_cell))]
fn unused_lane(r: Rack, lane: usize) -> bool
    requires { lane < 4 }
    ensures { result ≡ unused_lane r lane }
{
    zero_value(r.held[lane]) && zero_cell(r.results[lane]) && zero_value(r.news[lane])
}

// One lane of a rack, used or not.
#[tactic(auto, unfolding(model::specs::Sound::sound_lane))]
fn sound_lane(size: Size, cells: &[u8], logs: &[u8], rack: usize, r: Rack, lane: usize) -> bool
    requires { Clocked size cells.now r × ((length logs.now ≡ logs_length size) × ((rack < size.racks) × (lane < 4))) }
    ensures { result ≡ sound_lane size (cells_of cells.now) (logs_of logs.now) rack r lane }
{
    if lane < size.lanes {
        return sound_written(size, cells, rack, r, lane)
            && sound_outcome(size, r, lane)
            && sound_held(size, logs, rack, r, lane);
    }
    unused_lane(r, lane)
}

// The four lanes of a rack in use.
fn sound_lanes(size: Size, cells: &[u8], logs: &[u8], rack: usize, r: Rack) -> bool
    requires { Clocked size cells.now r × ((length logs.now ≡ logs_length size) × (rack < size.racks)) }
    ensures { result ≡ below 4 (sound_lane size (cells_of cells.now) (logs_of logs.now) rack r) }
{
    (0..4).all(|lane| sound_lane(size, cells, logs, rack, r, lane))
}

// A rack in use: its clock and first lane come first, since they say which cells are looked at.
#[tactic(auto, unfolding(model::specs::Sound::sound_rack))]
fn sound_rack(size: Size, cells: &[u8], logs: &[u8], decisions: &[u8], rack: usize, r: Rack) -> bool
    requires { Exact size (tables_of cells.now logs.now decisions.now) × ((sound_decisions size decisions.now ≡ true) × (rack < size.racks)) }
    ensures { result ≡ sound_rack size (tables_of cells.now logs.now decisions.now) rack r }
{
    sound_clock(size, r)
        && sound_first(size, r)
        && sound_gathered(size, r)
        && sound_choice(size, cells, decisions, r)
        && sound_read_back(size, cells, rack, r)
        && sound_lanes(size, cells, logs, rack, r)
}

// Whether gathered cells are zeros. Each is tested whatever the others are: a test that stops at the first costs more where all are.
fn zero_cells(gathered: &[Cell]) -> bool
    ensures { result ≡ fold (λ zeros c. zeros && same_cell c no_cell) true gathered.now }
{
    gathered.iter().fold(true, |zeros, c| zeros & zero_cell(*c))
}

// Whether nothing is gathered.
fn unused_gathered(firsts: &[Cell; 8], seconds: &[Cell; 8]) -> bool
    ensures { result ≡ below 8 (λ i. same_cell (get_or firsts.now i no_cell) no_cell && same_cell (get_or seconds.now i no_cell) no_cell) }
{
    zero_cells(firsts) & zero_cells(seconds)
}

// The four lanes of a rack that is not in use.
fn unused_lanes(r: Rack) -> bool
    ensures { result ≡ below 4 (unused_lane r) }
{
    (0..4).all(|lane| unused_lane(r, lane))
}

// "Unused racks .. are zeros."
#[tactic(auto, unfolding(model::specs::Sound::unused_rack))]
fn unused_rack(r: Rack) -> bool
    ensures { result ≡ unused_rack r }
{
    r.round == 0
        && r.step == 0
        && r.first == 0
        && unused_gathered(&r.firsts, &r.seconds)
        && unused_lanes(r)
}

// One of the eight.
#[tactic(auto, unfolding(model::specs::Sound::sound_state))]
fn sound_state(
    size: Size,
    cells: &[u8],
    logs: &[u8],
    decisions: &[u8],
    rack: usize,
    r: Rack,
) -> bool
    requires { Exact size (tables_of cells.now logs.now decisions.now) × (sound_decisions size decisions.now ≡ true) }
    ensures { result ≡ sound_state size (tables_of cells.now logs.now decisions.now) rack r }
{
    if rack < size.racks {
        return sound_rack(size, cells, logs, decisions, rack, r);
    }
    unused_rack(r)
}

// "one fixed array of eight, of which n are used"
pub fn sound_racks(
    size: Size,
    cells: &[u8],
    logs: &[u8],
    decisions: &[u8],
    racks: [Rack; 8],
) -> bool
    requires { Exact size (tables_of cells.now logs.now decisions.now) × (sound_decisions size decisions.now ≡ true) }
    ensures { result ≡ sound_racks size (card_of cells.now logs.now decisions.now racks) }
{
    racks.iter().enumerate().all(|(rack, r)| sound_state(size, cells, logs, decisions, rack, *r))
}
