// What a step of each of the six kinds does to the tables and to the rack, and the one dispatch over them.
#![tactic(auto)]

ghost use Rattle.std.specs.Prelude.{◌≡◌, ◌<◌};
ghost use Rattle.model.specs.InUse.{tables_of, cells_of, logs_of, after_of};
ghost use Rattle.model.specs.declared.Kind.TheVariants.{FirstRead, SecondRead};
ghost use Rattle.model.specs.Table.{decision_index, decision_at};
ghost use Rattle.model.specs.Kind.{kind_of};
ghost use Rattle.model.specs.Step.{advanced, ending_round, proposal, after_first_read, second_gathered, block_ended, after_second_read, stepped};
ghost use Rattle.model.specs.Turn.{refusal_of};
ghost use Rattle.step.specs.After.{offering, first_writing, second_writing, answering, second_reading};
ghost use Rattle.step.specs.Ready.{Ready, InRound, AtCells, InBlock, AtDecisions, Decided, Settling};

use model::{Cell, Kind, Rack, Section, Size, Value};

// The rack one step on.
fn advanced(r: Rack) -> Rack
    requires { r.step < 255 }
    ensures { result ≡ advanced r }
{
    Rack {
        step: r.step + 1,
        ..r
    }
}

// Where the decision of the rack's round and a lane stands: "by round and lane".
fn decision_index(size: Size, r: Rack, lane: usize) -> usize
    requires { InRound size r × (lane < size.lanes) }
    ensures { result ≡ decision_index size r.round lane }
{
    let round = r.round as usize;
    (round - 1) * size.lanes + lane
}

// "the winning source by round and lane, 255 if none", in the rack's round.
pub fn decision_at(decisions: &[u8], size: Size, r: Rack, lane: usize) -> u8
    requires { AtDecisions size decisions.now r lane }
    ensures { result ≡ decision_at size decisions.now r.round lane }
{
    let i = decision_index(size, r, lane);
    decisions[i]
}

// "Step 0, offer: all k held values go into the rack's offer cells of this round."
fn offer(cells: &mut [u8], size: Size, rack: usize, r: Rack) -> Rack
    requires { AtCells size cells.old rack r }
    ensures { record { cells = cells_of cells.new; rack = result } ≡ offering size (cells_of cells.old) rack r }
{
    cells::write_offers(cells, size, rack, r);
    advanced(r)
}

// "Decision (round, m) becomes q; m is the first lane."
fn answer(decisions: &mut [u8], size: Size, r: Rack, lane: u8, source: u8) -> Rack
    requires { AtDecisions size decisions.old r lane }
    ensures { record { decisions = decisions.new; rack = result } ≡ answering size decisions.old r lane source }
{
    let i = decision_index(size, r, lane as usize);
    decisions[i] = source;
    Rack {
        first: lane,
        ..advanced(r)
    }
}

// "The value offered by q at m is what this rack proposes in m"; in each other lane "the rack proposes its held value".
fn proposal(cells: &[u8], decisions: &[u8], size: Size, rack: usize, r: Rack) -> Value
    requires { Decided size cells.now decisions.now rack r }
    ensures { result ≡ proposal size (cells_of cells.now) rack r decisions.now }
{
    let lane = kind::lane_at(size, r);
    let first = r.first as usize;
    if lane == first {
        let source = decision_at(decisions, size, r, lane) as usize;
        let c = cells::read(cells, size, Section::Offers, r.round as usize, lane, source);
        return c.value;
    }
    r.held[lane]
}

// "write its first cell, which is its own value below"
fn first_write(cells: &mut [u8], decisions: &[u8], size: Size, rack: usize, r: Rack) -> Rack
    requires { Decided size cells.old decisions.now rack r }
    ensures { record { cells = cells_of cells.new; rack = result }
        ≡ first_writing size (cells_of cells.old) rack r decisions.now }
{
    let own = proposal(cells, decisions, size, rack, r);
    let lane = kind::lane_at(size, r);
    cells::write(
        cells,
        size,
        Section::FirstCells,
        r.round as usize,
        lane,
        rack,
        Cell::offered(own),
    );
    advanced(r)
}

// "read the n first cells, rack 0 first, one a step"
fn first_read(cells: &[u8], size: Size, rack: usize, r: Rack) -> Rack
    requires { InBlock size cells.now rack r × (kind_of size r.step ≡ FirstRead) }
    ensures { result ≡ after_first_read size (cells_of cells.now) rack r }
{
    let other = kind::place_at(size, r.step as usize) - 1;
    let lane = kind::lane_at(size, r);
    let c = cells::read(
        cells,
        size,
        Section::FirstCells,
        r.round as usize,
        lane,
        other,
    );
    let mut q = advanced(r);
    q.firsts[other] = c;
    q
}

// "write its second cell": from the first cells read and its own value.
fn second_write(cells: &mut [u8], size: Size, rack: usize, r: Rack) -> Rack
    requires { InBlock size cells.old rack r }
    ensures { record { cells = cells_of cells.new; rack = result } ≡ second_writing size (cells_of cells.old) rack r }
{
    let lane = kind::lane_at(size, r);
    let first = cells::read(
        cells,
        size,
        Section::FirstCells,
        r.round as usize,
        lane,
        rack,
    );
    let c = block::second_cell(&r.firsts[..size.racks], first.value);
    cells::write(
        cells,
        size,
        Section::SecondCells,
        r.round as usize,
        lane,
        rack,
        c,
    );
    advanced(r)
}

// "read the n second cells likewise"
fn second_gathered(cells: &[u8], size: Size, rack: usize, r: Rack) -> Rack
    requires { InBlock size cells.now rack r × (kind_of size r.step ≡ SecondRead) }
    ensures { result ≡ second_gathered size (cells_of cells.now) rack r }
{
    let other = kind::place_at(size, r.step as usize) - (size.racks + 2);
    let lane = kind::lane_at(size, r);
    let c = cells::read(
        cells,
        size,
        Section::SecondCells,
        r.round as usize,
        lane,
        other,
    );
    let mut q = advanced(r);
    q.seconds[other] = c;
    q
}

// "The last read gives the lane's result." "What was gathered is emptied at the end of each block."
fn block_ended(cells: &[u8], size: Size, rack: usize, r: Rack, gathered: Rack) -> Rack
    requires { InBlock size cells.now rack r }
    ensures { result ≡ block_ended size (cells_of cells.now) rack r gathered }
{
    let lane = kind::lane_at(size, r);
    let first = cells::read(
        cells,
        size,
        Section::FirstCells,
        r.round as usize,
        lane,
        rack,
    );
    let second = cells::read(
        cells,
        size,
        Section::SecondCells,
        r.round as usize,
        lane,
        rack,
    );
    let firsts = &gathered.firsts[..size.racks];
    let seconds = &gathered.seconds[..size.racks];
    let result = block::result(seconds, first.value, second.value);
    let news = block::news(firsts, seconds);
    let none = Cell::default();
    let mut q = Rack {
        firsts: [none; 8],
        seconds: [none; 8],
        ..gathered
    };
    q.results[lane] = result;
    q.news[lane] = news;
    q
}

// The rack after the read of a second cell, which may be its block's last.
pub fn after_second_read(cells: &[u8], size: Size, rack: usize, r: Rack) -> Rack
    requires { InBlock size cells.now rack r × (kind_of size r.step ≡ SecondRead) }
    ensures { result ≡ after_second_read size (cells_of cells.now) rack r }
{
    let gathered = second_gathered(cells, size, rack, r);
    let other = kind::place_at(size, r.step as usize) - (size.racks + 2);
    if other + 1 == size.racks {
        return block_ended(cells, size, rack, r, gathered);
    }
    gathered
}

// "Then round rises by one, step is 0, and first lane, results and news are cleared."
fn round_ended(r: Rack) -> Rack
    requires { r.round < 255 }
    ensures { result ≡ ending_round r }
{
    Rack {
        round: r.round + 1,
        step: 0,
        first: 255,
        results: [Cell::default(); 4],
        news: [Value::default(); 4],
        ..r
    }
}

// The read of a second cell: "The round's last step also settles every lane."
fn second_read(cells: &[u8], logs: &mut [u8], size: Size, rack: usize, r: Rack) -> Rack
    requires { Settling size cells.now logs.old rack r }
    ensures { record { logs = logs_of logs.new; rack = result }
        ≡ second_reading size (cells_of cells.now) rack r (logs_of logs.old) }
{
    let read = after_second_read(cells, size, rack, r);
    if !kind::is_last(size, r) {
        return read;
    }
    let settled = settle::settle_lanes(logs, size, rack, read);
    round_ended(settled)
}

// What a taken turn does: one arm for each of the six kinds.
pub fn act(
    cells: &mut [u8],
    logs: &mut [u8],
    decisions: &mut [u8],
    size: Size,
    rack: usize,
    r: Rack,
    lane: u8,
    source: u8,
) -> Rack
    requires { Ready size (tables_of cells.old logs.old decisions.old) rack r
        × (refusal_of size (tables_of cells.old logs.old decisions.old) rack r lane source ≡ 0) }
    ensures { after_of cells.new logs.new decisions.new result
        ≡ stepped size (tables_of cells.old logs.old decisions.old) rack r lane source }
{
    match kind::kind_of(size, r.step as usize) {
        Kind::Offer => offer(cells, size, rack, r),
        Kind::Answer => answer(decisions, size, r, lane, source),
        Kind::FirstWrite => first_write(cells, decisions, size, rack, r),
        Kind::FirstRead => first_read(cells, size, rack, r),
        Kind::SecondWrite => second_write(cells, size, rack, r),
        Kind::SecondRead => second_read(cells, logs, size, rack, r),
    }
}
