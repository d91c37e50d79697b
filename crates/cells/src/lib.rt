// Cell records: one read, one written; and the cells of one round, lent on for writing.
#![tactic(auto)]

ghost use Rattle.std.specs.Prelude.{◌≡◌, ◌+◌, ◌*◌, ◌≤◌, ◌<◌, length};
ghost use Rattle.model.specs.Record.{cell_at};
ghost use Rattle.model.specs.Form.{stored};
ghost use Rattle.model.specs.InUse.{cells_of};
ghost use Rattle.model.specs.Table.{offers, section_of, read_cell, write_cell};
ghost use Rattle.model.specs.Step.{offers_of};
ghost use Rattle.cells.specs.Here.{Here};
ghost use Rattle.cells.specs.Parts.{offers_in};

use model::{Cell, Cue, Rack, Section, Size, Value};

// The record at index `at`: mark, place, issuer, number, previous issuer, previous number.
pub fn load(table: &[u8], at: usize) -> Cell
    requires { 8 * at + 8 ≤ length table.now }
    ensures { result ≡ cell_at (cells_of table.now) at }
{
    let b = 8 * at;
    Cell {
        mark: table[b],
        value: Value {
            place: table[b + 1],
            cue: Cue {
                issuer: table[b + 2],
                number: table[b + 3],
            },
            previous: Cue {
                issuer: table[b + 4],
                number: table[b + 5],
            },
        },
    }
}

// Writes the record at index `at`, with its two zero bytes.
pub fn store(table: &mut [u8], at: usize, c: Cell)
    requires { 8 * at + 8 ≤ length table.old }
    ensures { table.new ≡ stored (cells_of table.old) at c }
{
    let b = 8 * at;
    table[b] = c.mark;
    table[b + 1] = c.value.place;
    table[b + 2] = c.value.cue.issuer;
    table[b + 3] = c.value.cue.number;
    table[b + 4] = c.value.previous.issuer;
    table[b + 5] = c.value.previous.number;
    table[b + 6] = 0;
    table[b + 7] = 0;
}

// The cell of a round, lane and rack in a section.
pub fn read(
    cells: &[u8],
    size: Size,
    section: Section,
    round: usize,
    lane: usize,
    rack: usize,
) -> Cell
    requires { Here size cells.now (section_of section) round lane rack }
    ensures { result ≡ read_cell size (cells_of cells.now) (section_of section) round lane rack }
{
    let n = size.racks;
    let k = size.lanes;
    let at = section.index() * (size.rounds * k * n) + (((round - 1) * k + lane) * n + rack);
    load(cells, at)
}

// Writes one record of one round's part of a section: the lane's, of the rack.
fn put(part: &mut [u8], n: usize, lane: usize, rack: usize, c: Cell)
    requires { 8 * (lane * n + rack) + 8 ≤ length part.old }
    ensures { part.new ≡ stored (cells_of part.old) (lane * n + rack) c }
{
    store(part, lane * n + rack, c);
}

// Writes the cell of a round, lane and rack in a section: only that round's part of the section is lent on.
pub fn write(
    cells: &mut [u8],
    size: Size,
    section: Section,
    round: usize,
    lane: usize,
    rack: usize,
    c: Cell,
)
    requires { Here size cells.old (section_of section) round lane rack }
    ensures { cells_of cells.new ≡ write_cell size (cells_of cells.old) (section_of section) round lane rack c }
{
    let n = size.racks;
    let k = size.lanes;
    let a = 8 * (section.index() * (size.rounds * k * n) + (round - 1) * k * n);
    let e = a + 8 * (k * n);
    put(&mut cells[a..e], n, lane, rack, c);
}

// The offers of the first k lanes, into one round's part of the offers.
fn put_offers(part: &mut [u8], n: usize, k: usize, rack: usize, held: [Value; 4])
    requires { (length part.old ≡ 8 * (k * n)) × ((k ≤ 4) × (rack < n)) }
    ensures { part.new ≡ offers_in part.old n rack held k }
{
    for lane in 0..k {
        put(part, n, lane, rack, Cell::offered(held[lane]));
    }
}

// "all k held values go into the rack's offer cells of this round": only that round's part of the offers is lent on.
pub fn write_offers(cells: &mut [u8], size: Size, rack: usize, r: Rack)
    requires { Here size cells.old offers r.round 0 rack }
    ensures { cells_of cells.new ≡ offers_of size (cells_of cells.old) rack r size.lanes }
{
    let n = size.racks;
    let k = size.lanes;
    let round = r.round as usize;
    let held = r.held;
    let a = 8 * ((round - 1) * k * n);
    let e = a + 8 * (k * n);
    put_offers(&mut cells[a..e], n, k, rack, held);
}
