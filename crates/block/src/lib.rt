// What a rack makes of the cells that it has read: its second cell, its result and its news in a lane.
#![tactic(auto)]

ghost use Rattle.std.specs.Prelude.{◌≡◌, length};
ghost use Rattle.std.specs.List.{list_all, fold, find};
ghost use Rattle.model.specs.Record.{no_cell, is_committed};
ghost use Rattle.model.specs.Block.{equals_own, higher, second_cell, backs_own, adopted_value, result_of, newer, newest};

use model::{Cell, Value};

// A first cell that is empty or "equals it".
#[tactic(auto, unfolding(model::specs::Block::equals_own, model::specs::Record::same_value, model::specs::Record::same_cue))]
fn equals_own(own: Value, c: Cell) -> bool
    ensures { result ≡ equals_own own c }
{
    c.is_empty() || c.value == own
}

// "every non-empty first cell read equals it"
fn all_equal_own(firsts: &[Cell], own: Value) -> bool
    ensures { result ≡ list_all (equals_own own) firsts.now }
{
    firsts.iter().all(|c| equals_own(own, *c))
}

// What is kept of two: the cell's value if it has a greater place.
#[tactic(auto, unfolding(model::specs::Block::higher))]
fn higher(best: Value, c: Cell) -> Value
    ensures { result ≡ higher best c }
{
    if !c.is_empty() && best.place < c.value.place {
        c.value
    } else {
        best
    }
}

// "the value of greatest place read, its own if it ties, else the lowest rack's"
fn greatest(firsts: &[Cell], own: Value) -> Value
    ensures { result ≡ fold higher own firsts.now }
{
    firsts.iter().fold(own, |best, c| higher(best, *c))
}

// "committed with its own value if every non-empty first cell read equals it; else adopted, with the value of greatest place read"
pub fn second_cell(firsts: &[Cell], own: Value) -> Cell
    ensures { result ≡ second_cell firsts.now own (length firsts.now) }
{
    if all_equal_own(firsts, own) {
        Cell::committed(own)
    } else {
        Cell::adopted(greatest(firsts, own))
    }
}

// A second cell that is empty, or "is marked committed and equals its own".
#[tactic(auto, unfolding(model::specs::Block::backs_own, model::specs::Record::same_value, model::specs::Record::same_cue))]
fn backs_own(own: Value, c: Cell) -> bool
    ensures { result ≡ backs_own own c }
{
    c.is_empty() || (c.is_committed() && c.value == own)
}

// "every non-empty second cell read is marked committed and equals its own"
fn all_back_own(seconds: &[Cell], own: Value) -> bool
    ensures { result ≡ list_all (backs_own own) seconds.now }
{
    seconds.iter().all(|c| backs_own(own, *c))
}

// "the first committed cell"
fn first_committed(seconds: &[Cell]) -> Option<Cell>
    ensures { result ≡ find is_committed seconds.now }
{
    seconds.iter().find(|c| c.is_committed()).copied()
}

// "the first committed cell's value if one was read, else the value in its own second cell"
fn adopted_value(seconds: &[Cell], second: Value) -> Value
    ensures { result ≡ adopted_value seconds.now second (length seconds.now) }
{
    match first_committed(seconds) {
        Some(c) => c.value,
        None => second,
    }
}

// "Committed: every non-empty second cell read is marked committed and equals its own. Otherwise adopted"
pub fn result(seconds: &[Cell], own: Value, second: Value) -> Cell
    ensures { result ≡ result_of seconds.now own second (length seconds.now) }
{
    if all_back_own(seconds, own) {
        Cell::committed(own)
    } else {
        Cell::adopted(adopted_value(seconds, second))
    }
}

// What is kept of two: the cell if it is not empty and has a greater place, or is the first that is not.
#[tactic(auto, unfolding(model::specs::Block::newer))]
fn newer(best: Cell, c: Cell) -> Cell
    ensures { result ≡ newer best c }
{
    if !c.is_empty() && (best.is_empty() || best.value.place < c.value.place) {
        c
    } else {
        best
    }
}

// The newest of these cells and one read before them, "the earliest on a tie".
fn newest(cells: &[Cell], before: Cell) -> Cell
    ensures { result ≡ fold newer before cells.now }
{
    cells.iter().fold(before, |best, c| newer(best, *c))
}

// "the value of greatest place among all non-empty cells read, first cells before second, the earliest on a tie"
pub fn news(firsts: &[Cell], seconds: &[Cell]) -> Value
    ensures { result ≡ (newest seconds.now (newest firsts.now no_cell (length firsts.now)) (length seconds.now)).value }
{
    let first = newest(firsts, Cell::default());
    let last = newest(seconds, first);
    last.value
}
