// The public calls tried as a firmware engineer would: wrong lengths, sizes out of range, a changed byte, records of 3 and 5 bytes. Each
// line says what was tried, the number that came back, and whether the tables and racks are as they were before the call. Every turn is
// given the racks that the one before it left, so the last two turns show that a night goes on behind refused ones.
#![tactic(auto)]

use model::{Rack, Size};

// The offer of rack 0 that begins a night.
const OFFER: [u8; 4] = [0, 255, 255, 0];

// What a firmware keeps of a night: the tables, of any lengths, and the racks.
#[derive(Clone, Copy, Debug, PartialEq, Eq)]
struct Card<const C: usize, const L: usize, const D: usize> {
    cells: [u8; C],
    logs: [u8; L],
    decisions: [u8; D],
    racks: [Rack; 8],
}

impl<const C: usize, const L: usize, const D: usize> Card<C, L, D> {
    // One turn with one lane and one round, told; a refused one hands back no racks, so those given go on.
    fn tried(&mut self, rt: &impl Print, what: &str, fitted: usize, turn: &[u8]) {
        let before = *self;
        let size = Size {
            racks: fitted,
            lanes: 1,
            rounds: 1,
        };
        let reply = card::turn(
            size,
            &mut self.cells,
            &mut self.logs,
            &mut self.decisions,
            self.racks,
            turn,
        );
        let number: u8 = match reply {
            Ok(after) => {
                self.racks = after;
                0
            }
            Err(refusal) => refusal.into(),
        };
        let left = if *self == before {
            "all as it was"
        } else {
            "changed"
        };
        let _ = println!(rt; "{what}: {number}, {left}");
    }
}

// Sizes out of range, and lengths that are not exact.
fn sizes(rt: &impl Print, card: &mut Card<24, 2, 1>) {
    for (what, racks) in [("no racks", 0), ("255 racks", 255)] {
        card.tried(rt, what, racks, &OFFER);
    }
    let mut few_cells = Card {
        cells: [0; 23],
        logs: card.logs,
        decisions: card.decisions,
        racks: card.racks,
    };
    few_cells.tried(rt, "a cell table of 23 bytes", 1, &OFFER);
    let mut few_logs = Card {
        cells: card.cells,
        logs: [0; 1],
        decisions: card.decisions,
        racks: few_cells.racks,
    };
    few_logs.tried(rt, "a log table of 1 byte", 1, &OFFER);
    let mut two_decisions = Card {
        cells: card.cells,
        logs: card.logs,
        decisions: [255; 2],
        racks: few_logs.racks,
    };
    two_decisions.tried(rt, "a decision table of 2 bytes", 1, &OFFER);
    card.racks = two_decisions.racks;
}

// One byte changed in each table, and put back.
fn damages(rt: &impl Print, card: &mut Card<24, 2, 1>) {
    for (what, at) in [
        ("a spare byte set", 7),
        ("a second cell marked as a first", 16),
    ] {
        card.cells[at] = 1;
        card.tried(rt, what, 1, &OFFER);
        card.cells[at] = 0;
    }
    card.logs[0] = 1;
    card.tried(rt, "an entry with number 0", 1, &OFFER);
    card.logs[0] = 0;
    card.decisions[0] = 1;
    card.tried(rt, "a decision for no rack", 1, &OFFER);
    card.decisions[0] = 255;
}

// Rack 0 past its round, and put back.
fn spoiled(rt: &impl Print, card: &mut Card<24, 2, 1>) {
    card.racks[0].step = 6;
    card.tried(rt, "a step past the round", 1, &OFFER);
    card.racks[0].step = 0;
}

// Records that are not 4 bytes; then the offer and the answer of the sheet example are taken.
fn records(rt: &impl Print, card: &mut Card<24, 2, 1>) {
    let turns: [(&str, &[u8]); 4] = [
        ("a record of 3 bytes", &[0, 255, 255]),
        ("a record of 5 bytes", &[0, 255, 255, 0, 0]),
        ("the offer", &OFFER),
        ("the answer", &[0, 0, 0, 0]),
    ];
    for (what, turn) in turns {
        card.tried(rt, what, 1, turn);
    }
}

fn main(rt: HostRuntime) {
    let size = Size {
        racks: 1,
        lanes: 1,
        rounds: 1,
    };
    let mut card = Card {
        cells: [9; 24],
        logs: [9; 2],
        decisions: [9; 1],
        racks: [Rack::default(); 8],
    };
    let reply = fresh::fresh(size, &mut card.cells, &mut card.logs, &mut card.decisions);
    let number: u8 = match reply {
        Ok(racks) => {
            card.racks = racks;
            0
        }
        Err(refusal) => refusal.into(),
    };
    let _ = println!(&rt; "fresh: {number}");
    sizes(&rt, &mut card);
    damages(&rt, &mut card);
    spoiled(&rt, &mut card);
    records(&rt, &mut card);
}
