// The card's types, all by value. What is done with them is defined in specs/, in the words of document 01. A method stands beside its type: so a
// rack settles a lane here, and the logs that it appends to stand here too.
#![tactic(auto)]

ghost use Rattle.std.specs.Prelude.{◌≡◌};
ghost use Rattle.model.specs.Record.{offered, adopted, committed, is_empty, is_committed};
ghost use Rattle.model.specs.Table.{section_of};
ghost use Rattle.model.specs.Refusal.{number_of};
ghost use Rattle.model.specs.InUse.{logs_of};
ghost use Rattle.model.specs.Settle.{PartLent, settle_part};

pub mod logs; // logs.rt: logs in a lent table

// n racks, k lanes, R rounds.
#[derive(Clone, Copy, Debug, PartialEq, Eq)]
pub struct Size {
    pub racks: usize,
    pub lanes: usize,
    pub rounds: usize,
}

// Cue 3 of rack 0, written 0#3, has issuer 0 and number 3.
#[repr(C)]
#[derive(Clone, Copy, Debug, Default, PartialEq, Eq)]
pub struct Cue {
    pub issuer: u8,
    pub number: u8,
}

// The five middle fields of a cell record.
#[repr(C)]
#[derive(Clone, Copy, Debug, Default, PartialEq, Eq)]
pub struct Value {
    pub place: u8,
    pub cue: Cue,
    pub previous: Cue,
}

// Mark 0 is empty, 1 an offer or a first cell, 2 adopted, 3 committed.
#[repr(C)]
#[derive(Clone, Copy, Debug, Default, PartialEq, Eq)]
pub struct Cell {
    pub mark: u8,
    pub value: Value,
}

impl Cell {
    pub fn offered(value: Value) -> Cell
        ensures { result ≡ offered value }
    {
        Cell { mark: 1, value }
    }

    pub fn adopted(value: Value) -> Cell
        ensures { result ≡ adopted value }
    {
        Cell { mark: 2, value }
    }

    pub fn committed(value: Value) -> Cell
        ensures { result ≡ committed value }
    {
        Cell { mark: 3, value }
    }

    pub fn is_empty(self) -> bool
        ensures { result ≡ is_empty self }
    {
        self.mark == 0
    }

    pub fn is_committed(self) -> bool
        ensures { result ≡ is_committed self }
    {
        self.mark == 3
    }
}

// "It has three sections (offers, first cells, second cells)"
#[derive(Clone, Copy, Debug, PartialEq, Eq)]
pub enum Section {
    Offers,
    FirstCells,
    SecondCells,
}

impl Section {
    // How many sections come before it.
    pub fn index(self) -> usize
        ensures { result ≡ section_of self }
    {
        self as usize
    }
}

// One rack's state: its clock, its first lane, the cells gathered in its present block and, one per lane, its held value, result and news.
#[repr(C)]
#[derive(Clone, Copy, Debug, Default, PartialEq, Eq)]
pub struct Rack {
    pub round: u8,
    pub step: u8,
    pub first: u8,
    pub firsts: [Cell; 8],
    pub seconds: [Cell; 8],
    pub held: [Value; 4],
    pub results: [Cell; 4],
    pub news: [Value; 4],
}

impl Rack {
    // One lane settled: its log is lent and appended to, and the rack comes back with what it holds next.
    pub fn settle(mut self, log: &mut [u8], lane: usize, rack: u8) -> Rack
        requires { PartLent (logs_of log.old) self lane }
        ensures { record { logs = logs_of log.new; rack = result } ≡ settle_part (logs_of log.old) self lane rack }
    {
        let news = self.news[lane];
        let result = self.results[lane];
        let value = result.value;
        let place = value.place as usize;
        // "L is the log length as it then stands"
        let mut length = logs::length_from(log, 0, log.len() / 2);
        // "1. if the news has place L + 1, append its previous cue;"
        if (news.place as usize) == length + 1 {
            logs::store(log, length, news.previous);
            length += 1;
        }
        // "2. if the result is committed and has place L, append its cue;"
        if result.is_committed() & (place == length) {
            logs::store(log, length, value.cue);
            length += 1;
        }
        // "3. if the result has place L, hold it; otherwise hold the rack's own next cue"
        if place == length {
            self.held[lane] = value;
        } else {
            let own = logs::own_cues(log, 0, rack, length);
            let last = logs::last_entry(log, 0, length);
            self.held[lane] = Value {
                place: length as u8,
                cue: Cue {
                    issuer: rack,
                    number: 1 + own,
                },
                previous: last,
            };
        }
        self
    }
}

// The six kinds of steps.
#[derive(Clone, Copy, Debug, PartialEq, Eq)]
pub enum Kind {
    Offer,
    Answer,
    FirstWrite,
    FirstRead,
    SecondWrite,
    SecondRead,
}

// Why a call was refused: the lines of the document's table, each with its number.
#[derive(Clone, Copy, Debug, PartialEq, Eq)]
pub enum Refusal {
    // "n, k or R outside its range, or a lent length not exact"
    Misfit = 1,
    // "tables or states not sound"
    Unsound = 2,
    // "turn not 4 bytes, last byte not zero, or rack at or above n"
    BadRecord = 3,
    // "rack has finished R rounds"
    Finished = 4,
    // "not an answer step and lane or source is not 255; or an answer step and lane at or above k, or source at or above n"
    Misnamed = 5,
    // "answer: that source has no offer in this round at that lane"
    NotOffered = 6,
    // "answer: the lane is decided for another source"
    DecidedElse = 7,
    // "last step: settling would make a log longer than R"
    Overfull = 8,
    // "log query: rack, lane or place not there"
    NotThere = 9,
    // "cue record: rack, lane or code out of range, a 65th cue, or a short record"
    BadCue = 10,
}

// "A refusal returns its number"
impl From<Refusal> for u8 {
    ghost from_gives = { λ refusal number. number ≡ number_of refusal };

    fn from(refusal: Refusal) -> u8 {
        refusal as u8
    }
}

// A turn record's four bytes.
#[derive(Clone, Copy, Debug, PartialEq, Eq)]
pub struct Turn {
    pub rack: u8,
    pub lane: u8,
    pub source: u8,
    pub zero: u8,
}

// A record in the turn bytes: a whole one and the place behind it, or a short last piece and its length.
#[derive(Clone, Copy, Debug, PartialEq, Eq)]
pub enum Piece {
    Whole(Turn, usize),
    Short(usize),
}
