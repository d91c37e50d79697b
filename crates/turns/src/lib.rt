// The reader of turn records: a struct with the turn bytes and its own place in them, and few thin methods over `piece_at`.
#![tactic(auto)]

ghost use Rattle.std.specs.Prelude.{◌≡◌};
ghost use Rattle.model.specs.Night.{piece_at};
ghost use Rattle.turns.specs.Walk.{place_behind};

use model::{Piece, Turn};

// What stands at a place of the turn bytes: "a last piece under 4 bytes is given out once as a short record".
#[tactic(auto, unfolding(model::specs::Night::piece_at))]
pub fn piece_at(bytes: &[u8], at: usize) -> Option<Piece>
    ensures { result ≡ piece_at bytes.now at }
{
    match bytes.get(at..)? {
        &[] => None,
        &[rack, lane, source, zero, ..] => {
            let turn = Turn {
                rack,
                lane,
                source,
                zero,
            };
            Some(Piece::Whole(turn, at + 4))
        }
        short => Some(Piece::Short(short.len())),
    }
}

// The place behind what stands at a place.
#[tactic(auto, using(crate::proofs::Pieces::short_from))]
pub fn place_behind(bytes: &[u8], at: usize) -> usize
    ensures { result ≡ place_behind at (piece_at bytes.now at) }
{
    match piece_at(bytes, at) {
        Some(Piece::Whole(_, next)) => next,
        Some(Piece::Short(left)) => at + left,
        None => at,
    }
}

// "A reader walks the bytes with its own place in them": the turn bytes and an index.
#[derive(Clone, Copy, Debug)]
pub struct Turns<'a> {
    pub bytes: &'a [u8],
    pub at: usize,
}

impl<'a> Turns<'a> {
    // A reader at the first byte.
    pub fn over(bytes: &'a [u8]) -> Turns<'a>
        ensures { (result.bytes ≡ bytes.entry) × (result.at ≡ 0) }
    {
        Turns { bytes, at: 0 }
    }

    // What stands at the reader's place.
    pub fn next(self) -> Option<Piece>
        ensures { result ≡ piece_at self.entry.bytes.now self.entry.at }
    {
        piece_at(self.bytes, self.at)
    }

    // The reader at another place of the same bytes.
    pub fn moved(self, at: usize) -> Turns<'a>
        ensures { (result.bytes ≡ self.entry.bytes) × (result.at ≡ at) }
    {
        Turns { at, ..self }
    }

    // The reader behind what stands at its place.
    pub fn behind(self) -> Turns<'a>
        ensures { (result.bytes ≡ self.entry.bytes) × (result.at ≡ place_behind self.entry.at (piece_at self.entry.bytes.now self.entry.at)) }
    {
        self.moved(place_behind(self.bytes, self.at))
    }

    // What a reader gives first.
    pub fn first(bytes: &[u8]) -> Option<Piece>
        ensures { result ≡ piece_at bytes.now 0 }
    {
        Turns::over(bytes).next()
    }
}
