// A cue, a value and a cell: zeros, or in their ranges.
ghost use Rattle.std.specs.Prelude.{◌≡◌, true, cond, eqb};
ghost use Rattle.model.specs.Size.{size_fits};
ghost use Rattle.model.specs.Record.{no_cue, no_value, no_cell, same_cue, same_value, same_cell};
ghost use Rattle.model.specs.Table.{section_of};
ghost use Rattle.model.specs.Sound.{mark_fits, sound_cue, sound_value, sound_cell};

use model::{Cell, Cue, Section, Size, Value};

// Whether a cue is zeros. Here and in the two below each byte is tested whatever the others are: most cells of a night are empty.
#[tactic(auto, unfolding(model::specs::Record::same_cue))]
fn zero_cue(c: Cue) -> bool
    ensures { result ≡ same_cue c no_cue }
{
    (c.issuer == 0) & (c.number == 0)
}

// Whether a value is zeros.
#[tactic(auto, unfolding(model::specs::Record::same_value))]
pub fn zero_value(v: Value) -> bool
    ensures { result ≡ same_value v no_value }
{
    (v.place == 0) & (zero_cue(v.cue) & zero_cue(v.previous))
}

// Whether a cell is zeros.
#[tactic(auto, unfolding(model::specs::Record::same_cell))]
pub fn zero_cell(c: Cell) -> bool
    ensures { result ≡ same_cell c no_cell }
{
    c.is_empty() & zero_value(c.value)
}

// "issuers are below n, number is 1 to R + 1"
#[tactic(auto, using(model::proofs::Sizes::sizes), unfolding(model::specs::Sound::sound_cue))]
pub fn sound_cue(size: Size, c: Cue) -> bool
    requires { size_fits size ≡ true }
    ensures { result ≡ sound_cue size c }
{
    let number = usize::from(c.number);
    usize::from(c.issuer) < size.racks && (1..=size.rounds + 1).contains(&number)
}

// "the previous pair keeps the same ranges, but is 0 and 0 exactly at place 0"
#[tactic(auto, unfolding(model::specs::Record::same_cue))]
fn sound_previous(size: Size, place: u8, c: Cue) -> bool
    requires { size_fits size ≡ true }
    ensures { result ≡ cond (eqb place 0) (same_cue c no_cue) (sound_cue size c) }
{
    if place == 0 {
        return c == Cue::default();
    }
    sound_cue(size, c)
}

// "in a value place is at most R, issuers are below n, number is 1 to R + 1, and the previous pair keeps the same ranges"
#[tactic(auto, unfolding(model::specs::Sound::sound_value))]
pub fn sound_value(size: Size, v: Value) -> bool
    requires { size_fits size ≡ true }
    ensures { result ≡ sound_value size v }
{
    usize::from(v.place) <= size.rounds
        && sound_cue(size, v.cue)
        && sound_previous(size, v.place, v.previous)
}

// "marks fit their section (0 or 1; 0 or 1; 0, 2 or 3)": those of a cell that is not empty
#[tactic(auto, unfolding(model::specs::Sound::mark_fits))]
fn mark_fits(section: Section, mark: u8) -> bool
    ensures { result ≡ mark_fits (section_of section) mark }
{
    match section {
        Section::Offers | Section::FirstCells => mark == 1,
        Section::SecondCells => mark == 2 || mark == 3,
    }
}

// "records marked 0 are all zeros"
#[tactic(auto, unfolding(model::specs::Sound::sound_cell, model::specs::Record::same_cue, model::specs::Record::same_value))]
pub fn sound_cell(size: Size, section: Section, c: Cell) -> bool
    requires { size_fits size ≡ true }
    ensures { result ≡ sound_cell size (section_of section) c }
{
    if c.is_empty() {
        return zero_value(c.value);
    }
    mark_fits(section, c.mark) && sound_value(size, c.value)
}
