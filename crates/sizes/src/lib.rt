// Test 1: sizes in range and lent lengths exact.
#![tactic(auto, using(model::proofs::Sizes::sizes, model::proofs::Sizes::rows_most, model::proofs::Sizes::records_most), unfolding(model::specs::Size::size_up_to, model::specs::Size::cell_records, model::specs::Size::log_records, model::specs::Size::decisions_length, crate::specs::Lengths::lengths_fit, crate::specs::Lengths::logs_fit))]

ghost use Rattle.std.specs.Prelude.{◌≡◌, true};
ghost use Rattle.model.specs.Size.{size_fits, records};
ghost use Rattle.sizes.specs.Lengths.{lengths_fit, logs_fit};

use model::Size;

// "n racks, 1 to 8. k lanes, 1 to 4. R rounds, 1 to 64."
pub fn size_fits(size: Size) -> bool
    ensures { result ≡ size_fits size }
{
    (1..=8).contains(&size.racks)
        && (1..=4).contains(&size.lanes)
        && (1..=64).contains(&size.rounds)
}

// How many records a section of the cell table has, and the log table.
pub fn records(size: Size) -> usize
    requires { size_fits size ≡ true }
    ensures { result ≡ records size }
{
    size.rounds * size.lanes * size.racks
}

// The sizes in range, and the lengths of the three tables exact.
pub fn lengths_fit(size: Size, cells: usize, logs: usize, decisions: usize) -> bool
    ensures { result ≡ lengths_fit size cells logs decisions }
{
    logs_fit(size, logs) && cells == 24 * records(size) && decisions == size.rounds * size.lanes
}

// The sizes in range, and the length of the log table exact.
pub fn logs_fit(size: Size, logs: usize) -> bool
    ensures { result ≡ logs_fit size logs }
{
    size_fits(size) && logs == 2 * records(size)
}
