// Which of the six kinds a step is, and where a step stands in its round.
#![tactic(auto)]

ghost use Rattle.std.specs.Prelude.{◌≡◌, ◌≤◌, ◌<◌};
ghost use Rattle.model.specs.Size.{block_steps, round_steps};
ghost use Rattle.model.specs.Kind.{kind_of, block_at, place_at, lane_of, lane_at, block_of, steps_in, firsts_read, seconds_read};
ghost use Rattle.model.specs.Step.{is_last};
ghost use Rattle.kind.specs.Stretch.{stretch};

use model::{Kind, Rack, Size};

// "a block of 2n + 2 steps"
#[tactic(auto, unfolding(model::specs::Size::block_steps))]
pub fn block_steps(size: Size) -> usize
    requires { size.racks ≤ 8 }
    ensures { result ≡ block_steps size }
{
    2 * size.racks + 2
}

// "A round of one rack is 2 + k(2n + 2) steps."
#[tactic(auto, using(crate::proofs::Places::round_most), unfolding(model::specs::Size::round_steps))]
pub fn round_steps(size: Size) -> usize
    requires { (size.racks ≤ 8) × (size.lanes ≤ 4) }
    ensures { result ≡ round_steps size }
{
    2 + size.lanes * block_steps(size)
}

// The block that a step is in, from 0.
#[tactic(auto, unfolding(model::specs::Size::block_steps, model::specs::Kind::block_at))]
pub fn block_at(size: Size, step: usize) -> usize
    requires { size.racks ≤ 8 }
    ensures { result ≡ block_at size step }
{
    step.saturating_sub(2) / block_steps(size)
}

// The step's place in its block, from 0.
#[tactic(auto, unfolding(model::specs::Size::block_steps, model::specs::Kind::place_at))]
pub fn place_at(size: Size, step: usize) -> usize
    requires { size.racks ≤ 8 }
    ensures { result ≡ place_at size step }
{
    step.saturating_sub(2) % block_steps(size)
}

// The step as it would be numbered with eight racks and in the first block: so the ranges below have constant bounds.
#[tactic(auto, using(model::proofs::Place::place_below, crate::proofs::Places::steps_most), unfolding(crate::specs::Stretch::stretch))]
fn stretched(size: Size, step: usize) -> usize
    requires { size.racks ≤ 8 }
    ensures { result ≡ stretch size step }
{
    if step < 2 {
        return step;
    }
    let place = place_at(size, step);
    if place <= size.racks {
        return place + 2;
    }
    place + 10 - size.racks
}

// "Which of the six kinds comes next is a matter of the step number's range."
#[tactic(auto, using(crate::proofs::Stretch::kinds))]
pub fn kind_of(size: Size, step: usize) -> Kind
    requires { size.racks ≤ 8 }
    ensures { result ≡ kind_of size step }
{
    match stretched(size, step) {
        0 => Kind::Offer,
        1 => Kind::Answer,
        2 => Kind::FirstWrite,
        3..=10 => Kind::FirstRead,
        11 => Kind::SecondWrite,
        _ => Kind::SecondRead,
    }
}

// The lane of a block: the first lane's comes first, the others follow in rising order.
#[tactic(auto, unfolding(model::specs::Kind::lane_of))]
pub fn lane_of(first: usize, block: usize) -> usize
    ensures { result ≡ lane_of first block }
{
    if block == 0 {
        return first;
    }
    if block <= first {
        return block - 1;
    }
    block
}

// The lane of the block that a rack is in.
pub fn lane_at(size: Size, r: Rack) -> usize
    requires { size.racks ≤ 8 }
    ensures { result ≡ lane_at size r }
{
    lane_of(r.first as usize, block_at(size, r.step as usize))
}

// The block of a lane.
#[tactic(auto, unfolding(model::specs::Kind::block_of))]
pub fn block_of(first: usize, lane: usize) -> usize
    ensures { result ≡ block_of first lane }
{
    if lane == first {
        return 0;
    }
    if lane < first {
        return lane + 1;
    }
    lane
}

// How many steps of a lane's block a rack has taken in its present round, from none to all.
#[tactic(auto, unfolding(model::specs::Kind::steps_in))]
pub fn steps_in(size: Size, r: Rack, lane: usize) -> usize
    requires { (size.racks ≤ 8) × (lane < 4) }
    ensures { result ≡ steps_in size r lane }
{
    let whole = block_steps(size);
    let start = block_of(r.first as usize, lane) * whole;
    let after = (r.step as usize).saturating_sub(2).saturating_sub(start);
    after.min(whole)
}

// How many first cells a rack has read in its present block.
#[tactic(auto, unfolding(model::specs::Kind::firsts_read))]
pub fn firsts_read(size: Size, r: Rack) -> usize
    requires { size.racks ≤ 8 }
    ensures { result ≡ firsts_read size r }
{
    let after = place_at(size, r.step as usize).saturating_sub(1);
    after.min(size.racks)
}

// How many second cells a rack has read in its present block.
#[tactic(auto, unfolding(model::specs::Kind::seconds_read))]
pub fn seconds_read(size: Size, r: Rack) -> usize
    requires { size.racks ≤ 8 }
    ensures { result ≡ seconds_read size r }
{
    place_at(size, r.step as usize).saturating_sub(size.racks + 2)
}

// Whether a rack's step is its round's last.
#[tactic(auto, unfolding(model::specs::Step::is_last))]
pub fn is_last(size: Size, r: Rack) -> bool
    requires { (size.racks ≤ 8) × (size.lanes ≤ 4) }
    ensures { result ≡ is_last size r }
{
    r.step as usize + 1 == round_steps(size)
}
