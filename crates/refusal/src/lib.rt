// Refusals 4 to 8 of a turn, tested in this order.
#![tactic(auto)]

ghost use Rattle.std.specs.Prelude.{◌≡◌, length};
ghost use Rattle.model.specs.Size.{decisions_length};
ghost use Rattle.model.specs.InUse.{cells_length, tables_of, cells_of, logs_of};
ghost use Rattle.model.specs.Refusal.{reply_number};
ghost use Rattle.model.specs.Turn.{finished, misnamed, not_offered, decided_else, refusal_of};
ghost use Rattle.step.specs.Ready.{Tested};
ghost use Rattle.refusal.specs.Tests.{overfull_in, Named, Ending};

use model::{Rack, Refusal, Section, Size};

// "rack has finished R rounds"
#[tactic(auto, unfolding(model::specs::Turn::finished))]
fn finished(size: Size, r: Rack) -> bool
    ensures { result ≡ finished size r }
{
    size.rounds < r.round as usize
}

// "not an answer step and lane or source is not 255; or an answer step and lane at or above k, or source at or above n"
#[tactic(auto, unfolding(model::specs::Turn::misnamed))]
fn misnamed(size: Size, r: Rack, lane: u8, source: u8) -> bool
    ensures { result ≡ misnamed size r lane source }
{
    if r.step == 1 {
        size.lanes <= lane as usize || size.racks <= source as usize
    } else {
        lane != 255 || source != 255
    }
}

// "answer: that source has no offer in this round at that lane"
#[tactic(auto, unfolding(model::specs::Turn::not_offered))]
fn not_offered(cells: &[u8], size: Size, r: Rack, lane: u8, source: u8) -> bool
    requires { Named size r lane source × (length cells.now ≡ cells_length size) }
    ensures { result ≡ not_offered size r (cells_of cells.now) lane source }
{
    if r.step != 1 {
        return false;
    }
    let c = cells::read(
        cells,
        size,
        Section::Offers,
        r.round as usize,
        lane as usize,
        source as usize,
    );
    c.is_empty()
}

// "answer: the lane is decided for another source"
#[tactic(auto, unfolding(model::specs::Turn::decided_else))]
fn decided_else(decisions: &[u8], size: Size, r: Rack, lane: u8, source: u8) -> bool
    requires { Named size r lane source × (length decisions.now ≡ decisions_length size) }
    ensures { result ≡ decided_else size r decisions.now lane source }
{
    if r.step != 1 {
        return false;
    }
    let decision = step::decision_at(decisions, size, r, lane as usize);
    decision != 255 && decision != source
}

// "last step: settling would make a log longer than R"
fn overfull(cells: &[u8], logs: &[u8], size: Size, rack: usize, r: Rack) -> bool
    requires { Ending size cells.now logs.now rack r }
    ensures { result ≡ overfull_in size (cells_of cells.now) (logs_of logs.now) rack r }
{
    if !kind::is_last(size, r) {
        return false;
    }
    let read = step::after_second_read(cells, size, rack, r);
    settle::too_long(logs, size, rack, read)
}

// The first refusal among 4 to 8: "They are tested in this order."
pub fn refusal_of(
    cells: &[u8],
    logs: &[u8],
    decisions: &[u8],
    size: Size,
    rack: usize,
    r: Rack,
    lane: u8,
    source: u8,
) -> Result<(), Refusal>
    requires { Tested size (tables_of cells.now logs.now decisions.now) rack r }
    ensures { reply_number result ≡ refusal_of size (tables_of cells.now logs.now decisions.now) rack r lane source }
{
    if finished(size, r) {
        return Err(Refusal::Finished);
    }
    if misnamed(size, r, lane, source) {
        return Err(Refusal::Misnamed);
    }
    if not_offered(cells, size, r, lane, source) {
        return Err(Refusal::NotOffered);
    }
    if decided_else(decisions, size, r, lane, source) {
        return Err(Refusal::DecidedElse);
    }
    if overfull(cells, logs, size, rack, r) {
        return Err(Refusal::Overfull);
    }
    Ok(())
}
