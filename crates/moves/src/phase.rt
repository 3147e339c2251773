// How notices go with phases, which are numbers of 64 bits: bit n is set where the order or notice n is in force.
ghost use Rattle.std.specs.Prelude.{◌≡◌, Decides};
ghost use Rattle.model.specs.Phases.{Allows, without, after};

use text::line::{NoticeLine, Number};
use text::phase::{bit, contains};

// Whether the notice can be carried out in the phase.
pub fn allowed(notice: &NoticeLine, phase: u64) -> bool
    ensures { Decides result (Allows notice.now phase) }
{
    contains(phase, notice.number) && contains(phase, notice.loses)
}

// The phase without the number.
fn withdrawn(phase: u64, number: Number) -> u64
    ensures { result ≡ without phase number.value }
{
    phase ^ (phase & bit(number))
}

// The phase after a notice: it loses one number, and then it gains one.
#[tactic(auto, unfolding(model::specs::Phases::after))]
pub fn after_notice(phase: u64, notice: &NoticeLine) -> u64
    ensures { result ≡ after notice.now phase }
{
    withdrawn(phase, notice.loses) | bit(notice.gains)
}
