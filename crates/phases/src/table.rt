// A table of phases.
ghost use Rattle.std.specs.Prelude.{◌≡◌, ◌≤◌, length, MatchOption, MatchResult};

use crate::refusal::PhaseRefusal;

// Phases in a table: the first `count` places. A state of the finder is told by the place of its phase.
// An array and a count, since the library has no heap.
#[derive(Drop)]
pub struct Phases {
    pub table: [u64; 32],
    pub count: usize,
    ghost places: { (length table ≡ 32) × (count ≤ 32) },
}

impl Phases {
    ghost use Rattle.phases.specs.Table.{used, Holds, FirstAt};
    ghost use Rattle.phases.specs.Growth.{Added, Lacking};

    // The phases that are in use.
    pub fn in_use(&self) -> &[u64]
        ensures { result.now ≡ used self.now }
    {
        &self.table[..self.count]
    }

    // The place of a phase: the first, where it stands at several.
    pub fn phase_index(&self, phase: u64) -> Option<usize>
        ensures { MatchOption result (Holds self.now phase → ⊥) (FirstAt self.now phase) }
    {
        self.in_use().iter().position(|opened| *opened == phase)
    }

    // Puts a phase behind the others, unless it is one of them.
    pub(crate) fn add(&mut self, phase: u64) -> Result<(), PhaseRefusal>
        ensures { MatchResult result
            (λ _. Added self.old phase self.new)
            (λ e. Lacking self.old phase e) }
    {
        if self.phase_index(phase).is_some() {
            return Ok(());
        }
        if self.count >= self.table.len() {
            return Err(PhaseRefusal::TooMany);
        }
        self.table[self.count] = phase;
        self.count += 1;
        Ok(())
    }
}
