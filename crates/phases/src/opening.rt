// Listing the opened phases of a book.
ghost use Rattle.std.specs.Prelude.{MatchResult};
ghost use Rattle.model.specs.Phases.{Opened};
ghost use Rattle.book.specs.Lines.{lines};
ghost use Rattle.phases.specs.Table.{OpenedBy};
ghost use Rattle.phases.specs.Refusals.{PhasesRefused, PhasesAllowed, phase_number, phase_place};
ghost use Rattle.phases.specs.Growth.{Found, Went, Stuck, Started, NextBy, Followed, Closed};

use crate::missing::least_missing;
use crate::refusal::PhaseRefusal;
use crate::table::Phases;
use book::tables::Book;
use moves::phase::{after_notice, allowed};
use text::line::Rule;

// That the phases so far are `Found` is asked here, and below: a phase can be opened in many ways, so a ghost field of a struct
// would hold that truncated only, and each use would have to bring it back.

// Adds the phase of each open line.
fn start(book: &Book, phases: &mut Phases) -> Result<(), PhaseRefusal>
    requires { Found (lines book.now) phases.old }
    ensures { MatchResult result
        (λ _. Went (lines book.now) phases.old phases.new (Started (lines book.now) phases.new))
        (Stuck (lines book.now)) }
{
    for phase in book.opens_in_use() {
        phases.add(*phase)?;
    }
    Ok(())
}

// The phase after this one by the rule, if that is a notice which can be carried out.
fn next_phase(rule: &Option<Rule>, phase: u64) -> Option<u64>
    ensures { NextBy rule.now phase result }
{
    match rule {
        Some(Rule::Notice(notice)) if allowed(notice, phase) => Some(after_notice(phase, notice)),
        _ => None,
    }
}

// Adds each phase that a notice leads to from this one.
fn follow(book: &Book, phases: &mut Phases, phase: u64) -> Result<(), PhaseRefusal>
    requires found { Found (lines book.now) phases.old }
    requires opened { Opened (lines book.now) phase }
    ensures { MatchResult result
        (λ _. Went (lines book.now) phases.old phases.new (Followed (lines book.now) phases.new phase))
        (Stuck (lines book.now)) }
{
    for rule in &book.rules {
        if let Some(next) = next_phase(rule, phase) {
            phases.add(next)?;
        }
    }
    Ok(())
}

// Goes through the places in turn, those that are added on the way too, until no notice leads to a phase that is not there.
fn close(book: &Book, phases: &mut Phases) -> Result<(), PhaseRefusal>
    requires { Found (lines book.now) phases.old }
    ensures { MatchResult result
        (λ _. Went (lines book.now) phases.old phases.new (Closed (lines book.now) phases.new phases.new.count))
        (Stuck (lines book.now)) }
{
    // an index: the table grows while it is gone through
    let mut done = 0;
    while let Some(phase) = phases.in_use().get(done).copied() {
        follow(book, phases, phase)?;
        done += 1;
    }
    Ok(())
}

// The opened phases of a book, which is only read.
pub fn open_phases(book: &Book) -> Result<Phases, PhaseRefusal>
    ensures { MatchResult result
        (λ phases. PhasesAllowed (lines book.now) × OpenedBy (lines book.now) phases)
        (λ e. PhasesRefused (lines book.now) (phase_number e) (phase_place e)) }
{
    if let Some(number) = least_missing(book) {
        return Err(PhaseRefusal::NotAccepted(usize::from(number)));
    }
    let mut phases = Phases {
        table: [0; 32],
        count: 0,
    };
    start(book, &mut phases)?;
    close(book, &mut phases)?;
    Ok(phases)
}
