// The least number that a notice or an open line names and under which nothing stands.
ghost use Rattle.std.specs.Prelude.{◌≡◌, Decides, MatchOption};
ghost use Rattle.model.specs.Phases.{InForce};
ghost use Rattle.book.specs.Lines.{lines};
ghost use Rattle.phases.specs.Missing.{Accepted, LeastMissing, NoneMissing, Lowered, RuleMentions};

use book::tables::Book;
use grade::upto::UpTo;
use text::line::{Number, Rule};
use text::phase::contains;

// Whether an order or a notice has this number.
fn accepts(book: &Book, number: Number) -> bool
    ensures { Decides result (Accepted (lines book.now) number.value) }
{
    book.rules[usize::from(number)].is_some()
}

// The lesser of the two numbers, where nothing stands under the second; else the first, if any.
fn lower(book: &Book, least: Option<Number>, number: Number) -> Option<Number>
    ensures { Lowered (lines book.now) (λ m. number.value ≡ m) least result }
{
    if accepts(book, number) {
        return least;
    }
    Some(least.map_or(number, |least| least.min(number)))
}

// The least of `least` and what is missing of the numbers that the rule, if it is a notice, withdraws and puts in force.
fn lower_by_rule(book: &Book, least: Option<Number>, rule: &Option<Rule>) -> Option<Number>
    ensures { Lowered (lines book.now) (RuleMentions rule.now) least result }
{
    match rule {
        None | Some(Rule::Order(_)) => least,
        Some(Rule::Notice(notice)) => {
            let least = lower(book, least, notice.loses);
            lower(book, least, notice.gains)
        }
    }
}

// The least of `least` and what is missing of the numbers in the phase.
fn lower_by_phase(book: &Book, least: Option<Number>, phase: u64) -> Option<Number>
    ensures { Lowered (lines book.now) (InForce phase) least result }
{
    let end = least.map_or(64, |number| number.value);
    // numbers, and no index: in a chain the closure that makes them would need clauses of its own
    for value in 0..end {
        let number = UpTo { value };
        if contains(phase, number) && !accepts(book, number) {
            return Some(number);
        }
    }
    least
}

// The least number that is named and not accepted. A notice names its own number too, and that is accepted.
pub(crate) fn least_missing(book: &Book) -> Option<Number>
    ensures { MatchOption result (NoneMissing (lines book.now)) (λ n. LeastMissing (lines book.now) n.value) }
{
    let mut least = None;
    for rule in &book.rules {
        least = lower_by_rule(book, least, rule);
    }
    for phase in book.opens_in_use() {
        least = lower_by_phase(book, least, *phase);
    }
    least
}
