// Going through the lines of a book.
ghost use Rattle.std.specs.Prelude.{◌≡◌, ◌+◌, ◌≤◌, [], ◌∷◌, MatchOption};
ghost use Rattle.std.specs.Iterator.{YieldsFirstBy};
ghost use Rattle.grade.specs.declared.upto.UpTo.{UpTo};
ghost use Rattle.text.specs.declared.line.Line.{Line};
ghost use Rattle.text.specs.Reading.{rule_line};
ghost use Rattle.book.specs.Left.{rules_left, marks_left, marks_end};

use crate::tables::Book;
use grade::upto::UpTo;
use std::iter::Enumerate;
use std::slice::Iter;
use text::line::{Line, LinkLine, Rule, WatchLine};

// The lines of a book that are still to come, in the order of writing.
#[derive(Drop)]
pub(crate) struct Lines<'a> {
    rules: Iter<'a, Option<Rule>>,
    opens: Iter<'a, u64>,
    watches: Iter<'a, WatchLine>,
    links: Iter<'a, LinkLine>,
    // whether the node, or the mode, with this number has a line
    ends: Enumerate<Iter<'a, bool>>,
    bares: Enumerate<Iter<'a, bool>>,
    ghost nodes: { marks_end ends ≤ 64 },
    ghost modes: { marks_end bares ≤ 16 },
}

// The next order or notice.
fn next_rule(rules: &mut Iter<'_, Option<Rule>>) -> Option<Rule>
    ensures { YieldsFirstBy rule_line rules_left rules.old result rules.new }
{
    rules.find(|rule| rule.is_some()).copied().flatten()
}

// The number of the next mark that is set.
fn next_mark<const MAX: u16>(marks: &mut Enumerate<Iter<'_, bool>>) -> Option<UpTo<MAX>>
    requires { marks_end marks.old ≤ MAX + 1 }
    ensures next { (line : UpTo MAX → Line) → YieldsFirstBy line (marks_left MAX line) marks.old result marks.new }
    ensures end { marks_end marks.new ≡ marks_end marks.old }
{
    let (number, _) = marks.find(|(_, set)| **set)?;
    // a cast, which `marks_end` makes safe
    Some(UpTo {
        value: number as u16,
    })
}

impl Iterator for Lines<'_> {
    ghost use Rattle.std.specs.Iterator.{YieldsFirst, item_count};
    ghost use Rattle.book.specs.Walk.{rest};

    type Item = Line;

    ghost next_gives = { YieldsFirst rest };

    ghost remaining = { item_count rest };

    fn next(&mut self) -> Option<Line> {
        if let Some(rule) = next_rule(&mut self.rules) {
            return Some(Line::from(rule));
        }
        if let Some(phase) = self.opens.next() {
            return Some(Line::Open(*phase));
        }
        if let Some(watch) = self.watches.next() {
            return Some(Line::Watch(*watch));
        }
        if let Some(link) = self.links.next() {
            return Some(Line::Link(*link));
        }
        if let Some(node) = next_mark(&mut self.ends) {
            return Some(Line::End(node));
        }
        let mode = next_mark(&mut self.bares)?;
        Some(Line::Bare(mode))
    }
}

impl Book {
    ghost use Rattle.book.specs.Lines.{lines};
    ghost use Rattle.book.specs.Walk.{rest};

    // The lines that stand.
    pub(crate) fn lines(&self) -> Lines<'_>
        ensures { rest result ≡ lines self.now }
    {
        Lines {
            rules: self.rules.iter(),
            opens: self.opens_in_use().iter(),
            watches: self.watches_in_use().iter(),
            links: self.links_in_use().iter(),
            ends: self.ends.iter().enumerate(),
            bares: self.bares.iter().enumerate(),
        }
    }
}
