// Reading a line of text.
ghost use Rattle.std.specs.Prelude.{◌≡◌, ℕ, ◌+◌, ◌≢◌, Err};
ghost use Rattle.text.specs.declared.refusal.LineRefusal.TheVariants.{NotRising};
ghost use Rattle.text.specs.Forms.{rule_forms};
ghost use Rattle.text.specs.Names.{agree, furthest};
ghost use Rattle.text.specs.Reading.{Outcome, read, read_as, as_line, read_rule};
ghost use Rattle.text.specs.Meaning.{Says, SaysAs};

use crate::form_name::FormName;
use crate::line::{Line, LinkLine, Rule, WatchLine};
use crate::line_reader::LineReader;
use crate::refusal::LineRefusal;

// How many bytes two texts have in common from the front.
fn agreeing(word: &[u8], line: &[u8]) -> usize
    ensures { result ≡ agree word.now line.now }
{
    word.iter().zip(line).take_while(|(a, b)| a == b).count()
}

// The first place at which none of these names goes on.
fn unnamed(line: &[u8], names: &[FormName]) -> usize
    ensures { result ≡ 1 + furthest names.now line.now }
{
    let mut most = 0;
    for name in names {
        most = most.max(agreeing(name.bytes(), line));
    }
    1 + most
}

// What the form that the line names makes of it.
fn read_named(line: &[u8]) -> Result<Line, LineRefusal>
    ensures { result ≡ read line.now }
{
    let mut reader = LineReader::new(line)?;
    match reader.name() {
        Some(FormName::Order) => Ok(Line::Order(reader.order()?)),
        Some(FormName::Notice) => Ok(Line::Notice(reader.notice()?)),
        Some(FormName::Open) => reader.phase(),
        Some(FormName::Watch) => {
            let (mode, wagon, node) = reader.three()?;
            Ok(Line::Watch(WatchLine { mode, wagon, node }))
        }
        Some(FormName::Link) => {
            let (node, wagon, to) = reader.three()?;
            Ok(Line::Link(LinkLine { node, wagon, to }))
        }
        Some(FormName::End) => Ok(Line::End(reader.one()?)),
        Some(FormName::Bare) => Ok(Line::Bare(reader.one()?)),
        None => Err(LineRefusal::Syntax(unnamed(line, &FormName::ALL))),
    }
}

// What the form that the line names makes of it, where there are orders and notices only: other names are refused here, at other places.
fn read_named_rule(line: &[u8]) -> Result<Rule, LineRefusal>
    ensures { as_line result ≡ read_as rule_forms line.now }
{
    let mut reader = LineReader::new(line)?;
    match reader.name() {
        Some(FormName::Order) => Ok(Rule::Order(reader.order()?)),
        Some(FormName::Notice) => Ok(Rule::Notice(reader.notice()?)),
        _ => Err(LineRefusal::Syntax(unnamed(line, &FormName::RULES))),
    }
}

// What a line of the book says, or why and where it is refused.
pub fn read_line(line: &[u8]) -> Result<Line, LineRefusal>
    ensures value { result ≡ read line.now }
    ensures says { Says line.now result }
    ensures alone { (x : Outcome) → Says line.now x → x ≡ result }
{
    read_named(line)
}

// What a line says where there are orders and notices only, or why and where it is refused.
pub fn read_rule(line: &[u8]) -> Result<Rule, LineRefusal>
    ensures value { result ≡ read_rule line.now }
    ensures same { as_line result ≡ read_as rule_forms line.now }
    ensures says { SaysAs rule_forms line.now (as_line result) }
    ensures alone { (x : Outcome) → SaysAs rule_forms line.now x → x ≡ as_line result }
    ensures rises { (q : ℕ) → result ≢ Err (NotRising q) }
{
    read_named_rule(line)
}
