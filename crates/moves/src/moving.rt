// The move: carrying out one line by its number.
ghost use Rattle.std.specs.Prelude.{◌≡◌, Ok, Err, ◌≢◌};
ghost use Rattle.moves.specs.Moving.{handed, told, is_position, number_of, in_phase, takes, text_says, move_says};
ghost use Rattle.moves.specs.Meaning.{Right};
ghost use Rattle.moves.specs.Refusals.{refusal_number};

use crate::lane::{are_wagons, byte, set_down};
use crate::phase::{after_notice, allowed};
use crate::refusal::MoveRefusal;
use crate::stage::Stage;
use text::line::Rule;
use text::phase::contains;
use text::reader::read_rule;

// Whether the mode and the lane, the first bytes of the buffer, are those of a position.
fn are_position(stage: Stage, buffer: &[u8]) -> bool
    ensures { result ≡ is_position stage buffer.now }
{
    buffer
        .get(..stage.length)
        .is_some_and(|lane| stage.mode <= 15 && are_wagons(lane))
}

fn rule_number(rule: &Rule) -> u16
    ensures { result ≡ number_of rule.now }
{
    match rule {
        Rule::Order(order) => order.number.value,
        Rule::Notice(notice) => notice.number.value,
    }
}

// Whether the phase has the rule's number and, for a notice, the number that it withdraws.
fn is_in_phase(rule: &Rule, phase: u64) -> bool
    ensures { result ≡ in_phase rule.now phase }
{
    match rule {
        Rule::Order(order) => contains(phase, order.number),
        Rule::Notice(notice) => allowed(notice, phase),
    }
}

// Whether the mode is the rule's; an order's wagon is on top, and for a notice there is any wagon.
fn takes_lane(rule: &Rule, mode: u8, lane: &[u8]) -> bool
    ensures { result ≡ takes rule.now mode lane.now }
{
    match (rule, lane) {
        (Rule::Order(order), [top, ..]) => u16::from(mode) == order.mode.value
            && u16::from(*top) == order.wagon.value,
        (Rule::Notice(notice), [_, ..]) => u16::from(mode) == notice.mode.value,
        (_, []) => false,
    }
}

// Carries out the rule under its number.
fn carry_out(rule: &Rule, stage: Stage, buffer: &mut [u8], number: u8) -> Result<Stage, MoveRefusal>
    ensures { told result buffer.new ≡ text_says (Ok rule.now) (handed stage buffer.old number) }
{
    if !are_position(stage, buffer) {
        return Err(MoveRefusal::NoPosition);
    }
    if u16::from(number) != rule_number(rule) {
        return Err(MoveRefusal::NotAccepted(number));
    }
    if !is_in_phase(rule, stage.phase) {
        return Err(MoveRefusal::NotInForce);
    }
    if !takes_lane(rule, stage.mode, &buffer[..stage.length]) {
        return Err(MoveRefusal::Forbidden);
    }
    match rule {
        Rule::Order(order) => {
            let length = set_down(buffer, stage.length, order.wagons).ok_or(MoveRefusal::NoRoom)?;
            Ok(Stage {
                mode: byte(order.to),
                length,
                ..stage
            })
        }
        Rule::Notice(notice) => Ok(Stage {
            mode: byte(notice.to),
            phase: after_notice(stage.phase, notice),
            ..stage
        }),
    }
}

// Makes the move that the line allows under this number, from the stage's mode, phase and lane, which is the first bytes of the
// buffer. The first byte is the top. A refusal leaves the buffer as it was, and a move the bytes behind the new lane.
pub fn move_lane(
    line: &[u8],
    stage: Stage,
    buffer: &mut [u8],
    number: u8,
) -> Result<Stage, MoveRefusal>
    ensures value { told result buffer.new ≡ move_says line.now (handed stage buffer.old number) }
    ensures right { Right line.now (handed stage buffer.old number) result buffer.new }
    ensures rises { (e : MoveRefusal) → result ≡ Err e → refusal_number e ≢ 5 }
{
    let rule = read_rule(line)?;
    carry_out(&rule, stage, buffer, number)
}
