// The text of a line, put together from its front on.
ghost use Rattle.std.specs.Prelude.{◌≡◌, ℕ, ◌+◌, ◌<◌, ◌≤◌, List, [], ◌∷◌, ◌++◌, length, take, codes, decimal};
ghost use Rattle.std.specs.List.{flat_map};
ghost use Rattle.text.specs.Phases.{members};
ghost use Rattle.text.specs.Forms.{blank_number, blank_wagon, listed, spelled, text, toll_parts};
ghost use Rattle.text.specs.Names.{name};

use crate::form_name::FormName;
use crate::line::{LONGEST, Line, NoticeLine, Number, OrderLine, Wagons};
use crate::phase::contains;
use grade::toll::Toll;
use std::marker::Model;

// The bytes that stand so far: a buffer and a length, since there is no heap for a Vec.
#[derive(Drop)]
pub(crate) struct LineText {
    pub(crate) bytes: [u8; LONGEST],
    pub(crate) len: usize,
}

impl Model for LineText {
    ghost Value = { List ℕ };

    ghost view = { λ t. take t.len t.bytes };

    ghost invariant = { λ t. t.len ≤ 512 };
}

impl LineText {
    pub(crate) fn as_slice(&self) -> &[u8]
        ensures { result.now ≡ self.now }
    {
        &self.bytes[..self.len]
    }

    // Puts a byte behind what stands.
    fn byte(&mut self, b: u8)
        requires { length self.old < 512 }
        ensures few { length self.new ≡ length self.old + 1 }
        ensures text { self.new ≡ self.old ++ b ∷ [] }
    {
        self.bytes[self.len] = b;
        self.len += 1;
    }

    // Puts these bytes behind what stands.
    fn word(&mut self, word: &[u8])
        requires { length self.old + length word.now ≤ 512 }
        ensures few { length self.new ≡ length self.old + length word.now }
        ensures text { self.new ≡ self.old ++ word.now }
    {
        let end = self.len + word.len();
        self.bytes[self.len..end].copy_from_slice(word);
        self.len = end;
    }

    // Puts the digits of a number.
    fn number(&mut self, n: u16)
        requires { length self.old + 5 ≤ 512 }
        ensures few { length self.new ≤ length self.old + 5 }
        ensures text { self.new ≡ self.old ++ decimal n }
    {
        if n >= 10 {
            self.number(n / 10);
        }
        // a cast that is proved to lose nothing: no From narrows
        self.byte(b'0' + (n % 10) as u8);
    }

    // Puts a number behind a blank.
    fn blank_number(&mut self, n: u16)
        requires { length self.old + 6 ≤ 512 }
        ensures few { length self.new ≤ length self.old + 6 }
        ensures text { self.new ≡ self.old ++ blank_number n }
    {
        self.byte(b' ');
        self.number(n);
    }

    // Puts two numbers with a blank between them.
    fn pair(&mut self, a: u16, b: u16)
        requires { length self.old + 11 ≤ 512 }
        ensures few { length self.new ≤ length self.old + 11 }
        ensures text { self.new ≡ self.old ++ (decimal a ++ blank_number b) }
    {
        self.number(a);
        self.blank_number(b);
    }

    // Puts the wagons of an order, a blank before each.
    fn wagons(&mut self, wagons: Wagons)
        requires { length self.old + 12 ≤ 512 }
        ensures few { length self.new ≤ length self.old + 12 }
        ensures text { self.new ≡ self.old ++ flat_map blank_wagon (listed wagons) }
    {
        match wagons {
            Wagons::Zero => {}
            Wagons::One(a) => self.blank_number(a.value),
            Wagons::Two(a, b) => {
                self.blank_number(a.value);
                self.blank_number(b.value);
            }
        }
    }

    // Puts the numbers of a phase, a blank before each.
    fn phase(&mut self, phase: u64)
        requires { length self.old + 384 ≤ 512 }
        ensures few { length self.new ≤ length self.old + 384 }
        ensures text { self.new ≡ self.old ++ flat_map blank_number (members phase) }
    {
        // these are the numbers themselves, and no indices
        for n in 0..64 {
            if contains(phase, Number { value: n }) {
                self.blank_number(n);
            }
        }
    }

    // Puts the toll that closes an order or a notice.
    fn toll(&mut self, toll: Toll)
        requires { length self.old + 15 ≤ 512 }
        ensures { self.new ≡ self.old ++ spelled toll_parts (toll.minutes, (toll.class, tt)) }
    {
        self.word(b" (");
        self.pair(toll.minutes.value, toll.class.value);
        self.word(b"))");
    }

    // Puts an order line. That the text is empty before is asked here, and below: each form begins a text, and the room that it needs
    // is known only then. What the parts above need is asked of each, since no two need the same.
    fn order(&mut self, order: &OrderLine)
        requires { self.old ≡ [] }
        ensures { self.new ≡ text (Line.Order order.now) }
    {
        self.word(FormName::Order.bytes());
        self.number(order.number.value);
        self.word(b" (");
        self.pair(order.mode.value, order.wagon.value);
        self.word(b") (");
        self.number(order.to.value);
        self.wagons(order.wagons);
        self.word(b")");
        self.toll(order.toll);
    }

    // Puts a notice line.
    fn notice(&mut self, notice: &NoticeLine)
        requires { self.old ≡ [] }
        ensures { self.new ≡ text (Line.Notice notice.now) }
    {
        self.word(FormName::Notice.bytes());
        self.number(notice.number.value);
        self.word(b" ");
        self.pair(notice.mode.value, notice.to.value);
        self.word(b" (");
        self.pair(notice.loses.value, notice.gains.value);
        self.word(b")");
        self.toll(notice.toll);
    }

    // Puts a form of one number.
    fn one(&mut self, form: FormName, a: u16)
        requires { self.old ≡ [] }
        ensures { self.new ≡ name form ++ (decimal a ++ (codes ")" ++ [])) }
    {
        self.word(form.bytes());
        self.number(a);
        self.word(b")");
    }

    // Puts a form of three numbers.
    fn three(&mut self, form: FormName, a: u16, b: u16, c: u16)
        requires { self.old ≡ [] }
        ensures { self.new ≡ name form ++ (decimal a ++ (codes " " ++ (decimal b ++ (codes " " ++ (decimal c ++ (codes ")" ++ [])))))) }
    {
        self.word(form.bytes());
        self.pair(a, b);
        self.blank_number(c);
        self.word(b")");
    }

    // Puts an open line.
    fn open(&mut self, phase: u64)
        requires { self.old ≡ [] }
        ensures { self.new ≡ text (Line.Open phase) }
    {
        self.word(FormName::Open.bytes());
        self.phase(phase);
        self.word(b")");
    }

    // Puts a line.
    pub(crate) fn line(&mut self, line: &Line)
        requires { self.old ≡ [] }
        ensures { self.new ≡ text line.now }
    {
        match line {
            Line::Order(order) => self.order(order),
            Line::Notice(notice) => self.notice(notice),
            Line::Open(phase) => self.open(*phase),
            Line::Watch(w) => self.three(
                FormName::Watch,
                w.mode.value,
                w.wagon.value,
                w.node.value,
            ),
            Line::Link(l) => self.three(FormName::Link, l.node.value, l.wagon.value, l.to.value),
            Line::End(node) => self.one(FormName::End, node.value),
            Line::Bare(mode) => self.one(FormName::Bare, mode.value),
        }
    }
}
