// Reading a line from its front on.
ghost use Rattle.std.specs.Prelude.{◌≡◌, ◌+◌, ◌*◌, ◌<◌, ◌≤◌, length, MatchOption};

use crate::form_name::FormName;
use crate::line::{LONGEST, Line, NoticeLine, OrderLine, Wagons};
use crate::phase::bit;
use crate::refusal::LineRefusal;
use grade::toll::Toll;
use grade::upto::UpTo;

// A line that is being read. Places count from 1.
#[derive(Drop)]
pub(crate) struct LineReader<'a> {
    // what is still to be read
    pub rest: &'a [u8],
    // where it begins in the line
    pub place: usize,
    // the first number above its limit
    pub over: Option<usize>,
    // the first number that does not rise
    pub falls: Option<usize>,
    ghost fits: { place + length rest.now ≤ 513 },
}

impl<'a> LineReader<'a> {
    ghost use Rattle.std.specs.Prelude.{◌≡◌, ℕ, suc, ◌<◌, Bool, false, List, [], ◌∷◌, Ok, Err, OnSome, OnOk, IfOk, MatchBool, MatchResult, codes};
    ghost use Rattle.grade.specs.declared.upto.UpTo.{UpTo};
    ghost use Rattle.text.specs.declared.line.Line.{Line};
    ghost use Rattle.text.specs.declared.refusal.LineRefusal.TheVariants.{Syntax};
    ghost use Rattle.text.specs.Numerals.{starts};
    ghost use Rattle.text.specs.Forms.{Part, Values, word, number, wagons, rising, toll_parts, one_tail, three_tail, order_tail, order_of, notice_tail, notice_of, open_tail, open_of};
    ghost use Rattle.text.specs.Reading.{Next};
    ghost use Rattle.text.specs.Steps.{Off, NameOff, Unread, DigitsOff, NumberOff, scanned, number_then, goes_on, numbers_then, after_another, Lacks};

    // A line of which nothing is read yet, where it is not too long.
    pub(crate) fn new(line: &'a [u8]) -> Result<LineReader<'a>, LineRefusal>
        ensures { MatchResult result
            (λ r. (length line.now ≤ 512) × Unread line.now r)
            (λ e. (512 < length line.now) × (e ≡ Syntax 513)) }
    {
        if line.len() > LONGEST {
            return Err(LineRefusal::Syntax(LONGEST + 1));
        }
        Ok(LineReader {
            rest: line,
            place: 1,
            over: None,
            falls: None,
        })
    }

    // Takes bracket, name and blank of a form off the line. In place at its two callers: of a short line the call would be a fifth.
    #[inline(always)]
    pub(crate) fn name(&mut self) -> Option<FormName>
        ensures { NameOff self.old self.new result }
    {
        let (name, rest) = match self.rest {
            [b'(', b'o', b'r', b'd', b'e', b'r', b' ', rest @ ..] => (FormName::Order, rest),
            [b'(', b'n', b'o', b't', b'i', b'c', b'e', b' ', rest @ ..] => (FormName::Notice, rest),
            [b'(', b'o', b'p', b'e', b'n', rest @ ..] => (FormName::Open, rest),
            [b'(', b'w', b'a', b't', b'c', b'h', b' ', rest @ ..] => (FormName::Watch, rest),
            [b'(', b'l', b'i', b'n', b'k', b' ', rest @ ..] => (FormName::Link, rest),
            [b'(', b'e', b'n', b'd', b' ', rest @ ..] => (FormName::End, rest),
            [b'(', b'b', b'a', b'r', b'e', b' ', rest @ ..] => (FormName::Bare, rest),
            _ => return None,
        };
        self.rest = rest;
        self.place += name.bytes().len();
        Some(name)
    }

    // Takes the byte `b` off the line, if it stands next.
    fn takes(&mut self, b: u8) -> bool
        ensures { MatchBool result (Off (b ∷ []) self.old self.new) ((self.new ≡ self.old) × Lacks (b ∷ []) self.old.rest.now) }
    {
        match self.rest {
            [first, rest @ ..] if *first == b => {
                self.rest = rest;
                self.place += 1;
                true
            }
            _ => false,
        }
    }

    // Takes these bytes off the line.
    fn word(&mut self, w: &[u8]) -> Result<(), LineRefusal>
        ensures { MatchResult result
            (λ _. (ps : List Part) (line : Values ps → Line) → scanned (word w.now ∷ ps) line self.old ≡ scanned ps line self.new)
            (λ e. (ps : List Part) (line : Values ps → Line) → scanned (word w.now ∷ ps) line self.old ≡ Err e) }
    {
        for b in w {
            if !self.takes(*b) {
                return Err(LineRefusal::Syntax(self.place));
            }
        }
        Ok(())
    }

    // Takes digits off the line and gives their value, where 16 bits hold it.
    fn digits(&mut self) -> Option<u16>
        ensures { DigitsOff self.old self.new result }
    {
        // a running value that stops just above 16 bits, and locals: a test or a store more for each digit shows in the time of reading
        let mut n: u32 = 0;
        let mut rest = self.rest;
        let mut place = self.place;
        while let [d @ b'0'..=b'9', behind @ ..] = rest {
            n = (n * 10 + u32::from(*d - b'0')).min(65_536);
            rest = behind;
            place += 1;
        }
        self.rest = rest;
        self.place = place;
        u16::try_from(n).ok()
    }

    // Takes a number of any length off the line and gives its value, where 16 bits hold it.
    fn numeral(&mut self) -> Result<Option<u16>, LineRefusal>
        ensures { MatchResult result
            (λ n. NumberOff self.old self.new n)
            (λ e. (starts self.old.rest.now ≡ false) × (e ≡ Syntax self.old.place)) }
    {
        if self.takes(b'0') {
            return Ok(Some(0));
        }
        match self.rest {
            [b'1'..=b'9', ..] => Ok(self.digits()),
            _ => Err(LineRefusal::Syntax(self.place)),
        }
    }

    // Takes a number off the line, and notes its place where it is the first above its limit or the first below `least`.
    fn bounded<const MAX: u16>(&mut self, least: u16) -> Result<UpTo<MAX>, LineRefusal>
        ensures shorter { OnOk result (length self.new.rest.now + 1 ≤ length self.old.rest.now) }
        ensures value { MatchResult result
            (λ x. (next : UpTo MAX → Next) → number_then MAX least self.old next ≡ goes_on (next x) self.new)
            (λ e. (next : UpTo MAX → Next) → number_then MAX least self.old next ≡ Err e) }
    {
        let at = self.place;
        let within = up_to::<MAX>(self.numeral()?);
        // where it is above, any number will do: the line is refused at its end
        let number = within.unwrap_or(UpTo { value: 0 });
        if within.is_none() {
            self.over = self.over.or(Some(at));
        }
        if number.value < least {
            self.falls = self.falls.or(Some(at));
        }
        Ok(number)
    }

    // Takes a number up to MAX off the line.
    fn number<const MAX: u16>(&mut self) -> Result<UpTo<MAX>, LineRefusal>
        ensures { MatchResult result
            (λ x. (ps : List Part) (line : Values (number MAX ∷ ps) → Line) → scanned (number MAX ∷ ps) line self.old ≡ scanned ps (λ v. line (x, v)) self.new)
            (λ e. (ps : List Part) (line : Values (number MAX ∷ ps) → Line) → scanned (number MAX ∷ ps) line self.old ≡ Err e) }
    {
        self.bounded::<MAX>(0)
    }

    // Takes two numbers with a blank between them off the line.
    fn pair<const A: u16, const B: u16>(&mut self) -> Result<(UpTo<A>, UpTo<B>), LineRefusal>
        ensures { MatchResult result
            (λ x. (ps : List Part) (line : Values (number A ∷ (word (codes " ") ∷ (number B ∷ ps))) → Line) →
            scanned (number A ∷ (word (codes " ") ∷ (number B ∷ ps))) line self.old ≡ scanned ps (λ v. line (x.0, (x.1, v))) self.new)
            (λ e. (ps : List Part) (line : Values (number A ∷ (word (codes " ") ∷ (number B ∷ ps))) → Line) →
            scanned (number A ∷ (word (codes " ") ∷ (number B ∷ ps))) line self.old ≡ Err e) }
    {
        let a = self.number::<A>()?;
        self.word(b" ")?;
        let b = self.number::<B>()?;
        Ok((a, b))
    }

    // The line ends here, no number is above its limit, and none fails to rise.
    #[tactic(auto, unfolding(crate::specs::Reading::scan))]
    fn end(&mut self) -> Result<(), LineRefusal>
        ensures { MatchResult result
            (λ _. (line : Values [] → Line) → scanned [] line self.old ≡ Ok (line tt))
            (λ e. (line : Values [] → Line) → scanned [] line self.old ≡ Err e) }
    {
        if !self.rest.is_empty() {
            return Err(LineRefusal::Syntax(self.place));
        }
        if let Some(place) = self.over {
            return Err(LineRefusal::TooLarge(place));
        }
        if let Some(place) = self.falls {
            return Err(LineRefusal::NotRising(place));
        }
        Ok(())
    }

    // Takes a blank and a number off the line, if a blank stands next.
    fn another<const MAX: u16>(&mut self, least: u16) -> Result<Option<UpTo<MAX>>, LineRefusal>
        ensures shorter { IfOk result (λ x. OnSome x (length self.new.rest.now + 2 ≤ length self.old.rest.now)) }
        ensures value { MatchResult result
            (λ x. (n : ℕ) (rise : Bool) (next : List (UpTo MAX) → Next) → numbers_then (suc n) MAX rise least self.old next ≡ after_another n MAX rise x self.new next)
            (λ e. (n : ℕ) (rise : Bool) (next : List (UpTo MAX) → Next) → numbers_then (suc n) MAX rise least self.old next ≡ Err e) }
    {
        if !self.takes(b' ') {
            return Ok(None);
        }
        let x = self.bounded::<MAX>(least)?;
        Ok(Some(x))
    }

    // Takes none to two wagons off the line.
    fn wagons(&mut self) -> Result<Wagons, LineRefusal>
        ensures { MatchResult result
            (λ x. (ps : List Part) (line : Values (wagons ∷ ps) → Line) → scanned (wagons ∷ ps) line self.old ≡ scanned ps (λ v. line (x, v)) self.new)
            (λ e. (ps : List Part) (line : Values (wagons ∷ ps) → Line) → scanned (wagons ∷ ps) line self.old ≡ Err e) }
    {
        let Some(first) = self.another::<31>(0)? else {
            return Ok(Wagons::Zero);
        };
        let Some(second) = self.another::<31>(0)? else {
            return Ok(Wagons::One(first));
        };
        Ok(Wagons::Two(first, second))
    }

    // Takes the numbers of a phase off the line.
    fn rising(&mut self) -> Result<u64, LineRefusal>
        ensures { MatchResult result
            (λ x. (ps : List Part) (line : Values (rising ∷ ps) → Line) → scanned (rising ∷ ps) line self.old ≡ scanned ps (λ v. line (x, v)) self.new)
            (λ e. (ps : List Part) (line : Values (rising ∷ ps) → Line) → scanned (rising ∷ ps) line self.old ≡ Err e) }
    {
        let mut phase: u64 = 0;
        let mut least: u16 = 0;
        while let Some(number) = self.another::<63>(least)? {
            phase |= bit(number);
            least = number.value + 1;
        }
        Ok(phase)
    }

    // Takes the toll that closes an order or a notice.
    fn toll(&mut self) -> Result<Toll, LineRefusal>
        ensures { MatchResult result
            (λ t. (line : Values toll_parts → Line) → scanned toll_parts line self.old ≡ scanned [] (λ _. line (t.minutes, (t.class, tt))) self.new)
            (λ e. (line : Values toll_parts → Line) → scanned toll_parts line self.old ≡ Err e) }
    {
        self.word(b" (")?;
        let (minutes, class) = self.pair::<9999, 9>()?;
        self.word(b"))")?;
        Ok(Toll { minutes, class })
    }

    // What stands behind `(order `.
    pub(crate) fn order(&mut self) -> Result<OrderLine, LineRefusal>
        ensures { MatchResult result
            (λ o. scanned order_tail order_of self.old ≡ Ok (Line.Order o))
            (λ e. scanned order_tail order_of self.old ≡ Err e) }
    {
        let number = self.number::<63>()?;
        self.word(b" (")?;
        let (mode, wagon) = self.pair::<15, 31>()?;
        self.word(b") (")?;
        let to = self.number::<15>()?;
        let wagons = self.wagons()?;
        self.word(b")")?;
        let toll = self.toll()?;
        self.end()?;
        Ok(OrderLine {
            number,
            mode,
            wagon,
            to,
            wagons,
            toll,
        })
    }

    // What stands behind `(notice `.
    pub(crate) fn notice(&mut self) -> Result<NoticeLine, LineRefusal>
        ensures { MatchResult result
            (λ n. scanned notice_tail notice_of self.old ≡ Ok (Line.Notice n))
            (λ e. scanned notice_tail notice_of self.old ≡ Err e) }
    {
        let number = self.number::<63>()?;
        self.word(b" ")?;
        let (mode, to) = self.pair::<15, 15>()?;
        self.word(b" (")?;
        let (loses, gains) = self.pair::<63, 63>()?;
        self.word(b")")?;
        let toll = self.toll()?;
        self.end()?;
        Ok(NoticeLine {
            number,
            mode,
            to,
            loses,
            gains,
            toll,
        })
    }

    // What stands behind `(open`.
    pub(crate) fn phase(&mut self) -> Result<Line, LineRefusal>
        ensures { result ≡ scanned open_tail open_of self.old }
    {
        let phase = self.rising()?;
        self.word(b")")?;
        self.end()?;
        Ok(Line::Open(phase))
    }

    // What stands behind the name of a form of three numbers.
    pub(crate) fn three<const A: u16, const B: u16, const C: u16>(
        &mut self,
    ) -> Result<(UpTo<A>, UpTo<B>, UpTo<C>), LineRefusal>
        ensures { MatchResult result
            (λ x. (line : Values (three_tail A B C) → Line) → scanned (three_tail A B C) line self.old ≡ Ok (line (x.0, (x.1, (x.2, tt)))))
            (λ e. (line : Values (three_tail A B C) → Line) → scanned (three_tail A B C) line self.old ≡ Err e) }
    {
        let (a, b) = self.pair::<A, B>()?;
        self.word(b" ")?;
        let c = self.number::<C>()?;
        self.word(b")")?;
        self.end()?;
        Ok((a, b, c))
    }

    // What stands behind the name of a form of one number.
    pub(crate) fn one<const MAX: u16>(&mut self) -> Result<UpTo<MAX>, LineRefusal>
        ensures { MatchResult result
            (λ x. (line : Values (one_tail MAX) → Line) → scanned (one_tail MAX) line self.old ≡ Ok (line (x, tt)))
            (λ e. (line : Values (one_tail MAX) → Line) → scanned (one_tail MAX) line self.old ≡ Err e) }
    {
        let x = self.number::<MAX>()?;
        self.word(b")")?;
        self.end()?;
        Ok(x)
    }
}

// The number, where there is one and it is at most MAX.
fn up_to<const MAX: u16>(n: Option<u16>) -> Option<UpTo<MAX>>
    ensures { MatchOption n (result ≡ None) (λ y. MatchOption result (MAX < y) (λ x. x.value ≡ y)) }
{
    UpTo::new(n?)
}
