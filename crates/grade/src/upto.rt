// Numbers up to a bound that stands in their type.
ghost use Rattle.std.specs.Prelude.{◌≡◌, ◌<◌, ◌≤◌, MatchOption, MatchResult};

// A number from 0 to MAX.
#[derive(Clone, Copy, Debug, PartialEq, Eq, PartialOrd, Ord)]
pub struct UpTo<const MAX: u16> {
    pub value: u16,
    ghost fits: { value ≤ MAX },
}

// A number that is above the bound.
#[derive(Clone, Copy, Debug, PartialEq, Eq)]
pub struct AboveMax(pub u16);

impl<const MAX: u16> UpTo<MAX> {
    // The number, where it is at most MAX.
    pub fn new(value: u16) -> Option<Self>
        ensures { MatchOption result (MAX < value) (λ x. x.value ≡ value) }
    {
        if value <= MAX {
            Some(UpTo { value })
        } else {
            None
        }
    }

    pub fn get(&self) -> u16
        ensures { result ≡ self.now.value }
    {
        self.value
    }
}

impl<const MAX: u16> TryFrom<u16> for UpTo<MAX> {
    type Error = AboveMax;

    ghost try_from_gives = { λ value r. MatchResult r (λ x. x.value ≡ value) (λ e. (MAX < value) × (e.0 ≡ value)) };

    fn try_from(value: u16) -> Result<Self, AboveMax> {
        Self::new(value).ok_or(AboveMax(value))
    }
}

impl<const MAX: u16> From<UpTo<MAX>> for u16 {
    ghost from_gives = { λ x y. y ≡ x.value };

    fn from(number: UpTo<MAX>) -> u16 {
        number.value
    }
}

impl<const MAX: u16> From<UpTo<MAX>> for usize {
    ghost from_gives = { λ x y. y ≡ x.value };

    fn from(number: UpTo<MAX>) -> usize {
        usize::from(number.value)
    }
}
