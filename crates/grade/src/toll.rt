use crate::upto::UpTo;

// What a move costs: minutes from 0 to 9,999 and a class from 0 to 9.
#[derive(Clone, Copy, Debug, PartialEq, Eq)]
pub struct Toll {
    pub minutes: UpTo<9999>,
    pub class: UpTo<9>,
}
