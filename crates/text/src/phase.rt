// Phases as numbers of 64 bits: bit n is set where the order or notice n is in force.
ghost use Rattle.std.specs.Prelude.{◌≡◌, ◌^◌};
ghost use Rattle.text.specs.Phases.{has};

use crate::line::Number;

// The phase of one number.
pub fn bit(number: Number) -> u64
    ensures { result ≡ 2 ^ number.value }
{
    1 << number.value
}

// Whether the number is in the phase.
pub fn contains(phase: u64, number: Number) -> bool
    ensures { result ≡ has phase number.value }
{
    (phase >> number.value) % 2 == 1
}
