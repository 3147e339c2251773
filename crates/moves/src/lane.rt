// A lane in the front of a buffer, its top the first byte.
ghost use Rattle.std.specs.Prelude.{◌≡◌, ◌<◌, ◌≤◌, length, take, Decides, MatchOption};
ghost use Rattle.std.specs.List.{AllByRecursion};
ghost use Rattle.moves.specs.Moving.{wagons_fit, replaced, InFront};

use grade::upto::UpTo;
use text::line::Wagons;

// Whether each byte is a wagon.
pub fn are_wagons(lane: &[u8]) -> bool
    ensures value { result ≡ wagons_fit lane.now }
    ensures each { Decides result (AllByRecursion (λ k. k ≤ 31) lane.now) }
{
    lane.iter().all(|wagon| *wagon <= 31)
}

// The number as a byte. A cast, which the bound makes safe: no `From` can hold for the bounds up to 255 alone.
pub(crate) fn byte<const MAX: u16>(number: UpTo<MAX>) -> u8
    requires { MAX ≤ 255 }
    ensures { result ≡ number.entry.value }
{
    number.value as u8
}

// Sets these wagons down in the place of the top and gives the lane's new length; where they do not fit, changes nothing.
// The length is a number beside the buffer, as in the C interface: the lane may grow into the bytes behind it.
pub(crate) fn set_down(buffer: &mut [u8], len: usize, wagons: Wagons) -> Option<usize>
    requires { (0 < len) × (len ≤ length buffer.old) }
    ensures { MatchOption result
        ((length buffer.old < length (replaced wagons (take len buffer.old))) × (buffer.new ≡ buffer.old))
        (λ n. InFront buffer.old (replaced wagons (take len buffer.old)) buffer.new n) }
{
    match wagons {
        Wagons::Zero => {
            buffer.copy_within(1..len, 0);
            Some(len - 1)
        }
        Wagons::One(top) => {
            buffer[0] = byte(top);
            Some(len)
        }
        Wagons::Two(top, second) => {
            if len == buffer.len() {
                return None;
            }
            buffer.copy_within(1..len, 2);
            buffer[0] = byte(top);
            buffer[1] = byte(second);
            Some(len + 1)
        }
    }
}
