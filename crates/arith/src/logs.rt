// The base-2 logarithm in whole numbers, by repeated squaring.
ghost use Rattle.std.specs.Prelude.{◌≡◌, ◌+◌, ◌*◌, ◌%◌, ◌^◌, ◌<◌, ◌≤◌};
ghost use Rattle.arith.specs.Log.{squarings, top_bit, mantissa as mantissa_of, noted, squared, bits as bits_of, S};

// How often the logarithm squares, which is how many binary digits it keeps after the point.
pub const SQUARINGS: u32 = 16;

// The logarithm of 2.
const SCALE: u32 = 1 << SQUARINGS;

// The place of the top bit of a u32, and of the unit of a mantissa: m stands for m / 2^31, from 1 up to 2.
const TOP: u32 = u32::BITS - 1;

// The least square of a mantissa that stands for 2 or more.
const TWO: u64 = 1 << 63;

// A logarithm on its way: the mantissa that is left, and the bits noted so far, read as a number.
#[derive(Clone, Copy)]
struct Expansion {
    mantissa: u64,
    bits: u32,
}

impl Expansion {
    // One squaring, which notes one bit.
    fn square(self) -> Self
        requires { (2 ^ 31 ≤ self.mantissa) × ((self.mantissa < 2 ^ 32) × (self.bits < 2 ^ 31)) }
        ensures next { result.mantissa ≡ squared self.mantissa }
        ensures note { result.bits ≡ 2 * self.bits + noted self.mantissa }
    {
        let square = self.mantissa * self.mantissa;
        if square < TWO {
            Expansion {
                mantissa: square >> TOP,
                bits: 2 * self.bits,
            }
        } else {
            Expansion {
                mantissa: square >> (TOP + 1),
                bits: 2 * self.bits + 1,
            }
        }
    }
}

// n moved up until its top bit stands at the top place, where no bit of a u32 is lost.
fn moved_up(n: u32) -> u64
    requires { 0 < n }
    ensures { result ≡ mantissa_of n % 2 ^ 32 }
{
    (n << n.leading_zeros()) as u64
}

// The bits that the squarings of n note.
fn fraction_bits(n: u32) -> u32
    requires { 0 < n }
    ensures value { result ≡ bits_of squarings (mantissa_of n) 0 }
    ensures small { result < 2 ^ squarings }
{
    let mut at = Expansion {
        mantissa: moved_up(n),
        bits: 0,
    };
    for _ in 0..SQUARINGS {
        at = at.square();
    }
    at.bits
}

// The logarithm of a number from 1 on.
fn positive_log2(n: u32) -> u32
    requires { 0 < n }
    ensures { result ≡ 2 ^ squarings * top_bit n + bits_of squarings (mantissa_of n) 0 }
{
    let place = TOP - n.leading_zeros();
    SCALE * place + fraction_bits(n)
}

// The base-2 logarithm of n times 2^SQUARINGS, in whole numbers: at most the true value, and less than 2 below it.
// 0 has no logarithm; it is answered by 0 and by no `Option`, as in a score it stands only beside the factor 0, so that no score can fail.
pub fn scaled_log2(n: u32) -> u32
    ensures value { result ≡ S n }
    ensures small { result < 2 ^ (squarings + 5) }
{
    if n == 0 {
        return 0;
    }
    positive_log2(n)
}

#[cfg(test)]
mod tests {
    use super::scaled_log2;

    // The expected values are those of a separate program that works in integers of any length.
    #[test]
    fn known_values(rt: HostRuntime) {
        assert_eq!(rt; scaled_log2(1), 0);
        assert_eq!(rt; scaled_log2(2), 65_536);
        assert_eq!(rt; scaled_log2(3), 103_872);
        assert_eq!(rt; scaled_log2(5), 152_169);
        assert_eq!(rt; scaled_log2(1_000), 653_117);
        assert_eq!(rt; scaled_log2(2_147_483_647), 2_031_615);
        assert_eq!(rt; scaled_log2(2_147_483_648), 2_031_616);
    }
}
