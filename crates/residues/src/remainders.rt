ghost use Rattle.std.specs.Prelude.{◌≡◌, ◌+◌, ◌-◌, ◌*◌, ◌%◌, ◌^◌};
ghost use Rattle.std.specs.Prelude.{◌<◌, ◌≤◌, IfSome};

/// The greatest prime below 2^61.
pub const P1: u64 = 2305843009213693951;

/// The next prime below it, 2^61 - 31.
pub const P2: u64 = 2305843009213693921;

const WORD: u128 = 1 << 61;

/// The remainder of a number modulo `2^61 - short`. What stands above the lowest 61 bits counts
/// `short` times as much, and two such folds leave less than twice the modulus.
#[inline]
fn folded(value: u128, short: u64) -> u64
    requires short { short ≤ 31 }
    requires bound { value < 2 ^ 122 }
    ensures { result ≡ value % (2 ^ 61 - short) }
{
    let once = value / WORD * short as u128 + value % WORD;
    let twice = (once % WORD) as u64 + (once / WORD) as u64 * short;
    let prime = (WORD as u64) - short;
    if twice < prime { twice } else { twice - prime }
}

/// `a + b` modulo a prime.
#[inline]
pub(crate) fn sum_modulo(a: u64, b: u64, prime: u64) -> u64
    requires prime { prime < 2 ^ 61 }
    requires a_below { a < prime }
    requires b_below { b < prime }
    ensures { result ≡ (a + b) % prime }
{
    let sum = a + b;
    if sum < prime { sum } else { sum - prime }
}

/// `a - b` modulo a prime.
#[inline]
pub(crate) fn difference_modulo(a: u64, b: u64, prime: u64) -> u64
    requires a_below { a < prime }
    requires b_below { b < prime }
    ensures { result ≡ (a + (prime - b)) % prime }
{
    if b <= a { a - b } else { a + (prime - b) }
}

/// `a * b` modulo `2^61 - short`.
#[inline]
pub(crate) fn product_modulo(a: u64, b: u64, short: u64) -> u64
    requires short { short ≤ 31 }
    requires a_below { a < 2 ^ 61 }
    requires b_below { b < 2 ^ 61 }
    ensures { result ≡ (a * b) % (2 ^ 61 - short) }
{
    folded(a as u128 * b as u128, short)
}

/// `a - b * c` modulo `2^61 - short`.
#[inline]
pub(crate) fn minus_product_modulo(a: u64, b: u64, c: u64, short: u64) -> u64
    requires short { short ≤ 31 }
    requires a_below { a < 2 ^ 61 - short }
    requires b_below { b ≤ 2 ^ 61 - short }
    requires c_below { c < 2 ^ 61 - short }
    ensures { result ≡ (a + (2 ^ 61 - short - b) * c) % (2 ^ 61 - short) }
{
    let opposite = (WORD as u64) - short - b;
    folded(a as u128 + opposite as u128 * c as u128, short)
}

/// The number whose product with `value` is 1 modulo `2^61 - short`, by Euclid's algorithm.
pub(crate) fn inverse_modulo(value: u64, short: u64) -> Option<u64>
    requires short { short ≤ 31 }
    requires below { value < 2 ^ 61 - short }
    ensures below { IfSome result (λ i. i < 2 ^ 61 - short) }
    ensures inverse { IfSome result (λ i. (i * value) % (2 ^ 61 - short) ≡ 1) }
{
    let mut high = (WORD as u64) - short;
    let mut low = value;
    let mut high_factor = 0;
    let mut low_factor = 1;
    while low != 0 {
        let quotient = high / low;
        let rest = high % low;
        let factor = minus_product_modulo(high_factor, quotient, low_factor, short);
        high = low;
        low = rest;
        high_factor = low_factor;
        low_factor = factor;
    }
    if high == 1 { Some(high_factor) } else { None }
}
