ghost use Rattle.std.specs.Prelude.{◌≡◌, ◌↔◌, IsTrue, IfSome};
ghost use Rattle.corr_num.specs.Narrow.{Narrow, Wide};

/// One above the greatest magnitude of a narrow number.
const BOUND: u128 = 1 << 62;

/// Whether a whole number is narrow, so that a product of two such numbers and a sum of many such products fit 128 bits.
pub fn narrow(v: i128) -> bool
    ensures { IsTrue result ↔ Narrow v }
{
    v.unsigned_abs() < BOUND
}

/// The number itself where it is narrow.
pub(crate) fn narrowed(v: i128) -> Option<i128>
    ensures exact { Narrow v → result ≡ Some v }
    ensures wide { (result ≡ None) ↔ Wide v }
    ensures narrow { IfSome result Narrow }
{
    narrow(v).then_some(v)
}
