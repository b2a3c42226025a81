// Laws of the definitions. Each function does nothing, and its contract is the law.
ghost use Rattle.std.specs.Prelude.{◌≡◌, ℕ, ℤ, pos, neg_ℤ, ◌^◌, ◌≤◌, List, length, FitsSigned, int_div, int_rem, ◌*ℤ◌, ◌+ℤ◌};
ghost use Rattle.std.specs.Int.{int_wrap, w64};
ghost use Rattle.std.specs.Fmt.{signed_decimal};
ghost use Rattle.bril_nums.specs.Arith.{quotient, IsWrapped, IsTruncatedQuotient};
ghost use Rattle.bril_nums.specs.Decimal.{IsInt, IsPlainDecimal, int_of};

/// The law of wrapping: a wrapped number differs from the number by a multiple of 2^64 and is in the range of an int,
/// and no other number is.
pub fn wrapping_law()
    ensures wrapped { (z : ℤ) → IsWrapped z (int_wrap w64 z) }
    ensures only { (z w : ℤ) → IsWrapped z w → w ≡ int_wrap w64 z }
{}

/// The law of the quotient: where it is in the range of an int, it is the quotient rounded toward zero, so that it and
/// the remainder give the dividend. The least int by -1 is the least int.
pub fn quotient_law()
    ensures truncated { (a b q : ℤ) → FitsSigned w64 (int_div a b) → quotient a b ≡ Some q → IsTruncatedQuotient a b q }
    ensures remainder { (a b q : ℤ) → FitsSigned w64 (int_div a b) → quotient a b ≡ Some q → (q *ℤ b) +ℤ int_rem a b ≡ a }
    ensures least { quotient (neg_ℤ (pos (2 ^ 63))) (neg_ℤ (pos 1)) ≡ Some (neg_ℤ (pos (2 ^ 63))) }
{}

/// The law of reading: bytes spell at most one number, and `int_of` gives it exactly where it is an int.
pub fn int_text_law()
    ensures one_number { (bytes : List ℕ) (y z : ℤ) → IsInt bytes y → IsInt bytes z → y ≡ z }
    ensures sound { (bytes : List ℕ) (z : ℤ) → int_of bytes ≡ Some z → IsInt bytes z }
    ensures fits { (bytes : List ℕ) (z : ℤ) → int_of bytes ≡ Some z → FitsSigned w64 z }
    ensures complete { (bytes : List ℕ) (z : ℤ) → FitsSigned w64 z → IsInt bytes z → int_of bytes ≡ Some z }
{}

/// The law of writing: an int has one plain decimal, of at most 20 bytes.
pub fn plain_decimal_law()
    ensures plain { (z : ℤ) → FitsSigned w64 z → IsPlainDecimal (signed_decimal z) z }
    ensures only { (text : List ℕ) (z : ℤ) → FitsSigned w64 z → IsPlainDecimal text z → text ≡ signed_decimal z }
    ensures short { (z : ℤ) → FitsSigned w64 z → length (signed_decimal z) ≤ 20 }
{}

/// The law of the round trip: the plain decimal of an int reads as that int.
pub fn round_trip_law()
    ensures spelled { (z : ℤ) → FitsSigned w64 z → IsInt (signed_decimal z) z }
    ensures read { (z : ℤ) → FitsSigned w64 z → int_of (signed_decimal z) ≡ Some z }
{}
