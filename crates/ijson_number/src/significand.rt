//! A number as a sign, a magnitude of 64 bits, and an exponent.
ghost use Rattle.std.specs.Prelude.{◌≡◌, ◌≢◌, ◌%◌, ◌≤◌, ◌⊎◌, pos, neg_ℤ, ◌+ℤ◌, ◌<ℤ◌, ◌≤ℤ◌};
ghost use Rattle.ijson_number.specs.private.Significand.{HasFewerTens, canonical_number, significand_number};

/// The number `magnitude * 10 ^ exponent`, negated if `negative`.
///
/// `point` is `true` if the number was written with a decimal point or an exponent. A nonzero
/// number is canonical if ten does not divide its magnitude. Zero is canonical if it is not
/// negative and its exponent is 0.
#[derive(Clone, Copy)]
pub struct Significand {
    pub negative: bool,
    pub magnitude: u64,
    pub exponent: i32,
    pub point: bool,
}

impl Significand {
    /// Strips trailing zeros of the magnitude while the exponent is below `end`.
    ///
    /// Takes at most 20 steps. A magnitude of 0 is divided until the exponent is `end`, so its
    /// exponent must be at least `end - 20`.
    #[inline(always)]
    pub fn strip_trailing_zeros(self, end: i32) -> Significand
        requires steps { self.magnitude ≡ 0 → end ≤ℤ (self.exponent +ℤ pos 20) }
        ensures tens { HasFewerTens self result }
        ensures stripped { result.exponent <ℤ end → result.magnitude % 10 ≢ 0 }
        ensures most { (result.exponent ≤ℤ end) ⊎ (result.exponent ≡ self.exponent) }
        ensures negative { result.negative ≡ self.negative }
        ensures point { result.point ≡ self.point }
    {
        let (mut magnitude, mut exponent) = (self.magnitude, self.exponent);
        while magnitude % 10 == 0 && exponent < end {
            magnitude /= 10;
            exponent += 1;
        }
        Significand {
            magnitude,
            exponent,
            ..self
        }
    }

    /// Returns the number with its canonical significand and exponent.
    #[inline(always)]
    pub fn canonical(self) -> Significand
        requires low { neg_ℤ (pos 20000) ≤ℤ self.exponent }
        requires high { self.exponent ≤ℤ pos 20000 }
        ensures number { canonical_number result ≡ significand_number self }
        ensures low { neg_ℤ (pos 20000) ≤ℤ result.exponent }
        ensures high { result.exponent ≤ℤ pos 20020 }
        ensures fewer { result.magnitude ≤ self.magnitude }
        ensures stripped { self.magnitude ≢ 0 → result.magnitude % 10 ≢ 0 }
    {
        if self.magnitude == 0 {
            return Significand {
                negative: false,
                exponent: 0,
                ..self
            };
        }
        self.strip_trailing_zeros(self.exponent + 20)
    }
}
