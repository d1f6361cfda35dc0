// A signal's width, and what is asked of the width bits of a payload number.
ghost use Rattle.std.specs.Prelude.{◌≡◌, ◌+◌, ◌-◌, ◌^◌, ◌≤◌, ◌<◌, false, ltb, MatchOption};
ghost use Rattle.std.specs.Int.Signed.{mag};
ghost use Rattle.signal.specs.Signal.{in_word};
ghost use Rattle.signal.specs.Twos.{to_signed, of_signed, InSigned};
ghost use Rattle.signal.specs.Raw.{is_width, fits_in};

// n of n, and n of -(n + 1).
pub fn size(z: i64) -> u64
    ensures { result ≡ mag z }
{
    if z < 0 { !z as u64 } else { z as u64 }
}

// 1 to 64 bits.
#[derive(Clone, Copy)]
pub struct Width {
    bits: u32,
    ghost some: { 1 ≤ bits },
    ghost in_u64: { bits ≤ 64 },
}

impl Width {
    // Kept (1): tried by `then`: in the closure that makes the width it stood open that the number is from 1 to 64.
    pub fn of(width: u32) -> Option<Self>
        ensures { MatchOption result (is_width width ≡ false) (λ w. w.bits ≡ width) }
    {
        match width {
            1..=64 => Some(Width { bits: width }),
            _ => None,
        }
    }

    // That of a signal whose last bit is among the 64 of a payload number.
    pub fn within(start: u32, width: u32) -> Option<Self>
        ensures { MatchOption result (in_word start width ≡ false) (λ w. (w.bits ≡ width) × (start + w.bits ≤ 64)) }
    {
        Self::of(width).filter(|w| start <= 64 - w.bits)
    }

    // Ones from bit 0 on.
    #[tactic(auto, using(crate::proofs::Masks::ones_shr))]
    pub fn mask(self) -> u64
        ensures { result ≡ 2 ^ self.bits - 1 }
    {
        u64::MAX >> (64 - self.bits)
    }

    // Whether v has no more bits.
    pub fn has_bits(self, v: u64) -> bool
        ensures { result ≡ ltb v (2 ^ self.bits) }
    {
        v <= self.mask()
    }

    // Whether z is a raw whole number of a signal of this width.
    #[tactic(auto, using(crate::proofs::Complement::shr_test))]
    pub fn fits(self, z: i64, signed: bool) -> bool
        ensures { result ≡ fits_in signed self.bits z }
    {
        if signed {
            return size(z) >> (self.bits - 1) == 0;
        }
        if z < 0 {
            return false;
        }
        self.has_bits(size(z))
    }

    // The number that v stands for in two's complement.
    #[tactic(auto, unfolding(crate::specs::Twos::to_signed))]
    pub fn to_signed(self, v: u64) -> i64
        requires { v < 2 ^ self.bits }
        ensures { result ≡ to_signed self.bits v }
    {
        if v >> (self.bits - 1) == 0 {
            v as i64
        } else {
            !((self.mask() - v) as i64)
        }
    }

    // The bits of z in two's complement.
    #[tactic(auto, unfolding(crate::specs::Twos::of_signed))]
    pub fn of_signed(self, z: i64) -> u64
        requires { InSigned self.bits z }
        ensures { result ≡ of_signed self.bits z }
    {
        if z < 0 {
            self.mask() - size(z)
        } else {
            size(z)
        }
    }
}
