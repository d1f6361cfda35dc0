// A signal's bits in a payload number, by shifts and masks, and the raw whole number that they carry, signed or not: for whoever knows start and width.
// Every public function takes any input: outside its range it answers 0 or leaves the number as it was, and says so.
#![tactic(auto)]

ghost use Rattle.std.specs.Prelude.{◌≡◌};
ghost use Rattle.signal.specs.Signal.{get_of, put_of};
ghost use Rattle.signal.specs.Raw.{fits_of, bits_of, whole_of};

mod width; // width.rt: a width that a signal may have, and what is asked of so many bits

use width::{Width, size};

// ---- a signal in a payload number

// The width bits of n from start on.
#[tactic(auto, using(crate::proofs::Masks::get_masked), unfolding(crate::specs::Signal::get_of))]
pub fn get(n: u64, start: u32, width: u32) -> u64
    ensures { result ≡ get_of n start width }
{
    let Some(w) = Width::within(start, width) else {
        return 0;
    };
    (n >> start) & w.mask()
}

// n with v in the place of its width bits from start on.
#[tactic(auto, using(crate::proofs::Masks::put_masked), unfolding(crate::specs::Signal::put_of))]
pub fn put(n: u64, start: u32, width: u32, v: u64) -> u64
    ensures { result ≡ put_of n start width v }
{
    let Some(w) = Width::within(start, width).filter(|w| w.has_bits(v)) else {
        return n;
    };
    (n & !(w.mask() << start)) | (v << start)
}

// ---- a raw whole number and the bits that carry it

// Whether z fits a signal of width bits.
#[tactic(auto, unfolding(crate::specs::Raw::fits_of))]
pub fn fits(z: i64, signed: bool, width: u32) -> bool
    ensures { result ≡ fits_of signed width z }
{
    Width::of(width).is_some_and(|w| w.fits(z, signed))
}

// The bits that carry z in a signal of width bits, or 0 where it does not fit.
#[tactic(auto, unfolding(crate::specs::Raw::bits_of, crate::specs::Raw::fits_of))]
pub fn bits(z: i64, signed: bool, width: u32) -> u64
    ensures { result ≡ bits_of signed width z }
{
    let Some(w) = Width::of(width).filter(|w| w.fits(z, signed)) else {
        return 0;
    };
    if signed { w.of_signed(z) } else { size(z) }
}

// The whole number that the bits v of a signal carry, or 0 where they carry none.
#[tactic(auto, unfolding(crate::specs::Raw::whole_of))]
pub fn whole(v: u64, signed: bool, width: u32) -> i64
    ensures { result ≡ whole_of signed width v }
{
    let Some(w) = Width::of(width).filter(|w| w.has_bits(v)) else {
        return 0;
    };
    if signed {
        return w.to_signed(v);
    }
    i64::try_from(v).unwrap_or(0)
}
