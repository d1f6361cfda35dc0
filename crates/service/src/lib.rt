// What the service screen shows beside the messages: a probe's degrees, and a duty held to 100.0 %.
#![tactic(auto)]

ghost use Rattle.std.specs.Prelude.{◌≡◌};
ghost use Rattle.std.specs.Float.{binary32};
ghost use Rattle.std.specs.Float.Ieee.{to_bits};
ghost use Rattle.service.specs.Probes.{degrees_of, probe_of};
ghost use Rattle.service.specs.Duty.{limited_duty};

// One of 004's four PT1000 channels. 02: "a probe reading is either degrees as a float or not used".
// Kept (1): 01 asks for an enum of these two cases, by name, where an Option has their shape.
#[derive(Clone, Copy)]
pub enum Probe {
    NotUsed,
    Degrees(f32),
}

// The raw whole number divided by ten. Both numbers are floats exactly, so only the quotient rounds.
#[tactic(auto, using(crate::proofs::Quotient::quotient))]
fn degrees(raw: i16) -> f32
    ensures { result ≡ degrees_of raw }
{
    f32::from(raw) / 10.0
}

#[tactic(auto, using(crate::proofs::Unused::sixteen), unfolding(crate::specs::Probes::probe_of))]
pub fn probe_of(raw: i16) -> Probe
    ensures { result ≡ probe_of raw }
{
    if raw == 0x1fff {
        return Probe::NotUsed;
    }
    Probe::Degrees(degrees(raw))
}

// The 32 bits of degrees, for who prints or sends them. A NaN, which no probe reads, has the one pattern that `to_bits` names.
#[tactic(auto, using(crate::proofs::NotNumbers::no_number))]
pub fn degrees_bits(x: f32) -> u32
    ensures { result ≡ to_bits binary32 x }
{
    if x.is_nan() {
        return 0x7fc0_0000;
    }
    x.to_bits()
}

// 02: "A duty above 100.0 % keeps its raw number, so that writing returns the bytes; the limited number is worked out apart."
pub fn limited_duty(raw: u16) -> u16
    ensures { result ≡ limited_duty raw }
{
    raw.min(1000)
}
