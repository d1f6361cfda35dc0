// A message's field that is no label, of its signal's raw number and back: numbers, tenths, degrees, kOhm and flags. For the crates that make messages of raw
// numbers, and for any that takes such a field by its number. Every raw number of the pages fits its field; for any other the field takes the low bits, or 0.
#![tactic(auto)]

ghost use Rattle.std.specs.Prelude.{◌≡◌};
ghost use Rattle.message_fields.specs.Fields.{natural_of, byte_of, word_of, short_of, duty_of, celsius_of, kilohms_of, flag_of, celsius_raw, kilohms_raw, wide_raw};

// Kept (4): functions, and no From: a field's type does not tell its unit, as an i16 is tenths of an ampere here and °C there.

// The number itself, and 0 for a negative one.
pub fn natural(z: i64) -> u64
    ensures { result ≡ natural_of z }
{
    u64::try_from(z).unwrap_or(0)
}

pub fn byte(z: i64) -> u8
    ensures { result ≡ byte_of z }
{
    (natural(z) % 256) as u8
}

pub fn word(z: i64) -> u16
    ensures { result ≡ word_of z }
{
    (natural(z) % 65536) as u16
}

pub fn short(z: i64) -> i16
    ensures { result ≡ short_of z }
{
    i16::try_from(z).unwrap_or(0)
}

// 02, Req 04: "A duty above 100.0 % keeps its raw number".
// Kept (2): as `word`, under the definition that 02's sentence has.
pub fn duty(z: i64) -> u16
    ensures { result ≡ duty_of z }
{
    word(z)
}

// 01: "A temperature is the raw number minus 40".
pub fn celsius(z: i64) -> i16
    ensures { result ≡ celsius_of z }
{
    i16::from(byte(z)) - 40
}

// 01: "Insulation is twice the raw number in kOhm".
pub fn kilohms(z: i64) -> u16
    ensures { result ≡ kilohms_of z }
{
    u16::from(byte(z)) * 2
}

pub fn flag(z: i64) -> bool
    ensures { result ≡ flag_of z }
{
    natural(z) % 2 == 1
}

// ---- back; a field that is its raw number goes by `i64::from`, a flag as 1 or 0

pub fn celsius_raw(z: i16) -> i64
    ensures { result ≡ celsius_raw z }
{
    i64::from(z) + 40
}

pub fn kilohms_raw(x: u16) -> i64
    ensures { result ≡ kilohms_raw x }
{
    i64::from(x / 2)
}

// A reserved signal's bits as they are. A number above every i64 becomes one that no unsigned signal takes.
pub fn wide_raw(x: u64) -> i64
    ensures { result ≡ wide_raw x }
{
    i64::try_from(x).unwrap_or(-1)
}
