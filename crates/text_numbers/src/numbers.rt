// Whole numbers as text: at least one digit, and no leading zero but of 0 itself.
ghost use Rattle.std.specs.Prelude.{◌≡◌, ◌-◌, ◌≤◌, negsuc, Some, IfSome};
ghost use Rattle.text_numbers.specs.Numbers.{digit_of, is_shortest, number_of, signed_of, negated};

// What a character counts as a digit; 16 is none.
// Kept (1): a number, as `digit_of` has it, under `number_of` (docs/PROMISES.md): who has looked at every digit reads them again by it (`text_bytes`), where an
// `Option` would want a number for none all the same.
#[tactic(auto, using(crate::proofs::Digits::decimal_digit, crate::proofs::Digits::letter_digit, crate::proofs::Digits::below_digits, crate::proofs::Digits::between_digits, crate::proofs::Digits::above_digits))]
pub fn digit(c: u8) -> u64
    ensures { result ≡ digit_of c }
{
    match c {
        b'0'..=b'9' => u64::from(c - b'0'),
        b'a'..=b'f' => u64::from(c - b'a') + 10,
        _ => 16,
    }
}

fn is_shortest(s: &[u8]) -> bool
    ensures { result ≡ is_shortest s.now }
{
    match s {
        [] => false,
        [_] => true,
        [first, ..] => *first != b'0',
    }
}

// The number no larger than `most` that s spells in base.
// Kept (4): `u64::from_str_radix` takes a `+`, leading zeros and capitals too, none of which `number_of` has.
pub fn whole(s: &[u8], base: u64, most: u64) -> Option<u64>
    ensures value { result ≡ number_of base most s.now }
    ensures within { IfSome result (λ n. n ≤ most) }
{
    if !is_shortest(s) {
        return None;
    }
    let mut v: u64 = 0;
    for &c in s {
        let d = digit(c);
        if d >= base {
            return None;
        }
        v = v.checked_mul(base)?.checked_add(d)?;
        if v > most {
            return None;
        }
    }
    Some(v)
}

// The number below 0 of a magnitude.
fn negate(m: u64) -> Option<i64>
    requires { m ≤ 0x8000000000000000 }
    ensures { result ≡ negated (Some m) }
{
    if m == 0 {
        return None;
    }
    0i64.checked_sub_unsigned(m)
}

// `-` and a number from 1 to 2^63, or a number from 0 to 2^63 - 1.
pub fn signed(s: &[u8]) -> Option<i64>
    ensures { result ≡ signed_of s.now }
{
    match s.strip_prefix(b"-") {
        Some(rest) => negate(whole(rest, 10, 0x8000000000000000)?),
        None => Some(whole(s, 10, 0x7fffffffffffffff)? as i64),
    }
}
