// Numbers of a night log (02, Req 01): "numbers in groups of seven bits, low group first, high bit set on all but the last, shortest form only, at
// most five groups and 32 bits". For log_read and log_write; any bytes may be read.
#![tactic(auto)]

ghost use Rattle.std.specs.Prelude.{◌≡◌, cond, ◌+◌, ◌*◌, ◌≤◌, ◌<◌, length, drop, get_or, eqb};
ghost use Rattle.log_numbers.specs.declared.NumberError.TheVariants.{Ill};
ghost use Rattle.log_numbers.specs.Number.{InWord, read_number};

// Why no number is read: the bytes end in it, or it is ill-formed.
#[derive(Clone, Copy)]
pub enum NumberError {
    Cut,
    Ill,
}

// The last group b, behind i others that hold n. "Shortest form only": it is not 0.
fn last_group(n: u32, weight: u32, i: usize, b: u8) -> Result<(u32, usize), NumberError>
    requires { InWord (n + b * weight) × (i ≤ 4) }
    ensures { result ≡ cond (eqb b 0) (Err Ill) (Ok (n + b * weight, i + 1)) }
{
    if b == 0 {
        return Err(NumberError::Ill);
    }
    Ok((n + u32::from(b) * weight, i + 1))
}

// A number of several groups, from the low one up: the first i hold n, and the next weighs 128 to the i.
// Kept (1, 3): here and in `number_at` tried with `get(..)` and let-else: it proves, and a batch is fed a twentieth more slowly.
#[inline(always)]
fn several_groups(s: &[u8]) -> Result<(u32, usize), NumberError>
    requires { (0 < length s.now) × (128 ≤ get_or s.now 0 0) }
    ensures { result ≡ read_number s.now }
{
    let mut n = u32::from(s[0] - 128);
    let mut weight: u32 = 128;
    for i in 1..4 {
        if s.len() <= i {
            return Err(NumberError::Cut);
        }
        let b = s[i];
        if b < 128 {
            return last_group(n, weight, i, b);
        }
        n += u32::from(b - 128) * weight;
        weight *= 128;
    }
    if s.len() <= 4 {
        return Err(NumberError::Cut);
    }
    // "At most five groups and 32 bits", so the fifth holds four bits.
    let b = s[4];
    if 16 <= b {
        return Err(NumberError::Ill);
    }
    last_group(n, weight, 4, b)
}

// The number at a place, and how many bytes it takes. Most have one group. Built in, as `several_groups` is: by calls a batch is slower.
#[inline(always)]
pub fn number_at(s: &[u8], at: usize) -> Result<(u32, usize), NumberError>
    ensures { result ≡ read_number (drop at s.now) }
{
    if s.len() <= at {
        return Err(NumberError::Cut);
    }
    let b = s[at];
    if b < 128 {
        return Ok((u32::from(b), 1));
    }
    several_groups(&s[at..])
}
