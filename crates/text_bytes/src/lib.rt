// Bytes as text, read: two lower-case hexadecimal digits each, `-` when there are none. For whatever takes a payload from a line. The public function takes
// any input; `specs/` says what it answers, and what it leaves in the buffer.
#![tactic(auto)]

ghost use Rattle.std.specs.Prelude.{◌≡◌, ◌≤◌, ◌*◌, ◌++◌, length, drop, true};
ghost use Rattle.text_numbers.specs.Numbers.{are_digits};
ghost use Rattle.text_bytes.specs.Hex.{is_dash, is_hex, bytes_of, bytes_in, stored_in};

#[tactic(auto, unfolding(crate::specs::Hex::is_dash))]
fn is_dash(s: &[u8]) -> bool
    ensures { result ≡ is_dash s.now }
{
    matches!(s, [b'-'])
}

fn are_digits(s: &[u8]) -> bool
    ensures { result ≡ are_digits 16 s.now }
{
    s.iter().all(|&c| text_numbers::digit(c) < 16)
}

#[tactic(auto, unfolding(crate::specs::Hex::is_hex))]
fn is_hex(s: &[u8]) -> bool
    ensures { result ≡ is_hex s.now }
{
    !s.is_empty() && s.len() % 2 == 0 && are_digits(s)
}

// The bytes of s, which has two digits for each byte of out.
// Kept (3): the digits by their index: over `zip` and `chunks_exact` that a byte fits stood open, since such a loop does not tell where in s a pair stands.
#[tactic(auto, using(text_numbers::proofs::Values::digits_at))]
fn store(s: &[u8], out: &mut [u8])
    requires { (length s.now ≡ length out.old * 2) × (are_digits 16 s.now ≡ true) }
    ensures { out.new ≡ bytes_of s.now }
{
    for (i, place) in out.iter_mut().enumerate() {
        let hi = text_numbers::digit(s[i * 2]);
        let lo = text_numbers::digit(s[i * 2 + 1]);
        *place = (hi * 16 + lo) as u8;
    }
}

// The bytes that s spells go in front of out, and the answer is how many. Nothing is stored before every digit was looked at.
pub fn hex_bytes(s: &[u8], out: &mut [u8]) -> Option<usize>
    ensures value { result ≡ bytes_in s.now (length out.old) }
    ensures out_after { out.new ≡ stored_in s.now out.old }
{
    if is_dash(s) {
        return Some(0);
    }
    if !is_hex(s) {
        return None;
    }
    // Kept (6): tried with `get_mut(..n)`: what out is once its front was written stood open, since no clause of `get_mut` tells it.
    let n = s.len() / 2;
    if n > out.len() {
        return None;
    }
    store(s, &mut out[..n]);
    Some(n)
}
