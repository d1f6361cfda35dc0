// A line's words, separated by single spaces, and its fields: for every program that reads lines. `at` is where a field starts; past the line's end there
// is none. A field that was read is its number, and where the next field starts: one past the space, and length + 1 where the line ends with this field.
// Every public function takes any input.
// Kept (5): docs/PROMISES.md names `take_u32` and `take_id`, whose answers go by a place in the whole line, so each field takes the line and the place.
#![tactic(auto)]

ghost use Rattle.std.specs.Prelude.{◌≡◌, ◌+◌, ◌-◌, ◌<◌, ◌≤◌, length, MatchOption};
ghost use Rattle.text_lines.specs.Lines.{part_length, part_end, word_at, word_end, field_of, form_of, form_at};

// How many characters stand before the first `stop`, or before the end.
fn part_length(s: &[u8], stop: u8) -> usize
    ensures value { result ≡ part_length stop s.now }
    ensures within { result ≤ length s.now }
{
    s.iter().position(|&c| c == stop).unwrap_or(s.len())
}

// The first `stop` at or after `from`, or the line's end; `from` itself where that is past the end.
#[tactic(auto, using(crate::proofs::Words::is_past, crate::proofs::Words::to_high), unfolding(crate::specs::Lines::part_end))]
pub fn part_end(s: &[u8], from: usize, stop: u8) -> usize
    ensures { (result ≡ part_end stop s.now from) × (from ≤ result) × (result ≤ from + (length s.now - from)) }
{
    let Some(rest) = s.get(from..) else {
        return from;
    };
    from + part_length(rest, stop)
}

// A word ends at a space.
pub fn word_end(s: &[u8], from: usize) -> usize
    ensures { (result ≡ word_end s.now from) × (from ≤ result) × (result ≤ from + (length s.now - from)) }
{
    part_end(s, from, b' ')
}

// The word at `at`, and where the next field starts.
#[tactic(auto, unfolding(crate::specs::Lines::part_end, crate::specs::Lines::word_at))]
fn word_at(s: &[u8], at: usize) -> Option<(&[u8], usize)>
    ensures { MatchOption result (length s.now < at) (λ f. (at ≤ length s.now) × (f.0.now ≡ word_at s.now at) × (f.1 ≡ word_end s.now at + 1)) }
{
    let rest = s.get(at..)?;
    let n = part_length(rest, b' ');
    Some((&rest[..n], at + n + 1))
}

fn take(s: &[u8], at: usize, base: u64) -> Option<(u32, usize)>
    ensures { result ≡ field_of base s.now at }
{
    let (w, next) = word_at(s, at)?;
    let n = text_numbers::whole(w, base, 0xffffffff)?;
    Some((n as u32, next))
}

// A field that is a decimal number of 32 bits.
pub fn take_u32(s: &[u8], at: usize) -> Option<(u32, usize)>
    ensures { result ≡ field_of 10 s.now at }
{
    take(s, at, 10)
}

// A field that is an identifier.
pub fn take_id(s: &[u8], at: usize) -> Option<(u32, usize)>
    ensures { result ≡ field_of 16 s.now at }
{
    take(s, at, 16)
}

// Whether a frame's form is the extended one.
#[tactic(auto, unfolding(crate::specs::Lines::form_of))]
fn form(w: &[u8]) -> Option<bool>
    ensures { result ≡ form_of w.now }
{
    match w {
        b"x" => Some(true),
        b"s" => Some(false),
        _ => None,
    }
}

// A field that is a frame's form: `x` for the extended one, and `s` for the standard one.
pub fn take_form(s: &[u8], at: usize) -> Option<(bool, usize)>
    ensures { result ≡ form_at s.now at }
{
    let (w, next) = word_at(s, at)?;
    Some((form(w)?, next))
}
