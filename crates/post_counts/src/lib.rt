// A post's counts with one event more (02, Req 08). For the step of a post.
#![tactic(auto)]

ghost use Rattle.std.specs.Prelude.{◌≡◌, ◌+◌, ◌%◌, if◌then◌else◌, nat_eq};
ghost use Rattle.rules.specs.After.{counted};

use rules::COUNTS;

fn with_bit(x: u32, bits: u64) -> u32
    ensures { result ≡ (if nat_eq (bits % 2) 1 then (x + 1) % 4294967296 else x) }
{
    x.wrapping_add((bits % 2) as u32)
}

// The event counts once, and once for each of its findings: place k has finding k, which is bit k - 1 of the findings, and so bit k of twice their number.
// Most events have none, and change one number.
pub fn count(counts: [u32; COUNTS], findings: u32) -> [u32; COUNTS]
    ensures { result ≡ counted findings counts }
{
    let mut q = counts;
    if findings == 0 {
        q[0] = counts[0].wrapping_add(1);
        return q;
    }
    let mut bits = 1 + 2 * u64::from(findings);
    for n in &mut q {
        *n = with_bit(*n, bits);
        bits /= 2;
    }
    q
}
