// A record's bytes into a buffer that has room for them.
ghost use Rattle.std.specs.Prelude.{◌≡◌, ◌+◌, ◌<◌, ◌≤◌, length, []};
ghost use Rattle.std.proofs.lemmas.List.Edits.{sets};
ghost use Rattle.log_numbers.specs.Number.{size_of};
ghost use Rattle.log_records.specs.Record.{part_of, identifiers, parts_bytes};

use crate::number::{number_size, store_number};

// 02: "identifier times 2 plus 1 if extended"
pub fn part_of(id: u32, extended: bool) -> u32
    requires { id < identifiers extended }
    ensures { result ≡ part_of extended id }
{
    id * 2 + u32::from(extended)
}

// How many bytes stand before the payload.
// Kept (5): tried as one struct of the four numbers, here and in `store_head`; a record is written a tenth slower, since it goes through memory.
#[tactic(auto, using(crate::proofs::Stores::head_le))]
pub fn head_size(time: u32, channel: u32, p: u32, n: u32) -> usize
    ensures { result ≡ size_of time + size_of channel + size_of p + size_of n }
{
    number_size(time) + number_size(channel) + number_size(p) + number_size(n)
}

// The four numbers at the buffer's front. It answers the place behind them.
pub fn store_head(out: &mut [u8], time: u32, channel: u32, p: u32, n: u32) -> usize
    requires { size_of time + size_of channel + size_of p + size_of n ≤ length out.old }
    ensures { (result ≡ size_of time + size_of channel + size_of p + size_of n) × (out.new ≡ sets out.old 0 (parts_bytes time channel p n [])) }
{
    let a = store_number(out, 0, time);
    let b = store_number(out, a, channel);
    let c = store_number(out, b, p);
    store_number(out, c, n)
}

// The bytes from `at` on; the rest of `out` stays.
// Kept (3): tried as `copy_from_slice`: at most eight bytes are stored, and by its call a record is written a tenth slower.
// Tried over `iter_mut` zipped with the bytes: the invariant that the check asks for is over the borrows that were handed out (`yielded`), and what `out` is
// behind the loop would follow from it alone.
pub fn store_bytes(out: &mut [u8], at: usize, bytes: &[u8])
    requires { at + length bytes.now ≤ length out.old }
    ensures { out.new ≡ sets out.old at bytes.now }
{
    for (i, &b) in bytes.iter().enumerate() {
        out[at + i] = b;
    }
}
