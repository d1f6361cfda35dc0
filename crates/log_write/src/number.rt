// A number's groups into a buffer that has room for them.
ghost use Rattle.std.specs.Prelude.{◌≡◌, ◌+◌, ◌≤◌, length};
ghost use Rattle.std.proofs.lemmas.List.Edits.{sets};
ghost use Rattle.log_numbers.specs.Number.{number_bytes, size_of};

// How many bytes the number takes.
pub fn number_size(n: u32) -> usize
    ensures { result ≡ size_of n }
{
    let mut rest = n;
    let mut size: usize = 1;
    // Kept (3): a turn goes on by what is left of the number. The library states no end of `iter::successors`, so that `count` is not proved of it.
    // By `ilog2` and a division the groups of seven bits would be told by no line.
    while 128 <= rest {
        rest /= 128;
        size += 1;
    }
    size
}

// The number's bytes from `at` on; the rest of `out` stays. It answers the place behind them.
pub fn store_number(out: &mut [u8], at: usize, n: u32) -> usize
    requires { at + size_of n ≤ length out.old }
    ensures { (result ≡ at + size_of n) × (out.new ≡ sets out.old at (number_bytes n)) }
{
    let mut rest = n;
    let mut i = at;
    // Kept (3): a turn goes on by what is left of the number. The library states no end of `iter::successors`, so that no `for` over it is proved.
    while 128 <= rest {
        out[i] = (rest % 128 + 128) as u8;
        rest /= 128;
        i += 1;
    }
    out[i] = rest as u8;
    i + 1
}
