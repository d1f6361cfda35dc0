// A file's length and places in it, as the system tells and takes them, which counts with a sign.
ghost use Rattle.std.specs.Prelude.{◌≡◌, ◌-◌, min, pos};
ghost use Rattle.log_walk.specs.Walk.{bytes_in};

// A file has fewer than 2^63 bytes.
pub fn offset(at: u64) -> i64
    ensures { result ≡ pos (min at 9223372036854775807) }
{
    i64::try_from(at).unwrap_or(i64::MAX)
}

// What the system tells below 0 is no length.
pub fn length(size: i64) -> u64
    ensures { result ≡ bytes_in size }
{
    u64::try_from(size).unwrap_or(0)
}

// How many of n bytes from byte `at` on stand before the end that a file had when the walk began: it may grow meanwhile.
pub fn within(n: usize, at: u64, size: u64) -> usize
    ensures { result ≡ min n (size - at) }
{
    size.saturating_sub(at).min(n as u64) as usize
}
