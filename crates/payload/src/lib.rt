// A payload's number and its bytes, in both byte orders, and where a signal of a page lies in that number: for whoever holds a frame's bytes.
// Every public function takes any input: of a longer slice the first 8 bytes count, and a shorter buffer stays as it was.
#![tactic(auto)]

ghost use Rattle.std.specs.Prelude.{◌≡◌, ◌≤◌, length, take, reverse};
ghost use Rattle.std.specs.List.{fold};
ghost use Rattle.payload.specs.Joined.{joined};
ghost use Rattle.payload.specs.Payload.{le_bytes, be_bytes, bytes_of, number_of, stored_in};

// Byte 0 is highest where `big` is true.

// The bytes as one number, byte 0 lowest.
#[inline(always)]
fn le_joined(bytes: &[u8]) -> u64
    ensures { result ≡ fold joined 0 (reverse bytes.now) }
{
    bytes.iter().rev().fold(0, |n, &b| (n << 8) | u64::from(b))
}

// And byte 0 highest.
#[inline(always)]
fn be_joined(bytes: &[u8]) -> u64
    ensures { result ≡ fold joined 0 bytes.now }
{
    bytes.iter().fold(0, |n, &b| (n << 8) | u64::from(b))
}

// Kept (2): tried with one closure that either arm folds by: in a goal that speaks of `number_of` what `fold` ran is not found (`returns-then-big`,
// `returns-else-big`); it is found where the clause itself is a `fold`.
// Kept (4): no plainer with `first_chunk` and `from_le_bytes`: they take 8 bytes and no fewer, so that this would stand beside them for the other frames.
#[inline(always)]
fn joined(big: bool, bytes: &[u8]) -> u64
    requires { length bytes.now ≤ 8 }
    ensures { result ≡ number_of big bytes.now }
{
    if big {
        be_joined(bytes)
    } else {
        le_joined(bytes)
    }
}

// The number of a payload; of a longer slice, that of its first 8 bytes. Of 8 bytes, which most frames have, the compiler makes one load and no loop.
pub fn number(big: bool, bytes: &[u8]) -> u64
    ensures { result ≡ number_of big (take 8 bytes.now) }
{
    if 8 <= bytes.len() {
        return joined(big, &bytes[..8]);
    }
    joined(big, bytes)
}

// The low bytes of n, the lowest first, from index 0 on.
// Kept (2, 4): by `to_le_bytes` and `to_be_bytes` eight bytes are written at most, and these clauses tell every byte of a buffer of any length.
fn le_store(buf: &mut [u8], n: u64)
    ensures { buf.new ≡ le_bytes (length buf.old) n }
{
    let mut rest = n;
    for b in buf.iter_mut() {
        *b = (rest & 0xff) as u8;
        rest >>= 8;
    }
}

// The low bytes of n, the highest first, from index 0 on.
// Kept (2, 4): as `le_store`.
// Kept (3): by index, since a loop over `iter_mut().rev()` has no name in its invariant for the slice that it writes.
fn be_store(buf: &mut [u8], n: u64)
    ensures { buf.new ≡ be_bytes (length buf.old) n }
{
    let mut rest = n;
    for i in (0..buf.len()).rev() {
        buf[i] = (rest & 0xff) as u8;
        rest >>= 8;
    }
}

// The low bytes of n, as many as the buffer has.
pub fn fill(big: bool, buf: &mut [u8], n: u64)
    ensures { buf.new ≡ bytes_of big (length buf.old) n }
{
    if big {
        be_store(buf, n)
    } else {
        le_store(buf, n)
    }
}

// The len low bytes of n, from index 0 on. A buffer that is shorter stays as it was.
// Kept (6): tried with `get_mut(..len)`: its clauses in std do not tell what the slice is once the part was written.
pub fn store(big: bool, buf: &mut [u8], n: u64, len: usize)
    ensures { buf.new ≡ stored_in big len n buf.old }
{
    if buf.len() < len {
        return;
    }
    fill(big, &mut buf[..len], n)
}
