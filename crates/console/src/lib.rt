// Standard input, output and error, the call's words and files by name, for the programs: bytes in, bytes out, and the system's reason where a call fails.
// Every function takes any input.
#![tactic(auto)]

ghost use Rattle.std.specs.Prelude.{◌≡◌, ◌≤◌, length, take, IfSome};
ghost use Rattle.std.specs.Io.{ReadsAtMost};

pub mod files; // files.rt: files by name
pub mod lines; // lines.rt: a line of the input
mod reason; // reason.rt: why a call failed, in the system's words

use std::env::{Env, FillError};
use std::io;
use std::io::{ErrorKind, Print, Read};

// The system's numbers of what is told of a word of the call.
const MISSING: i32 = 22;

const TOO_LONG: i32 = 36;

// Room for a name: 4,096 zeros.
// Kept (2): this and `large_buffer` differ in a number, and the edits name_room_of_4095 and large_room_of_65535 change one of them each.
pub fn buffer() -> [u8; 4096]
    ensures { 4096 ≡ length result }
{
    [0; 4096]
}

// 65,536 zeros.
pub fn large_buffer() -> [u8; 65536]
    ensures { 65536 ≡ length result }
{
    [0; 65536]
}

// The first n, or all where there are fewer.
pub fn front<T>(all: &[T], n: usize) -> &[T]
    ensures { result.now ≡ take n all.now }
{
    &all[..n.min(all.len())]
}

// Whether the call has a word at that place; its first is the program's name.
// Kept (2): no twins: one asks for a word, one counts the words and one reads a word, and each is another expression.
fn has_word(rt: HostRuntime, i: usize) -> bool {
    !matches!(rt.arg(i, &mut [0u8; 0]), Err(FillError::NotPresent))
}

// Whether the call has so many words behind the program's name.
pub fn has_words(rt: HostRuntime, n: usize) -> bool {
    n < usize::MAX && (n == 0 || has_word(rt, n)) && !has_word(rt, n + 1)
}

fn number_of(why: FillError) -> i32 {
    match why {
        FillError::NotPresent => MISSING,
        FillError::TooLong => TOO_LONG,
    }
}

// The word at that place of the call, at the start of buf: its length, or why it is not there whole.
pub fn word(rt: HostRuntime, i: usize, buf: &mut [u8]) -> io::Result<usize>
    ensures { ReadsAtMost result buf.new }
{
    rt.arg(i, buf)
        .map_err(|why| io::Error::from_raw_os_error(number_of(why)))
}

// The word at that place of the call, at the start of `room`; none where it is not there whole, which is said as `fail` says it.
pub fn whole_word<'a>(
    rt: HostRuntime,
    i: usize,
    what: &[u8],
    room: &'a mut [u8],
) -> Option<&'a [u8]>
    ensures { IfSome result (λ w. length w.now ≤ length room.old) }
{
    let n = word(rt, i, room).map_err(|why| fail(rt, what, why)).ok()?;
    Some(&room[..n])
}

// One read of standard input: how many bytes it put at the start of buf, none at the input's end.
pub fn read(rt: HostRuntime, buf: &mut [u8]) -> io::Result<usize>
    ensures { ReadsAtMost result buf.new }
{
    rt.stdin().read(buf)
}

// One read of standard input, as `read`; where it failed that is said as `fail` says it, and it put none.
pub fn next_piece(rt: HostRuntime, what: &[u8], buf: &mut [u8]) -> usize
    ensures { result ≤ length buf.new }
{
    read(rt, buf).unwrap_or_else(|why| {
        fail(rt, what, why);
        0
    })
}

// All of these bytes to standard output.
pub fn write(rt: HostRuntime, bytes: &[u8]) -> io::Result<()> {
    Print::write_all(&rt.stdout(), bytes)
}

// These bytes to standard error. Nobody is told where that fails.
pub fn say(rt: HostRuntime, bytes: &[u8]) {
    let _ = Print::write_all(&rt.stderr(), bytes);
}

// A line on standard error: what failed, as the caller names it, a colon and the system's reason.
pub fn fail(rt: HostRuntime, what: &[u8], why: io::Error) {
    say(rt, what);
    say(rt, b": ");
    reason::say(rt, why);
    say(rt, b"\n");
}

// Standard output could not be written, as fail tells it. Where nobody reads it any more nobody is told: by default the system ends a program there, silently.
pub fn unwritten(rt: HostRuntime, what: &[u8], why: io::Error) {
    if why.kind() == ErrorKind::BrokenPipe {
        return;
    }
    fail(rt, what, why);
}
