// Files by name. std takes names that are UTF-8 alone: any other is answered as the system answers a name that its file system cannot hold.
ghost use Rattle.std.specs.Prelude.{◌≤◌, length};
ghost use Rattle.std.specs.Io.{ReadsAtMost, WritesAtMost};

use std::fs::{File, OpenOptions};
use std::io;
use std::io::{Read, Seek, SeekFrom, Write};
use std::os::unix::fs::FileExt;

// The system's number of what is told of a name that is no UTF-8.
const NO_TEXT: i32 = 84;

fn opened(rt: HostRuntime, how: &OpenOptions, name: &[u8]) -> io::Result<File> {
    let path = std::str::from_utf8(name).map_err(|_| io::Error::from_raw_os_error(NO_TEXT))?;
    how.open(&rt, path)
}

// For reading: a file or a folder.
pub fn open_read(rt: HostRuntime, name: &[u8]) -> io::Result<File> {
    opened(rt, OpenOptions::new().read(true), name)
}

// For writing at its end, wherever that is at each write; an error where there is none.
pub fn open_append(rt: HostRuntime, name: &[u8]) -> io::Result<File> {
    opened(rt, OpenOptions::new().append(true), name)
}

// A new file; an error where the name is taken.
pub fn create(rt: HostRuntime, name: &[u8]) -> io::Result<File> {
    opened(rt, OpenOptions::new().write(true).create_new(true), name)
}

// How many bytes the file has now.
pub fn length(file: &File) -> io::Result<u64> {
    let mut f = file;
    f.seek(SeekFrom::End(0))
}

// One read of the file from its byte `at` on: how many bytes it put at the start of buf, none at the file's end.
pub fn read_at(file: &File, buf: &mut [u8], at: u64) -> io::Result<usize>
    ensures { ReadsAtMost result buf.new }
{
    file.read_at(buf, at)
}

// One write: how many of the bytes it took.
// Kept (2): this writes and `read` reads: all that they share is the reference that the two traits' methods ask for.
pub fn write(file: &File, bytes: &[u8]) -> io::Result<usize>
    ensures { WritesAtMost result bytes.now }
{
    let mut f = file;
    f.write(bytes)
}

// One read of the file from where the last one ended: how many bytes it put at the start of buf, none at the file's end.
pub fn read(file: &File, buf: &mut [u8]) -> io::Result<usize>
    ensures { ReadsAtMost result buf.new }
{
    let mut f = file;
    f.read(buf)
}

// Reads until buf is full, the file ends or a read fails: how many bytes it put at the start of buf.
// Kept (3): a turn goes on by as many bytes as the system gave, and not by an index.
pub fn read_full(file: &File, buf: &mut [u8]) -> usize
    ensures { result ≤ length buf.new }
{
    let mut done = 0;
    while done < buf.len() {
        let n = read(file, &mut buf[done..]).unwrap_or(0);
        if n == 0 {
            return done;
        }
        done += n;
    }
    done
}
