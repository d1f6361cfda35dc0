// The file that is appended to: found or made, of the length that this program left, and cut back to its last whole record. What fails is said.
use crate::{say, show};
use console::files;
use log_walk::{Stand, Walk};
use program_parts::voice::{Said, Voice};
use std::fs::File;
use std::io::ErrorKind;

// The folder of a file: its name up to the last slash, that among it; the folder that the program runs in where it has none.
fn folder_of(name: &[u8]) -> &[u8] {
    name.iter()
        .rposition(|&b| b == b'/')
        .map_or(b".", |slash| &name[..=slash])
}

// A new name lasts once its folder is flushed.
fn flush_folder(voice: &mut Voice) -> Result<(), Said> {
    let opened = files::open_read(voice.rt, folder_of(voice.name));
    let folder = voice.done(b": opening its folder", opened)?;
    voice.done(b": flushing its folder", folder.sync_all())
}

// A file whose every write lands at its end, whether its name is known to last, and the voice that tells of it.
#[derive(Drop)]
pub struct Ours<'a> {
    pub log: File,
    pub lasts: bool,
    pub voice: Voice<'a>,
}

impl<'a> Ours<'a> {
    // The new file is closed again before it is opened for appending.
    fn made(mut voice: Voice<'a>) -> Result<Ours<'a>, Said> {
        let created = files::create(voice.rt, voice.name);
        voice.done(b"", created.map(drop))?;
        let lasts = flush_folder(&mut voice).is_ok();
        let opened = files::open_append(voice.rt, voice.name);
        let log = voice.done(b"", opened)?;
        Ok(Ours { log, lasts, voice })
    }

    // An error where the file could not be opened or made.
    pub fn opened(mut voice: Voice<'a>) -> Result<Ours<'a>, Said> {
        match files::open_append(voice.rt, voice.name) {
            Ok(log) => Ok(Ours {
                log,
                lasts: true,
                voice,
            }),
            Err(why) if why.kind() == ErrorKind::NotFound => Ours::made(voice),
            Err(why) => Err(voice.fail(b"", why)),
        }
    }

    // What was written has reached the disk.
    pub fn flush(&mut self) -> Result<(), Said> {
        self.voice.done(b": flushing", self.log.sync_all())
    }

    // Whether the file has as many bytes as this program left in it. Where it has not, another one writes to it.
    pub fn as_left(&mut self, left: u64) -> Result<(), Said> {
        let length = files::length(&self.log);
        let found = self.voice.done(b": finding its length", length)?;
        if found != left {
            return Err(say::other_length(&mut self.voice, found, left));
        }
        Ok(())
    }

    // The file without what stands behind its byte `at`.
    pub fn cut(&mut self, at: u64) -> Result<(), Said> {
        self.voice.done(b": cutting back", self.log.set_len(at))
    }

    // A piece of a record is cut away, and that is flushed; an error where it is still there, or may come back.
    fn cut_back(&mut self, w: Walk) -> Result<(), Said> {
        self.as_left(w.size)?;
        self.cut(w.at)?;
        self.flush()?;
        say::cut_back(&mut self.voice, w.at, w.size.saturating_sub(w.at));
        Ok(())
    }

    // Records may follow what the file holds. Every walk that was read to its end stands at the log's end, at a piece or at a malformed record.
    pub fn ready(&mut self, w: Walk) -> Result<(), Said> {
        match w.stand {
            Stand::End => Ok(()),
            Stand::Cut => self.cut_back(w),
            Stand::Bad(_) => {
                show::say_ending(&mut self.voice, w, b": nothing is appended");
                Err(Said)
            }
            Stand::Within | Stand::Seam | Stand::Short => Err(Said),
        }
    }
}
