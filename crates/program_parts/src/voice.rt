// What is said on standard error of a file: a message is made in a lent buffer and written at once.
#![tactic(auto, using(text_pen::proofs::Turns::sheets))]

ghost use Rattle.std.specs.Prelude.{◌≡◌, [], ◌∷◌, IfOk, OnErr, IsErr};
ghost use Rattle.text_pen.specs.Pens.{new_pen};
ghost use Rattle.program_parts.specs.Voices.{saying, saying_more};
ghost use Rattle.program_parts.specs.Words.{program_words, file_words, line_words, changed_words};

use crate::log::Log;
use console::files;
use std::io;
use text_pen::{Pen, Sheet};
use text_written::put_decimal;

// What failed was said.
#[derive(Clone, Copy)]
pub struct Said;

// The program's name and the file's, and the message.
#[derive(Drop)]
pub struct Voice<'a> {
    pub program: &'a [u8],
    pub name: &'a [u8],
    pub sheet: Sheet<'a>,
    pub rt: HostRuntime,
}

impl<'a> Voice<'a> {
    pub fn new(rt: HostRuntime, program: &'a [u8], name: &'a [u8], room: &'a mut [u8]) -> Self
        ensures program { result.program.now ≡ program.now }
        ensures name { result.name.now ≡ name.now }
        ensures empty { result.sheet.pen ≡ new_pen }
        ensures text { result.sheet.out.now ≡ room.old }
        ensures buffer { result.sheet.out.ghost_name ≡ room.entry.ghost_name }
    {
        Voice {
            program,
            name,
            sheet: Sheet::new(room),
            rt,
        }
    }

    // A message that begins `PROGRAM: `.
    fn begin(&mut self)
        ensures { self.new ≡ saying self.old (program_words self.old.program.now) }
    {
        self.sheet.pen = Pen::default();
        self.sheet.put(self.program);
        self.sheet.put(b": ");
    }

    // A message that begins `PROGRAM: FILE`, and these words.
    pub fn about(&mut self, words: &[u8])
        ensures { self.new ≡ saying self.old (file_words self.old.program.now self.old.name.now words.now) }
    {
        self.begin();
        self.sheet.put(self.name);
        self.sheet.put(words);
    }

    // A message that begins `PROGRAM: line N`.
    pub fn about_line(&mut self, line: u64)
        ensures { self.new ≡ saying self.old (line_words self.old.program.now line) }
    {
        self.begin();
        self.sheet.put(b"line ");
        put_decimal(&mut self.sheet, line);
    }

    // The message's last words and its line feed: it is written.
    pub fn end(&mut self, words: &[u8]) -> Said
        ensures { self.new ≡ saying_more self.old (words.now ∷ (10 ∷ []) ∷ []) }
    {
        self.sheet.put(words);
        self.sheet.put(b"\n");
        console::say(self.rt, self.sheet.text());
        Said
    }

    // The message, and why the system did not do what it tells of.
    pub fn end_reason(&mut self, why: io::Error) -> Said
        ensures { self.new ≡ self.old }
    {
        console::fail(self.rt, self.sheet.text(), why);
        Said
    }

    // A call on the file failed: what was being done, and the system's reason.
    pub fn fail(&mut self, doing: &[u8], why: io::Error) -> Said
        ensures { self.new ≡ saying self.old (file_words self.old.program.now self.old.name.now doing.now) }
    {
        self.about(doing);
        self.end_reason(why)
    }

    // What a call on the file gave.
    pub fn done<T: Drop>(&mut self, doing: &[u8], outcome: io::Result<T>) -> Result<T, Said>
        ensures done { IfOk outcome (λ value. result ≡ Ok value) }
        ensures silent { IfOk outcome (λ _. self.new ≡ self.old) }
        ensures failed { OnErr outcome (IsErr result) }
        ensures said { OnErr outcome (self.new ≡ saying self.old (file_words self.old.program.now self.old.name.now doing.now)) }
    {
        // Kept (1): tried with `map_err`: its clause in std does not tell what the voice is where the closure over it was not called, and `silent` says it.
        match outcome {
            Ok(value) => Ok(value),
            Err(why) => Err(self.fail(doing, why)),
        }
    }

    // The file, opened for reading, and the length that it has.
    pub fn opened(&mut self) -> Result<Log, Said>
        ensures silent { IfOk result (λ _. self.new ≡ self.old) }
    {
        let file = self.done(b"", files::open_read(self.rt, self.name))?;
        let size = self.done(b": finding its length", files::length(&file))?;
        Ok(Log { file, size })
    }

    // A piece is short of a record, before the end that the file had.
    pub fn changed(&mut self) -> Said
        ensures { self.new ≡ saying self.old (changed_words self.old.program.now self.old.name.now) }
    {
        self.about(b": the file changed while it was read");
        self.end(b"")
    }
}
