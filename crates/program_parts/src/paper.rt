// The output of a program: its lines wait in a lent buffer until they are many. A sheet that is full stops the program's walk.
ghost use Rattle.std.specs.Prelude.{◌≡◌, ◌≤◌, false, IsTrue, IsOk, IsErr};
ghost use Rattle.text_pen.specs.Pens.{new_pen};

use crate::voice::Said;
use text_pen::{Pen, Sheet};

// The sheet that the lines wait on; how many bytes may wait there while another line is put behind them; and how the program names its writing where that
// fails.
#[derive(Drop)]
pub struct Paper<'a> {
    pub sheet: Sheet<'a>,
    pub most: usize,
    rt: HostRuntime,
    writing: &'a [u8],
}

impl<'a> Paper<'a> {
    pub fn new(rt: HostRuntime, writing: &'a [u8], most: usize, out: &'a mut [u8]) -> Self
        ensures most { result.most ≡ most }
        ensures empty { result.sheet.pen ≡ new_pen }
        ensures text { result.sheet.out.now ≡ out.old }
        ensures buffer { result.sheet.out.ghost_name ≡ out.entry.ghost_name }
    {
        Paper {
            sheet: Sheet::new(out),
            most,
            rt,
            writing,
        }
    }

    // Whether a line had no room, or could not be written.
    pub fn is_full(&self) -> bool
        ensures { result ≡ self.now.sheet.pen.full }
    {
        self.sheet.pen.full
    }

    // An error where it is full: the program's walk ends there.
    pub fn open(&self) -> Result<(), Said>
        ensures open { self.now.sheet.pen.full ≡ false → IsOk result }
        ensures full { IsTrue self.now.sheet.pen.full → IsErr result }
    {
        if self.is_full() {
            return Err(Said);
        }
        Ok(())
    }

    // The lines so far are written, and none of them waits; where that failed it is said, and the sheet is full.
    pub fn flush(&mut self)
        ensures waiting { self.new.sheet.pen.at ≡ 0 }
        ensures most { self.new.most ≡ self.old.most }
    {
        let full = console::write(self.rt, self.sheet.text())
            .inspect_err(|&why| console::unwritten(self.rt, self.writing, why))
            .is_err();
        self.sheet.pen = Pen { at: 0, full };
    }

    // A line may be put: no more than the most waits.
    pub fn make_room(&mut self)
        ensures waiting { self.new.sheet.pen.at ≤ self.old.most }
        ensures kept { self.old.sheet.pen.at ≤ self.old.most → self.new ≡ self.old }
        ensures most { self.new.most ≡ self.old.most }
    {
        if self.sheet.pen.at > self.most {
            self.flush();
        }
    }
}
