// The records of a log that are compared: their bytes, one behind the other, are a log themselves. Beside them stands the number of each in the file, from 1.
use crate::window::Window;
use compare_rules::MOST;
use log_records::Found;
use text_pen::Sheet;

// The name of the file; the window; how many records were chosen; and the bytes and numbers of those that are kept. One more than may be compared is kept, so
// that the library refuses it; a record has at most 20 bytes, so that all of them have room.
// Kept (6): fixed memory: bytes and numbers stand in lent buffers, and `chosen` counts past them.
#[derive(Drop)]
pub struct Kept<'a> {
    pub name: &'a [u8],
    window: Window,
    pub chosen: u64,
    bytes: Sheet<'a>,
    numbers: &'a mut [u64],
}

impl<'a> Kept<'a> {
    pub fn new(
        name: &'a [u8],
        window: Window,
        bytes: &'a mut [u8],
        numbers: &'a mut [u64],
    ) -> Self {
        Kept {
            name,
            window,
            chosen: 0,
            bytes: Sheet::new(bytes),
            numbers,
        }
    }

    fn store(&mut self, record: &[u8], number: u64) {
        let before = self.chosen;
        self.chosen = before.wrapping_add(1);
        if self.chosen > (MOST as u64) + 1 {
            return;
        }
        if let Some(place) = self.numbers.get_mut(before as usize) {
            *place = number;
        }
        self.bytes.put(record);
    }

    // What a piece of the file shows at a place, where that is a record of the window.
    pub fn keep(&mut self, found: Found, piece: &[u8], at: usize, number: u64) {
        if let Found::Record(e) = found
            && self.window.holds(e.time)
        {
            self.store(piece.get(at..e.next).unwrap_or(&[]), number);
        }
    }

    // The log that the kept records are.
    pub fn log(&self) -> &[u8] {
        self.bytes.text()
    }

    // The number in the file of the record that is kept at place i, from 0.
    pub fn number(&self, i: usize) -> Option<u64> {
        self.numbers.get(i).copied()
    }
}
