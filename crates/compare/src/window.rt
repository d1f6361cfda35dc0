// The times between which records are compared, both included; all of them where the call names none.
use notation_read::fields;

#[derive(Clone, Copy)]
pub struct Window {
    pub from: u32,
    pub to: u32,
}

const ALL: Window = Window {
    from: 0,
    to: u32::MAX,
};

// A time as the desk tells it, and nothing behind it.
// Kept (6): fixed memory: a word of the call has a buffer of a fixed length.
fn time_at(rt: HostRuntime, i: usize) -> Option<u32> {
    let mut word = [0u8; 16];
    let n = console::word(rt, i, &mut word).ok()?;
    fields::take_last(&word[..n], 0)
}

// A window that ends before it begins holds nothing, so that all logs would be the same in it: it is a wrong call.
fn named(rt: HostRuntime) -> Option<Window> {
    let from = time_at(rt, 3)?;
    let to = time_at(rt, 4)?;
    (from <= to).then_some(Window { from, to })
}

impl Window {
    // `FROM TO` behind the names of the logs, or nothing; none where the call is wrong.
    pub fn told(rt: HostRuntime) -> Option<Window> {
        if console::has_words(rt, 2) {
            return Some(ALL);
        }
        if console::has_words(rt, 4) {
            return named(rt);
        }
        None
    }

    pub fn holds(self, time: u32) -> bool {
        (self.from..=self.to).contains(&time)
    }
}
