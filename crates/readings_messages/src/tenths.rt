// Whole numbers of tenths with their point, and flags.
use std::fmt;

// A whole number of tenths, with its point.
#[derive(Clone, Copy)]
pub struct Tenths(i64);

impl Tenths {
    pub fn of<N: Into<i64>>(n: N) -> Tenths {
        Tenths(n.into())
    }
}

impl fmt::Display for Tenths {
    fn fmt<W: fmt::Write>(&self, f: &mut fmt::Formatter<W>) -> fmt::Result {
        let sign = if self.0 < 0 { "-" } else { "" };
        let n = self.0.unsigned_abs();
        write!(f, "{sign}{}.{}", n / 10, n % 10)
    }
}

// Flags as 0 and 1, each behind a space.
#[derive(Clone, Copy)]
pub struct Flags<'a>(pub &'a [bool]);

impl fmt::Display for Flags<'_> {
    fn fmt<W: fmt::Write>(&self, f: &mut fmt::Formatter<W>) -> fmt::Result {
        for &b in self.0 {
            write!(f, " {}", u8::from(b))?;
        }
        Ok(())
    }
}
