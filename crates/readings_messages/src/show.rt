// What the lines of the readings are made of, and how they are printed.
use refusals::Refusal;
use std::fmt;
use std::io::Print;

// Where standard output cannot be written nobody is told: what is missing of it differs from the file stdout.
pub fn say<D: fmt::Display + Drop>(rt: HostRuntime, what: D) {
    let _ = rt.print(what);
}

// Bytes in hexadecimal, two digits each.
#[derive(Clone, Copy)]
pub struct Hex<'a>(pub &'a [u8]);

impl fmt::Display for Hex<'_> {
    fn fmt<W: fmt::Write>(&self, f: &mut fmt::Formatter<W>) -> fmt::Result {
        for b in self.0 {
            write!(f, "{b:02x}")?;
        }
        Ok(())
    }
}

// `R` and the refusal's number, and behind 5 the start of the signal that offends.
#[derive(Clone, Copy)]
pub struct Refused(pub Refusal);

impl fmt::Display for Refused {
    fn fmt<W: fmt::Write>(&self, f: &mut fmt::Formatter<W>) -> fmt::Result {
        write!(f, "R{}", refusals::refusal_number(self.0))?;
        if let Refusal::NoLabel(start) = self.0 {
            write!(f, ":{start}")?;
        }
        Ok(())
    }
}

// What was answered, or the refusal.
#[derive(Drop)]
pub struct Answer<T>(pub Result<T, Refusal>);

impl<T: fmt::Display + Drop> fmt::Display for Answer<T> {
    fn fmt<W: fmt::Write>(&self, f: &mut fmt::Formatter<W>) -> fmt::Result {
        match &self.0 {
            Ok(x) => write!(f, "{x}"),
            Err(w) => write!(f, "{}", Refused(*w)),
        }
    }
}
