// The fields of the messages that documents 000 and 001 lay out alike, in words: flags together, then what is reserved, then degrees.
use crate::labels::Name;
use crate::tenths::{Flags, Tenths};
use message_types::{
    CcsExtraInformation, CuiInputs, McsExtraInformation, SeccInputs, SeccOutputs, SequenceControl,
    SpccInputs,
};
use std::fmt;

pub fn sequence<W: fmt::Write>(f: &mut fmt::Formatter<W>, m: SequenceControl) -> fmt::Result {
    write!(
        f,
        "{}, CHAdeMO {}, CCS {}, {}, parameters {}, stop {}",
        Name(m.authorisation),
        Name(m.chademo),
        Name(m.done),
        Name(m.valid),
        Name(m.parameters),
        Name(m.stop)
    )
}

pub fn outputs<W: fmt::Write>(f: &mut fmt::Formatter<W>, m: SeccOutputs) -> fmt::Result {
    let outputs = [m.output1, m.output2, m.output3, m.output4];
    write!(f, "outputs{}, reserved {}", Flags(&outputs), m.reserved)
}

pub fn cui<W: fmt::Write>(f: &mut fmt::Formatter<W>, m: CuiInputs) -> fmt::Result {
    let switches = [
        m.switch0, m.switch1, m.switch2, m.switch3, m.switch4, m.switch5,
    ];
    write!(
        f,
        "switches{}, reserved {}, {} °C, {} °C, {} °C, {} °C",
        Flags(&switches),
        m.reserved,
        m.colibri,
        m.cpu,
        m.pistol1,
        m.pistol2
    )
}

pub fn secc<W: fmt::Write>(f: &mut fmt::Formatter<W>, m: SeccInputs) -> fmt::Result {
    let inputs = [m.input1, m.input2, m.input3, m.input4];
    write!(
        f,
        "inputs{}, reserved {}, {} °C, {} °C, {} °C",
        Flags(&inputs),
        m.reserved,
        m.cpu,
        m.pistol1,
        m.pistol2
    )
}

pub fn spcc<W: fmt::Write>(f: &mut fmt::Formatter<W>, m: SpccInputs) -> fmt::Result {
    let inputs = [m.input1, m.input2, m.input3, m.input4];
    write!(
        f,
        "inputs{}, reserved {}, {} °C, {} °C, {} °C, {} °C, {} °C, {} °C",
        Flags(&inputs),
        m.reserved,
        m.cpu0,
        m.cpu1,
        m.pt1ka,
        m.pt1kb,
        m.pt1ksc,
        m.pt1ksd
    )
}

pub fn ccs<W: fmt::Write>(f: &mut fmt::Formatter<W>, m: CcsExtraInformation) -> fmt::Result {
    write!(
        f,
        "CP {}, {} %, reserved {}",
        Name(m.state),
        Tenths::of(m.duty),
        m.reserved
    )
}

pub fn mcs<W: fmt::Write>(f: &mut fmt::Formatter<W>, m: McsExtraInformation) -> fmt::Result {
    write!(
        f,
        "CE {}, ID {}, reserved {}",
        Name(m.ce),
        Name(m.id),
        m.reserved
    )
}
