// A message's fields in words, in the order of the pages: tenths with their point, labels by name, flags as 0 and 1.
use crate::labels::{Name, kind};
use crate::tenths::{Flags, Tenths};
use crate::{inputs, vehicle};
use message_types::{
    ChargeControl1, ChargeState1, DcPowerControl, DcPowerParameters, EvId, Message,
    NewChargeSession, PowerModulesStatus, Pt1000State,
};
use std::fmt;

fn status<W: fmt::Write>(f: &mut fmt::Formatter<W>, s: PowerModulesStatus) -> fmt::Result {
    write!(
        f,
        "{} V, {} A, {} °C, {} °C, {}, {} kOhm",
        Tenths::of(s.voltage),
        Tenths::of(s.current),
        s.modules,
        s.enclosure,
        Name(s.enable),
        s.insulation
    )
}

fn parameters<W: fmt::Write>(f: &mut fmt::Formatter<W>, p: DcPowerParameters) -> fmt::Result {
    write!(
        f,
        "{} V, {} A, {} A, {} A",
        Tenths::of(p.voltage),
        Tenths::of(p.charge),
        Tenths::of(p.discharge),
        Tenths::of(p.target)
    )
}

fn session<W: fmt::Write>(f: &mut fmt::Formatter<W>, s: NewChargeSession) -> fmt::Result {
    write!(f, "{}, {}", Name(s.protocol), Name(s.plug))
}

fn control<W: fmt::Write>(f: &mut fmt::Formatter<W>, d: DcPowerControl) -> fmt::Result {
    write!(
        f,
        "{} V, {} A, {} A, {}, reserved{}, {}, {}, {}",
        Tenths::of(d.target),
        Tenths::of(d.max),
        Tenths::of(d.min),
        Name(d.function),
        Flags(&[d.reserved]),
        Name(d.mode),
        Name(d.contactors),
        Name(d.lowering)
    )
}

fn id<W: fmt::Write>(f: &mut fmt::Formatter<W>, m: EvId) -> fmt::Result {
    write!(
        f,
        "bytes {} {} {} {} {} {}",
        m.byte0, m.byte1, m.byte2, m.byte3, m.byte4, m.byte5
    )
}

fn safety_control<W: fmt::Write>(f: &mut fmt::Formatter<W>, m: ChargeControl1) -> fmt::Result {
    write!(
        f,
        "{} %, PWM{}, contactors{}",
        Tenths::of(m.duty),
        Flags(&[m.pwm]),
        Flags(&[m.contactor1, m.contactor2])
    )
}

fn safety_state<W: fmt::Write>(f: &mut fmt::Formatter<W>, m: ChargeState1) -> fmt::Result {
    write!(
        f,
        "{} %, PWM{}, CP {}, short{}, diode{}, PP {}, contactors{}, errors{}, stops{}, IMD{}",
        Tenths::of(m.duty),
        Flags(&[m.pwm]),
        Name(m.cp),
        Flags(&[m.short]),
        Flags(&[m.diode]),
        Name(m.pp),
        Flags(&[m.contactor1, m.contactor2]),
        Flags(&[m.error1, m.error2]),
        Flags(&[m.estop1, m.estop2, m.estop3]),
        Flags(&[m.imdabort, m.imdfailure])
    )
}

// Of a probe: 004's TempSensorNotUsed, or the degrees; then whether charging was stopped and the self-test failed.
#[derive(Clone, Copy)]
struct Probe(i16, bool, bool);

impl fmt::Display for Probe {
    fn fmt<W: fmt::Write>(&self, f: &mut fmt::Formatter<W>) -> fmt::Result {
        match service::probe_of(self.0) {
            service::Probe::NotUsed => f.write_str("not used")?,
            service::Probe::Degrees(_) => write!(f, "{} °C", Tenths::of(self.0))?,
        }
        write!(f, "{}", Flags(&[self.1, self.2]))
    }
}

fn probes<W: fmt::Write>(f: &mut fmt::Formatter<W>, m: Pt1000State) -> fmt::Result {
    write!(
        f,
        "{}, {}, {}, {}",
        Probe(m.temperature1, m.stopped1, m.failed1),
        Probe(m.temperature2, m.stopped2, m.failed2),
        Probe(m.temperature3, m.stopped3, m.failed3),
        Probe(m.temperature4, m.stopped4, m.failed4)
    )
}

// Kept (7): the match chooses by a message's case, which is what an enum is for.
fn fields<W: fmt::Write>(f: &mut fmt::Formatter<W>, m: Message) -> fmt::Result {
    match m {
        Message::Status(s) => status(f, s),
        Message::Parameters(p) => parameters(f, p),
        Message::Controller(c) => write!(f, "{}", Name(c.state)),
        Message::Session(s) => session(f, s),
        Message::Change(c) => write!(f, "{}", Name(c.status)),
        Message::Control(d) => control(f, d),
        Message::Finished(s) => write!(f, "{}", Name(s.state)),
        Message::Stop(s) => write!(f, "{}", Name(s.origin)),
        Message::Id(b) => id(f, b),
        Message::SafetyControl(c) => safety_control(f, c),
        Message::SafetyState(s) => safety_state(f, s),
        Message::Probes(p) => probes(f, p),
        Message::Sequence(m) => inputs::sequence(f, m),
        Message::Outputs(m) => inputs::outputs(f, m),
        Message::Battery(m) => vehicle::battery(f, m),
        Message::Voltages(m) => vehicle::voltages(f, m),
        Message::ChargeLimits(m) => vehicle::limits(f, m),
        Message::DischargeLimits(m) => vehicle::limits(f, m),
        Message::Energy(m) => vehicle::energy(f, m),
        Message::Cui(m) => inputs::cui(f, m),
        Message::Secc(m) => inputs::secc(f, m),
        Message::Spcc(m) => inputs::spcc(f, m),
        Message::Ccs(m) => inputs::ccs(f, m),
        Message::Mcs(m) => inputs::mcs(f, m),
        Message::Ocpp(m) => vehicle::ocpp(f, m),
    }
}

// A message with its kind's name.
#[derive(Clone, Copy)]
pub struct InWords(pub Message);

impl fmt::Display for InWords {
    fn fmt<W: fmt::Write>(&self, f: &mut fmt::Formatter<W>) -> fmt::Result {
        write!(f, "{}: ", kind(self.0))?;
        fields(f, self.0)
    }
}
