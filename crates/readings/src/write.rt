// Messages written into a lent buffer, each printed as a line with the bytes and the answer.
use message_types::{
    ChargeControl1, Message, NewChargeSession, Plug, PowerModulesStatus, Protocol, Pt1000State,
    SystemEnable,
};
use readings_messages::show::{Answer, Hex, say};
use std::fmt;

// The identifier of what was written, and how many bytes it takes.
#[derive(Clone, Copy)]
pub struct Written(pub (u32, usize));

impl fmt::Display for Written {
    fn fmt<W: fmt::Write>(&self, f: &mut fmt::Formatter<W>) -> fmt::Result {
        let (id, len) = self.0;
        write!(f, "{id:x}, {len} bytes")
    }
}

// The message written, and the buffer shown whole.
fn write<D: fmt::Display + Drop>(rt: HostRuntime, shown: D, m: Message, buf: &mut [u8]) {
    let answer = Answer(messages::write(m, buf).map(Written));
    say(
        rt,
        format_args!("  write {shown} -> {} {answer}\n", Hex(buf)),
    );
}

// E1's message with another temperature of the modules and another insulation.
pub fn write_status(rt: HostRuntime, shown: &str, modules: i16, insulation: u16, buf: &mut [u8]) {
    let m = Message::Status(PowerModulesStatus {
        voltage: 4000,
        current: -125,
        modules,
        enclosure: -40,
        enable: SystemEnable::Allowed,
        insulation,
    });
    write(rt, shown, m, buf);
}

pub fn write_session(rt: HostRuntime, protocol: Protocol, plug: Plug, buf: &mut [u8]) {
    let m = Message::Session(NewChargeSession { protocol, plug });
    write(rt, "a New_Charge_Session", m, buf);
}

// A ChargeControl1 with PWM active and both contactors open.
pub fn write_duty(rt: HostRuntime, duty: u16, buf: &mut [u8]) {
    let m = Message::SafetyControl(ChargeControl1 {
        duty,
        pwm: true,
        contactor1: false,
        contactor2: false,
    });
    write(rt, format_args!("duty {duty}"), m, buf);
}

// A PT1000State with 0.0 C in the other three probes.
// Kept (4): the pages give no message a default, so each field is named.
pub fn write_probe(rt: HostRuntime, temperature1: i16, buf: &mut [u8]) {
    let m = Message::Probes(Pt1000State {
        temperature1,
        stopped1: false,
        failed1: false,
        temperature2: 0,
        stopped2: false,
        failed2: false,
        temperature3: 0,
        stopped3: false,
        failed3: false,
        temperature4: 0,
        stopped4: false,
        failed4: false,
    });
    write(rt, format_args!("probe {temperature1}"), m, buf);
}
