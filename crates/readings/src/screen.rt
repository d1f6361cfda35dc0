// What the service screen shows: degrees of a probe and the limited duty, a line each.
use readings_messages::show::say;
use service::Probe;

// Degrees by the 32 bits of their float.
pub fn probe(rt: HostRuntime, raw: i16) {
    say(rt, format_args!("  probe {raw} -> "));
    match service::probe_of(raw) {
        Probe::NotUsed => say(rt, "not used\n"),
        Probe::Degrees(x) => say(rt, format_args!("{:08x}\n", service::degrees_bits(x))),
    }
}

pub fn limited(rt: HostRuntime, duty: u16) {
    say(
        rt,
        format_args!("  duty {duty} -> {}\n", service::limited_duty(duty)),
    );
}
