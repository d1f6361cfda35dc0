// The service screen over the C interface: a probe's degrees, and a duty held to 100.0 %, each of a message's raw number. For C
// callers that need no table.
#![tactic(auto)]

ghost use Rattle.std.specs.Prelude.{◌≡◌};
ghost use Rattle.service.specs.Probes.{probe_of};
ghost use Rattle.service.specs.Duty.{limited_duty};
ghost use Rattle.plain_screen.specs.Screen.{is_used, shown_degrees};

use service::Probe;

#[unsafe(no_mangle)]
pub extern "C" fn rokemaipu_probe_used(raw: i16) -> bool
    ensures { result ≡ is_used (probe_of raw) }
{
    matches!(service::probe_of(raw), Probe::Degrees(_))
}

// 0.0 of a probe that is not used.
#[unsafe(no_mangle)]
pub extern "C" fn rokemaipu_probe_degrees(raw: i16) -> f32
    ensures { result ≡ shown_degrees (probe_of raw) }
{
    match service::probe_of(raw) {
        Probe::NotUsed => 0.0,
        Probe::Degrees(x) => x,
    }
}

#[unsafe(no_mangle)]
pub extern "C" fn rokemaipu_limited_duty(raw: u16) -> u16
    ensures { result ≡ limited_duty raw }
{
    service::limited_duty(raw)
}
