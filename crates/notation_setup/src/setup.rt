// A post's set-up as a line tells it, by the fields behind the line's word.
// Kept (5): docs/PROMISES.md names `result ≡ setup_of s at`, of a line and a place in it, so that these functions stand; `desk_buffers::Fields` goes over them.
ghost use Rattle.std.specs.Prelude.{◌≡◌};
ghost use Rattle.notation_setup.specs.Setup.{interface_of, choices_of, limits_of, setup_of};

use notation_read::fields;
use rule_limits::PlainLimits;

// `POST CHANNEL`, and the limits behind them.
#[derive(Clone, Copy)]
pub struct Setup {
    pub post: u32,
    pub channel: u32,
    pub limits: PlainLimits,
}

// desk.md: "missing: 0"
#[tactic(auto, unfolding(crate::specs::Setup::interface_of))]
fn take_interface(s: &[u8], at: usize) -> Option<u32>
    ensures { result ≡ interface_of s.now at }
{
    if at > s.len() {
        return Some(0);
    }
    fields::take_last(s, at)
}

// `[SENSOR [IFACE]]`
#[tactic(auto, unfolding(crate::specs::Setup::choices_of))]
fn take_choices(s: &[u8], at: usize) -> Option<(u32, u32)>
    ensures { result ≡ choices_of s.now at }
{
    if at > s.len() {
        return Some((0, 0));
    }
    let (sensor, next) = text_lines::take_u32(s, at)?;
    let interface = take_interface(s, next)?;
    Some((sensor, interface))
}

// `VOLT CHG DIS W [SENSOR [IFACE]]`
#[tactic(auto, unfolding(crate::specs::Setup::limits_of))]
fn take_limits(s: &[u8], at: usize) -> Option<PlainLimits>
    ensures { result ≡ limits_of s.now at }
{
    let (voltage, a) = text_lines::take_u32(s, at)?;
    let (charge, b) = text_lines::take_u32(s, a)?;
    let (discharge, c) = text_lines::take_u32(s, b)?;
    let (silence, d) = text_lines::take_u32(s, c)?;
    let (sensor, interface) = take_choices(s, d)?;
    Some(PlainLimits {
        voltage,
        charge,
        discharge,
        silence,
        sensor,
        interface,
    })
}

// `POST CHANNEL VOLT CHG DIS W [SENSOR [IFACE]]`
#[tactic(auto, unfolding(crate::specs::Setup::setup_of))]
pub fn setup_line(s: &[u8], at: usize) -> Option<Setup>
    ensures { result ≡ setup_of s.now at }
{
    let (post, a) = text_lines::take_u32(s, at)?;
    let (channel, b) = text_lines::take_u32(s, a)?;
    let limits = take_limits(s, b)?;
    Some(Setup {
        post,
        channel,
        limits,
    })
}
