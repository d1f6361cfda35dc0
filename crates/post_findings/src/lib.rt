// F3 to F12: what is found of a frame by its message, on a head that was aged to the frame's time. For the post's step.
#![tactic(auto)]

ghost use Rattle.std.specs.Prelude.{◌≡◌, ◌≤◌, cond, Some, None};
ghost use Rattle.rule_asks.specs.Judgements.{is_set};
ghost use Rattle.rule_pages.specs.Said.{limits_by};
ghost use Rattle.rules.specs.After.{unready_after, unready_in, stopped_in, carrying_after, carrying_in, control_findings, status_findings, opening_findings, finished_findings, message_findings};

// The crates among these are passed on to those above, which name them through this one.
use message_types::{
    DcPowerControl, DcPowerParameters, NewChargeSession, PowerModulesStatus, SystemEnable,
};
use rule_asks::{carrying, close, flag, insulates_badly, is_outside, lowers_badly, off, powered};
use rule_limits::{Sensor, cap};
pub use rule_pages;
use rule_pages::{Role, command_by, limits_by, opening_by, status_by};
use rules::{
    CONTROL_PLACE, F3, F4, F5, F6, F7, F8, F9, F10, F11, F12, Head, STATUS_PLACE, STOP_PLACE,
    Session, Slot,
};

// The limits that a slot's frame told.
fn told(l: Slot) -> Option<DcPowerParameters>
    ensures { result ≡ cond (is_set l.known) (Some (limits_by l.kind l.raw)) None }
{
    l.is_known().then(|| limits_by(l.kind as usize, l.raw))
}

// ---- DC_Power_Control

fn unready_after(l: Slot) -> bool
    ensures { result ≡ unready_after l }
{
    !l.is_known() || status_by(l.kind as usize, l.raw).enable != SystemEnable::Allowed
}

#[tactic(auto, unfolding(rules::specs::After::unready_in))]
fn unready(s: Session) -> bool
    ensures { result ≡ unready_in s }
{
    s.is_open() && unready_after(s.kept[STATUS_PLACE])
}

// 02, Req 14: "after an Emergency_Stop accepted in it"
#[tactic(auto, unfolding(rules::specs::After::stopped_in))]
fn stopped(s: Session) -> bool
    ensures { result ≡ stopped_in s }
{
    s.is_open() && s.kept[STOP_PLACE].is_known()
}

#[tactic(auto, unfolding(rules::specs::After::control_findings))]
fn control_findings(h: Head, d: DcPowerControl) -> u32
    ensures { (result ≡ control_findings h d) × (result ≤ 2172) }
{
    let s = h.session;
    let f = d.function;
    let closed = !s.is_open();
    let most = h.limits.voltage;
    let limit = told(h.parameters).map_or(most, |p| cap(most, p.voltage));
    flag(close(d.contactors) && closed, F3)
        + flag(powered(f) && closed, F4)
        + flag(powered(f) && unready(s), F5)
        + flag(lowers_badly(d), F6)
        + flag(!off(f) && limit < u32::from(d.target), F7)
        + flag(powered(f) && stopped(s), F12)
}

// ---- Power_Modules_Status

fn carrying_after(l: Slot) -> bool
    ensures { result ≡ carrying_after l }
{
    l.is_known() && carrying(command_by(l.kind as usize, l.raw).function)
}

#[tactic(auto, unfolding(rules::specs::After::carrying_in))]
fn carrying_session(s: Session) -> bool
    ensures { result ≡ carrying_in s }
{
    s.is_open() && carrying_after(s.kept[CONTROL_PLACE])
}

#[tactic(auto, unfolding(rules::specs::After::status_findings))]
fn status_findings(h: Head, m: PowerModulesStatus) -> u32
    ensures { (result ≡ status_findings h m) × (result ≤ 384) }
{
    let s = h.session;
    let most = h.limits;
    let told = told(h.parameters);
    let charge = told.map_or(most.charge, |p| cap(most.charge, p.charge));
    let discharge = told.map_or(most.discharge, |p| cap(most.discharge, p.discharge));
    flag(s.is_open() && is_outside(m.current, charge, discharge), F8)
        + flag(
            carrying_session(s) && insulates_badly(Sensor::from(most.sensor), m),
            F9,
        )
}

// ---- New_Charge_Session, Charge_Session_Finished

#[tactic(auto, unfolding(rules::specs::After::opening_findings, rule_asks::specs::Judgements::differs))]
fn opening_findings(s: Session, n: NewChargeSession) -> u32
    ensures { (result ≡ opening_findings s n) × (result ≤ 512) }
{
    flag(s.is_open() && message_parts::session_in(s.first) != n, F10)
}

#[tactic(auto, unfolding(rules::specs::After::finished_findings))]
fn finished_findings(s: Session) -> u32
    ensures { (result ≡ finished_findings s) × (result ≤ 1024) }
{
    flag(!s.is_open(), F11)
}

// Kept (7): each role asks another thing of another part of the head, which is what the cases of an enum are for.
#[tactic(auto, unfolding(rules::specs::After::message_findings))]
pub fn message_findings(h: Head, kind: usize, raw: u64) -> u32
    ensures { (result ≡ message_findings h kind raw) × (result ≤ 2172) }
{
    match Role::from(kind) {
        Role::Status => status_findings(h, status_by(kind, raw)),
        Role::Opening => opening_findings(h.session, opening_by(kind, raw)),
        Role::Command => control_findings(h, command_by(kind, raw)),
        Role::Finished => finished_findings(h.session),
        Role::Limits | Role::Controller | Role::Stop | Role::Other => 0,
    }
}
