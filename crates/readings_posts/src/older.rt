// 02, Req 11 through the watch: an older post beside a newer one, from both sides.
use crate::steps::{Scene, limits, older_limits};
use readings_messages::show::say;

const STATUS: u32 = 0x60010;

const LIMITS: u32 = 0x60011;

const SEQUENCE: u32 = 0x60012;

const SESSION: u32 = 0x68001;

const INSULATION: u32 = 0x68002;

const PRECHARGE: u32 = 0x68003;

const CHARGING: u32 = 0x68005;

const STOP: u32 = 0x68006;

const FINISHED: u32 = 0x68007;

const CONTROLLER: u32 = 0x68009;

// Post 0, older, on channel 4; post 1, newer, on channel 5.
fn side_by_side(rt: HostRuntime) -> Scene {
    let mut t = Scene::new(rt);
    t.set_up(0, 4, older_limits());
    t.set_up(1, 5, limits());
    t
}

// "never a message"
fn others(rt: HostRuntime) {
    say(
        rt,
        "Req 11 an identifier that only the other interface has: 29 behind 1 and 2, before 4, 5, 6 and 15; a standard 60010 is 3\n",
    );
    let mut t = side_by_side(rt);
    t.tick(5, 100);
    t.frame(6, 99, SEQUENCE, &[4u8]);
    t.frame(5, 99, SEQUENCE, &[4u8]);
    t.frame(5, 100, SEQUENCE, &[4u8]);
    t.frame(5, 100, SEQUENCE, &[4u8, 0, 0]);
    t.frame(5, 100, SEQUENCE, &[0u8, 0, 0, 0]);
    t.frame(5, 100, SESSION, &[8u8, 5, 0, 0, 0, 0, 0, 0]);
    t.standard(5, 100, STATUS, &[0u8, 0, 0, 0, 65, 65, 1, 255]);
    t.frame(4, 100, 0x6b001, &[8u8, 5]);
    t.frame(4, 100, 0x6b001, &[2u8, 1]);
    t.record(0);
    say(
        rt,
        "each by its own pages: 4, 15, 6, 5, accepted; the safety controller on both\n",
    );
    t.frame(4, 100, SEQUENCE, &[4u8]);
    t.frame(4, 100, SEQUENCE, &[0u8, 0, 0, 0]);
    t.frame(4, 100, SEQUENCE, &[4u8, 0, 0]);
    t.frame(4, 100, SESSION, &[8u8, 5, 0, 0, 0, 0, 0, 0]);
    t.frame(4, 100, SEQUENCE, &[0u8, 0, 0]);
    t.standard(4, 100, 6, &[0x82u8, 0x15, 0, 0, 0, 0, 0, 0]);
    t.standard(5, 100, 6, &[0x82u8, 0x15, 0, 0, 0, 0, 0, 0]);
    t.latest(0, 14);
    t.latest(0, 9);
    t.latest(1, 9);
    t.record(0);
    t.record(1);
}

// Insulation_Test, Precharge and Charging_Loop count as the functions, "whatever their numbers".
fn session(rt: HostRuntime) {
    say(
        rt,
        "F4 and F11 without a session; F5 before Allowed; no F3, F6 or F7; F10 by protocol and plug alone; F9 under precharge\n",
    );
    let mut t = side_by_side(rt);
    t.frame(4, 0, CHARGING, &[0u8, 0, 0, 0, 0]);
    t.frame(4, 1, FINISHED, &[0u8]);
    t.frame(4, 2, SESSION, &[2u8, 1, 0xa0, 0x0f, 0xd0, 0x07, 50, 255]);
    t.frame(4, 3, INSULATION, &[0xffu8, 0xff]);
    t.frame(4, 4, STATUS, &[0u8, 0, 0, 0, 65, 65, 1, 255]);
    t.frame(4, 5, CHARGING, &[0xffu8, 0xff, 0, 0, 50]);
    t.record(0);
    t.frame(4, 6, PRECHARGE, &[0xffu8, 0xff, 0xff, 0xff]);
    t.record(0);
    t.frame(4, 7, SESSION, &[2u8, 1, 0, 0, 0, 0, 0, 0]);
    t.frame(4, 8, SESSION, &[2u8, 2, 0, 0, 0, 0, 0, 0]);
    t.frame(4, 9, STATUS, &[0x88u8, 0x13, 0, 0, 65, 65, 1, 25]);
    t.frame(4, 10, STATUS, &[0x88u8, 0x13, 0, 0, 65, 65, 1, 24]);
    t.frame(4, 11, CONTROLLER, &[7u8]);
    t.tick(4, 211);
    t.tick(4, 212);
    t.tick(4, 510);
    t.tick(4, 511);
    t.frame(4, 512, FINISHED, &[0u8]);
    t.record(0);
}

// Power_Modules_Limits: the smaller of default and number; the discharge limit is the default.
fn told(rt: HostRuntime) {
    say(
        rt,
        "10.0 A told, then -0.1 A and 0.0 A, which are the default 100.0 A; 50.0 A of discharge\n",
    );
    let mut t = side_by_side(rt);
    t.frame(4, 0, SESSION, &[2u8, 1, 0, 0, 0, 0, 0, 0]);
    t.frame(4, 0, LIMITS, &[0u8, 0, 100, 0, 0, 0, 0, 0]);
    t.frame(4, 1, STATUS, &[0u8, 0, 100, 0, 65, 65, 1, 255]);
    t.frame(4, 2, STATUS, &[0u8, 0, 101, 0, 65, 65, 1, 255]);
    t.frame(4, 3, LIMITS, &[0u8, 0, 0xff, 0xff, 0, 0, 0, 0]);
    t.frame(4, 4, STATUS, &[0u8, 0, 101, 0, 65, 65, 1, 255]);
    t.frame(4, 5, LIMITS, &[0u8, 0, 0, 0, 0, 0, 0, 0]);
    t.frame(4, 6, STATUS, &[0u8, 0, 0xe8, 0x03, 65, 65, 1, 255]);
    t.frame(4, 7, STATUS, &[0u8, 0, 0xe9, 0x03, 65, 65, 1, 255]);
    t.frame(4, 8, STATUS, &[0u8, 0, 0x0c, 0xfe, 65, 65, 1, 255]);
    t.frame(4, 9, STATUS, &[0u8, 0, 0x0b, 0xfe, 65, 65, 1, 255]);
    t.record(0);
    say(rt, "set up again by the other pages\n");
    t.set_up(0, 4, limits());
    t.frame(4, 0, STATUS, &[0u8, 0, 0, 0, 65, 65, 1, 255]);
    t.frame(4, 0, 0x63000, &[0u8, 0, 0, 0, 65, 65, 1, 255]);
    t.latest(0, 0);
    t.record(0);
}

// 02, Req 14: what stands for DC_Power_Control after an Emergency_Stop of the older pages.
fn stops(rt: HostRuntime) {
    say(
        rt,
        "Req 14 an older post: the three functions before a stop, after it, and in the next session\n",
    );
    let mut t = side_by_side(rt);
    t.frame(4, 0, SESSION, &[2u8, 1, 0, 0, 0, 0, 0, 0]);
    t.frame(4, 1, STATUS, &[0u8, 0, 0, 0, 65, 65, 1, 255]);
    t.frame(4, 2, CHARGING, &[0u8, 0, 0, 0, 0]);
    t.frame(4, 3, STOP, &[1u8]);
    t.frame(4, 4, INSULATION, &[0u8, 0]);
    t.frame(4, 5, PRECHARGE, &[0u8, 0, 0, 0]);
    t.frame(4, 6, CHARGING, &[0u8, 0, 0, 0, 0]);
    t.record(0);
    t.frame(4, 7, FINISHED, &[0u8]);
    t.frame(4, 8, SESSION, &[2u8, 1, 0, 0, 0, 0, 0, 0]);
    t.frame(4, 9, STATUS, &[0u8, 0, 0, 0, 65, 65, 1, 255]);
    t.frame(4, 10, CHARGING, &[0u8, 0, 0, 0, 0]);
    t.record(0);
}

pub fn all(rt: HostRuntime) {
    others(rt);
    session(rt);
    told(rt);
    stops(rt);
}
