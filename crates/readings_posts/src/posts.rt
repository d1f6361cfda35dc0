// E8 to E14 through the watch, and the other side of each.
use crate::steps::{Scene, limits, limits_with, older_limits};
use readings_messages::show::say;
use rule_limits::{Limits, Sensor};

const STATUS: u32 = 0x63000;

const PARAMETERS: u32 = 0x63001;

const CONTROLLER: u32 = 0x6b000;

const SESSION: u32 = 0x6b001;

const CONTROL: u32 = 0x6b003;

const FINISHED: u32 = 0x6b004;

const STOP: u32 = 0x6b005;

const SEQUENCE: u32 = 0x63002;

const SPCC: u32 = 0x6b202;

const CCS: u32 = 0x6b203;

const OCPP: u32 = 0x6b300;

fn insulation(rt: HostRuntime) {
    say(
        rt,
        "E8 under precharge at 500.0 V: insulation raw 25, raw 24; after the session no F9\n",
    );
    let mut t = Scene::new(rt);
    t.set_up(0, 4, limits());
    t.frame(4, 0, SESSION, &[2u8, 1]);
    t.frame(4, 10, STATUS, &[0u8, 0, 0, 0, 65, 65, 1, 255]);
    t.frame(4, 20, CONTROL, &[0x88u8, 0x13, 0, 0, 0, 0, 0x04]);
    t.frame(4, 30, STATUS, &[0x88u8, 0x13, 0, 0, 65, 65, 1, 25]);
    t.frame(4, 40, STATUS, &[0x88u8, 0x13, 0, 0, 65, 65, 1, 24]);
    t.record(0);
    t.frame(4, 50, FINISHED, &[0u8]);
    t.frame(4, 60, STATUS, &[0x88u8, 0x13, 0, 0, 65, 65, 1, 24]);
    t.record(0);
}

// 02, Req 03: the sensor "gave 0 for invalid at 0 V and F9 stayed silent".
fn sensed(rt: HostRuntime, sensor: Sensor) {
    let mut t = Scene::new(rt);
    t.set_up(0, 4, limits_with(sensor));
    t.frame(4, 0, SESSION, &[2u8, 1]);
    t.frame(4, 10, STATUS, &[0u8, 0, 0, 0, 65, 65, 1, 0]);
    t.frame(4, 20, CONTROL, &[0x88u8, 0x13, 0, 0, 0, 0, 0x04]);
    t.frame(4, 30, STATUS, &[0u8, 0, 0, 0, 65, 65, 1, 0]);
    t.frame(4, 40, STATUS, &[0u8, 0, 0, 0, 65, 65, 1, 1]);
    t.frame(4, 50, STATUS, &[0x88u8, 0x13, 0, 0, 65, 65, 1, 24]);
    t.frame(4, 60, STATUS, &[0x88u8, 0x13, 0, 0, 65, 65, 1, 0]);
    t.record(0);
}

fn sensors(rt: HostRuntime) {
    say(
        rt,
        "Req 03 a measuring sensor at 0 V: raw 0 before and under precharge, raw 1; at 500.0 V raw 24, raw 0\n",
    );
    sensed(rt, Sensor::Measuring);
    say(rt, "a yes/no sensor, the same\n");
    sensed(rt, Sensor::YesNo);
    say(rt, "set up again with the other kind\n");
    let mut t = Scene::new(rt);
    t.set_up(0, 4, limits_with(Sensor::YesNo));
    t.record(0);
    t.set_up(0, 4, limits());
    t.record(0);
    t.set_up(0, 4, limits_with(Sensor::YesNo));
    t.record(0);
}

fn silences(rt: HostRuntime) {
    say(
        rt,
        "E9 controller status at 1000; the late one has F2 itself\n",
    );
    let mut t = Scene::new(rt);
    t.set_up(0, 4, limits());
    t.frame(4, 1000, CONTROLLER, &[7u8]);
    t.tick(4, 1200);
    t.tick(4, 1201);
    t.frame(4, 1201, CONTROLLER, &[7u8]);
    t.tick(4, 1202);
    say(
        rt,
        "E10 W 500, session opened at 0; repeats of New_Charge_Session do not start the count again\n",
    );
    let mut u = Scene::new(rt);
    u.set_up(0, 4, limits());
    u.frame(4, 0, SESSION, &[2u8, 1]);
    u.frame(4, 400, SESSION, &[2u8, 1]);
    u.tick(4, 500);
    u.frame(4, 501, STATUS, &[0u8, 0, 0, 0, 65, 65, 1, 255]);
    u.tick(4, 1001);
    u.tick(4, 1002);
    t.record(0);
    u.record(0);
}

fn orders(rt: HostRuntime) {
    say(
        rt,
        "E11 close and power transfer before any session; the same after Allowed, before it in the next session\n",
    );
    let mut t = Scene::new(rt);
    t.set_up(0, 4, limits());
    t.frame(4, 0, CONTROL, &[0x88u8, 0x13, 0, 0, 0, 0, 0x48]);
    t.frame(4, 1, SESSION, &[2u8, 1]);
    t.frame(4, 2, STATUS, &[0u8, 0, 0, 0, 65, 65, 1, 255]);
    t.frame(4, 3, CONTROL, &[0x88u8, 0x13, 0, 0, 0, 0, 0x48]);
    t.frame(4, 4, FINISHED, &[0u8]);
    t.frame(4, 5, SESSION, &[2u8, 1]);
    t.frame(4, 6, CONTROL, &[0x88u8, 0x13, 0, 0, 0, 0, 0x48]);
    t.frame(4, 7, SESSION, &[3u8, 1]);
    t.frame(4, 8, FINISHED, &[0u8]);
    t.frame(4, 9, FINISHED, &[0u8]);
    t.record(0);
    say(
        rt,
        "E13 default 5000, Maximum_Voltage 0, 6000, 4000; targets at the limit and one above\n",
    );
    let mut u = Scene::new(rt);
    u.set_up(0, 4, limits());
    u.frame(4, 0, PARAMETERS, &[0u8, 0, 0, 0, 0, 0, 0, 0]);
    u.frame(4, 1, CONTROL, &[0x88u8, 0x13, 0, 0, 0, 0, 1]);
    u.frame(4, 2, CONTROL, &[0x89u8, 0x13, 0, 0, 0, 0, 1]);
    u.frame(4, 3, PARAMETERS, &[0x70u8, 0x17, 0, 0, 0, 0, 0, 0]);
    u.frame(4, 4, CONTROL, &[0x88u8, 0x13, 0, 0, 0, 0, 1]);
    u.frame(4, 5, CONTROL, &[0x89u8, 0x13, 0, 0, 0, 0, 1]);
    u.frame(4, 6, PARAMETERS, &[0xa0u8, 0x0f, 0, 0, 0, 0, 0, 0]);
    u.frame(4, 7, CONTROL, &[0xa0u8, 0x0f, 0, 0, 0, 0, 1]);
    u.frame(4, 8, CONTROL, &[0xa1u8, 0x0f, 0, 0, 0, 0, 1]);
    u.record(0);
}

fn channels(rt: HostRuntime) {
    say(
        rt,
        "E12 post 0 on channel 4: post 1 on 4; post 0 on 4 again; refusals 9, 10, 12, 14 and 1\n",
    );
    let mut t = Scene::new(rt);
    t.set_up(0, 4, limits());
    t.tick(4, 100);
    t.set_up(1, 4, limits());
    t.record(1);
    t.set_up(0, 4, limits());
    t.record(0);
    t.tick(4, 5);
    t.set_up(16, 5, limits());
    t.set_up(1, 32, limits());
    t.set_up(1, 5, lowest(0));
    t.set_up(1, 5, lowest(1));
    t.release(0);
    t.release(0);
    t.tick(4, 6);
    t.tick(32, 6);
    t.tick(5, 6);
    clocks(rt, t);
}

// The lowest of each limit, and a voltage.
// Kept (4): no number is turned into a type: the voltage is one of six limits.
fn lowest(voltage: u32) -> Limits {
    Limits {
        voltage,
        charge: 1,
        discharge: 0,
        silence: 100,
        ..limits()
    }
}

// Post 0 is free, and post 1 heard channel 5 at 6.
fn clocks(rt: HostRuntime, mut t: Scene) {
    say(
        rt,
        "E14 after time 100: 99, 100; one post's clock is its own; an early unknown frame; a refused frame moves nothing\n",
    );
    t.set_up(0, 4, limits());
    t.tick(4, 100);
    t.tick(4, 99);
    t.tick(4, 100);
    t.tick(5, 50);
    t.frame(4, 99, 0x63003, &[0u8]);
    t.frame(4, 900, 0x63003, &[0u8]);
    t.frame(4, 900, CONTROLLER, &[14u8]);
    t.tick(4, 101);
    t.record(0);
    t.record(1);
}

// 02, Req 04: "These frames on a post's channel are accepted and recorded as three more kinds, and raise only F1 and F2."
fn safety(rt: HostRuntime) {
    say(
        rt,
        "Req 04 closed contactors and no session; a late controller; a silent session; refusals 3 and 6\n",
    );
    let mut t = Scene::new(rt);
    t.set_up(0, 4, limits());
    t.standard(4, 0, 6, &[0x82u8, 0x15, 0x03, 0, 0, 0, 0, 0]);
    t.standard(4, 10, 7, &[0x82u8, 0x15, 0x03, 0x03, 0x03, 0, 0, 0]);
    t.frame(4, 20, CONTROLLER, &[7u8]);
    t.standard(4, 220, 7, &[0x82u8, 0x15, 0x03, 0x03, 0x03, 0, 0, 0]);
    t.standard(4, 221, 7, &[0x82u8, 0x15, 0x03, 0x03, 0x03, 0, 0, 0]);
    t.frame(4, 300, SESSION, &[2u8, 1]);
    t.frame(4, 700, CONTROLLER, &[7u8]);
    t.standard(4, 800, 8, &[0xfeu8, 0x70, 0, 0, 0, 0, 0, 0]);
    t.standard(4, 801, 8, &[0xfeu8, 0x70, 0, 0, 0, 0, 0, 0]);
    t.standard(4, 901, 6, &[0x82u8, 0x15, 0x03, 0, 0, 0, 0, 0]);
    t.standard(4, 902, 9, &[0x82u8, 0x15, 0, 0, 0, 0, 0, 0]);
    t.frame(4, 902, 7, &[0x82u8, 0x15, 0x03, 0x03, 0x03, 0, 0, 0]);
    t.standard(4, 902, 7, &[0x82u8, 0x15, 0x03, 0x03, 0x03, 0, 0, 1]);
    for kind in 8..=11 {
        t.latest(0, kind);
    }
    t.record(0);
}

// 02, Req 14: "F12 is a DC_Power_Control with insulation test, precharge or power transfer in a session after an Emergency_Stop accepted in it".
fn stops(rt: HostRuntime) {
    say(
        rt,
        "Req 14 a stop before the session; power transfer; a stop in it: off, standby, insulation test, precharge, power transfer; the next session\n",
    );
    let mut t = Scene::new(rt);
    t.set_up(0, 4, limits());
    t.frame(4, 0, STOP, &[1u8]);
    t.frame(4, 1, CONTROL, &[0x88u8, 0x13, 0, 0, 0, 0, 0x08]);
    t.frame(4, 2, SESSION, &[2u8, 1]);
    t.frame(4, 3, STATUS, &[0u8, 0, 0, 0, 65, 65, 1, 255]);
    t.frame(4, 4, CONTROL, &[0x88u8, 0x13, 0, 0, 0, 0, 0x08]);
    t.record(0);
    t.frame(4, 5, STOP, &[1u8]);
    t.frame(4, 6, CONTROL, &[0x88u8, 0x13, 0, 0, 0, 0, 0x00]);
    t.frame(4, 7, CONTROL, &[0x88u8, 0x13, 0, 0, 0, 0, 0x01]);
    t.frame(4, 8, CONTROL, &[0x88u8, 0x13, 0, 0, 0, 0, 0x02]);
    t.frame(4, 9, CONTROL, &[0x88u8, 0x13, 0, 0, 0, 0, 0x04]);
    t.frame(4, 10, CONTROL, &[0x88u8, 0x13, 0, 0, 0, 0, 0x08]);
    t.frame(4, 11, STOP, &[3u8]);
    t.record(0);
    t.frame(4, 12, FINISHED, &[0u8]);
    t.frame(4, 13, CONTROL, &[0x88u8, 0x13, 0, 0, 0, 0, 0x08]);
    t.frame(4, 14, SESSION, &[2u8, 1]);
    t.frame(4, 15, STATUS, &[0u8, 0, 0, 0, 65, 65, 1, 255]);
    t.frame(4, 16, CONTROL, &[0x88u8, 0x13, 0, 0, 0, 0, 0x08]);
    t.record(0);
}

// 02, Req 14: the rest of 000's messages are accepted and recorded as thirteen more kinds, and raise only F1 and F2.
fn rest(rt: HostRuntime) {
    say(
        rt,
        "Req 14 the rest of 000's: no session; a late controller; a silent session; refusals 3, 4, 5, 6, and 29 on an older post\n",
    );
    let mut t = Scene::new(rt);
    t.set_up(0, 4, limits());
    t.frame(4, 0, SEQUENCE, &[3u8, 5, 1]);
    t.frame(4, 1, 0x63201, &[0x0fu8, 0, 0, 0, 0, 0, 0, 0]);
    t.frame(4, 2, 0x6b100, &[0x50u8, 0, 0x2a, 0x0a, 0x50, 0x64]);
    t.frame(4, 3, 0x6b101, &[0xd0u8, 7, 0x40, 0x1f, 0xa0, 0x0f]);
    t.frame(4, 4, 0x6b102, &[0x0au8, 0, 0xe8, 3, 1, 0, 0x96, 0]);
    t.frame(4, 5, 0x6b103, &[0x0au8, 0, 0xe8, 3, 1, 0, 0x96, 0]);
    t.frame(4, 6, 0x6b104, &[0xffu8, 0xff, 2, 0, 0, 0x80]);
    t.frame(4, 7, 0x6b200, &[1u8, 0, 0, 0, 0x41, 0x41, 0x41, 0x41]);
    t.frame(4, 8, 0x6b201, &[1u8, 0, 0, 0, 0, 0x41, 0x41, 0x41]);
    t.frame(4, 9, SPCC, &[1u8, 0x41, 0x41, 0x41, 0x41, 0, 0x41, 0x41]);
    t.frame(4, 10, CCS, &[9u8, 0x15, 2, 0, 0, 0, 0, 0]);
    t.frame(4, 11, 0x6b204, &[1u8, 3, 0, 0, 0, 0, 0, 0]);
    t.frame(4, 12, OCPP, &[0x83u8, 0xff]);
    t.frame(4, 20, CONTROLLER, &[7u8]);
    t.frame(4, 220, SEQUENCE, &[0u8, 0, 0]);
    t.frame(4, 221, SEQUENCE, &[0u8, 0, 0]);
    t.frame(4, 221, SESSION, &[2u8, 1]);
    t.frame(4, 720, CONTROLLER, &[7u8]);
    t.frame(4, 721, OCPP, &[0u8, 0]);
    t.frame(4, 722, OCPP, &[0u8, 0]);
    t.frame(4, 722, SEQUENCE, &[4u8, 0, 0]);
    t.frame(4, 722, SPCC, &[0u8, 0, 0, 0, 0, 1, 0, 0]);
    t.frame(4, 722, SEQUENCE, &[0u8, 0]);
    t.frame(4, 722, CCS, &[1u8, 0, 0, 0, 0, 0, 0, 0]);
    t.frame(4, 722, 0x63003, &[0u8]);
    t.latest(0, message_types::SEQUENCE);
    t.latest(0, message_types::ENERGY);
    t.latest(0, message_types::OCPP);
    t.record(0);
    t.set_up(1, 5, older_limits());
    t.frame(5, 0, SEQUENCE, &[0u8, 0, 0]);
    t.frame(5, 0, OCPP, &[0u8]);
}

pub fn all(rt: HostRuntime) {
    insulation(rt);
    sensors(rt);
    silences(rt);
    orders(rt);
    channels(rt);
    safety(rt);
    stops(rt);
    rest(rt);
}
