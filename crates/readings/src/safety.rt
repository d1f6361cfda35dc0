// 02, Req 04: the safety controller's frames, and what the service screen shows of them.
// Kept (2): each file's `all` lists its own readings, in the order in which they are printed.
// Kept (6): no heap in a program, so the messages are written into a buffer of fixed size, as the library takes it.
use crate::screen::{limited, probe};
use crate::show::{change, read};
use crate::write::{write_duty, write_probe};
use readings_messages::show::say;

// "Refusal 3 and E4 now read over the wider table."
fn safety(rt: HostRuntime) {
    say(
        rt,
        "Req 04 ChargeControl1: 53.3 % with PWM active; 102.3 %; bit 2, which is no signal's\n",
    );
    read(rt, 6, false, &[0x82u8, 0x15, 0, 0, 0, 0, 0, 0]);
    read(rt, 6, false, &[0x03u8, 0xff, 0x03, 0, 0, 0, 0, 0]);
    read(rt, 6, false, &[0x86u8, 0x15, 0, 0, 0, 0, 0, 0]);
    say(
        rt,
        "ChargeState1: CP state C, PP 32 A; all ones; the last bit; extended; identifier 9; 7 bytes and 9\n",
    );
    let state = [0x82u8, 0x15, 0x03, 0x03, 0x03, 0, 0, 0];
    read(rt, 7, false, &state);
    read(rt, 7, false, &[0x83u8, 0xff, 0x1f, 0x07, 0x0f, 0x1f, 0, 0]);
    read(rt, 7, false, &[0x82u8, 0x15, 0x03, 0x03, 0x03, 0, 0, 0x01]);
    read(rt, 7, true, &state);
    read(rt, 9, false, &state);
    read(rt, 7, false, &state[..7]);
    read(rt, 7, false, &[0x82u8, 0x15, 0x03, 0x03, 0x03, 0, 0, 0, 0]);
    say(
        rt,
        "PT1000State: -10.0 C, not used, -0.1 C, -819.2 C; the first stopped, the second failed, the third both\n",
    );
    read(
        rt,
        8,
        false,
        &[0xfeu8, 0x70, 0x7f, 0xfc, 0xff, 0xfc, 0x80, 0x00],
    );
    read(
        rt,
        8,
        false,
        &[0x00u8, 0x01, 0x00, 0x02, 0x00, 0x03, 0x00, 0x00],
    );
}

fn safety_written(rt: HostRuntime) {
    say(rt, "the largest raw numbers and one more\n");
    let mut buf = [0x55u8; 8];
    for duty in [533, 1023, 1024] {
        write_duty(rt, duty, &mut buf);
    }
    for raw in [-100, 8191, 8192, -8192, -8193] {
        write_probe(rt, raw, &mut buf);
    }
    say(
        rt,
        "the first probe to -0.1 C at 7, its highest bit; 13 at 10, its lowest; stopped at 8; extended\n",
    );
    let mut probes = [0xfeu8, 0x70, 0, 0, 0, 0, 0, 0];
    change(rt, 8, false, &mut probes, 7, -1);
    change(rt, 8, false, &mut probes, 7, 8192);
    change(rt, 8, false, &mut probes, 10, 0);
    change(rt, 8, false, &mut probes, 8, 1);
    change(rt, 8, true, &mut probes, 8, 0);
}

// For the service screen.
fn screen(rt: HostRuntime) {
    say(
        rt,
        "degrees by the bits of their float; raw 8191 and no other is not used\n",
    );
    for raw in [-100, 0, 250, -1, 1, 3, 8190, 8191, -8192] {
        probe(rt, raw);
    }
    say(rt, "the limited duty\n");
    for duty in [533, 1000, 1001, 1023] {
        limited(rt, duty);
    }
}

pub fn all(rt: HostRuntime) {
    safety(rt);
    safety_written(rt);
    screen(rt);
}
