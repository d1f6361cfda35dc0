// Changes of one signal: E7, and each refusal in its order.
use crate::show::change;
use readings_messages::show::say;

// E7, and each refusal of a change in its order.
fn changes(rt: HostRuntime) {
    say(rt, "E7 the current to -1; to -32768, 32767 and 32768\n");
    let mut e1 = [0xa0u8, 0x0f, 0x83, 0xff, 0x41, 0x00, 0x01, 0x64];
    change(rt, 0x63000, true, &mut e1, 16, -1);
    change(rt, 0x63000, true, &mut e1, 16, -32768);
    change(rt, 0x63000, true, &mut e1, 16, 32767);
    change(rt, 0x63000, true, &mut e1, 16, 32768);
    say(
        rt,
        "no signal starts at 17, 64 or 4294967295; -1 and 256 in 8 bits; label 2, then 0\n",
    );
    change(rt, 0x63000, true, &mut e1, 17, 0);
    change(rt, 0x63000, true, &mut e1, 64, 0);
    change(rt, 0x63000, true, &mut e1, 4294967295, 0);
    change(rt, 0x63000, true, &mut e1, 32, -1);
    change(rt, 0x63000, true, &mut e1, 32, 256);
    change(rt, 0x63000, true, &mut e1, 48, 2);
    change(rt, 0x63000, true, &mut e1, 48, 0);
    say(
        rt,
        "the frame's own refusal first: 15 before 13, 5 before 13; raws at both ends\n",
    );
    let mut odd = [0u8, 0, 0];
    change(rt, 0x6b001, true, &mut odd, 99, 0);
    let mut bad = [9u8, 9];
    change(rt, 0x6b001, true, &mut bad, 99, 0);
    let mut session = [2u8, 1];
    change(rt, 0x6b001, true, &mut session, 8, 9223372036854775807);
    change(rt, 0x6b001, true, &mut session, 8, -9223372036854775808);
    change(rt, 0x6b001, true, &mut session, 8, 4);
}

// 02, Req 02: 5 carries the start of the changed signal.
fn offence(rt: HostRuntime) {
    say(rt, "the plug to 5 and to 4\n");
    let mut session = [2u8, 1];
    change(rt, 0x6b001, true, &mut session, 8, 5);
    change(rt, 0x6b001, true, &mut session, 8, 4);
}

pub fn all(rt: HostRuntime) {
    changes(rt);
    offence(rt);
}
