// Frames and what they are read to: E1 to E4, E15 and E16, the edges of label sets, and the other side of each.
use crate::show::read;
use readings_messages::show::say;

// E1 to E4, E15 and E16, and the other side of each.
fn frames(rt: HostRuntime) {
    let e1 = [0xa0u8, 0x0f, 0x83, 0xff, 0x41, 0x00, 0x01, 0x64];
    say(
        rt,
        "E1 400.0 V, -12.5 A, 25 °C, -40 °C, Allowed, 200 kOhm\n",
    );
    read(rt, 0x63000, true, &e1);
    say(rt, "E2 its first 7 bytes; and 9 bytes, 15 by Req 02\n");
    read(rt, 0x63000, true, &e1[..7]);
    read(
        rt,
        0x63000,
        true,
        &[0xa0u8, 0x0f, 0x83, 0xff, 0x41, 0x00, 0x01, 0x64, 0x00],
    );
    say(rt, "E3 System_Enable 2; and 0\n");
    read(
        rt,
        0x63000,
        true,
        &[0xa0u8, 0x0f, 0x83, 0xff, 0x41, 0x00, 0x02, 0x64],
    );
    read(
        rt,
        0x63000,
        true,
        &[0xa0u8, 0x0f, 0x83, 0xff, 0x41, 0x00, 0x00, 0x64],
    );
    say(
        rt,
        "E4 identifier 0x63003; a standard frame; an identifier with its top bit set\n",
    );
    read(rt, 0x63003, true, &e1);
    read(rt, 0x63000, false, &e1);
    read(rt, 0x80063000, true, &e1);
    say(
        rt,
        "E15 New_Charge_Session 02 01; each label's last number and the next\n",
    );
    read(rt, 0x6b001, true, &[2u8, 1]);
    read(rt, 0x6b001, true, &[7u8, 4]);
    read(rt, 0x6b001, true, &[8u8, 4]);
    read(rt, 0x6b001, true, &[7u8, 5]);
    say(rt, "E16 an empty payload\n");
    read(rt, 0x6b001, true, &[]);
}

// 02, Req 02: the lowest start of the signals that offend, and 15 in 4's place.
fn offences(rt: HostRuntime) {
    say(
        rt,
        "Req 02 protocol 8 and plug 5; plug 5 alone; one byte too few; one too many\n",
    );
    read(rt, 0x6b001, true, &[8u8, 5]);
    read(rt, 0x6b001, true, &[2u8, 5]);
    read(rt, 0x6b001, true, &[8u8]);
    read(rt, 0x6b001, true, &[8u8, 5, 0]);
}

// The label sets with gaps, and signed numbers at both ends.
fn edges(rt: HostRuntime) {
    say(rt, "Advantics_Controller_Status 13 and 14\n");
    read(rt, 0x6b000, true, &[13u8]);
    read(rt, 0x6b000, true, &[14u8]);
    say(
        rt,
        "Charge_Status_Change 1 and 2; Charge_Session_Finished 1 and 2\n",
    );
    read(rt, 0x6b002, true, &[1u8]);
    read(rt, 0x6b002, true, &[2u8]);
    read(rt, 0x6b004, true, &[1u8]);
    read(rt, 0x6b004, true, &[2u8]);
    say(rt, "Emergency_Stop 0 to 4\n");
    for origin in 0..=4u8 {
        read(rt, 0x6b005, true, &[origin]);
    }
    say(
        rt,
        "DC_Power_Control: power transfer, reserved bit, range, close, lowering; functions 3 and 9\n",
    );
    read(
        rt,
        0x6b003,
        true,
        &[0xffu8, 0xff, 0xff, 0x7f, 0x00, 0x80, 0xf8],
    );
    read(rt, 0x6b003, true, &[0u8, 0, 0, 0, 0, 0, 0x10]);
    read(rt, 0x6b003, true, &[0u8, 0, 0, 0, 0, 0, 0x03]);
    read(rt, 0x6b003, true, &[0u8, 0, 0, 0, 0, 0, 0x09]);
    say(rt, "DC_Power_Parameters, EV_ID_CCS_Part2_DIN\n");
    read(
        rt,
        0x63001,
        true,
        &[0xff, 0xff, 0x00, 0x80, 0xff, 0x7f, 0xff, 0xff],
    );
    read(rt, 0x6b105, true, &[1u8, 2, 3, 254, 255, 0]);
}

pub fn all(rt: HostRuntime) {
    frames(rt);
    offences(rt);
    edges(rt);
}
