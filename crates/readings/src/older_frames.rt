// 02, Req 11: frames by the pages of document 001, each read and written again, and one signal changed.
use crate::show::{change_older, read_older};
use readings_messages::show::say;

fn power(rt: HostRuntime) {
    say(
        rt,
        "Req 11 document 001 read and written again: Power_Modules_Status, Power_Modules_Limits with its Reserved\n",
    );
    read_older(
        rt,
        0x60010,
        true,
        &[0xa0u8, 0x0f, 0x83, 0xff, 0x41, 0x00, 0x01, 0x64],
    );
    read_older(
        rt,
        0x60011,
        true,
        &[0xa0u8, 0x0f, 0x9c, 0xff, 0x01, 0, 0, 0x80],
    );
    say(
        rt,
        "Sequence_Control: each bit, and the first that no signal covers; ADM_CS_SECC_Outputs with all 60 bits of its Reserved\n",
    );
    read_older(rt, 0x60012, true, &[0x01u8, 0x02, 0x00]);
    read_older(rt, 0x60012, true, &[0x02u8, 0x05, 0x01]);
    read_older(rt, 0x60012, true, &[0x04u8, 0x00, 0x00]);
    read_older(
        rt,
        0x60013,
        true,
        &[0xf5u8, 0xff, 0xff, 0xff, 0xff, 0xff, 0xff, 0xff],
    );
    say(
        rt,
        "New_Charge_Session of 8 bytes, and of the 2 that 000 has; the functions of a session\n",
    );
    read_older(
        rt,
        0x68001,
        true,
        &[2u8, 1, 0xa0, 0x0f, 0xd0, 0x07, 50, 255],
    );
    read_older(rt, 0x68001, true, &[2u8, 1]);
    read_older(rt, 0x68002, true, &[0x88u8, 0x13]);
    read_older(rt, 0x68003, true, &[0xa0u8, 0x0f, 0x14, 0x80]);
    read_older(rt, 0x68004, true, &[1u8]);
    read_older(rt, 0x68005, true, &[0xa0u8, 0x0f, 0x9c, 0xff, 80]);
}

fn inputs(rt: HostRuntime) {
    say(
        rt,
        "Emergency_Stop, Charge_Session_Finished, Advantics_Controller_Status\n",
    );
    read_older(rt, 0x68006, true, &[3u8]);
    read_older(rt, 0x68006, true, &[2u8]);
    read_older(rt, 0x68007, true, &[1u8]);
    read_older(rt, 0x68009, true, &[13u8]);
    say(
        rt,
        "the inputs of the controllers, EV_ID_CCS_Part2_DIN, and the extra information of CCS and MCS\n",
    );
    read_older(
        rt,
        0x6800a,
        true,
        &[0x21u8, 0, 0, 0x80, 0x28, 0xff, 0, 0x41],
    );
    read_older(rt, 0x6800b, true, &[0x09u8, 0, 0, 0, 0x80, 0x28, 0, 0xff]);
    read_older(rt, 0x6800c, true, &[1u8, 2, 3, 4, 5, 255]);
    read_older(
        rt,
        0x6800d,
        true,
        &[0xf5u8, 0x28, 0x29, 0x2a, 0x2b, 0, 0x2c, 0xff],
    );
    read_older(
        rt,
        0x6800d,
        true,
        &[0xf5u8, 0x28, 0x29, 0x2a, 0x2b, 1, 0x2c, 0xff],
    );
    read_older(
        rt,
        0x6800e,
        true,
        &[0x0cu8, 0xe8, 0x03, 0x01, 0, 0, 0, 0x80],
    );
    read_older(rt, 0x6800e, true, &[0x0du8, 0, 0, 0, 0, 0, 0, 0]);
    read_older(rt, 0x6800f, true, &[9u8, 3, 0, 0, 0, 0, 0, 0x80]);
}

// "The frames of the safety controller" belong to either interface; a reader without a post gives 3 for the other pages' identifiers.
fn others(rt: HostRuntime) {
    say(
        rt,
        "ChargeControl1; Power_Modules_Status of document 000; a standard 60010\n",
    );
    read_older(rt, 6, false, &[0x82u8, 0x15, 0, 0, 0, 0, 0, 0]);
    read_older(
        rt,
        0x63000,
        true,
        &[0xa0u8, 0x0f, 0x83, 0xff, 0x41, 0x00, 0x01, 0x64],
    );
    read_older(
        rt,
        0x60010,
        false,
        &[0xa0u8, 0x0f, 0x83, 0xff, 0x41, 0x00, 0x01, 0x64],
    );
}

fn changes(rt: HostRuntime) {
    say(
        rt,
        "the current to -1; no signal starts at 17; System_Enable 2; the Reserved of 60 bits to 0 and one bit too wide\n",
    );
    let mut status = [0xa0u8, 0x0f, 0x83, 0xff, 0x41, 0x00, 0x01, 0x64];
    change_older(rt, 0x60010, true, &mut status, 16, -1);
    change_older(rt, 0x60010, true, &mut status, 17, 0);
    change_older(rt, 0x60010, true, &mut status, 48, 2);
    let mut outputs = [0xf5u8, 0xff, 0xff, 0xff, 0xff, 0xff, 0xff, 0xff];
    change_older(rt, 0x60013, true, &mut outputs, 4, 0);
    change_older(rt, 0x60013, true, &mut outputs, 4, 1152921504606846976);
    change_older(rt, 0x6b000, true, &mut outputs, 0, 0);
}

pub fn all(rt: HostRuntime) {
    power(rt);
    inputs(rt);
    others(rt);
    changes(rt);
}
