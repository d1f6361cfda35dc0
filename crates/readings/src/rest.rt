// 02, Req 14: the messages of document 000 that 01 leaves out.
use crate::show::{change, read};
use readings_messages::show::say;

fn switched(rt: HostRuntime) {
    say(
        rt,
        "Req 14 Sequence_Control: allowed; every button; a bit that no signal covers; 2 bytes; the identifier of 001\n",
    );
    read(rt, 0x63002, true, &[0x01u8, 0x07, 0x00]);
    read(rt, 0x63002, true, &[0x03u8, 0x00, 0x01]);
    read(rt, 0x63002, true, &[0x05u8, 0x07, 0x00]);
    read(rt, 0x63002, true, &[0x01u8, 0x07]);
    read(rt, 0x60012, true, &[0x01u8, 0x07, 0x00]);
    say(
        rt,
        "ADM_CS_SECC_Outputs: the 60 bits that are reserved; all ones\n",
    );
    read(
        rt,
        0x63201,
        true,
        &[0x19u8, 0x32, 0x54, 0x76, 0x98, 0xba, 0xdc, 0xfe],
    );
    read(
        rt,
        0x63201,
        true,
        &[0xffu8, 0xff, 0xff, 0xff, 0xff, 0xff, 0xff, 0xff],
    );
}

fn vehicle(rt: HostRuntime) {
    say(
        rt,
        "EV_Information_Battery: 101 kWh; Voltages, Charge_Limits and Discharge_Limits\n",
    );
    read(rt, 0x6b100, true, &[0x65u8, 0x00, 0x25, 0x0a, 0x50, 0x5f]);
    read(rt, 0x6b101, true, &[0xb8u8, 0x0b, 0x88, 0x13, 0xa0, 0x0f]);
    read(
        rt,
        0x6b102,
        true,
        &[0x0au8, 0x00, 0xc4, 0x09, 0x01, 0x00, 0x96, 0x00],
    );
    read(
        rt,
        0x6b103,
        true,
        &[0x00u8, 0x00, 0x00, 0x00, 0xff, 0xff, 0xff, 0xff],
    );
    say(
        rt,
        "EV_Information_Energy: -10, -2 and 5 kWh; one byte more\n",
    );
    read(rt, 0x6b104, true, &[0xf6u8, 0xff, 0xfe, 0xff, 0x05, 0x00]);
    read(
        rt,
        0x6b104,
        true,
        &[0xf6u8, 0xff, 0xfe, 0xff, 0x05, 0x00, 0x00],
    );
}

fn inputs(rt: HostRuntime) {
    say(
        rt,
        "ADM_CO_CUI1_Inputs, ADM_CS_SECC_Inputs and ADM_CS_SPCC_Inputs; bit 40 of the last, which is no signal's\n",
    );
    read(
        rt,
        0x6b200,
        true,
        &[0x21u8, 0x43, 0x65, 0x87, 0x41, 0x00, 0x28, 0xff],
    );
    read(
        rt,
        0x6b201,
        true,
        &[0x05u8, 0x10, 0x32, 0x54, 0x76, 0x41, 0x00, 0xff],
    );
    read(
        rt,
        0x6b202,
        true,
        &[0xf9u8, 0x41, 0x42, 0x43, 0x44, 0x00, 0x00, 0xff],
    );
    read(
        rt,
        0x6b202,
        true,
        &[0xf9u8, 0x41, 0x42, 0x43, 0x44, 0x01, 0x00, 0xff],
    );
}

fn states(rt: HostRuntime) {
    say(
        rt,
        "CCS_Extra_Information: state A at 100.0 %; CP_State 1; MCS_Extra_Information: state E; ID_State 4\n",
    );
    read(
        rt,
        0x6b203,
        true,
        &[0x0cu8, 0xe8, 0x03, 0x01, 0x02, 0x03, 0x04, 0x05],
    );
    read(
        rt,
        0x6b203,
        true,
        &[0x01u8, 0xe8, 0x03, 0x01, 0x02, 0x03, 0x04, 0x05],
    );
    read(
        rt,
        0x6b204,
        true,
        &[0x09u8, 0x03, 0x01, 0x02, 0x03, 0x04, 0x05, 0x06],
    );
    read(
        rt,
        0x6b204,
        true,
        &[0x09u8, 0x04, 0x01, 0x02, 0x03, 0x04, 0x05, 0x06],
    );
    say(rt, "OCPP_Control: -12.5 A, -3276.8 A; standard\n");
    read(rt, 0x6b300, true, &[0x83u8, 0xff]);
    read(rt, 0x6b300, true, &[0x00u8, 0x80]);
    read(rt, 0x6b300, false, &[0x83u8, 0xff]);
}

fn changed(rt: HostRuntime) {
    say(
        rt,
        "the target to -32,768 and one less; the Reserved of 60 bits to 0 and one bit too wide; CP_State to 1\n",
    );
    let mut target = [0x83u8, 0xff];
    change(rt, 0x6b300, true, &mut target, 0, -32768);
    change(rt, 0x6b300, true, &mut target, 0, -32769);
    let mut outputs = [0xf5u8, 0xff, 0xff, 0xff, 0xff, 0xff, 0xff, 0xff];
    change(rt, 0x63201, true, &mut outputs, 4, 0);
    change(rt, 0x63201, true, &mut outputs, 4, 1152921504606846976);
    let mut state = [0x0cu8, 0xe8, 0x03, 0x01, 0x02, 0x03, 0x04, 0x05];
    change(rt, 0x6b203, true, &mut state, 0, 1);
}

pub fn all(rt: HostRuntime) {
    switched(rt);
    vehicle(rt);
    inputs(rt);
    states(rt);
    changed(rt);
}
