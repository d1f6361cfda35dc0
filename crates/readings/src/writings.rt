// Messages written: E5 and E6, and buffers that are longer and shorter than the message.
// Kept (6): no heap in a program, so the messages are written into buffers of fixed size, as the library takes them.
use crate::write::{write_session, write_status};
use message_types::{Plug, Protocol};
use readings_messages::show::say;

pub fn all(rt: HostRuntime) {
    say(rt, "E5 215 C and 216 C; -40 C and -41 C\n");
    let mut buf = [0x55u8; 10];
    write_status(rt, "215 C, 200 kOhm", 215, 200, &mut buf);
    write_status(rt, "216 C, 200 kOhm", 216, 200, &mut buf);
    write_status(rt, "-40 C, 200 kOhm", -40, 200, &mut buf);
    write_status(rt, "-41 C, 200 kOhm", -41, 200, &mut buf);
    say(rt, "E6 510 kOhm, 201 kOhm, 512 kOhm\n");
    write_status(rt, "25 C, 510 kOhm", 25, 510, &mut buf);
    write_status(rt, "25 C, 201 kOhm", 25, 201, &mut buf);
    write_status(rt, "25 C, 512 kOhm", 25, 512, &mut buf);
    say(rt, "7 before 8; 8 bytes and 7\n");
    let mut short = [0x55u8; 7];
    write_status(rt, "25 C, 201 kOhm", 25, 201, &mut short);
    write_status(rt, "25 C, 200 kOhm", 25, 200, &mut short);
    write_session(
        rt,
        Protocol::CcsIso15118v2013,
        Plug::CcsDcExtended,
        &mut short,
    );
}
