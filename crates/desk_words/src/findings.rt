// Findings in words, each with its name.
use crate::sentence;
use notation_answers::answer;
use text_pen::Sheet;

// Of finding 1 and on.
const SENTENCES: [&[u8]; 12] = [
    b"power modules silent for longer than W in this session",
    b"controller status older than 200 ms",
    b"contactors closed with no session open",
    b"insulation test, precharge or power transfer with no session open",
    b"insulation test, precharge or power transfer without Allowed in this session",
    b"lowering with a function other than standby or a setpoint not 0",
    b"target voltage above the voltage limit",
    b"current above the charge limit or below minus the discharge limit",
    b"insulation under 100 Ohm per volt, or Invalid by a yes/no sensor, in precharge or power transfer",
    b"another protocol or plug than the session's first",
    b"session finished with none open",
    b"insulation test, precharge or power transfer after an Emergency_Stop in this session",
];

// The findings whose bits are in n, in order, with `;` between them.
fn put_findings(sheet: &mut Sheet, n: u32) {
    for (i, sentence) in SENTENCES.iter().enumerate() {
        let rest = n >> i;
        if rest & 1 == 1 {
            sentence::put(sheet, b" F", i as u32 + 1, sentence);
            if rest > 1 {
                sheet.put(b";");
            }
        }
    }
}

pub fn put(sheet: &mut Sheet, n: u32) {
    if n == 0 {
        sheet.put(b"E none\n");
        return;
    }
    sheet.put(b"E");
    put_findings(sheet, n);
    answer::line_end(sheet);
}
