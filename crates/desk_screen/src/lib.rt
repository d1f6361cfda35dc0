// The steps of the service screen, a probe's degrees and the limited duty, for the desk alone. A raw number that its signal of document 004 cannot hold
// is too large for its place.
#![tactic(auto)]

use desk_buffers::Fields;
use message_fields::{short, word};
use notation_answers::answer;
use service::Probe;
use text_pen::Sheet;

// PT1_Temperature, and the other three.
const PROBE_BITS: u32 = 14;

// CC_TargetDutyCycle, CS_CurrentDutyCycle.
const DUTY_BITS: u32 = 10;

// `RAW` at the line's end.
fn take_raw(fields: Fields, signed: bool, width: u32) -> Option<i64> {
    let raw = text_numbers::signed(fields.rest()?)?;
    signal::fits(raw, signed, width).then_some(raw)
}

// `probe RAW`
pub fn probe(fields: Fields, sheet: &mut Sheet) {
    match take_raw(fields, true, PROBE_BITS) {
        None => answer::unknown(sheet),
        Some(raw) => put_probe(sheet, service::probe_of(short(raw))),
    }
}

// The degrees in eight digits, leading zeros among them.
fn put_probe(sheet: &mut Sheet, p: Probe) {
    match p {
        Probe::NotUsed => sheet.put(b"N\n"),
        Probe::Degrees(x) => {
            sheet.put(b"D");
            answer::bytes_end(sheet, &service::degrees_bits(x).to_be_bytes());
        }
    }
}

// `duty RAW`
pub fn duty(fields: Fields, sheet: &mut Sheet) {
    let Some(raw) = take_raw(fields, false, DUTY_BITS) else {
        answer::unknown(sheet);
        return;
    };
    answer::named(sheet, b"A ", u32::from(service::limited_duty(word(raw))));
    answer::line_end(sheet);
}
