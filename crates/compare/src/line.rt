// A record as the line of `nightlog show`, behind its number in the file.
use crate::kept::Kept;
use log_read::Records;
use program_parts::put_record;
use text_pen::Sheet;
use text_written::put_decimal;

// ` N LINE` of the record that is kept at place i, from 0
pub fn put_numbered(sheet: &mut Sheet, kept: &Kept, i: usize) {
    let Some(number) = kept.number(i) else {
        return;
    };
    sheet.put(b" ");
    put_decimal(sheet, number);
    sheet.put(b" ");
    let log = kept.log();
    if let Some(e) = Records::new(log).nth(i) {
        put_record(sheet, log, e);
    }
}
