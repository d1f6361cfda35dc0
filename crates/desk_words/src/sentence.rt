// A name with its sentence.
// Kept (5): no plainer as a struct of sheet, name and number, which would be put together at each call and taken apart in it: they meet here and in `named`.
use notation_answers::answer;
use text_pen::Sheet;

// A name with its number, and its sentence.
pub fn put(sheet: &mut Sheet, name: &[u8], n: u32, sentence: &[u8]) {
    answer::named(sheet, name, n);
    sheet.put(b" ");
    sheet.put(sentence);
}
