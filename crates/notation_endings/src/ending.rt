// How a log ends, as text. desk.md: `END`, `CUT@BYTE`, `BAD R<n>@BYTE`, and for a replay also `SETUP R<n>`.
#![tactic(auto, using(text_pen::proofs::Turns::sheets))]

ghost use Rattle.text_pen.specs.Pens.{Wrote};
ghost use Rattle.notation_endings.specs.Endings.{cut_words, bad_words, set_up_words};

use notation_answers::answer;
use refusals::Refusal;
use text_pen::Sheet;

// A piece is left over and begins at this byte.
pub fn cut(sheet: &mut Sheet, at: u64)
    ensures { Wrote sheet.old (cut_words at) sheet.new }
{
    sheet.put(b"CUT@");
    text_written::put_decimal(sheet, at);
}

// A malformed record begins at this byte.
pub fn bad(sheet: &mut Sheet, why: Refusal, at: u64)
    ensures { Wrote sheet.old (bad_words why at) sheet.new }
{
    answer::named(sheet, b"BAD R", refusals::refusal_number(why));
    sheet.put(b"@");
    text_written::put_decimal(sheet, at);
}

pub fn set_up(sheet: &mut Sheet, why: Refusal)
    ensures { Wrote sheet.old (set_up_words why) sheet.new }
{
    answer::named(sheet, b"SETUP R", refusals::refusal_number(why));
}
