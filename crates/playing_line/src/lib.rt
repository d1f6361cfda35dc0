// A record's line of a replay (02, Req 05), for playing_calls alone: what stands in it (specs/Lines.antt), and its words put on a sheet. The public function
// takes any input.
#![tactic(auto, using(text_pen::proofs::Turns::sheets))]

ghost use Rattle.std.specs.Prelude.{◌≡◌};
ghost use Rattle.text_pen.specs.Pens.{Wrote};
ghost use Rattle.refusals.specs.Refusals.{number_of, start_of};
ghost use Rattle.playing_line.specs.Lines.{unheld, post_words, refused_words, answer_words, line_words, InWords};

use notation_answers::answer;
use refusals::Refusal;
use text_pen::Sheet;

// "post (dash for refusal 1)"
fn post_word(sheet: &mut Sheet, post: u32, a: Result<u32, Refusal>)
    ensures { Wrote sheet.old (post_words post (unheld a)) sheet.new }
{
    match a {
        Err(Refusal::ChannelFree) => sheet.put(b" -"),
        _ => answer::named(sheet, b" ", post),
    }
}

// Kept (2): the words of 02, one space between, where desk.md's have a colon (notation_answers); each stands in its own specs.
#[tactic(auto, using(text_pen::proofs::Turns::sheets), unfolding(crate::specs::Lines::refused_words))]
fn refused(sheet: &mut Sheet, w: Refusal)
    ensures { Wrote sheet.old (refused_words (number_of w) (start_of w)) sheet.new }
{
    answer::named(sheet, b" R", refusals::refusal_number(w));
    if let Refusal::NoLabel(start) = w {
        answer::named(sheet, b" ", u32::from(start));
    }
}

fn answer_word(sheet: &mut Sheet, a: Result<u32, Refusal>)
    ensures { Wrote sheet.old (answer_words a) sheet.new × InWords a }
{
    match a {
        Ok(f) => answer::named(sheet, b" A", f),
        Err(w) => refused(sheet, w),
    }
}

// The words of a line.
pub fn words(sheet: &mut Sheet, count: u64, post: u32, a: Result<u32, Refusal>)
    ensures { Wrote sheet.old (line_words count post a) sheet.new × InWords a }
{
    text_written::put_decimal(sheet, count);
    post_word(sheet, post, a);
    answer_word(sheet, a);
    answer::line_end(sheet);
}
