// What a call comes to as one word, as every crate of the C interface gives it, and what a word tells again.
#![tactic(auto)]

ghost use Rattle.std.specs.Prelude.{◌≡◌};
ghost use Rattle.plain_words.specs.Words.{refusal_word, outcome_word, outcome_of, refused_by, answer_in};

use refusals::Refusal;

// A refusal by its number, and the start bit that 5 carries: 0 of every other.
#[derive(Clone, Copy)]
pub struct Refused {
    pub number: u32,
    pub start: u32,
}

impl From<Refusal> for Refused {
    ghost from_gives = { λ w r. r ≡ refused_by w };

    fn from(w: Refusal) -> Refused {
        Refused {
            number: refusals::refusal_number(w),
            start: refusals::refusal_start(w),
        }
    }
}

// Kept (1): this is the word in which the C interface hands a refusal out (02, Req 02).
// Kept (4): no `From`, since a refusal has two numbers, this and `refusals::refusal_number`, and both types are other crates'.
pub fn refusal_word(w: Refusal) -> u32
    ensures { result ≡ refusal_word w }
{
    65536 + refusals::refusal_number(w) + 256 * refusals::refusal_start(w)
}

// The one place where a number or a refusal becomes a word: below it they are told apart by their type.
// Kept (1): the C interface hands the answer out as one word (02).
pub fn answer_word(r: Result<u32, Refusal>) -> u32
    ensures { result ≡ outcome_word (outcome_of r) }
{
    r.unwrap_or_else(refusal_word)
}

// And the one place where a word is taken apart again: of the word of an answer below 65,536 that answer, and of a refusal's its number and its start (the
// laws `answer_back` and `refusal_back`).
pub fn answer_in(word: u32) -> Result<u32, Refused>
    ensures { result ≡ answer_in word }
{
    match word.checked_sub(65536) {
        None => Ok(word),
        Some(rest) => Err(Refused {
            number: rest % 256,
            start: rest / 256,
        }),
    }
}
