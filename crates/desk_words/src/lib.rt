// Findings and refusals in words, 01's sentences in short: the step `explain`, for the desk alone.
#![tactic(auto)]

mod asked; // asked.rt: what a line asks to be explained
mod sentence; // sentence.rt: a name with its sentence
mod findings; // findings.rt: findings in words
mod refused; // refused.rt: refusals in words

use asked::Asked;
use desk_buffers::Fields;
use notation_answers::answer;
use text_pen::Sheet;

// `explain N`, `explain R<n>`, `explain R5:<start>`
pub fn explain(fields: Fields, sheet: &mut Sheet) {
    match asked::asked_in(fields) {
        None => answer::unknown(sheet),
        Some(Asked::Findings(n)) => findings::put(sheet, n),
        Some(Asked::Refusal(n)) => refused::put(sheet, n),
        Some(Asked::Start(start)) => refused::put_start(sheet, start),
    }
}
