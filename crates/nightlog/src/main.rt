// The night log in a file (02, Req 01): `append` writes what standard input tells to its end, `show` prints it as desk lines, `check` counts it.
// Kept (6): fixed memory, so that all that the program reads and writes goes through buffers of a fixed length.
#![tactic(auto)]

mod say; // say.rt: what is said on standard error
mod pieces; // pieces.rt: the records of a file, piece by piece
mod zeros; // zeros.rt: zeros at a file's end
mod show; // show.rt: records as lines, and a log's ending
mod file; // file.rt: the file that is appended to
mod lines; // lines.rt: a line and its record
mod night; // night.rt: the file of a night, written and flushed
mod append; // append.rt: lines from standard input into the file

const USAGE: &[u8] =
    b"usage: nightlog append FILE < LINES; nightlog show FILE; nightlog check FILE\n";

// Kept (7): a word of the call names what is to be done, and the match is the list of these words.
fn run(rt: HostRuntime, word: &[u8], name: &[u8]) {
    match word {
        b"append" => append::from_input(rt, name),
        b"show" => show::lines(rt, name),
        b"check" => show::count(rt, name),
        _ => console::say(rt, USAGE),
    }
}

fn main(rt: HostRuntime) {
    if !console::has_words(rt, 2) {
        console::say(rt, USAGE);
        return;
    }
    let mut name = console::buffer();
    let Some(name) = console::whole_word(rt, 2, b"nightlog: FILE", &mut name) else {
        return;
    };
    let mut word = [0u8; 8];
    // A word that has no room here is none of them.
    match console::word(rt, 1, &mut word) {
        Ok(k) => run(rt, &word[..k], name),
        Err(_) => console::say(rt, USAGE),
    }
}
