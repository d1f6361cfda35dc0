// A line of a script, and its answer.
use desk_batch::desk_table;
use desk_batch::desk_table::{Posts, Way};
use desk_buffers::{Bench, Fields, Output};
use notation_answers::answer;
use page_table::Interface;

// By the word that the line begins with.
// Kept (7): the steps take other arguments, so that they do not fit one table of functions.
// Kept (5): tried with room and output as one `Bench`: the borrow checker does not cover it yet ("a parameter that holds a `&mut [T]` which the caller gets
// back is passed on to a call"), but as a value made for one call.
pub fn answer<W: Way>(posts: &mut Posts<W>, line: &[u8], room: &mut [u8], output: &mut Output) {
    let e = text_lines::word_end(line, 0);
    let fields = Fields { line, at: e + 1 };
    match &line[..e] {
        b"frame" => desk_table::frame(posts, fields, Bench { room, output }),
        b"tick" => desk_table::tick(posts, fields, &mut output.sheet),
        b"setup" => desk_table::setup(posts, fields, &mut output.sheet),
        b"release" => desk_table::release(posts, fields, &mut output.sheet),
        b"batch" => desk_batch::batch(posts, fields, Bench { room, output }),
        b"record" => desk_record::show(&posts.table, fields, &mut output.sheet),
        b"refused" => desk_record::refused(&posts.table, fields, &mut output.sheet),
        b"index" => desk_record::index(&posts.table, fields, &mut output.sheet),
        b"read" => desk_codec::read(Interface::Newer, fields, Bench { room, output }),
        b"change" => desk_codec::change(Interface::Newer, fields, Bench { room, output }),
        b"write" => desk_codec::write(Interface::Newer, fields, Bench { room, output }),
        b"read1" => desk_codec::read(Interface::Older, fields, Bench { room, output }),
        b"change1" => desk_codec::change(Interface::Older, fields, Bench { room, output }),
        b"write1" => desk_codec::write(Interface::Older, fields, Bench { room, output }),
        b"logw" => desk_log::write(fields, Bench { room, output }),
        b"logr" => desk_log::read(fields, Bench { room, output }),
        b"replay" => desk_replay::replay(fields, Bench { room, output }),
        b"compare" => desk_compare::compare(fields, Bench { room, output }),
        b"probe" => desk_screen::probe(fields, &mut output.sheet),
        b"duty" => desk_screen::duty(fields, &mut output.sheet),
        b"explain" => desk_words::explain(fields, &mut output.sheet),
        _ => answer::unknown(&mut output.sheet),
    }
}
