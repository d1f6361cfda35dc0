// The readings of paper 01, those of 02's requests, and frames on both sides of each edge, run through the library.
// What is printed is held to the file stdout beside src/. The readings through the watch stand in `readings_posts`, messages in words in `readings_messages`.
#![tactic(auto)]

mod changes; // changes.rt: one signal changed
mod frames; // frames.rt: frames read
mod older_frames; // older_frames.rt: frames of document 001
mod rest; // rest.rt: frames of document 000 that 01 leaves out
mod safety; // safety.rt: the safety controller
mod screen; // screen.rt: a probe and a duty, a line each
mod show; // show.rt: a frame read and a signal changed, a line each
mod write; // write.rt: messages written, a line each
mod writings; // writings.rt: messages written

use readings_messages::show::say;
use readings_messages::trips;
use readings_posts::posts;

fn codec(rt: HostRuntime) {
    frames::all(rt);
    writings::all(rt);
    changes::all(rt);
    safety::all(rt);
    older_frames::all(rt);
    rest::all(rt);
    say(
        rt,
        "read-write, write-read and one-message, run on two frames of each kind\n",
    );
    trips::all(rt);
}

fn main(rt: HostRuntime) {
    codec(rt);
    posts::all(rt);
    readings_posts::older::all(rt);
}
