// The table of posts and the session watch, by value: what users of the library call, each under one name. Every operation takes any input.
// Its promises stand with it in the crate named here, and what they speak of in `watch_rules`.
pub use watch_feed::{frame, tick};
pub use watch_look::{look_up, refused};
pub use watch_settings::{empty, release, set_up, set_up_plain};
