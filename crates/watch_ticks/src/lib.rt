// 02, Req 12: "Ticks must not hide or invent anything." Two theorems over what stands in `rules` and `watch_rules`: laws, and no function. In this order:
//   specs/Marks.antt       a list of a post's events with and without the ticks that are put in, and what those found
//   specs/Gaps.antt        two such lists with the same kept events and the same gaps between them
//   specs/Unticked.antt    a record but for its latest time, ages and counts
//   specs/Silence.antt     a silence of the power modules while ticks come often enough, and the event that tells of it
//   specs/Answers.antt     the answers of a run of requests to a post's accepted events
// proofs/Alike.antt and proofs/Unticked.antt have the first theorem, proofs/Silence.antt the second, and proofs/Runs.antt both of the operations' own answers.
// proofs/Night.antt uses each on a night, and proofs/Needed.antt shows each premise to be needed.
