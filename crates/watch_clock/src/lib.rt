// 02, Req 09: "The clock comes round." What the unrolled times of `rules` promise, of one post and of the watch: laws, and no function. Read in this order:
//   specs/Differences.antt   a list of times as received by its first time and its wrapped differences; proofs/Differences.antt has what hangs on them alone
//   specs/Moved.antt         clocks that are moved by a number; proofs/Moved.antt has one post, proofs/MovedRun.antt the watch
//   specs/Regular.antt       regular ticks; proofs/Regular.antt and RegularRun.antt have any number of them, proofs/Hourly.antt a hundred days of every hour
//   specs/Later.antt         the same event at another time, times that never fall, a record but for its times as received
// proofs/Later.antt, proofs/Rising.antt and proofs/Delayed.antt serve any law over times; proofs/Night.antt has the laws on a night that crosses the round.
