// How large what the pages hand on can be: a kind, a number of bytes, and the start bit that refusal 5 carries. Laws alone, without a function, for the
// proofs of those that hand it on as numbers.
