// Answers in the desk's notation, and the words that they are made of: for every program that writes it. Every public function takes any input.
pub mod answer; // answer.rt: answers as text
