// A message's values as desk.md lists them, and the message of such values: for the steps that show a message or take one by its numbers.
#![tactic(auto)]

mod battery; // battery.rt: a battery's capacity, of 001's own messages
mod fields; // fields.rt: the other fields whose values are no raw numbers, of both interfaces
pub mod message; // message.rt: a message and its values
mod newer; // newer.rt: the values of 000's messages
mod older; // older.rt: the values of 001's messages
