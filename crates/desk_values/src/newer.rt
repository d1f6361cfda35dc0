// The values of 000's messages. 004's are its messages too.
use crate::fields;
use crate::message::{Listed, MOST};
use message_types::{CUI, Message, SECC, SPCC, STATUS};

impl Listed for Message {
    fn kind(self) -> usize {
        message_types::kind_of(self)
    }

    // Of every message but these the values are its raw numbers.
    // Kept (7): a message's case is what its enum is for.
    fn fields(self) -> [i64; MOST] {
        match self {
            Message::Status(s) => fields::of_status(s),
            Message::Cui(s) => fields::of_cui(s),
            Message::Secc(s) => fields::of_secc(s),
            Message::Spcc(s) => fields::of_spcc(s),
            _ => message_take::raws(self),
        }
    }

    fn built(kind: usize, f: [i64; MOST]) -> Self {
        match kind {
            STATUS => Message::Status(fields::status(f)),
            CUI => Message::Cui(fields::cui(f)),
            SECC => Message::Secc(fields::secc(f)),
            SPCC => Message::Spcc(fields::spcc(f)),
            _ => message_build::built(kind, f),
        }
    }
}
