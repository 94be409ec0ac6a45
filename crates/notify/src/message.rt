//! What a line is to say, and whether its numbers are within their limits.
ghost use Rattle.std.specs.Prelude.{◌≡◌};
ghost use Rattle.notify.specs.Given.{saying_of, within};

use tlcp::{CODE_LIMIT, Limits, Tag};

// A `tlcp::Notification` is what was read: it has U and the items too, and texts as they stand in a
// line.
/// A message of every tag but U. Texts are given as the bytes that they mean, and may be empty;
/// item and item count are always 1. An ID is 1 to 9,999, `fields` 1 to 12, a code −999,999 to
/// 999,999, and each other number 0 to 999,999,999.
#[derive(Clone, Copy)]
pub enum Message<'a> {
    Probe,
    Sync(u32),
    Loop(u32),
    Cons(&'a [u8]),
    Servname(&'a [u8]),
    Clientip(&'a [u8]),
    Reqok(&'a [u8]),
    Unsub(u32),
    Conerr(i32, &'a [u8]),
    End(i32, &'a [u8]),
    Error(i32, &'a [u8]),
    Eos {
        id: u32,
    },
    Subok {
        id: u32,
        fields: u32,
    },
    Ov {
        id: u32,
        lost: u32,
    },
    Conf {
        id: u32,
        frequency: &'a [u8],
        filter: &'a [u8],
    },
    Reqerr {
        request: &'a [u8],
        code: i32,
        message: &'a [u8],
    },
    Conok {
        session: &'a [u8],
        limit: u32,
        keepalive: u32,
        link: &'a [u8],
    },
}

// A message's tag.
impl From<Message<'_>> for Tag {
    ghost from_gives = { λ message tag. tag ≡ (saying_of message).tag };

    fn from(message: Message<'_>) -> Tag {
        match message {
            Message::Probe => Tag::Probe,
            Message::Sync(_) => Tag::Sync,
            Message::Loop(_) => Tag::Loop,
            Message::Cons(_) => Tag::Cons,
            Message::Servname(_) => Tag::Servname,
            Message::Clientip(_) => Tag::Clientip,
            Message::Reqok(_) => Tag::Reqok,
            Message::Unsub(_) => Tag::Unsub,
            Message::Conerr(..) => Tag::Conerr,
            Message::End(..) => Tag::End,
            Message::Error(..) => Tag::Error,
            Message::Eos { .. } => Tag::Eos,
            Message::Subok { .. } => Tag::Subok,
            Message::Ov { .. } => Tag::Ov,
            Message::Conf { .. } => Tag::Conf,
            Message::Reqerr { .. } => Tag::Reqerr,
            Message::Conok { .. } => Tag::Conok,
        }
    }
}

impl Message<'_> {
    // Whether its numbers and codes are within their limits.
    pub(crate) fn is_within(self) -> bool
        ensures { result ≡ within (saying_of self.entry) }
    {
        match self {
            Message::Probe
            | Message::Cons(_)
            | Message::Servname(_)
            | Message::Clientip(_)
            | Message::Reqok(_) => true,
            Message::Sync(n) | Message::Loop(n) => Limits::COUNT.hold(n),
            Message::Unsub(id) | Message::Eos { id } | Message::Conf { id, .. } => {
                Limits::ID.hold(id)
            }
            Message::Conerr(code, _)
            | Message::End(code, _)
            | Message::Error(code, _)
            | Message::Reqerr { code, .. } => code.unsigned_abs() <= CODE_LIMIT,
            Message::Subok { id, fields } => Limits::ID.hold(id) && Limits::FIELDS.hold(fields),
            Message::Ov { id, lost } => Limits::ID.hold(id) && Limits::COUNT.hold(lost),
            Message::Conok {
                limit,
                keepalive,
                ..
            } => Limits::COUNT.hold(limit) && Limits::COUNT.hold(keepalive),
        }
    }
}
