//! Lines written, and read back.
use crate::refused::number;
use notify::{Message, write_line, write_update};
use row::{Change, FIELD_LIMIT, Mark, TEXT_LIMIT, TextRecord};
use std::process::Abort;
use std::test::*;
use tlcp::{LINE_LIMIT, Notification, Part, decode, read_line};

// Whether a part stands for these bytes.
fn is_text(part: Part<'_>, meant: &[u8]) -> bool {
    let mut out = [0u8; LINE_LIMIT];
    decode(part.bytes, &mut out) == Ok(meant.len()) && out.starts_with(meant)
}

// Whether a line was read as this message.
// A message has texts as they are meant, and what was read has them as parts of the line, so that
// no equality can be derived.
fn is_same(message: Message<'_>, says: Notification<'_>) -> bool {
    match (message, says) {
        (Message::Probe, Notification::Probe) => true,
        (Message::Sync(n), Notification::Sync(m))
        | (Message::Loop(n), Notification::Loop(m))
        | (Message::Unsub(n), Notification::Unsub(m)) => m.value == n,
        (Message::Cons(text), Notification::Cons(part))
        | (Message::Servname(text), Notification::Servname(part))
        | (Message::Clientip(text), Notification::Clientip(part))
        | (Message::Reqok(text), Notification::Reqok(part)) => is_text(part, text),
        (Message::Conerr(n, text), Notification::Conerr(code, part))
        | (Message::End(n, text), Notification::End(code, part))
        | (Message::Error(n, text), Notification::Error(code, part)) => {
            code.value == n && is_text(part, text)
        }
        _ => is_same_of_subscription(message, says) || is_same_of_request(message, says),
    }
}

// The same where arguments have names and one is a subscription's ID.
fn is_same_of_subscription(message: Message<'_>, says: Notification<'_>) -> bool {
    match (message, says) {
        (Message::Eos { id: a }, Notification::Eos { id, item }) => {
            id.value == a && item.value == 1
        }
        (Message::Subok { id: a, fields: b }, Notification::Subok { id, items, fields }) => {
            id.value == a && items.value == 1 && fields.value == b
        }
        (Message::Ov { id: a, lost: b }, Notification::Ov { id, item, lost }) => {
            id.value == a && item.value == 1 && lost.value == b
        }
        (
            Message::Conf {
                id: a,
                frequency: b,
                filter: c,
            },
            Notification::Conf {
                id,
                frequency,
                filter,
            },
        ) => { id.value == a && is_text(frequency, b) && is_text(filter, c) }
        _ => false,
    }
}

// The same where arguments have names and none is such an ID.
fn is_same_of_request(message: Message<'_>, says: Notification<'_>) -> bool {
    match (message, says) {
        (
            Message::Reqerr {
                request: a,
                code: b,
                message: c,
            },
            Notification::Reqerr {
                request,
                code,
                message,
            },
        ) => { is_text(request, a) && code.value == b && is_text(message, c) }
        (
            Message::Conok {
                session: a,
                limit: b,
                keepalive: c,
                link: d,
            },
            Notification::Conok {
                session,
                limit,
                keepalive,
                link,
            },
        ) => { is_text(session, a) && limit.value == b && keepalive.value == c && is_text(link, d) }
        _ => false,
    }
}

fn check_line(rt: &impl Abort, case: usize, message: Message<'_>, line: &[u8]) -> Result<(), Fail> {
    let mut out = [b'?'; LINE_LIMIT];
    let written = write_line(&mut out, 0, message);
    assert_eq!(rt; written, Ok(line.len()), "line {case}");
    assert!(rt; out.starts_with(line), "line {case}");
    let read = read_line(line).map_err(|_| Fail::new("not read"))?;
    assert!(rt; is_same(message, read.says), "line {case}");
    Ok(())
}

// One message of every tag but U, and its line.
#[test]
fn lines(rt: HostRuntime) -> Result<(), Fail> {
    let table: [(Message<'_>, &[u8]); 17] = [
        (Message::Probe, b"PROBE"),
        (Message::Sync(120), b"SYNC,120"),
        (Message::Loop(0), b"LOOP,0"),
        (Message::Cons(b"unlimited"), b"CONS,unlimited"),
        (Message::Servname(b"a server"), b"SERVNAME,a server"),
        (Message::Clientip(b"127.0.0.1"), b"CLIENTIP,127.0.0.1"),
        (Message::Reqok(b"7"), b"REQOK,7"),
        (Message::Unsub(3), b"UNSUB,3"),
        (
            Message::Conerr(-5, b"no, thanks"),
            b"CONERR,-5,no%2C thanks",
        ),
        (Message::End(31, b"a|b\r\n%"), b"END,31,a%7Cb%0D%0A%25"),
        (Message::Error(0, b""), b"ERROR,0,"),
        (Message::Eos { id: 3 }, b"EOS,3,1"),
        (Message::Subok { id: 3, fields: 12 }, b"SUBOK,3,1,12"),
        (
            Message::Ov {
                id: 9999,
                lost: 999_999_999,
            },
            b"OV,9999,1,999999999",
        ),
        (
            Message::Conf {
                id: 1,
                frequency: b"unlimited",
                filter: b"filtered",
            },
            b"CONF,1,unlimited,filtered",
        ),
        (
            Message::Reqerr {
                request: b"7",
                code: -999_999,
                message: b"\xc3\xa9#$^",
            },
            b"REQERR,7,-999999,%C3%A9#$^",
        ),
        (
            Message::Conok {
                session: b"S1",
                limit: 2048,
                keepalive: 5000,
                link: b"*",
            },
            b"CONOK,S1,2048,5000,*",
        ),
    ];
    for (i, (message, line)) in table.iter().enumerate() {
        check_line(&rt, i, *message, line)?;
    }
    Ok(())
}

// The number of the refusal, if there is one.
fn fault_of(message: Message<'_>) -> Option<u8> {
    let mut out = [b'?'; LINE_LIMIT];
    let written = write_line(&mut out, 0, message);
    written.err().map(number)
}

#[test]
fn limits(rt: HostRuntime) -> Result<(), Fail> {
    let table: [(Message<'_>, Option<u8>); 19] = [
        (Message::Sync(999_999_999), None),
        (Message::Sync(1_000_000_000), Some(4)),
        (Message::Loop(1_000_000_000), Some(4)),
        (Message::Unsub(0), Some(4)),
        (Message::Unsub(9999), None),
        (Message::Unsub(10_000), Some(4)),
        (Message::Conerr(1_000_000, b""), Some(4)),
        (Message::End(-1_000_000, b""), Some(4)),
        (Message::Error(999_999, b""), None),
        (Message::Error(-999_999, b""), None),
        (Message::Eos { id: 0 }, Some(4)),
        (Message::Subok { id: 1, fields: 0 }, Some(4)),
        (Message::Subok { id: 1, fields: 12 }, None),
        (Message::Subok { id: 1, fields: 13 }, Some(4)),
        (Message::Subok { id: 0, fields: 1 }, Some(4)),
        (
            Message::Ov {
                id: 1,
                lost: 1_000_000_000,
            },
            Some(4),
        ),
        (
            Message::Conf {
                id: 10_000,
                frequency: b"",
                filter: b"",
            },
            Some(4),
        ),
        (
            Message::Reqerr {
                request: b"",
                code: -1_000_000,
                message: b"",
            },
            Some(4),
        ),
        (
            Message::Conok {
                session: b"",
                limit: 0,
                keepalive: 1_000_000_000,
                link: b"",
            },
            Some(4),
        ),
    ];
    for (i, (message, number)) in table.iter().enumerate() {
        assert_eq!(rt; fault_of(*message), *number, "message {i}");
    }
    Ok(())
}

#[test]
fn lengths(rt: HostRuntime) -> Result<(), Fail> {
    let plain = [b'a'; LINE_LIMIT - 8];
    assert_eq!(rt; fault_of(Message::Servname(&plain[1..])), None);
    assert_eq!(rt; fault_of(Message::Servname(&plain)), Some(16));
    let commas = [b','; 390];
    assert_eq!(rt; fault_of(Message::Cons(&commas[1..])), None);
    assert_eq!(rt; fault_of(Message::Cons(&commas)), Some(16));
    // numbers are looked at first
    let message = Message::Conok {
        session: &plain,
        limit: 1_000_000_000,
        keepalive: 0,
        link: b"",
    };
    assert_eq!(rt; fault_of(message), Some(4));
    Ok(())
}

#[test]
fn places(rt: HostRuntime) -> Result<(), Fail> {
    let table: [(usize, Result<usize, u8>, &[u8]); 5] = [
        (0, Ok(5), b"PROBE???"),
        (2, Ok(7), b"??PROBE?"),
        (3, Ok(8), b"???PROBE"),
        (4, Err(16), b"????????"),
        (9, Err(16), b"????????"),
    ];
    for (at, end, bytes) in table.iter() {
        let mut out = [b'?'; 8];
        let written = write_line(&mut out, *at, Message::Probe);
        assert_eq!(rt; written.map_err(number), *end, "place {at}");
        assert_eq!(rt; out.as_slice(), *bytes, "place {at}");
    }
    Ok(())
}

// Twelve values of 32 bytes FF.
const LONGEST: [Change<TextRecord>; FIELD_LIMIT] = [Change {
    mark: Mark::Value,
    raw: TextRecord {
        bytes: [0xff; TEXT_LIMIT],
        len: 32,
    },
}; FIELD_LIMIT];

// The end of an update of that row, or the number of the refusal.
fn update(out: &mut [u8], id: u32, changes: usize, fields: usize) -> Result<usize, u8> {
    let delta = LONGEST;
    let written = write_update(out, 0, id, &delta[..changes.min(FIELD_LIMIT)], fields);
    written.map_err(number)
}

#[test]
fn updates(rt: HostRuntime) -> Result<(), Fail> {
    let table: [(u32, usize, usize, Result<usize, u8>); 9] = [
        (0, 11, 0, Err(1)),
        (0, 12, 0, Err(4)),
        (10_000, 12, 1, Err(4)),
        (1, 12, 0, Err(7)),
        (1, 12, 13, Err(7)),
        (1, 12, 1, Ok(102)),
        (10, 12, 2, Ok(200)),
        (9999, 12, 11, Ok(1075)),
        (9999, 12, 12, Ok(LINE_LIMIT)),
    ];
    for (i, (id, changes, fields, answer)) in table.iter().enumerate() {
        let mut out = [b'?'; LINE_LIMIT];
        assert_eq!(rt;
            update(&mut out, *id, *changes, *fields),
            *answer,
            "update {i}"
        );
    }
    Ok(())
}

#[test]
fn longest_update(rt: HostRuntime) -> Result<(), Fail> {
    let mut small = [b'?'; LINE_LIMIT - 1];
    assert_eq!(rt; update(&mut small, 9999, 12, 12), Err(16));
    let mut out = [b'?'; LINE_LIMIT];
    assert_eq!(rt; update(&mut out, 9999, 12, 12), Ok(LINE_LIMIT));
    assert!(rt; out.starts_with(b"U,9999,1,%FF%FF"));
    assert!(rt;
        out.ends_with(
            b"%FF|%FF%FF%FF%FF%FF%FF%FF%FF%FF%FF%FF%FF%FF%FF%FF%FF%FF%FF%FF%FF%FF%FF%FF%FF%FF%FF%FF%FF%FF%FF%FF%FF",
        )
    );
    Ok(())
}

// An update is read as such, its list at its place.
#[test]
fn update_read_back(rt: HostRuntime) -> Result<(), Fail> {
    // what the records of same and null fields hold is not looked at
    let same = Change {
        mark: Mark::Same,
        raw: LONGEST[0].raw,
    };
    let mut delta = [same; FIELD_LIMIT];
    delta[1].mark = Mark::Null;
    let mut out = [b'?'; 20];
    assert!(rt; write_update(&mut out, 2, 70, &delta, 8).is_ok());
    assert!(rt; out.starts_with(b"??U,70,1,|#|^6??????"));
    let line = read_line(b"U,70,1,|#|^6").map_err(|_| Fail::new("not read"))?;
    let Notification::U { id, item, values } = line.says else {
        return Err(Fail::new("another message"));
    };
    assert_eq!(rt; (id.value, item.value, values.at), (70, 1, 7));
    assert_eq!(rt; values.bytes, b"|#|^6".as_slice());
    Ok(())
}
