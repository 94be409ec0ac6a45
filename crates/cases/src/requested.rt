//! Requests, as they are read in the session with the number 1.
use crate::refused::{Numbered, numbered};
use Asked::{Add, Bind, Create, Delete, Rebind};
use requests::{REQUEST_LIMIT, Request, read_request};
use std::process::Abort;
use std::test::*;

// What a request asks for. An operation on a subscription has its ID. A `Request` holds its words
// in arrays, with bytes behind them that say nothing, so a table cannot spell one.
#[derive(Clone, Copy, PartialEq, Debug)]
enum Asked {
    Create,
    Bind,
    Add(u32),
    Delete(u32),
    Rebind,
}

type Answer = Result<Asked, Numbered>;

fn read(text: &[u8]) -> Answer {
    match read_request(text, 1) {
        Ok(Request::Create { .. }) => Ok(Create),
        Ok(Request::Bind) => Ok(Bind),
        Ok(Request::Add { subscription, .. }) => Ok(Add(subscription)),
        Ok(Request::Delete { subscription, .. }) => Ok(Delete(subscription)),
        Ok(Request::ForceRebind { .. }) => Ok(Rebind),
        Err(refusal) => Err(numbered(refusal)),
    }
}

fn read_all(rt: &impl Abort, table: &[(&[u8], Answer)]) -> Result<(), Fail> {
    for (i, (text, answer)) in table.iter().enumerate() {
        assert_eq!(rt; read(text), *answer, "request {i}");
    }
    Ok(())
}

// In any order, and with escapes anywhere in a value.
#[test]
fn accepted(rt: HostRuntime) -> Result<(), Fail> {
    read_all(
        &rt,
        &[
            (b"create_session\r\nLS_cid=a", Ok(Create)),
            (
                b"create_session\r\nLS_password=%26&LS_cid=&LS_user=u",
                Ok(Create),
            ),
            (b"bind_session\r\nLS_session=S1", Ok(Bind)),
            (b"bind_session\r\nLS_session=%531", Ok(Bind)),
            (
                b"control\r\nLS_reqId=7&LS_op=add&LS_subId=1&LS_group=t1&LS_schema=all&LS_mode=MERGE&LS_snapshot=true",
                Ok(Add(1)),
            ),
            (
                b"control\r\nLS_snapshot=true&LS_mode=MERGE&LS_schema=all&LS_group=t1&LS_subId=9999&LS_op=%61dd&LS_reqId=abcDEF12",
                Ok(Add(9999)),
            ),
            (
                b"control\r\nLS_reqId=7&LS_op=add&LS_subId=1&LS_group=t18446744073709551617&LS_schema=all&LS_mode=MERGE&LS_snapshot=true",
                Ok(Add(1)),
            ),
            (
                b"control\r\nLS_reqId=7&LS_op=delete&LS_subId=3",
                Ok(Delete(3)),
            ),
            (b"control\r\nLS_op=force_rebind&LS_reqId=%37", Ok(Rebind)),
        ],
    )
}

// The name, and the pairs one by one.
#[test]
fn shapes(rt: HostRuntime) -> Result<(), Fail> {
    read_all(
        &rt,
        &[
            (b"control", Err((2, 7))),
            (b"control\n\rLS_reqId=7", Err((2, 19))),
            (b"", Err((2, 0))),
            (b"heartbeat\r\n", Err((5, 0))),
            (
                b"Control\r\nLS_reqId=7&LS_op=add&LS_subId=1&LS_group=t1&LS_schema=all&LS_mode=MERGE&LS_snapshot=true",
                Err((5, 0)),
            ),
            (b"control\r\n", Err((2, 9))),
            (b"control\r\nLS_reqId", Err((2, 9))),
            (b"control\r\nLS_reqId=7&&LS_op=add", Err((2, 20))),
            (b"control\r\nLS_reqId=7&", Err((2, 20))),
            (b"control\r\nLS_reqId=7&LS_reqId=7", Err((6, 20))),
            (b"control\r\nLS_cid=7", Err((6, 9))),
            (b"control\r\nls_reqid=7", Err((6, 9))),
            (b"control\r\nLS_reqId=%4", Err((3, 18))),
            (b"control\r\nLS_reqId=7%zz", Err((3, 19))),
            (b"control\r\nLS_reqId=+%", Err((3, 19))),
            (b"control\r\nLS_reqId=a+b", Err((8, 18))),
            (b"control\r\nLS_reqId=a b", Err((8, 18))),
            (b"control\r\nLS_reqId=a=b", Err((8, 18))),
            (b"control\r\nLS_reqId=a+b", Err((8, 18))),
            (
                b"create_session\r\nLS_cid=+aaaaaaaaaaaaaaaaaaaaaaaaaaaaaaaaaaaaaaaaaaaaaaaaaaaaaaaaaaaaaaaaa",
                Err((8, 23)),
            ),
            (
                b"create_session\r\nLS_cid=aaaaaaaaaaaaaaaaaaaaaaaaaaaaaaaaaaaaaaaaaaaaaaaaaaaaaaaaaaaaaaaaa",
                Err((16, 0)),
            ),
        ],
    )
}

// What is missing, what is too much, and a value that is no operation, not the session, or empty.
#[test]
fn parameters(rt: HostRuntime) -> Result<(), Fail> {
    read_all(
        &rt,
        &[
            (b"create_session\r\nLS_user=u", Err((6, 25))),
            (b"control\r\nLS_reqId=7", Err((6, 19))),
            (b"control\r\nLS_op=nothing", Err((6, 22))),
            (b"control\r\nLS_reqId=7&LS_op=ADD", Err((8, 26))),
            (b"control\r\nLS_reqId=7&LS_op=delete", Err((6, 32))),
            (
                b"control\r\nLS_reqId=7&LS_op=add&LS_subId=1&LS_group=t1&LS_schema=all&LS_snapshot=true",
                Err((6, 83)),
            ),
            (
                b"control\r\nLS_schema=all&LS_reqId=7&LS_group=t1&LS_op=delete&LS_subId=1",
                Err((6, 9)),
            ),
            (
                b"control\r\nLS_reqId=7&LS_op=force_rebind&LS_subId=1",
                Err((6, 39)),
            ),
            (b"bind_session\r\nLS_session=S2", Err((8, 25))),
            (b"bind_session\r\nLS_session=S01", Err((8, 25))),
            (
                b"control\r\nLS_reqId=&LS_op=add&LS_subId=1&LS_group=t1&LS_schema=all&LS_mode=MERGE&LS_snapshot=true",
                Err((8, 18)),
            ),
        ],
    )
}

// Values that their parameters do not take, in the order in which they are looked at.
#[test]
fn values(rt: HostRuntime) -> Result<(), Fail> {
    read_all(
        &rt,
        &[
            (
                b"control\r\nLS_reqId=123456789&LS_op=add&LS_subId=1&LS_group=t1&LS_schema=all&LS_mode=MERGE&LS_snapshot=true",
                Err((8, 18)),
            ),
            (
                b"control\r\nLS_reqId=a-b&LS_op=add&LS_subId=1&LS_group=t1&LS_schema=all&LS_mode=MERGE&LS_snapshot=true",
                Err((8, 18)),
            ),
            (
                b"control\r\nLS_reqId=7&LS_op=add&LS_subId=0&LS_group=t1&LS_schema=all&LS_mode=MERGE&LS_snapshot=true",
                Err((4, 39)),
            ),
            (
                b"control\r\nLS_reqId=7&LS_op=add&LS_subId=10000&LS_group=t1&LS_schema=all&LS_mode=MERGE&LS_snapshot=true",
                Err((4, 39)),
            ),
            (
                b"control\r\nLS_reqId=7&LS_op=add&LS_subId=01&LS_group=t1&LS_schema=all&LS_mode=MERGE&LS_snapshot=true",
                Err((4, 39)),
            ),
            (
                b"control\r\nLS_reqId=7&LS_op=add&LS_subId=1&LS_group=t0&LS_schema=all&LS_mode=MERGE&LS_snapshot=true",
                Err((8, 50)),
            ),
            (
                b"control\r\nLS_reqId=7&LS_op=add&LS_subId=1&LS_group=t01&LS_schema=all&LS_mode=MERGE&LS_snapshot=true",
                Err((8, 50)),
            ),
            (
                b"control\r\nLS_reqId=7&LS_op=add&LS_subId=1&LS_group=1&LS_schema=all&LS_mode=MERGE&LS_snapshot=true",
                Err((8, 50)),
            ),
            (
                b"control\r\nLS_reqId=7&LS_op=add&LS_subId=1&LS_group=t1&LS_schema=some&LS_mode=MERGE&LS_snapshot=true",
                Err((8, 63)),
            ),
            (
                b"control\r\nLS_reqId=7&LS_op=add&LS_subId=1&LS_group=t1&LS_schema=all&LS_mode=RAW&LS_snapshot=true",
                Err((8, 75)),
            ),
            (
                b"control\r\nLS_reqId=7&LS_op=add&LS_subId=1&LS_group=t1&LS_schema=all&LS_mode=MERGE&LS_snapshot=false",
                Err((8, 93)),
            ),
            (
                b"control\r\nLS_reqId=-&LS_op=add&LS_subId=x&LS_group=t1&LS_schema=all&LS_mode=MERGE&LS_snapshot=true",
                Err((8, 18)),
            ),
            (
                b"control\r\nLS_reqId=7&LS_op=add&LS_subId=x&LS_group=tx&LS_schema=all&LS_mode=MERGE&LS_snapshot=true",
                Err((4, 39)),
            ),
        ],
    )
}

// What is too long: the request itself, or its value. The longest value is read.
#[test]
fn lengths(rt: HostRuntime) -> Result<(), Fail> {
    let mut text = [b'a'; REQUEST_LIMIT + 1];
    text[..23].copy_from_slice(b"create_session\r\nLS_cid=");
    assert_eq!(rt; read(&text), Err((16, 0)));
    assert_eq!(rt; read(&text[..REQUEST_LIMIT]), Err((16, 0)));
    assert_eq!(rt; read(&text[..23 + 64]), Ok(Create));
    assert_eq!(rt; read(&text[..23 + 65]), Err((16, 0)));
    // with a byte that does not stand in a value too: 8, and 3 for a `%` behind it
    text[23 + 65] = b'+';
    assert_eq!(rt; read(&text[..23 + 66]), Err((8, 23)));
    text[23 + 66] = b'%';
    assert_eq!(rt; read(&text[..23 + 67]), Err((3, 89)));
    Ok(())
}
