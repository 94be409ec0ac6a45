//! Requests, written by the viewer.
use crate::refused::numbered;
use compose::{Assignment, RequestWriter, compose};
use requests::{Name, Parameter};
use row::Refusal;
use std::process::Abort;
use std::test::*;

// A value of the longest length, and one of a byte more.
const LONGEST: &[u8] = b"0123456789abcdef0123456789abcdef0123456789abcdef0123456789abcdef";

const TOO_LONG: &[u8] = b"0123456789abcdef0123456789abcdef0123456789abcdef0123456789abcdef!";

fn are_all(bytes: &[u8], b: u8) -> bool {
    bytes.iter().all(|x| *x == b)
}

// The request stands in the bytes, and zeros behind it.
fn check_bytes(
    rt: &impl Abort,
    out: &[u8],
    answer: Result<usize, Refusal>,
    text: &[u8],
) -> Result<(), Fail> {
    assert_eq!(rt; answer, Ok(text.len()));
    assert!(rt; out.starts_with(text));
    assert!(rt; out.iter().skip(text.len()).all(|b| *b == 0));
    Ok(())
}

// Refused with this number, and with place 0.
fn check_fault(rt: &impl Abort, answer: Result<usize, Refusal>, number: u8) -> Result<(), Fail> {
    assert_eq!(rt; answer.map_err(numbered), Err((number, 0)));
    Ok(())
}

fn check_request(
    rt: &impl Abort,
    name: Name,
    pairs: &[Assignment<'_>],
    text: &[u8],
) -> Result<(), Fail> {
    let mut out = [b'?'; 300];
    let answer = compose(&mut out, name, pairs);
    check_bytes(rt, &out, answer, text)
}

#[test]
fn requests(rt: HostRuntime) -> Result<(), Fail> {
    check_request(
        &rt,
        Name::BindSession,
        &[Assignment::new(Parameter::Session, b"S1")],
        b"bind_session\r\nLS_session=S1",
    )?;
    check_request(
        &rt,
        Name::Control,
        &[
            Assignment::new(Parameter::RequestId, b"r1"),
            Assignment::new(Parameter::Operation, b"add"),
            Assignment::new(Parameter::SubscriptionId, b"1"),
            Assignment::new(Parameter::Group, b"t1"),
            Assignment::new(Parameter::Schema, b"all"),
            Assignment::new(Parameter::Mode, b"MERGE"),
            Assignment::new(Parameter::Snapshot, b"true"),
        ],
        b"control\r\nLS_reqId=r1&LS_op=add&LS_subId=1&LS_group=t1&LS_schema=all&LS_mode=MERGE&LS_snapshot=true",
    )
}

// All but unreserved bytes are escaped, also where they mean something in a request.
#[test]
fn escaped_values(rt: HostRuntime) -> Result<(), Fail> {
    check_request(
        &rt,
        Name::CreateSession,
        &[
            Assignment::new(Parameter::Cid, b"az09-._~"),
            Assignment::new(Parameter::Password, b" &=%\xff/+"),
        ],
        b"create_session\r\nLS_cid=az09-._~&LS_password=%20%26%3D%25%FF%2F%2B",
    )
}

// A request that its last pair spoils leaves only zeros.
fn check_left(
    rt: &impl Abort,
    out: &mut [u8],
    pairs: &[Assignment<'_>],
    number: u8,
) -> Result<(), Fail> {
    out.fill(b'?');
    let answer = compose(out, Name::CreateSession, pairs);
    check_fault(rt, answer, number)?;
    assert!(rt; are_all(out, 0));
    Ok(())
}

#[test]
fn refused_pairs(rt: HostRuntime) -> Result<(), Fail> {
    let password = Assignment::new(Parameter::Password, b"secret");
    let mut out = [0u8; 300];
    check_left(&rt, &mut out, &[password, password], 6)?;
    check_left(
        &rt,
        &mut out,
        &[password, Assignment::new(Parameter::Mode, b"MERGE")],
        6,
    )?;
    check_left(
        &rt,
        &mut out,
        &[password, Assignment::new(Parameter::User, TOO_LONG)],
        16,
    )?;
    check_left(&rt, &mut [0u8; 33], &[password], 16)?;
    check_left(
        &rt,
        &mut [0u8; 42],
        &[password, Assignment::new(Parameter::Cid, b"c")],
        16,
    )
}

// Bytes that are too few for the name stay as they were.
#[test]
fn refused_name(rt: HostRuntime) -> Result<(), Fail> {
    let mut out = [b'?'; 15];
    check_fault(&rt, compose(&mut out, Name::CreateSession, &[]), 16)?;
    assert!(rt; are_all(&out, b'?'));
    Ok(())
}

// Refused pairs change nothing, and the request goes on.
#[test]
fn pairs_between_refusals(rt: HostRuntime) -> Result<(), Fail> {
    let mut out = [b'?'; 120];
    let mut request = RequestWriter::new(&mut out, Name::CreateSession);
    assert!(rt; request.add(Parameter::Cid, LONGEST).is_ok());
    assert!(rt; request.add(Parameter::Cid, b"c").is_err());
    assert!(rt; request.add(Parameter::Session, b"S1").is_err());
    assert!(rt; request.add(Parameter::User, TOO_LONG).is_err());
    assert!(rt; request.add(Parameter::User, LONGEST).is_err());
    assert!(rt; request.add(Parameter::User, b"u").is_ok());
    let answer = request.finish().map(|finished| finished.len);
    check_bytes(
        &rt,
        &out,
        answer,
        b"create_session\r\nLS_cid=0123456789abcdef0123456789abcdef0123456789abcdef0123456789abcdef&LS_user=u",
    )
}

// A name that does not fit refuses each call, also a pair that is none of the name's, and the bytes
// stay as they were.
#[test]
fn name_without_room(rt: HostRuntime) -> Result<(), Fail> {
    let mut out = [b'?'; 15];
    let mut request = RequestWriter::new(&mut out, Name::CreateSession);
    assert_eq!(rt;
        request.add(Parameter::Mode, b"c").map_err(numbered),
        Err((16, 0))
    );
    let answer = request.finish().map(|finished| finished.len);
    check_fault(&rt, answer, 16)?;
    assert!(rt; are_all(&out, b'?'));
    Ok(())
}

// A request without a pair is none, and leaves only zeros.
#[test]
fn no_pair(rt: HostRuntime) -> Result<(), Fail> {
    let mut out = [b'?'; 16];
    let request = RequestWriter::new(&mut out, Name::CreateSession);
    let answer = request.finish().map(|finished| finished.len);
    check_fault(&rt, answer, 6)?;
    assert!(rt; are_all(&out, 0));
    Ok(())
}

// A request that is dropped before it is finished leaves only zeros.
#[test]
fn half_made(rt: HostRuntime) -> Result<(), Fail> {
    let mut out = [b'?'; 64];
    {
        let mut request = RequestWriter::new(&mut out, Name::CreateSession);
        assert!(rt; request.add(Parameter::Password, b"secret").is_ok());
    }
    assert!(rt; are_all(&out, 0));
    Ok(())
}

fn login(out: &mut [u8], password: &[u8]) -> Result<usize, Refusal> {
    compose(
        out,
        Name::CreateSession,
        &[
            Assignment::new(Parameter::Cid, b"c"),
            Assignment::new(Parameter::User, b"u"),
            Assignment::new(Parameter::Password, password),
        ],
    )
}

// A login that is refused leaves nothing of the one before.
#[test]
fn logins(rt: HostRuntime) -> Result<(), Fail> {
    let mut out = [b'?'; 70];
    let answer = login(&mut out, b"p w&=%\xff");
    check_bytes(
        &rt,
        &out,
        answer,
        b"create_session\r\nLS_cid=c&LS_user=u&LS_password=p%20w%26%3D%25%FF",
    )?;
    check_fault(&rt, login(&mut out, TOO_LONG), 16)?;
    assert!(rt; are_all(&out, 0));
    Ok(())
}
