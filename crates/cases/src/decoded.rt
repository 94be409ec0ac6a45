//! Texts with escapes, and the bytes that they stand for.
use crate::refused::numbered;
use std::test::*;
use tlcp::decode;

const ROOM: usize = 16;

// The decoded bytes are those of Python's urllib.parse.unquote_to_bytes.
#[test]
fn sound(rt: HostRuntime) -> Result<(), Fail> {
    let table: [(&[u8], &[u8]); 11] = [
        (b"", b""),
        (b"abc", b"abc"),
        (b"%41%62c", b"Abc"),
        (b"a%2cb%2Cc", b"a,b,c"),
        (b"%25", b"%"),
        (b"%2525", b"%25"),
        (b"100%25%20sure", b"100% sure"),
        (b"%00%ff%FF", b"\x00\xff\xff"),
        (b"caf%C3%A9", b"caf\xc3\xa9"),
        (b"\xff\x80%7C|", b"\xff\x80||"),
        (b"a+b %2B", b"a+b +"),
    ];
    for (i, (text, bytes)) in table.iter().enumerate() {
        let mut out = [b'?'; ROOM];
        assert_eq!(rt; decode(text, &mut out), Ok(bytes.len()), "text {i}");
        assert!(rt; out.starts_with(bytes), "text {i}");
    }
    Ok(())
}

// The place is that of the first `%` without two hexadecimal digits.
#[test]
fn unsound(rt: HostRuntime) -> Result<(), Fail> {
    let table: [(&[u8], usize); 11] = [
        (b"%", 0),
        (b"%4", 0),
        (b"ab%zz", 2),
        (b"%41%4", 3),
        (b"%%41", 0),
        (b"%4G", 0),
        (b"a%41%g1%", 4),
        (b"%:0", 0),
        (b"%@0", 0),
        (b"%0`", 0),
        (b"%/1", 0),
    ];
    for (i, (text, place)) in table.iter().enumerate() {
        let mut out = [b'?'; ROOM];
        assert_eq!(rt;
            decode(text, &mut out).map_err(numbered),
            Err((3, *place)),
            "text {i}"
        );
    }
    Ok(())
}

// What has no room is counted all the same.
#[test]
fn too_much(rt: HostRuntime) -> Result<(), Fail> {
    let mut out = [b'?'; 2];
    assert_eq!(rt; decode(b"%61bc%64", &mut out), Ok(4));
    assert_eq!(rt; out, *b"ab");
    Ok(())
}
