//! Lines that a viewer hears, and what comes of them.
use crate::refused::{Numbered, numbered};
use row::{CELL_LIMIT, Cell, Change, FIELD_LIMIT, TAP_LIMIT, TextRecord, whole_row};
use std::process::Abort;
use std::test::*;
use tlcp::{LINE_LIMIT, LIST_LIMIT, write_list};
use viewer::Heard::{Passed, Taken};
use viewer::{Heard, Viewer};

type Answer = Result<Heard, Numbered>;

// A viewer, and the memory that it is lent. `follow` has the same, but a program exports nothing.
#[derive(Drop)]
struct Listener {
    viewer: Viewer,
    cells: [Cell<TextRecord>; CELL_LIMIT],
    delta: [Change<TextRecord>; FIELD_LIMIT],
}

impl Listener {
    fn new() -> Listener {
        Listener {
            viewer: Viewer::holding([1, 2, 3, 4, 5, 6, 7, 8]),
            cells: [Cell::null(); CELL_LIMIT],
            delta: [Change::same(); FIELD_LIMIT],
        }
    }

    fn hear(&mut self, line: &[u8]) -> Answer {
        self.viewer
            .hear(line, &mut self.cells, &mut self.delta)
            .map_err(numbered)
    }

    // Checks the lent changes, written as a list of twelve.
    fn check_delta(&self, rt: &impl Abort, line: usize, list: &[u8]) -> Result<(), Fail> {
        let mut out = [b'?'; LIST_LIMIT];
        let end = write_list(&mut out, 0, &self.delta, FIELD_LIMIT);
        assert_eq!(rt; end, Ok(list.len()), "line {line}");
        assert!(rt; out.starts_with(list), "line {line}");
        Ok(())
    }

    // Checks the first fields of a tap's row, written as a list.
    fn check_row(
        &self,
        rt: &impl Abort,
        tap: usize,
        fields: usize,
        list: &[u8],
    ) -> Result<(), Fail> {
        assert!(rt; tap < TAP_LIMIT);
        let at = FIELD_LIMIT * tap;
        let mut delta = self.delta;
        let mut out = [b'?'; LIST_LIMIT];
        assert!(rt; whole_row(&self.cells[at..at + FIELD_LIMIT], &mut delta).is_ok());
        assert_eq!(rt; write_list(&mut out, 0, &delta, fields), Ok(list.len()));
        assert!(rt; out.starts_with(list));
        Ok(())
    }
}

// Hears the lines of a table one after another.
fn hear_all(rt: &impl Abort, table: &[(&[u8], Answer)]) -> Result<Listener, Fail> {
    let mut listener = Listener::new();
    for (i, (line, answer)) in table.iter().enumerate() {
        assert_eq!(rt; listener.hear(line), *answer, "line {i}");
    }
    Ok(listener)
}

#[test]
fn documented(rt: HostRuntime) -> Result<(), Fail> {
    let listener = hear_all(
        &rt,
        &[
            (b"CONOK,S73d162c183916f0dT2729905,50000,5000,*", Ok(Taken)),
            (b"SERVNAME,Lightstreamer HTTP Server", Ok(Taken)),
            (b"CLIENTIP,127.0.0.1", Ok(Taken)),
            (b"CLIENTIP,::1", Ok(Taken)),
            (b"CONS,50", Ok(Taken)),
            (b"CONS,unlimited", Ok(Taken)),
            (b"SYNC,120", Ok(Taken)),
            (b"PROBE", Ok(Taken)),
            (b"LOOP,0", Ok(Taken)),
            (b"SUBOK,3,1,10", Ok(Taken)),
            (b"SUBOK,1,1,3", Ok(Taken)),
            (b"CONF,3,3.0,filtered", Ok(Taken)),
            (b"CONF,1,unlimited,filtered", Ok(Taken)),
            (b"U,1,1,Anduct|11:02:33|3.11", Ok(Taken)),
            (b"U,1,1,|11:03:39|", Ok(Taken)),
            (b"U,1,1,|11:04:29|3.09", Ok(Taken)),
            (b"OV,3,1,5", Ok(Taken)),
            (b"EOS,3,1", Ok(Taken)),
            (b"REQOK,7", Ok(Taken)),
            (b"REQERR,7,19,Specified subscription not found", Ok(Taken)),
            (b"UNSUB,3", Ok(Taken)),
            (b"CONERR,2,Requested Adapter Set not available", Ok(Taken)),
            (b"END,31,Destroy invoked by client", Ok(Taken)),
            (b"ERROR,-5,oops", Ok(Taken)),
        ],
    )?;
    listener.check_row(&rt, 0, 3, b"Anduct|11:04:29|3.09")
}

// Lines about subscriptions that no entry fits, among others.
#[test]
fn passed(rt: HostRuntime) -> Result<(), Fail> {
    hear_all(
        &rt,
        &[
            (b"U,1,1,a", Ok(Passed)),
            (b"SUBOK,9,1,1", Ok(Passed)),
            (b"SUBOK,9999,1,12", Ok(Passed)),
            (b"UNSUB,9", Ok(Passed)),
            (b"U,9,1,%zz", Ok(Passed)),
            (b"SUBOK,2,1,1", Ok(Taken)),
            (b"UNSUB,2", Ok(Taken)),
            (b"U,2,1,a", Ok(Passed)),
            (b"SUBOK,2,1,1", Ok(Passed)),
            (b"UNSUB,2", Ok(Passed)),
            (b"EOS,9,1", Ok(Taken)),
        ],
    )?;
    Ok(())
}

#[test]
fn refused(rt: HostRuntime) -> Result<(), Fail> {
    let listener = hear_all(
        &rt,
        &[
            (b"", Err((5, 0))),
            (b"XYZ,1", Err((5, 0))),
            (b"PROBES", Err((5, 0))),
            (b"probe", Err((5, 0))),
            (b"SYNC,01", Err((4, 5))),
            (b"SYNC,-1", Err((4, 5))),
            (b"SYNC,", Err((4, 5))),
            (b"SYNC,1000000000", Err((4, 5))),
            (b"LOOP,+1", Err((4, 5))),
            (b"UNSUB,0", Err((4, 6))),
            (b"UNSUB,10000", Err((4, 6))),
            (b"EOS,1,2", Err((4, 6))),
            (b"SUBOK,1,2,1", Err((4, 8))),
            (b"ERROR,-0,x", Err((4, 6))),
            (b"ERROR,1000000,x", Err((4, 6))),
            (b"END,-1000000,x", Err((4, 4))),
            (b"REQERR,%,x,y", Err((3, 7))),
            (b"REQERR,7,x,%", Err((4, 9))),
            (b"CONS,%4", Err((3, 5))),
            (b"CLIENTIP,%3g", Err((3, 9))),
            (b"CONF,1,a,b%", Err((3, 10))),
            (b"CONOK,a,1,01,b", Err((4, 10))),
            (b"SUBOK,1,1", Err((6, 9))),
            (b"SYNC", Err((6, 4))),
            (b"PROBE,", Err((6, 6))),
            (b"CONOK,%,1,2", Err((6, 11))),
            (b"SUBOK,1,1,1,1", Err((4, 10))),
            (b"SUBOK,1,1,3", Ok(Taken)),
            (b"U,1,1", Err((6, 5))),
            (b"U,1,1,a|b", Err((7, 6))),
            (b"U,1,1,a|b|c|d", Err((7, 6))),
            (b"U,1,1,a|b|c|^zz", Err((7, 6))),
            (b"U,1,1,^2|^2", Err((7, 6))),
            (b"U,1,1,^13", Err((4, 6))),
            (b"U,1,1,a|^0|b", Err((4, 8))),
            (b"U,1,1,a|^02|b", Err((4, 8))),
            (b"U,1,1,^", Err((4, 6))),
            (b"U,1,1,ab|%zz|c", Err((3, 9))),
            (b"U,1,1,a|b|cd%2", Err((3, 12))),
        ],
    )?;
    listener.check_row(&rt, 0, 3, b"#|#|#")
}

// Numbers, rows and values at their limits.
#[test]
fn edges(rt: HostRuntime) -> Result<(), Fail> {
    let listener = hear_all(
        &rt,
        &[
            (b"SUBOK,4,1,0", Err((4, 10))),
            (b"SUBOK,4,1,12", Ok(Taken)),
            (b"SUBOK,4,1,13", Err((4, 10))),
            (b"U,4,1,^12", Ok(Taken)),
            (b"U,4,1,^11", Err((7, 6))),
            (b"U,4,1,^12|", Err((7, 6))),
            (b"U,4,1,|||||||||||", Ok(Taken)),
            (b"U,4,1,||||||||||||", Err((7, 6))),
            (b"SUBOK,8,1,1", Ok(Taken)),
            (b"U,8,1,aaaaaaaaaaaaaaaaaaaaaaaaaaaaaaaa", Ok(Taken)),
            (b"U,8,1,aaaaaaaaaaaaaaaaaaaaaaaaaaaaaaaaa", Err((8, 6))),
            // too long, and then unsound: 3 before 8
            (b"U,8,1,aaaaaaaaaaaaaaaaaaaaaaaaaaaaaaaaa%zz", Err((3, 39))),
            (
                b"U,8,1,%2C%2C%2C%2C%2C%2C%2C%2C%2C%2C%2C%2C%2C%2C%2C%2C%2C%2C%2C%2C%2C%2C%2C%2C%2C%2C%2C%2C%2C%2C%2C%2C",
                Ok(Taken),
            ),
            (
                b"U,8,1,%2c%2c%2c%2c%2c%2c%2c%2c%2c%2c%2c%2c%2c%2c%2c%2c%2c%2c%2c%2c%2c%2c%2c%2c%2c%2c%2c%2c%2c%2c%2c%2ca",
                Err((8, 6)),
            ),
            (
                b"U,4,1,^4|zzzzzzzzzzzzzzzzzzzzzzzzzzzzzzzzz|^7",
                Err((8, 9)),
            ),
            (b"SUBOK,7,1,1", Ok(Taken)),
            (b"U,7,1,#", Ok(Taken)),
            (b"U,7,1,$", Ok(Taken)),
            (b"U,7,1,##", Ok(Taken)),
            (b"U,7,1,a#$^,", Ok(Taken)),
            (b"SYNC,999999999", Ok(Taken)),
            (b"UNSUB,1", Ok(Taken)),
            (b"SUBOK,9999,1,1", Ok(Passed)),
            (b"UNSUB,9999", Ok(Passed)),
            (b"ERROR,-999999,", Ok(Taken)),
            (b"END,999999,%00", Ok(Taken)),
        ],
    )?;
    listener.check_row(&rt, 3, 12, b"#|#|#|#|#|#|#|#|#|#|#|#")?;
    listener.check_row(&rt, 6, 1, b"a#$^%2C")
}

// A row of three fields and the lent changes, line by line.
#[test]
fn rows_and_changes(rt: HostRuntime) -> Result<(), Fail> {
    let table: [(&[u8], Answer, &[u8], &[u8]); 11] = [
        (b"U,2,1,a|b|c", Ok(Passed), b"#|#|#", b"^12"),
        (b"SUBOK,2,1,3", Ok(Taken), b"#|#|#", b"^12"),
        // a place that stays same in the first update leaves the cell null
        (b"U,2,1,a|b|", Ok(Taken), b"a|b|#", b"a|b|^10"),
        // null after a value
        (b"U,2,1,#||$", Ok(Taken), b"#|b|$", b"#||$|^9"),
        (b"U,2,1,c|%zz|", Err((3, 8)), b"#|b|$", b"^12"),
        (b"U,3,1,c|c|c", Ok(Passed), b"#|b|$", b"^12"),
        (b"PROBE", Ok(Taken), b"#|b|$", b"^12"),
        // opened again, with another count
        (b"SUBOK,2,1,2", Ok(Taken), b"#|#|#", b"^12"),
        (b"U,2,1,|d", Ok(Taken), b"#|d|#", b"|d|^10"),
        (b"U,2,1,|d|", Err((7, 6)), b"#|d|#", b"^12"),
        (b"UNSUB,2", Ok(Taken), b"#|#|#", b"^12"),
    ];
    let mut listener = Listener::new();
    for (i, (line, answer, row, delta)) in table.iter().enumerate() {
        assert_eq!(rt; listener.hear(line), *answer, "line {i}");
        listener.check_delta(&rt, i, delta)?;
        listener.check_row(&rt, 1, 3, row)?;
    }
    Ok(())
}

// Lines of the longest length, and of one byte more. A CR within a line is one of its bytes.
#[test]
fn long_lines(rt: HostRuntime) -> Result<(), Fail> {
    let mut listener = Listener::new();
    let mut line = [b'a'; LINE_LIMIT + 1];
    assert_eq!(rt; listener.hear(&line[..LINE_LIMIT]), Err((5, 0)));
    assert_eq!(rt; listener.hear(&line), Err((16, 0)));
    line[..9].copy_from_slice(b"SERVNAME,");
    assert_eq!(rt; listener.hear(&line[..LINE_LIMIT]), Ok(Taken));
    assert_eq!(rt; listener.hear(&line), Err((16, 0)));
    line[LINE_LIMIT / 2] = b'\r';
    assert_eq!(rt; listener.hear(&line[..LINE_LIMIT]), Ok(Taken));
    assert_eq!(rt; listener.hear(&line), Err((16, 0)));
    Ok(())
}
