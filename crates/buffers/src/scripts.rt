//! Runs of each kind of buffer, with each kind of value.
use crate::player::Act::{CopyOver, DropFirst, Forget, Put, PutAll, PutLong, Takes, Turn};
use crate::player::Waits::{Both, Each, Empty, Still};
use crate::player::{FULL, Layout, Memory, NOTHING, Script, TAKEN, play};
use crate::ring::Ring;
use crate::sample::Sample;
use crate::single::Single;
use row::{CELL_LIMIT, Change, FIELD_LIMIT, LogicRecord, Mark, TextRecord};
use std::alloc::Global;
use std::process::Abort;
use std::test::*;
use waiting::{Marks, OverSlice, PAIR_LIMIT, QUEUE_LIMIT, Queue, Waiting};

// Plays a script on buffers of a kind, and looks at the memory that they leave.
fn play_queue_of<R: Sample>(
    rt: &impl Abort,
    alloc: Global,
    script: Script<'_>,
) -> Result<(), Fail> {
    let mut memory = Memory::new(alloc, QUEUE_LIMIT)?;
    let lists = play::<R, Queue<'_, R>>(rt, alloc, Layout::Queue, &mut memory, script)?;
    memory.check(rt, Layout::Queue, lists)
}

fn play_ring_of<R: Sample>(rt: &impl Abort, alloc: Global, script: Script<'_>) -> Result<(), Fail> {
    let mut memory = Memory::new(alloc, QUEUE_LIMIT)?;
    let lists = play::<R, Ring<'_, R>>(rt, alloc, Layout::Ring, &mut memory, script)?;
    memory.check(rt, Layout::Ring, lists)
}

// A ring lists what waits as a queue does.
fn play_queue(rt: &impl Abort, alloc: Global, script: Script<'_>) -> Result<(), Fail> {
    play_queue_of::<TextRecord>(rt, alloc, script)?;
    play_queue_of::<LogicRecord>(rt, alloc, script)?;
    play_ring_of::<TextRecord>(rt, alloc, script)?;
    play_ring_of::<LogicRecord>(rt, alloc, script)
}

fn play_marks_of<R: Sample>(
    rt: &impl Abort,
    alloc: Global,
    script: Script<'_>,
) -> Result<(), Fail> {
    let mut memory = Memory::new(alloc, CELL_LIMIT)?;
    let lists = play::<R, Marks<'_, R>>(rt, alloc, Layout::Marks, &mut memory, script)?;
    memory.check(rt, Layout::Marks, lists)
}

fn play_marks(rt: &impl Abort, alloc: Global, script: Script<'_>) -> Result<(), Fail> {
    play_marks_of::<TextRecord>(rt, alloc, script)?;
    play_marks_of::<LogicRecord>(rt, alloc, script)
}

// A single lists and lays out what waits as a queue of one pair does.
fn play_single_of<R: Sample>(
    rt: &impl Abort,
    alloc: Global,
    script: Script<'_>,
) -> Result<(), Fail> {
    let mut memory = Memory::new(alloc, FIELD_LIMIT)?;
    let lists = play::<R, Single<'_, R>>(rt, alloc, Layout::Queue, &mut memory, script)?;
    memory.check(rt, Layout::Queue, lists)
}

fn play_single(rt: &impl Abort, alloc: Global, script: Script<'_>) -> Result<(), Fail> {
    play_single_of::<TextRecord>(rt, alloc, script)?;
    play_single_of::<LogicRecord>(rt, alloc, script)
}

fn play_both(rt: &impl Abort, alloc: Global, script: Script<'_>) -> Result<(), Fail> {
    play_queue(rt, alloc, script)?;
    play_marks(rt, alloc, script)
}

// Memory of each length that is not the kind's is refused, and left as it was.
fn check_lengths<R: Sample>(rt: &impl Abort, alloc: Global) -> Result<(), Fail> {
    for len in [
        0,
        FIELD_LIMIT - 1,
        FIELD_LIMIT + 1,
        CELL_LIMIT - 1,
        CELL_LIMIT + 1,
        QUEUE_LIMIT - 1,
        QUEUE_LIMIT + 1,
    ] {
        let mut changes = vec![in alloc; Change::<R>::null(); len]?;
        assert!(rt; Queue::new(&mut changes).is_err(), "{len} changes");
        assert!(rt; Marks::new(&mut changes).is_err(), "{len} changes");
        assert!(rt; Ring::new(&mut changes).is_err(), "{len} changes");
        assert!(rt; Single::new(&mut changes).is_err(), "{len} changes");
        assert!(rt;
            changes.iter().all(|change| change.mark == Mark::Null),
            "{len} changes"
        );
    }
    Ok(())
}

// A buffer takes memory of its own kind's length alone.
fn check_places<R: Sample>(rt: &impl Abort, alloc: Global) -> Result<(), Fail> {
    for len in [FIELD_LIMIT, CELL_LIMIT, QUEUE_LIMIT] {
        let mut changes = vec![in alloc; Change::<R>::null(); len]?;
        assert_eq!(rt;
            Queue::new(&mut changes).is_ok(),
            len == Queue::<R>::places()
        );
        assert_eq!(rt;
            Marks::new(&mut changes).is_ok(),
            len == Marks::<R>::places()
        );
        assert_eq!(rt; Ring::new(&mut changes).is_ok(), len == Ring::<R>::places());
        assert_eq!(rt;
            Single::new(&mut changes).is_ok(),
            len == Single::<R>::places()
        );
    }
    Ok(())
}

#[test]
fn memory_of_other_lengths(rt: HostRuntime) -> Result<(), Fail> {
    check_lengths::<TextRecord>(&rt, rt.alloc())?;
    check_lengths::<LogicRecord>(&rt, rt.alloc())?;
    check_places::<LogicRecord>(&rt, rt.alloc())
}

// To several taps, and to one again: joined in marks.
#[test]
fn puts(rt: HostRuntime) -> Result<(), Fail> {
    play_both(
        &rt,
        rt.alloc(),
        &[
            (Takes(1, true), Empty),
            (Put(2, b"0", TAKEN), Both(&[(2, b"0")])),
            (
                Put(1, b"x.#", TAKEN),
                Each(&[(2, b"0"), (1, b"x.#")], &[(1, b"x.#"), (2, b"0")]),
            ),
            (
                Put(2, b"1.$", TAKEN),
                Each(
                    &[(2, b"0"), (1, b"x.#"), (2, b"1.$")],
                    &[(1, b"x.#"), (2, b"1.$")],
                ),
            ),
            (
                Put(2, b"#2", TAKEN),
                Each(
                    &[(2, b"0"), (1, b"x.#"), (2, b"1.$"), (2, b"#2")],
                    &[(1, b"x.#"), (2, b"#2$")],
                ),
            ),
            (
                Put(8, b"...........z", TAKEN),
                Each(
                    &[
                        (2, b"0"),
                        (1, b"x.#"),
                        (2, b"1.$"),
                        (2, b"#2"),
                        (8, b"...........z"),
                    ],
                    &[(1, b"x.#"), (2, b"#2$"), (8, b"...........z")],
                ),
            ),
            (Put(5, b"............", TAKEN), Still),
            (Put(2, b"", TAKEN), Still),
            (PutLong(3), Still),
            (Takes(3, true), Still),
        ],
    )
}

// The same and null changes of a put hold another record, or a value's record is not sound.
#[test]
fn records(rt: HostRuntime) -> Result<(), Fail> {
    play_both(
        &rt,
        rt.alloc(),
        &[
            (Put(1, b",!?", TAKEN), Both(&[(1, b".#$")])),
            (Put(1, b",,,", TAKEN), Still),
            (Put(2, b"0,1!", TAKEN), Both(&[(1, b".#$"), (2, b"0.1#")])),
            (
                Put(1, b"!,x", TAKEN),
                Each(
                    &[(1, b".#$"), (2, b"0.1#"), (1, b"#.x")],
                    &[(1, b"##x"), (2, b"0.1#")],
                ),
            ),
            (
                Put(2, b",?", TAKEN),
                Each(
                    &[(1, b".#$"), (2, b"0.1#"), (1, b"#.x"), (2, b".$")],
                    &[(1, b"##x"), (2, b"0$1#")],
                ),
            ),
        ],
    )
}

// Down to an empty buffer.
#[test]
fn drops_and_forgets(rt: HostRuntime) -> Result<(), Fail> {
    play_both(
        &rt,
        rt.alloc(),
        &[
            (DropFirst(NOTHING), Empty),
            (
                PutAll(&[(3, b"0"), (5, b"1"), (3, b".x"), (1, b"z"), (3, b"..#")]),
                Each(
                    &[(3, b"0"), (5, b"1"), (3, b".x"), (1, b"z"), (3, b"..#")],
                    &[(1, b"z"), (3, b"0x#"), (5, b"1")],
                ),
            ),
            (Forget(4), Still),
            (
                Forget(3),
                Each(&[(5, b"1"), (1, b"z")], &[(1, b"z"), (5, b"1")]),
            ),
            (Forget(3), Still),
            (
                Put(3, b"2", TAKEN),
                Each(
                    &[(5, b"1"), (1, b"z"), (3, b"2")],
                    &[(1, b"z"), (3, b"2"), (5, b"1")],
                ),
            ),
            (
                DropFirst(TAKEN),
                Each(&[(1, b"z"), (3, b"2")], &[(3, b"2"), (5, b"1")]),
            ),
            (DropFirst(TAKEN), Each(&[(3, b"2")], &[(5, b"1")])),
            (DropFirst(TAKEN), Empty),
            (DropFirst(NOTHING), Still),
            (Forget(1), Still),
        ],
    )
}

// Both buffers go on, each in its own way.
#[test]
fn copies(rt: HostRuntime) -> Result<(), Fail> {
    play_both(
        &rt,
        rt.alloc(),
        &[
            (
                PutAll(&[(2, b"0"), (1, b"1"), (2, b".x")]),
                Each(
                    &[(2, b"0"), (1, b"1"), (2, b".x")],
                    &[(1, b"1"), (2, b"0x")],
                ),
            ),
            (CopyOver, Still),
            (
                DropFirst(TAKEN),
                Each(&[(1, b"1"), (2, b".x")], &[(2, b"0x")]),
            ),
            (
                Put(4, b"z", TAKEN),
                Each(
                    &[(1, b"1"), (2, b".x"), (4, b"z")],
                    &[(2, b"0x"), (4, b"z")],
                ),
            ),
            (
                Turn,
                Each(
                    &[(2, b"0"), (1, b"1"), (2, b".x")],
                    &[(1, b"1"), (2, b"0x")],
                ),
            ),
            (
                Put(2, b"#", TAKEN),
                Each(
                    &[(2, b"0"), (1, b"1"), (2, b".x"), (2, b"#")],
                    &[(1, b"1"), (2, b"#x")],
                ),
            ),
            (
                Forget(1),
                Each(&[(2, b"0"), (2, b".x"), (2, b"#")], &[(2, b"#x")]),
            ),
            (
                Turn,
                Each(
                    &[(1, b"1"), (2, b".x"), (4, b"z")],
                    &[(2, b"0x"), (4, b"z")],
                ),
            ),
            (Forget(2), Each(&[(1, b"1"), (4, b"z")], &[(4, b"z")])),
            (CopyOver, Still),
            (Turn, Each(&[(1, b"1"), (4, b"z")], &[(4, b"z")])),
            (Turn, Still),
        ],
    )
}

// With as many pairs as it takes, and a pair more when one is gone.
#[test]
fn full_queue(rt: HostRuntime) -> Result<(), Fail> {
    let pairs: [(usize, &[u8]); PAIR_LIMIT + 1] = [
        (1, b"0"),
        (2, b"1"),
        (3, b"x"),
        (4, b"z"),
        (5, b"2"),
        (6, b"#"),
        (7, b"$"),
        (8, b".0"),
        (1, b".1"),
        (3, b".x"),
        (3, b".z"),
        (4, b".2"),
        (5, b".#"),
        (6, b".$"),
        (7, b"..0"),
        (8, b"..1"),
        (1, b"#"),
    ];
    play_queue(
        &rt,
        rt.alloc(),
        &[
            (
                PutAll(&pairs[..PAIR_LIMIT - 1]),
                Both(&pairs[..PAIR_LIMIT - 1]),
            ),
            (Takes(1, true), Still),
            (Put(8, b"..1", TAKEN), Both(&pairs[..PAIR_LIMIT])),
            (Takes(1, false), Still),
            (Put(1, b"0", FULL), Still),
            (Put(1, b"", FULL), Still),
            (PutLong(1), Still),
            (DropFirst(TAKEN), Both(&pairs[1..PAIR_LIMIT])),
            (Takes(1, true), Still),
            (Put(1, b"#", TAKEN), Both(&pairs[1..])),
            (Put(3, b"0", FULL), Still),
            (Forget(2), Both(&pairs[2..])),
            (Takes(1, true), Still),
            (
                Forget(3),
                Both(&[
                    (4, b"z"),
                    (5, b"2"),
                    (6, b"#"),
                    (7, b"$"),
                    (8, b".0"),
                    (1, b".1"),
                    (4, b".2"),
                    (5, b".#"),
                    (6, b".$"),
                    (7, b"..0"),
                    (8, b"..1"),
                    (1, b"#"),
                ]),
            ),
        ],
    )
}

// Marks take as many puts as they are given, and list each tap once.
#[test]
fn marks_are_never_full(rt: HostRuntime) -> Result<(), Fail> {
    play_marks(
        &rt,
        rt.alloc(),
        &[
            (
                PutAll(&[
                    (1, b"0"),
                    (2, b"1"),
                    (3, b"x"),
                    (4, b"z"),
                    (5, b"2"),
                    (6, b"#"),
                    (7, b"$"),
                    (8, b".0"),
                    (1, b".1"),
                    (2, b".x"),
                    (3, b".z"),
                    (4, b".2"),
                    (5, b".#"),
                    (6, b".$"),
                    (7, b"..0"),
                    (8, b"..1"),
                    (1, b"#"),
                ]),
                Both(&[
                    (1, b"#1"),
                    (2, b"1x"),
                    (3, b"xz"),
                    (4, b"z2"),
                    (5, b"2#"),
                    (6, b"#$"),
                    (7, b"$.0"),
                    (8, b".01"),
                ]),
            ),
            (Takes(1, true), Still),
        ],
    )
}

// A second pair is refused, of the same tap too, until the first is gone.
#[test]
fn single(rt: HostRuntime) -> Result<(), Fail> {
    play_single(
        &rt,
        rt.alloc(),
        &[
            (Takes(1, true), Empty),
            (DropFirst(NOTHING), Still),
            (Put(3, b"", TAKEN), Still),
            (Put(3, b"0,?", TAKEN), Both(&[(3, b"0.$")])),
            (Takes(3, false), Still),
            (Put(3, b".1", FULL), Still),
            (Put(4, b"", FULL), Still),
            (PutLong(4), Still),
            (Forget(4), Still),
            (CopyOver, Still),
            (Forget(3), Empty),
            (Put(8, b"#", TAKEN), Both(&[(8, b"#")])),
            (Turn, Both(&[(3, b"0.$")])),
            (DropFirst(TAKEN), Empty),
            (DropFirst(NOTHING), Still),
            (Turn, Both(&[(8, b"#")])),
        ],
    )
}
