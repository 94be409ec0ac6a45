//! Plays scripts on a buffer of any kind.
use crate::sample::{Sample, Spelling, check_delta, put};
use row::{Change, FIELD_LIMIT, Fault, Refusal, Tap};
use std::alloc::Global;
use std::mem;
use std::process::Abort;
use std::test::*;
use waiting::{OverSlice, Waiting};

// Pairs of a tap and a delta, in sending order.
pub(crate) type List<'s> = &'s [(usize, Spelling<'s>)];

pub(crate) const TAKEN: Result<(), Refusal> = Ok(());

pub(crate) const FULL: Result<(), Refusal> = Err(Refusal {
    fault: Fault::Full,
    place: 0,
});

pub(crate) const NOTHING: Result<(), Refusal> = Err(Refusal {
    fault: Fault::Nothing,
    place: 0,
});

// What is done to a buffer, and what it has to answer. After each step it is looked at, and its
// pairs are counted.
#[derive(Clone, Copy)]
pub(crate) enum Act<'s> {
    Put(usize, Spelling<'s>, Result<(), Refusal>),
    // puts all of these, and each is taken
    PutAll(List<'s>),
    // puts a delta of a change too many, and it is refused
    PutLong(usize),
    Takes(usize, bool),
    DropFirst(Result<(), Refusal>),
    Forget(usize),
    // makes the other buffer hold what this one holds
    CopyOver,
    // goes on with the other buffer
    Turn,
}

// What waits in it then: what waited in it before, nothing, the same list in each kind of buffer,
// or one in a queue and another in marks.
#[derive(Clone, Copy)]
pub(crate) enum Waits<'s> {
    Still,
    Empty,
    Both(List<'s>),
    Each(List<'s>, List<'s>),
}

pub(crate) type Script<'s> = &'s [(Act<'s>, Waits<'s>)];

// How a kind lists what waits, and lays it out in its memory.
#[derive(Clone, Copy)]
pub(crate) enum Layout {
    Queue,
    // lists as a queue, and says nothing of its memory
    Ring,
    Marks,
}

impl Layout {
    fn list<'s>(self, before: List<'s>, waits: Waits<'s>) -> List<'s> {
        match waits {
            Waits::Still => before,
            Waits::Empty => &[],
            Waits::Both(list) => list,
            Waits::Each(in_queue, in_marks) => match self {
                Layout::Queue | Layout::Ring => in_queue,
                Layout::Marks => in_marks,
            },
        }
    }

    // The delta in a row of a buffer's memory, if the kind says so much: the pair in that place, or
    // that of the row's tap.
    fn row<'s>(self, list: List<'s>, i: usize) -> Option<Spelling<'s>> {
        let pair = match self {
            Layout::Queue => list.get(i),
            Layout::Ring => return None,
            Layout::Marks => list.iter().find(|(tap, _)| *tap == i.saturating_add(1)),
        };
        Some(pair.map_or(b"", |(_, text)| *text))
    }
}

// The first pair is that of the list, or there is none.
fn check_first<R: Sample, W: Waiting<R>>(
    rt: &impl Abort,
    step: usize,
    buffer: &W,
    list: List<'_>,
) -> Result<(), Fail> {
    let Some((tap, text)) = list.first() else {
        assert_eq!(rt; buffer.look().map(|_| ()), NOTHING, "step {step}");
        return Ok(());
    };
    let pair = buffer.look()?;
    assert_eq!(rt; pair.tap.number(), *tap, "step {step}");
    check_delta(rt, step, pair.delta, text)
}

// The buffer shows the first pair of the list, and its memory holds all of them; a copy of it shows
// and drops one after another, and then holds nothing.
fn check_list<'a, R: Sample, W: OverSlice<'a, R>>(
    rt: &impl Abort,
    step: usize,
    buffer: &W,
    spare: &mut W,
    layout: Layout,
    list: List<'_>,
) -> Result<(), Fail> {
    assert_eq!(rt; buffer.count(), list.len(), "step {step}");
    check_memory(rt, layout, buffer.memory(), list)?;
    check_first::<R, W>(rt, step, buffer, list)?;
    buffer.copy_to(spare);
    for i in 0..list.len() {
        check_first::<R, W>(rt, step, spare, &list[i..])?;
        assert_eq!(rt; spare.drop_first(), TAKEN, "step {step}");
    }
    check_first::<R, W>(rt, step, spare, &[])?;
    assert_eq!(rt; spare.drop_first(), NOTHING, "step {step}");
    Ok(())
}

// Puts all pairs of a list, and each is taken.
fn put_all<R: Sample, W: Waiting<R>>(
    alloc: Global,
    buffer: &mut W,
    list: List<'_>,
) -> Result<(), Fail> {
    for (tap, text) in list {
        put::<R, W>(alloc, buffer, *tap, text)??;
    }
    Ok(())
}

// A delta of more changes than a row has places is refused.
fn put_long<R: Sample, W: Waiting<R>>(
    rt: &impl Abort,
    alloc: Global,
    step: usize,
    buffer: &mut W,
    tap: Tap,
) -> Result<(), Fail> {
    let changes = vec![in alloc; Change::null(); FIELD_LIMIT + 1]?;
    assert_eq!(rt;
        buffer.put(tap, &changes),
        Err(Refusal::MEMORY),
        "step {step}"
    );
    Ok(())
}

// Does what a step says to a buffer.
fn perform<R: Sample, W: Waiting<R>>(
    rt: &impl Abort,
    alloc: Global,
    step: usize,
    act: Act<'_>,
    buffer: &mut W,
    other: &mut W,
) -> Result<(), Fail> {
    match act {
        Act::Put(tap, text, answer) => {
            assert_eq!(rt;
                put::<R, W>(alloc, buffer, tap, text)?,
                answer,
                "step {step}"
            );
        }
        Act::PutAll(list) => put_all::<R, W>(alloc, buffer, list)?,
        Act::PutLong(tap) => put_long::<R, W>(rt, alloc, step, buffer, Tap::try_from(tap)?)?,
        Act::Takes(tap, answer) => {
            assert_eq!(rt; buffer.takes(Tap::try_from(tap)?), answer, "step {step}");
        }
        Act::DropFirst(answer) => assert_eq!(rt; buffer.drop_first(), answer, "step {step}"),
        Act::Forget(tap) => buffer.forget(Tap::try_from(tap)?),
        Act::CopyOver => buffer.copy_to(other),
        Act::Turn => mem::swap(buffer, other),
    }
    Ok(())
}

// Each row of a buffer's memory holds the delta of its pair, and same where it has none, each
// change by its own record.
fn check_memory<R: Sample>(
    rt: &impl Abort,
    layout: Layout,
    changes: &[Change<R>],
    list: List<'_>,
) -> Result<(), Fail> {
    for (i, row) in changes.chunks(FIELD_LIMIT).enumerate() {
        if let Some(text) = layout.row(list, i) {
            check_delta(rt, i, row, text)?;
        }
    }
    Ok(())
}

// What is lent to the two buffers of a script, and to the spare one in which lists are read.
#[derive(Drop)]
pub(crate) struct Memory<R> {
    first: Vec<Change<R>>,
    second: Vec<Change<R>>,
    spare: Vec<Change<R>>,
}

impl<R: Sample> Memory<R> {
    pub(crate) fn new(alloc: Global, len: usize) -> Result<Memory<R>, Fail> {
        Ok(Memory {
            first: vec![in alloc; Change::null(); len]?,
            second: vec![in alloc; Change::null(); len]?,
            spare: vec![in alloc; Change::null(); len]?,
        })
    }

    // It holds what waits in the two buffers, and nothing waits in the spare one.
    pub(crate) fn check(
        &self,
        rt: &impl Abort,
        layout: Layout,
        lists: (List<'_>, List<'_>),
    ) -> Result<(), Fail> {
        check_memory(rt, layout, &self.first, lists.0)?;
        check_memory(rt, layout, &self.second, lists.1)?;
        check_memory(rt, layout, &self.spare, &[])
    }
}

// Plays a script on two buffers, the first to begin with, and answers what waits in each at the
// end: the script turns to the first again.
pub(crate) fn play<'a, 's, R: Sample, W: OverSlice<'a, R>>(
    rt: &impl Abort,
    alloc: Global,
    layout: Layout,
    memory: &'a mut Memory<R>,
    script: Script<'s>,
) -> Result<(List<'s>, List<'s>), Fail> {
    let mut first = W::new(&mut memory.first).map_err(Refusal::from)?;
    let mut second = W::new(&mut memory.second).map_err(Refusal::from)?;
    let mut spare = W::new(&mut memory.spare).map_err(Refusal::from)?;
    let mut lists: (List<'s>, List<'s>) = (&[], &[]);
    for (step, (act, waits)) in script.iter().enumerate() {
        perform::<R, W>(rt, alloc, step, *act, &mut first, &mut second)?;
        let (before, other) = match act {
            Act::CopyOver => (lists.0, lists.0),
            Act::Turn => (lists.1, lists.0),
            _ => lists,
        };
        lists = (layout.list(before, *waits), other);
        check_list::<R, W>(rt, step, &first, &mut spare, layout, lists.0)?;
    }
    Ok(lists)
}
