//! Lines written into lent memory.
ghost use Rattle.std.specs.Prelude.{◌≡◌, true, length, OnOk};
ghost use Rattle.std.specs.List.{AllByRecursion};
ghost use Rattle.row.specs.Limits.{field_limit};
ghost use Rattle.tlcp.specs.Written.{covers};
ghost use Rattle.tlcp.specs.Lines.{word};
ghost use Rattle.std.specs.Result.{result_map_both};
ghost use Rattle.tlcp.specs.declared.tag.Tag.TheVariants.{U};
ghost use Rattle.notify.specs.Back.{LineUnbroken, LineBack, FromMemory, UpdateBack, UpdateShort};
ghost use Rattle.notify.specs.Back.{UpdateUnbroken};
ghost use Rattle.notify.specs.Given.{saying_of};
ghost use Rattle.notify.specs.Composed.{composed, drafted};
ghost use Rattle.notify.specs.Written.{line_answer, line_placed, update_answer, update_of};
ghost use Rattle.notify.specs.Written.{update_placed};

use crate::draft::Draft;
use crate::message::Message;
use row::{Change, FIELD_LIMIT, Fault, Refusal, Value};
use tlcp::{Limits, Tag, UNCOVERED, covers};

// The line of a message, composed.
fn compose(message: Message<'_>) -> Result<Draft, Refusal>
    ensures line { result_map_both drafted (λ e. e) result
        ≡ composed (word (saying_of message.entry).tag) (saying_of message.entry).given }
    ensures bytes { OnOk result (AllByRecursion FromMemory (saying_of message.entry).given) }
{
    let line = Draft::of(message.into());
    match message {
        Message::Probe => Ok(line),
        Message::Sync(n) | Message::Loop(n) | Message::Unsub(n) => line.number(n),
        Message::Cons(text)
        | Message::Servname(text)
        | Message::Clientip(text)
        | Message::Reqok(text) => line.text(text),
        Message::Conerr(code, text) | Message::End(code, text) | Message::Error(code, text) => {
            line.code(code)?.text(text)
        }
        Message::Eos { id } => line.number(id)?.number(1),
        Message::Subok { id, fields: n } | Message::Ov { id, lost: n } => {
            line.number(id)?.number(1)?.number(n)
        }
        Message::Conf {
            id,
            frequency,
            filter,
        } => line.number(id)?.text(frequency)?.text(filter),
        Message::Reqerr {
            request,
            code,
            message,
        } => line.text(request)?.code(code)?.text(message),
        Message::Conok {
            session,
            limit,
            keepalive,
            link,
        } => line
            .text(session)?
            .number(limit)?
            .number(keepalive)?
            .text(link),
    }
}

/// Writes the line of a message, without its end, from the place `at` on, and answers the place
/// behind it. Refuses with 4 a number or code beyond its limits, and with 16 a line of more than
/// 1,172 bytes or one that does not fit; the memory is then as it was.
pub fn write_line(out: &mut [u8], at: usize, message: Message<'_>) -> Result<usize, Refusal>
    ensures answer { result ≡ line_answer (saying_of message.entry) at out.old }
    ensures bytes { out.new ≡ line_placed (saying_of message.entry) at out.old }
    ensures read_back { LineBack (saying_of message.entry) }
    ensures unbroken { LineUnbroken (saying_of message.entry) }
{
    if message.is_within() {
        compose(message)?.put(out, at)
    } else {
        Err(Fault::Number.at(0))
    }
}

// The line of an update.
fn compose_update<R: Value>(id: u32, delta: &[Change<R>], fields: usize) -> Result<Draft, Refusal>
    requires whole { length delta.now ≡ field_limit }
    requires covered { covers fields ≡ true }
    ensures { result_map_both drafted (λ e. e) result
        ≡ composed (word U) (update_of R.kind id delta.now fields).given }
{
    Draft::of(Tag::U).number(id)?.number(1)?.list(delta, fields)
}

/// Writes the U line of the first `fields` fields of a delta, without its end, from the place `at`
/// on, and answers the place behind it. Refuses with 1 a delta that is not twelve changes, with 4
/// an ID that is not 1 to 9,999, with 7 a row of no or more than twelve fields, and with 16 a line
/// that does not fit; the memory is then as it was.
pub fn write_update<R: Value>(
    out: &mut [u8],
    at: usize,
    id: u32,
    delta: &[Change<R>],
    fields: usize,
) -> Result<usize, Refusal>
    ensures answer { result ≡ update_answer R.kind id delta.now fields at out.old }
    ensures bytes { out.new ≡ update_placed R.kind id delta.now fields at out.old }
    ensures read_back { UpdateBack R.kind id delta.now fields }
    ensures short { UpdateShort R.kind id delta.now fields }
    ensures unbroken { UpdateUnbroken R.kind id delta.now fields }
{
    if delta.len() != FIELD_LIMIT {
        return Err(Refusal::MEMORY);
    }
    if !Limits::ID.hold(id) {
        return Err(Fault::Number.at(0));
    }
    if !covers(fields) {
        return Err(UNCOVERED);
    }
    compose_update(id, delta, fields)?.put(out, at)
}
