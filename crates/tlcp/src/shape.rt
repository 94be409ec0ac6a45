//! What lines say, by the shapes that tags ask for. Each reader divides the line into as many
//! arguments as its tag has, and then reads them from left to right; the first miss is the line's
//! refusal.
ghost use Rattle.std.specs.Prelude.{◌≡◌, [], ◌∷◌};
ghost use Rattle.std.specs.Result.{result_map_both};
ghost use Rattle.std.specs.Option.{option_map};
ghost use Rattle.tlcp.specs.Lines.{arguments_of, code};
ghost use Rattle.tlcp.specs.Lines as lines;
ghost use Rattle.tlcp.specs.Said.{Tells, coding, numbering, piece_in, wording};

use crate::argument::{Code, Number};
use crate::arguments::Arguments;
use crate::line::{Notification, Part};
use crate::number::Limits;
use crate::tag::Tag;
use row::{Fault, Refusal};

impl<'a> Arguments<'a> {
    fn number(self, limits: Limits) -> Result<Number<'a>, Refusal>
        ensures { result_map_both (λ n. numbering n ∷ []) (λ e. e) result
            ≡ arguments_of (lines.number limits.low limits.high ∷ []) self.entry.end
            (option_map piece_in self.entry.left) }
    {
        let Some(part) = self.left else {
            return Err(Fault::Parts.at(self.end));
        };
        let Some(number) = part.number(limits) else {
            return Err(Fault::Number.at(part.at));
        };
        Ok(number)
    }

    fn text(self) -> Result<Part<'a>, Refusal>
        ensures { result_map_both (λ p. wording p ∷ []) (λ e. e) result
            ≡ arguments_of (lines.text ∷ []) self.entry.end (option_map piece_in self.entry.left) }
    {
        let Some(part) = self.left else {
            return Err(Fault::Parts.at(self.end));
        };
        let Some(text) = part.text() else {
            return Err(Fault::Escape.at(part.unsound()));
        };
        Ok(text)
    }

    fn code_and_text(mut self) -> Result<(Code<'a>, Part<'a>), Refusal>
        ensures { result_map_both (λ a. coding a.0 ∷ wording a.1 ∷ []) (λ e. e) result
            ≡ arguments_of (code ∷ lines.text ∷ []) self.entry.end
            (option_map piece_in self.entry.left) }
    {
        let Some(code) = self.next() else {
            return Err(Fault::Parts.at(self.end));
        };
        let Some(text) = self.left else {
            return Err(Fault::Parts.at(self.end));
        };
        let Some(code) = code.code() else {
            return Err(Fault::Number.at(code.at));
        };
        let Some(text) = text.text() else {
            return Err(Fault::Escape.at(text.unsound()));
        };
        Ok((code, text))
    }

    fn probe(self) -> Result<Notification<'a>, Refusal>
        ensures { Tells Tag.Probe self.entry.end self.entry.left result }
    {
        match self.left {
            Some(part) => Err(Fault::Parts.at(part.at)),
            None => Ok(Notification::Probe),
        }
    }

    fn eos(mut self) -> Result<Notification<'a>, Refusal>
        ensures { Tells Tag.Eos self.entry.end self.entry.left result }
    {
        let Some(id) = self.next() else {
            return Err(Fault::Parts.at(self.end));
        };
        let Some(item) = self.left else {
            return Err(Fault::Parts.at(self.end));
        };
        let Some(id) = id.number(Limits::ID) else {
            return Err(Fault::Number.at(id.at));
        };
        let Some(item) = item.number(Limits::SINGLE) else {
            return Err(Fault::Number.at(item.at));
        };
        Ok(Notification::Eos { id, item })
    }

    fn subok(mut self) -> Result<Notification<'a>, Refusal>
        ensures { Tells Tag.Subok self.entry.end self.entry.left result }
    {
        let Some(id) = self.next() else {
            return Err(Fault::Parts.at(self.end));
        };
        let Some(items) = self.next() else {
            return Err(Fault::Parts.at(self.end));
        };
        let Some(fields) = self.left else {
            return Err(Fault::Parts.at(self.end));
        };
        let Some(id) = id.number(Limits::ID) else {
            return Err(Fault::Number.at(id.at));
        };
        let Some(items) = items.number(Limits::SINGLE) else {
            return Err(Fault::Number.at(items.at));
        };
        let Some(fields) = fields.number(Limits::FIELDS) else {
            return Err(Fault::Number.at(fields.at));
        };
        Ok(Notification::Subok { id, items, fields })
    }

    fn ov(mut self) -> Result<Notification<'a>, Refusal>
        ensures { Tells Tag.Ov self.entry.end self.entry.left result }
    {
        let Some(id) = self.next() else {
            return Err(Fault::Parts.at(self.end));
        };
        let Some(item) = self.next() else {
            return Err(Fault::Parts.at(self.end));
        };
        let Some(lost) = self.left else {
            return Err(Fault::Parts.at(self.end));
        };
        let Some(id) = id.number(Limits::ID) else {
            return Err(Fault::Number.at(id.at));
        };
        let Some(item) = item.number(Limits::SINGLE) else {
            return Err(Fault::Number.at(item.at));
        };
        let Some(lost) = lost.number(Limits::COUNT) else {
            return Err(Fault::Number.at(lost.at));
        };
        Ok(Notification::Ov { id, item, lost })
    }

    fn conf(mut self) -> Result<Notification<'a>, Refusal>
        ensures { Tells Tag.Conf self.entry.end self.entry.left result }
    {
        let Some(id) = self.next() else {
            return Err(Fault::Parts.at(self.end));
        };
        let Some(frequency) = self.next() else {
            return Err(Fault::Parts.at(self.end));
        };
        let Some(filter) = self.left else {
            return Err(Fault::Parts.at(self.end));
        };
        let Some(id) = id.number(Limits::ID) else {
            return Err(Fault::Number.at(id.at));
        };
        let Some(frequency) = frequency.text() else {
            return Err(Fault::Escape.at(frequency.unsound()));
        };
        let Some(filter) = filter.text() else {
            return Err(Fault::Escape.at(filter.unsound()));
        };
        Ok(Notification::Conf {
            id,
            frequency,
            filter,
        })
    }

    fn update(mut self) -> Result<Notification<'a>, Refusal>
        ensures { Tells Tag.U self.entry.end self.entry.left result }
    {
        let Some(id) = self.next() else {
            return Err(Fault::Parts.at(self.end));
        };
        let Some(item) = self.next() else {
            return Err(Fault::Parts.at(self.end));
        };
        let Some(values) = self.left else {
            return Err(Fault::Parts.at(self.end));
        };
        let Some(id) = id.number(Limits::ID) else {
            return Err(Fault::Number.at(id.at));
        };
        let Some(item) = item.number(Limits::SINGLE) else {
            return Err(Fault::Number.at(item.at));
        };
        Ok(Notification::U { id, item, values })
    }

    fn reqerr(mut self) -> Result<Notification<'a>, Refusal>
        ensures { Tells Tag.Reqerr self.entry.end self.entry.left result }
    {
        let Some(request) = self.next() else {
            return Err(Fault::Parts.at(self.end));
        };
        let Some(code) = self.next() else {
            return Err(Fault::Parts.at(self.end));
        };
        let Some(message) = self.left else {
            return Err(Fault::Parts.at(self.end));
        };
        let Some(request) = request.text() else {
            return Err(Fault::Escape.at(request.unsound()));
        };
        let Some(code) = code.code() else {
            return Err(Fault::Number.at(code.at));
        };
        let Some(message) = message.text() else {
            return Err(Fault::Escape.at(message.unsound()));
        };
        Ok(Notification::Reqerr {
            request,
            code,
            message,
        })
    }

    fn conok(mut self) -> Result<Notification<'a>, Refusal>
        ensures { Tells Tag.Conok self.entry.end self.entry.left result }
    {
        let Some(session) = self.next() else {
            return Err(Fault::Parts.at(self.end));
        };
        let Some(limit) = self.next() else {
            return Err(Fault::Parts.at(self.end));
        };
        let Some(keepalive) = self.next() else {
            return Err(Fault::Parts.at(self.end));
        };
        let Some(link) = self.left else {
            return Err(Fault::Parts.at(self.end));
        };
        let Some(session) = session.text() else {
            return Err(Fault::Escape.at(session.unsound()));
        };
        let Some(limit) = limit.number(Limits::COUNT) else {
            return Err(Fault::Number.at(limit.at));
        };
        let Some(keepalive) = keepalive.number(Limits::COUNT) else {
            return Err(Fault::Number.at(keepalive.at));
        };
        let Some(link) = link.text() else {
            return Err(Fault::Escape.at(link.unsound()));
        };
        Ok(Notification::Conok {
            session,
            limit,
            keepalive,
            link,
        })
    }

    /// What a line with this tag says.
    pub(crate) fn says(self, tag: Tag) -> Result<Notification<'a>, Refusal>
        ensures { Tells tag self.entry.end self.entry.left result }
    {
        match tag {
            Tag::U => self.update(),
            Tag::Probe => self.probe(),
            Tag::Sync => Ok(Notification::Sync(self.number(Limits::COUNT)?)),
            Tag::Loop => Ok(Notification::Loop(self.number(Limits::COUNT)?)),
            Tag::Cons => Ok(Notification::Cons(self.text()?)),
            Tag::Servname => Ok(Notification::Servname(self.text()?)),
            Tag::Clientip => Ok(Notification::Clientip(self.text()?)),
            Tag::Reqok => Ok(Notification::Reqok(self.text()?)),
            Tag::Unsub => Ok(Notification::Unsub(self.number(Limits::ID)?)),
            Tag::Conerr => {
                let (code, message) = self.code_and_text()?;
                Ok(Notification::Conerr(code, message))
            }
            Tag::End => {
                let (code, message) = self.code_and_text()?;
                Ok(Notification::End(code, message))
            }
            Tag::Error => {
                let (code, message) = self.code_and_text()?;
                Ok(Notification::Error(code, message))
            }
            Tag::Eos => self.eos(),
            Tag::Subok => self.subok(),
            Tag::Ov => self.ov(),
            Tag::Conf => self.conf(),
            Tag::Reqerr => self.reqerr(),
            Tag::Conok => self.conok(),
        }
    }
}
