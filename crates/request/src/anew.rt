//! A request written anew by the request writer: its parameters in a fixed order, and its password
//! kept back.
ghost use Rattle.std.specs.Prelude.{◌≡◌, ℕ};
ghost use Rattle.std.specs.Option.{option_map};
ghost use Rattle.requests.specs.Answers.{request_in};
ghost use Rattle.requests.specs.Read.{word_text};
ghost use Rattle.requests.specs.Requests.{add, bind, create, delete, rebind};
ghost use Rattle.request.specs.Anew.{Anew};

use crate::numbered::numbered;
use compose::{Assignment, RequestWriter, compose};
use requests::{Form, Name, Parameter, Request, Word};
use row::Refusal;
use tlcp::Worded;

// Stands for a password.
const REDACTED: &[u8] = b"redacted";

fn create_anew(
    out: &mut [u8],
    cid: Word,
    user: Option<Word>,
    password: Option<Word>,
) -> Result<usize, Refusal>
    ensures { (session : ℕ) → Anew session
        (create (word_text cid) (option_map word_text user) (option_map word_text password))
        out.old result out.new }
{
    let mut request = RequestWriter::new(out, Name::CreateSession);
    request.add(Parameter::Cid, cid.text())?;
    if let Some(user) = user {
        request.add(Parameter::User, user.text())?;
    }
    if password.is_some() {
        request.add(Parameter::Password, REDACTED)?;
    }
    request.finish().map(|finished| finished.len)
}

fn bind_anew(out: &mut [u8], session: u32) -> Result<usize, Refusal>
    ensures { Anew session bind out.old result out.new }
{
    let name = numbered(b"S", session);
    let pairs = [Assignment::new(Parameter::Session, name.text())];
    compose(out, Name::BindSession, &pairs)
}

fn add_anew(out: &mut [u8], request: Word, subscription: u32, group: Word) -> Result<usize, Refusal>
    ensures { (session : ℕ) → Anew session
        (add (word_text request) subscription (word_text group)) out.old result out.new }
{
    let id = numbered(b"", subscription);
    let pairs = [
        Assignment::new(Parameter::RequestId, request.text()),
        Assignment::new(Parameter::Operation, Form::Add.word()),
        Assignment::new(Parameter::SubscriptionId, id.text()),
        Assignment::new(Parameter::Group, group.text()),
        Assignment::new(Parameter::Schema, b"all"),
        Assignment::new(Parameter::Mode, b"MERGE"),
        Assignment::new(Parameter::Snapshot, b"true"),
    ];
    compose(out, Name::Control, &pairs)
}

fn delete_anew(out: &mut [u8], request: Word, subscription: u32) -> Result<usize, Refusal>
    ensures { (session : ℕ) → Anew session
        (delete (word_text request) subscription) out.old result out.new }
{
    let id = numbered(b"", subscription);
    let pairs = [
        Assignment::new(Parameter::RequestId, request.text()),
        Assignment::new(Parameter::Operation, Form::Delete.word()),
        Assignment::new(Parameter::SubscriptionId, id.text()),
    ];
    compose(out, Name::Control, &pairs)
}

fn rebind_anew(out: &mut [u8], request: Word) -> Result<usize, Refusal>
    ensures { (session : ℕ) → Anew session (rebind (word_text request)) out.old result out.new }
{
    let pairs = [
        Assignment::new(Parameter::RequestId, request.text()),
        Assignment::new(Parameter::Operation, Form::ForceRebind.word()),
    ];
    compose(out, Name::Control, &pairs)
}

// Writes a request for this session into lent bytes, and answers its length.
pub(crate) fn write_anew(out: &mut [u8], request: Request, session: u32) -> Result<usize, Refusal>
    ensures { Anew session (request_in request) out.old result out.new }
{
    match request {
        Request::Create {
            cid,
            user,
            password,
        } => create_anew(out, cid, user, password),
        Request::Bind => bind_anew(out, session),
        Request::Add {
            request,
            subscription,
            group,
        } => add_anew(out, request, subscription, group),
        Request::Delete {
            request,
            subscription,
        } => delete_anew(out, request, subscription),
        Request::ForceRebind { request } => rebind_anew(out, request),
    }
}
