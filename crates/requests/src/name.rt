//! The names of requests and of their parameters.
ghost use Rattle.std.specs.Prelude.{◌≡◌, ◌<◌};
ghost use Rattle.requests.specs.Names.{name_word, parameter_word, form_word, index_of};
ghost use Rattle.requests.specs.Names.{parameter_count, parameters_of, name_of, parameter_of};
ghost use Rattle.requests.specs.Names.{first_needs, operation_of, needs, takes, is_in};

use tlcp::{Worded, first_with};

/// The name of a request, which stands before its CR LF.
#[derive(Clone, Copy, PartialEq, Eq, Debug)]
pub enum Name {
    CreateSession,
    BindSession,
    Control,
}

/// A parameter of a request, in the order in which the values of a control request are checked.
#[derive(Clone, Copy, PartialEq, Eq, Debug)]
pub enum Parameter {
    Cid,
    User,
    Password,
    Session,
    RequestId,
    Operation,
    SubscriptionId,
    Group,
    Schema,
    Mode,
    Snapshot,
}

/// How many parameters there are, over all names.
pub const PARAMETER_COUNT: usize = 11;

/// What a request asks for: its name, and of a control request its operation. By its form it is
/// known which parameters a request needs and which it may have.
#[derive(Clone, Copy, PartialEq, Eq, Debug)]
pub enum Form {
    Create,
    Bind,
    Add,
    Delete,
    ForceRebind,
}

const NAMES: [Name; 3] = [Name::CreateSession, Name::BindSession, Name::Control];

// The forms of a control request.
const OPERATIONS: [Form; 3] = [Form::Add, Form::Delete, Form::ForceRebind];

impl Worded for Name {
    ghost word_of = { name_word };

    fn word(self) -> &'static [u8] {
        match self {
            Name::CreateSession => b"create_session",
            Name::BindSession => b"bind_session",
            Name::Control => b"control",
        }
    }
}

impl Name {
    /// The name that a word stands for, byte by byte with no decoding, if it is one of the three.
    pub fn of(word: &[u8]) -> Option<Name>
        ensures { result ≡ name_of word.now }
    {
        first_with(&NAMES, word)
    }

    /// The parameters that a request of this name may have, whatever it asks for, in the order in
    /// which their values are checked.
    pub fn parameters(self) -> &'static [Parameter]
        ensures { result.now ≡ parameters_of self }
    {
        match self {
            Name::CreateSession => &[Parameter::Cid, Parameter::User, Parameter::Password],
            Name::BindSession => &[Parameter::Session],
            Name::Control => &[
                Parameter::RequestId,
                Parameter::Operation,
                Parameter::SubscriptionId,
                Parameter::Group,
                Parameter::Schema,
                Parameter::Mode,
                Parameter::Snapshot,
            ],
        }
    }

    // What any request of this name needs.
    pub(crate) fn first_needs(self) -> &'static [Parameter]
        ensures { result.now ≡ first_needs self }
    {
        match self {
            Name::CreateSession => &[Parameter::Cid],
            Name::BindSession => &[Parameter::Session],
            Name::Control => &[Parameter::RequestId, Parameter::Operation],
        }
    }
}

impl Worded for Parameter {
    ghost word_of = { parameter_word };

    fn word(self) -> &'static [u8] {
        match self {
            Parameter::Cid => b"LS_cid",
            Parameter::User => b"LS_user",
            Parameter::Password => b"LS_password",
            Parameter::Session => b"LS_session",
            Parameter::RequestId => b"LS_reqId",
            Parameter::Operation => b"LS_op",
            Parameter::SubscriptionId => b"LS_subId",
            Parameter::Group => b"LS_group",
            Parameter::Schema => b"LS_schema",
            Parameter::Mode => b"LS_mode",
            Parameter::Snapshot => b"LS_snapshot",
        }
    }
}

impl Parameter {
    /// The parameter of a name that a word stands for, byte by byte with no decoding, if it is one
    /// of that name's.
    pub fn of(name: Name, word: &[u8]) -> Option<Parameter>
        ensures { result ≡ parameter_of name word.now }
    {
        first_with(name.parameters(), word)
    }

    /// The place of a parameter among all, below `PARAMETER_COUNT`: what is kept for each parameter
    /// stands in an array by it.
    pub fn index(self) -> usize
        ensures value { result ≡ index_of self }
        ensures bound { result < parameter_count }
    {
        self as usize
    }
}

// The word by which a request asks for a form: its operation's, or its name's where that has one
// form only.
impl Worded for Form {
    ghost word_of = { form_word };

    fn word(self) -> &'static [u8] {
        match self {
            Form::Create => Name::CreateSession.word(),
            Form::Bind => Name::BindSession.word(),
            Form::Add => b"add",
            Form::Delete => b"delete",
            Form::ForceRebind => b"force_rebind",
        }
    }
}

impl Form {
    // The operation of a control request that a word stands for, if it is one.
    pub(crate) fn of_operation(word: &[u8]) -> Option<Form>
        ensures { result ≡ operation_of word.now }
    {
        first_with(&OPERATIONS, word)
    }

    // What it needs, in the order in which values are checked.
    pub(crate) fn needs(self) -> &'static [Parameter]
        ensures { result.now ≡ needs self }
    {
        match self {
            Form::Create => Name::CreateSession.first_needs(),
            Form::Bind => Name::BindSession.parameters(),
            Form::Add => Name::Control.parameters(),
            Form::Delete => &[
                Parameter::RequestId,
                Parameter::Operation,
                Parameter::SubscriptionId,
            ],
            Form::ForceRebind => Name::Control.first_needs(),
        }
    }

    // What it may have.
    pub(crate) fn takes(self) -> &'static [Parameter]
        ensures { result.now ≡ takes self }
    {
        match self {
            Form::Create => Name::CreateSession.parameters(),
            _ => self.needs(),
        }
    }
}

/// Whether a parameter is one of these.
pub fn is_in(parameter: Parameter, some: &[Parameter]) -> bool
    ensures { result ≡ is_in parameter some.now }
{
    some.contains(&parameter)
}
