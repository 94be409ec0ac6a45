//! The pairs of a request that has all that its form needs.
ghost use Rattle.std.specs.Prelude.{◌≡◌, false, None};
ghost use Rattle.tlcp.specs.Limits.{id_limit};
ghost use Rattle.tlcp.specs.Numbers.{read_number};
ghost use Rattle.std.specs.Result.{result_map_both};
ghost use Rattle.requests.specs.Answers.{request_in};
ghost use Rattle.requests.specs.Names.{needs};
ghost use Rattle.requests.specs.Read.{occurrences_in};
ghost use Rattle.requests.specs.Requests.{check_values, fitting_or, lacks, value_of};
ghost use Rattle.requests.specs.declared.name.Parameter.TheVariants.{SubscriptionId};

use crate::name::{Form, Parameter};
use crate::occurrences::Occurrences;
use crate::request::Request;
use row::Refusal;
use tlcp::{Limits, read_number};

// Pairs, and a form whose needs are among them.
#[derive(Clone, Copy)]
pub(crate) struct Whole<'a> {
    pub(crate) pairs: &'a Occurrences,
    pub(crate) form: Form,
    ghost given: { lacks (needs form) (occurrences_in pairs.now) ≡ false },
}

impl Whole<'_> {
    // Checks the values that the form needs, in their order.
    fn check(&self, session: u32) -> Result<(), Refusal>
        ensures { result
            ≡ check_values session (needs self.now.form) (occurrences_in self.now.pairs.now) }
    {
        for p in self.form.needs() {
            let pair = self.pairs.given(*p);
            if !p.fits(pair.word.text(), session) {
                return Err(p.fault().at(pair.value_at));
            }
        }
        Ok(())
    }

    // The ID of a subscription, if the value is one.
    fn subscription(&self) -> Option<u32>
        ensures { result
            ≡ read_number 1 id_limit (value_of SubscriptionId (occurrences_in self.now.pairs.now)) }
    {
        let id = self.pairs.word(Parameter::SubscriptionId)?;
        read_number(id.text(), Limits::ID)
    }

    // What the pairs ask for in the form, if it takes their values.
    pub(crate) fn request(&self, session: u32) -> Result<Request, Refusal>
        ensures { result_map_both request_in (λ e. e) result
            ≡ fitting_or session self.now.form (occurrences_in self.now.pairs.now) None }
    {
        self.check(session)?;
        let pairs = self.pairs;
        Ok(match self.form {
            Form::Create => Request::Create {
                cid: pairs.given(Parameter::Cid).word,
                user: pairs.word(Parameter::User),
                password: pairs.word(Parameter::Password),
            },
            Form::Bind => Request::Bind,
            Form::Add => Request::Add {
                request: pairs.given(Parameter::RequestId).word,
                subscription: self.subscription().unwrap(),
                group: pairs.given(Parameter::Group).word,
            },
            Form::Delete => Request::Delete {
                request: pairs.given(Parameter::RequestId).word,
                subscription: self.subscription().unwrap(),
            },
            Form::ForceRebind => Request::ForceRebind {
                request: pairs.given(Parameter::RequestId).word,
            },
        })
    }
}
