//! A parameter with the value that a request gives it.
ghost use Rattle.std.specs.Prelude.{◌≡◌};
ghost use Rattle.compose.specs.Assignments.{assignment_in};
ghost use Rattle.compose.specs.Written.{assign};

use requests::Parameter;

/// A parameter and the bytes that its value stands for: `parameter=value` in a request, once the
/// value is escaped.
#[derive(Clone, Copy)]
pub struct Assignment<'a> {
    pub parameter: Parameter,
    pub value: &'a [u8],
}

impl<'a> Assignment<'a> {
    /// A parameter with this value.
    pub fn new(parameter: Parameter, value: &'a [u8]) -> Assignment<'a>
        ensures { assignment_in result ≡ assign parameter value.now }
    {
        Assignment { parameter, value }
    }
}
