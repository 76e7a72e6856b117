//! Why a request is answered by an error.
ghost use Rattle.std.specs.Prelude.{◌≡◌};
ghost use Rattle.desk_types.specs.Problem.{problem_status, problem_text};

/// Why a request is answered by an error, and the office isn't changed.
#[derive(Clone, Copy, PartialEq, Eq)]
pub enum Problem {
    /// 400: the head or the body has not the form that it must have, or the input ends in it.
    BadRequest,
    /// 404: there is no such target, or nothing there.
    NotFound,
    /// 405: the target has another method.
    WrongMethod,
    /// 411: the request has a body and doesn't say how long it is.
    NoLength,
    /// 413: the body is longer than the desk takes.
    TooLarge,
    /// 503: the office couldn't answer. The request may be sent again.
    TryAgain,
}

impl Problem {
    /// The status of the response to this problem.
    pub fn status(self) -> u16
        ensures { result ≡ problem_status self }
    {
        match self {
            Problem::BadRequest => 400,
            Problem::NotFound => 404,
            Problem::WrongMethod => 405,
            Problem::NoLength => 411,
            Problem::TooLarge => 413,
            Problem::TryAgain => 503,
        }
    }

    /// What the response to this problem says.
    pub fn text(self) -> &'static str
        ensures { result.now ≡ problem_text self }
    {
        match self {
            Problem::BadRequest => "bad request",
            Problem::NotFound => "not found",
            Problem::WrongMethod => "method",
            Problem::NoLength => "length required",
            Problem::TooLarge => "too large",
            Problem::TryAgain => "try again",
        }
    }
}
