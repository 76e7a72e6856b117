//! Answers.
ghost use Rattle.std.specs.Prelude.{◌≡◌, ◌++◌, OnOk, string_bytes};
ghost use Rattle.office_script.specs.Echoes.{answer_line, is_refused};

use office_history::Answer;
use office_types::Reply;
use std::alloc::AllocError;

/// Whether the answer is a refusal: the office refused the request, now or when it came first, or its key was used for
/// another.
pub fn is_refused(answer: &Answer) -> bool
    ensures { result ≡ is_refused answer.now }
{
    match answer {
        Answer::Reply(Reply::Refused(_)) | Answer::KeyReused => true,
        Answer::Reply(_) => false,
    }
}

/// Appends the line of the answer, with the newline. The error is out of memory.
pub fn add_answer(text: &mut String, answer: &Answer) -> Result<(), AllocError>
    ensures { OnOk result (string_bytes text.new
        ≡ string_bytes text.old ++ answer_line answer.now) }
{
    match answer {
        Answer::Reply(reply) => write!(text, "{reply}\n"),
        Answer::KeyReused => write!(text, "refused 70 KeyReused\n"),
    }
}
