//! The answer in a response.
ghost use Rattle.std.specs.Prelude.{◌≡◌, ◌↔◌, IfOk, IfSome, IsTrue, Some};
ghost use Rattle.office_history.specs.declared.arrival.Answer.{Answer as AnswerModel};
ghost use Rattle.desk_reply.specs.Reply.{answer_status};
ghost use Rattle.desk_send.specs.Answer.{IsAnswer, IsWritten};

use crate::reading::answer_at;
use desk_reply::answer_text;
use office_history::Answer;
use office_types::{Refusal, Reply};
use std::alloc::{AllocError, Global};

fn answer_status(answer: &Answer) -> u16
    ensures { result ≡ answer_status answer.now }
{
    match answer {
        Answer::Reply(Reply::Refused(Refusal::NoNet)) => 404,
        Answer::Reply(Reply::Refused(_)) | Answer::KeyReused => 409,
        Answer::Reply(_) => 200,
    }
}

/// Whether a desk writes the answer so.
fn is_written(alloc: Global, status: u16, body: &[u8], answer: &Answer) -> Result<bool, AllocError>
    ensures { IfOk result (λ is. IsTrue is ↔ IsWritten status body.now answer.now) }
{
    let text = answer_text(alloc, answer)?;
    Ok(status == answer_status(answer) && text.as_bytes() == body)
}

/// The answer that a desk writes by a response of this status with this body, or `None` where it writes no answer so,
/// as `{"error":"not found"}`. The error is out of memory.
#[tactic(auto, using(crate::proofs::AnswersBack::is_found, crate::proofs::AnswersBack::is_unlike))]
pub fn answer_of(alloc: Global, status: u16, body: &[u8]) -> Result<Option<Answer>, AllocError>
    ensures found { IfOk result (λ found. IfSome found (IsWritten status body.now)) }
    ensures back { IfOk result (λ found. (a : AnswerModel) → IsAnswer a
        → IsWritten status body.now a → found ≡ Some a) }
{
    let Some(answer) = answer_at(alloc, body)? else {
        return Ok(None);
    };
    if is_written(alloc, status, body, &answer)? {
        Ok(Some(answer))
    } else {
        Ok(None)
    }
}
