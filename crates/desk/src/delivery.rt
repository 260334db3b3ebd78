//! Bodies read, and messages admitted.

ghost use Rattle.std.specs.Prelude.{◌≡◌, ◌⊎◌, IfOk, IfErr, Err};
ghost use Rattle.grants.specs.Admission.{Admits};
ghost use Rattle.desk.specs.Delivery.{AnswersBody, IsBodyOf};
ghost use Rattle.desk.specs.declared.refusal.Refusal.TheVariants as refusal;

use crate::refusal::Refusal;
use grants::admit;
use messages::{Message, MessageReader};
use roster::Roster;
use std::alloc::Global;

/// The message whose text the body is, where the roster admits it.
pub(crate) fn admitted(
    alloc: Global,
    reader: &mut MessageReader,
    roster: &Roster,
    body: &[u8],
) -> Result<Message, Refusal>
    ensures found { IfOk result (λ m. IsBodyOf body.now m × Admits roster.now.says m) }
    ensures err { IfErr result
        (λ e. (e ≡ refusal.NoMemory) ⊎ AnswersBody roster.now.says body.now (Err e)) }
{
    let message = reader.read(alloc, body)?;
    admit(roster, &message)?;
    Ok(message)
}

/// The body of a message as text. The message is an argument for the proof alone.
pub(crate) fn text_of<'b>(body: &'b [u8], _message: &Message) -> &'b str
    requires { IsBodyOf body.now _message.now }
    ensures { result.now ≡ body.now }
{
    // A message's text is UTF-8, which is proved for this call and not tested.
    unsafe { str::from_utf8_unchecked(body) }
}
