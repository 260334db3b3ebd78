//! Messages read from JSON trees.

ghost use Rattle.std.specs.Prelude.{◌≡◌, ◌⊎◌, Some, IfOk, IfErr, IfSome, IsOkAnd, MatchResult};
ghost use Rattle.json.specs.Value.{value_view};
ghost use Rattle.messages.specs.Fields.{RequestFields, VerdictFields, IsRequest, IsVerdict};
ghost use Rattle.messages.specs.private.Members.{request_tree, verdict_tree, tree_of};
ghost use Rattle.messages.specs.Wire.{kind_text, wire, IsMessage};
ghost use Rattle.messages.specs.declared.kind.VerdictKind.{VerdictKind as AnyKind};
ghost use Rattle.messages.specs.declared.message.Message.{Message as AnyMessage};
ghost use Rattle.messages.specs.declared.fault.MessageFault.TheVariants.{BadField, NoMemory};

use crate::fault::MessageFault;
use crate::kind::VerdictKind;
use crate::lists::{cmnds_of, hosts_of};
use crate::members::{list_member, moment_member, number_member, text_member, word_member};
use crate::message::Message;
use crate::request::Request;
use crate::same_text::is_text_of;
use crate::verdict::Verdict;
use json::Value;
use std::alloc::Global;

fn request_of(alloc: Global, value: &Value<'_>) -> Result<Request, MessageFault>
    ensures found { IfOk result IsRequest }
    ensures only { (r : RequestFields) → IsRequest r → value_view value.now ≡ request_tree r
        → MatchResult result (λ q. q ≡ r) (λ e. e ≡ NoMemory) }
    ensures err { IfErr result (λ e. (e ≡ BadField) ⊎ (e ≡ NoMemory)) }
{
    // Members that are copied or lent are read first: if one is missing, there is nothing to drop.
    let at = moment_member(value, "at")?;
    let from = moment_member(value, "from")?;
    let until = moment_member(value, "until")?;
    let no = number_member(value)?;
    let cmnds = list_member(value, "cmnds")?;
    let hosts = list_member(value, "hosts")?;
    Ok(Request {
        at,
        by: word_member(alloc, value, "by")?,
        ceiling: word_member(alloc, value, "ceiling")?,
        cmnds: cmnds_of(alloc, cmnds)?,
        from,
        hosts: hosts_of(alloc, hosts)?,
        no,
        runas: word_member(alloc, value, "runas")?,
        until,
    })
}

/// The kind of verdict that has this name.
fn kind_named(name: &str) -> Result<VerdictKind, MessageFault>
    ensures only { (k : AnyKind) → name.now ≡ kind_text k → IsOkAnd result (λ found. found ≡ k) }
    ensures err { IfErr result (λ e. e ≡ BadField) }
{
    VerdictKind::of_word(name.as_bytes()).ok_or(MessageFault::BadField)
}

fn verdict_of(alloc: Global, value: &Value<'_>, kind: VerdictKind) -> Result<Verdict, MessageFault>
    ensures found { IfOk result IsVerdict }
    ensures only { (v : VerdictFields) → IsVerdict v → v.kind ≡ kind
        → value_view value.now ≡ verdict_tree v
        → MatchResult result (λ w. w ≡ v) (λ e. e ≡ NoMemory) }
    ensures err { IfErr result (λ e. (e ≡ BadField) ⊎ (e ≡ NoMemory)) }
{
    let at = moment_member(value, "at")?;
    let no = number_member(value)?;
    Ok(Verdict {
        at,
        by: word_member(alloc, value, "by")?,
        kind,
        no,
        of: word_member(alloc, value, "of")?,
    })
}

/// The message that has the members of the value. Further members of the value are not looked at.
fn message_of(alloc: Global, value: &Value<'_>) -> Result<Message, MessageFault>
    ensures found { IfOk result IsMessage }
    ensures only { (m : AnyMessage) → IsMessage m → value_view value.now ≡ tree_of m
        → MatchResult result (λ n. n ≡ m) (λ e. e ≡ NoMemory) }
    ensures err { IfErr result (λ e. (e ≡ BadField) ⊎ (e ≡ NoMemory)) }
{
    let name = text_member(value, "kind")?;
    if name == "request" {
        return Ok(Message::Request(request_of(alloc, value)?));
    }
    let kind = kind_named(name)?;
    Ok(Message::Verdict(verdict_of(alloc, value, kind)?))
}

/// The message that has the members of the value, if the bytes are its text, and else `None`: a
/// text with further members is no message's text.
pub(crate) fn message_said(
    alloc: Global,
    value: &Value<'_>,
    body: &[u8],
) -> Result<Option<Message>, MessageFault>
    ensures found { IfOk result (λ o. IfSome o (λ m. (body.now ≡ wire m) × IsMessage m)) }
    ensures only { (m : AnyMessage) → IsMessage m → value_view value.now ≡ tree_of m
        → body.now ≡ wire m → MatchResult result (λ o. o ≡ Some m) (λ e. e ≡ NoMemory) }
    ensures err { IfErr result (λ e. e ≡ NoMemory) }
{
    match message_of(alloc, value) {
        Ok(message) => {
            if is_text_of(&message, body) {
                Ok(Some(message))
            } else {
                Ok(None)
            }
        }
        Err(MessageFault::NoMemory) => Err(MessageFault::NoMemory),
        Err(_) => Ok(None),
    }
}
