//! Messages written as their texts.

ghost use Rattle.std.specs.Prelude.{◌≡◌, ◌++◌, All, IfOk, OnOk, map, string_bytes, codes, decimal};
ghost use Rattle.sudo_words.specs.Command.{IsLawful, cmnd_text};
ghost use Rattle.sudo_words.specs.Moment.{IsMoment};
ghost use Rattle.messages.specs.Wire as wires;

use crate::message::Message;
use crate::request::Request;
use crate::verdict::Verdict;
use serde_json::Value;
use std::alloc::{AllocError, Global};
use std::fmt::Write;
use sudo_words::{Cmnd, HostName, Moment, NoMemory, print_cmnd};

/// Appends a text between quotes. The text has no byte that needs an escape.
#[tactic(auto, unfolding(crate::specs::Wire::quoted))]
fn push_text(out: &mut String, text: &str) -> Result<(), AllocError>
    requires { wires.escaped text.now ≡ text.now }
    ensures { OnOk result (string_bytes out.new ≡ string_bytes out.old ++ wires.quoted text.now) }
{
    out.push_str("\"")?;
    out.push_str(text)?;
    out.push_str("\"")
}

/// Appends a member that is a text: `head`, up to the value, and the value.
fn push_member(out: &mut String, head: &str, text: &str) -> Result<(), AllocError>
    requires { wires.escaped text.now ≡ text.now }
    ensures { OnOk result
        (string_bytes out.new ≡ string_bytes out.old ++ head.now ++ wires.quoted text.now) }
{
    out.push_str(head)?;
    push_text(out, text)
}

#[tactic(auto, unfolding(crate::specs::Wire::moment_text))]
fn push_stamp(out: &mut String, moment: Moment) -> Result<(), AllocError>
    ensures { OnOk result
        (string_bytes out.new ≡ string_bytes out.old ++ wires.moment_text moment) }
{
    write!(out, "{moment}")
}

/// Appends a member that is a moment: `head`, up to the value, and the value.
fn push_moment(out: &mut String, head: &str, moment: Moment) -> Result<(), AllocError>
    requires { IsMoment moment }
    ensures { OnOk result (string_bytes out.new
        ≡ string_bytes out.old ++ head.now ++ wires.quoted (wires.moment_text moment)) }
{
    out.push_str(head)?;
    out.push_str("\"")?;
    push_stamp(out, moment)?;
    out.push_str("\"")
}

fn push_number(out: &mut String, no: u32) -> Result<(), AllocError>
    ensures { OnOk result
        (string_bytes out.new ≡ string_bytes out.old ++ codes ",\"no\":" ++ decimal no) }
{
    out.push_str(",\"no\":")?;
    write!(out, "{no}")
}

/// Appends the hosts of a list after the first one, and the closing bracket.
#[tactic(auto, using(crate::proofs::PlainTexts::escaped_host), unfolding(crate::specs::Wire::rest_text, crate::specs::Wire::list_text))]
fn push_more_hosts(out: &mut String, hosts: &[HostName]) -> Result<(), AllocError>
    ensures { OnOk result
        (string_bytes out.new ≡ string_bytes out.old ++ wires.rest_text hosts.now) }
{
    match hosts {
        [] => out.push_str("]"),
        [host, rest @ ..] => {
            out.push_str(",")?;
            push_text(out, host.as_str())?;
            push_more_hosts(out, rest)
        }
    }
}

#[tactic(auto, using(crate::proofs::PlainTexts::escaped_host), unfolding(crate::specs::Wire::rest_text, crate::specs::Wire::list_text))]
fn push_hosts(out: &mut String, hosts: &[HostName]) -> Result<(), AllocError>
    ensures { OnOk result
        (string_bytes out.new ≡ string_bytes out.old ++ wires.list_text hosts.now) }
{
    match hosts {
        [] => out.push_str("[]"),
        [host, rest @ ..] => {
            out.push_str("[")?;
            push_text(out, host.as_str())?;
            push_more_hosts(out, rest)
        }
    }
}

/// Appends a command's text between quotes, with its escapes.
fn push_cmnd(out: &mut String, alloc: Global, cmnd: &Cmnd) -> Result<(), NoMemory>
    requires { IsLawful cmnd.now }
    ensures { OnOk result
        (string_bytes out.new ≡ string_bytes out.old ++ wires.quoted (cmnd_text cmnd.now)) }
{
    let text = Value::String(print_cmnd(alloc, cmnd)?).to_string(alloc)?;
    out.push_str(&text)?;
    Ok(())
}

/// Appends the commands of a list after the first one, and the closing bracket.
#[tactic(auto, unfolding(crate::specs::Wire::rest_text))]
fn push_more_cmnds(out: &mut String, alloc: Global, cmnds: &[Cmnd]) -> Result<(), NoMemory>
    requires { All IsLawful cmnds.now }
    ensures { OnOk result
        (string_bytes out.new ≡ string_bytes out.old ++ wires.rest_text (map cmnd_text cmnds.now)) }
{
    match cmnds {
        [] => Ok(out.push_str("]")?),
        [cmnd, rest @ ..] => {
            out.push_str(",")?;
            push_cmnd(out, alloc, cmnd)?;
            push_more_cmnds(out, alloc, rest)
        }
    }
}

#[tactic(auto, unfolding(crate::specs::Wire::list_text))]
fn push_cmnds(out: &mut String, alloc: Global, cmnds: &[Cmnd]) -> Result<(), NoMemory>
    requires { All IsLawful cmnds.now }
    ensures { OnOk result
        (string_bytes out.new ≡ string_bytes out.old ++ wires.list_text (map cmnd_text cmnds.now)) }
{
    match cmnds {
        [] => Ok(out.push_str("[]")?),
        [cmnd, rest @ ..] => {
            out.push_str("[")?;
            push_cmnd(out, alloc, cmnd)?;
            push_more_cmnds(out, alloc, rest)
        }
    }
}

/// Appends the members before the commands: when, who asks, and the ceiling.
#[tactic(auto, using(crate::proofs::PlainTexts::escaped_name, crate::proofs::PlainTexts::escaped_label))]
fn push_asked(out: &mut String, r: &Request) -> Result<(), AllocError>
    ensures { OnOk result (string_bytes out.new ≡ string_bytes out.old
        ++ codes "{\"at\":" ++ wires.quoted (wires.moment_text r.now.at)
        ++ codes ",\"by\":" ++ wires.quoted r.now.by
        ++ codes ",\"ceiling\":" ++ wires.quoted r.now.ceiling) }
{
    push_moment(out, "{\"at\":", r.at)?;
    push_member(out, ",\"by\":", r.by.as_str())?;
    push_member(out, ",\"ceiling\":", r.ceiling.as_str())
}

/// Appends the commands, the window's first moment and the hosts.
fn push_lists(out: &mut String, alloc: Global, r: &Request) -> Result<(), NoMemory>
    ensures { OnOk result (string_bytes out.new ≡ string_bytes out.old
        ++ codes ",\"cmnds\":" ++ wires.list_text (map cmnd_text r.now.cmnds)
        ++ codes ",\"from\":" ++ wires.quoted (wires.moment_text r.now.from)
        ++ codes ",\"hosts\":" ++ wires.list_text r.now.hosts) }
{
    out.push_str(",\"cmnds\":")?;
    push_cmnds(out, alloc, &r.cmnds)?;
    push_moment(out, ",\"from\":", r.from)?;
    out.push_str(",\"hosts\":")?;
    push_hosts(out, &r.hosts)?;
    Ok(())
}

/// Appends the members after the lists.
#[tactic(auto, using(crate::proofs::PlainTexts::escaped_name, crate::proofs::PlainTexts::escaped_request))]
fn push_rest(out: &mut String, r: &Request) -> Result<(), AllocError>
    ensures { OnOk result (string_bytes out.new ≡ string_bytes out.old
        ++ codes ",\"kind\":" ++ wires.quoted (codes "request")
        ++ codes ",\"no\":" ++ decimal r.now.no
        ++ codes ",\"runas\":" ++ wires.quoted r.now.runas
        ++ codes ",\"until\":" ++ wires.quoted (wires.moment_text r.now.until)
        ++ codes "}") }
{
    push_member(out, ",\"kind\":", "request")?;
    push_number(out, r.no)?;
    push_member(out, ",\"runas\":", r.runas.as_str())?;
    push_moment(out, ",\"until\":", r.until)?;
    out.push_str("}")
}

fn push_request(out: &mut String, alloc: Global, r: &Request) -> Result<(), NoMemory>
    ensures { OnOk result
        (string_bytes out.new ≡ string_bytes out.old ++ wires.request_text r.now) }
{
    push_asked(out, r)?;
    push_lists(out, alloc, r)?;
    push_rest(out, r)?;
    Ok(())
}

#[tactic(auto, using(crate::proofs::PlainTexts::escaped_name, crate::proofs::PlainTexts::escaped_kind))]
fn push_verdict(out: &mut String, v: &Verdict) -> Result<(), AllocError>
    ensures { OnOk result
        (string_bytes out.new ≡ string_bytes out.old ++ wires.verdict_text v.now) }
{
    push_moment(out, "{\"at\":", v.at)?;
    push_member(out, ",\"by\":", v.by.as_str())?;
    push_member(out, ",\"kind\":", v.kind.word())?;
    push_number(out, v.no)?;
    push_member(out, ",\"of\":", v.of.as_str())?;
    out.push_str("}")
}

/// The text of a verdict's message.
pub fn verdict_text(alloc: Global, v: &Verdict) -> Result<String, NoMemory>
    ensures { IfOk result (λ s. string_bytes s ≡ wires.verdict_text v.now) }
{
    let mut out = String::new(alloc);
    push_verdict(&mut out, v)?;
    Ok(out)
}

/// The text of a message, which `read_message` reads as this message.
pub fn text(alloc: Global, m: &Message) -> Result<String, NoMemory>
    ensures { IfOk result (λ s. string_bytes s ≡ wires.wire m.now) }
{
    let mut out = String::new(alloc);
    match m {
        Message::Request(request) => push_request(&mut out, alloc, request)?,
        Message::Verdict(verdict) => push_verdict(&mut out, verdict)?,
    }
    Ok(out)
}
