//! Whether bytes are the text of a message. The text is not written for that: its pieces are
//! compared with the bytes one after another. Each function here has its counterpart in `write`,
//! which writes the same piece. `None` stands for bytes that differed.

ghost use Rattle.std.specs.Prelude.{◌≡◌, ◌==◌, ◌||◌, ◌++◌, ◌∷◌, ◌↔◌, []};
ghost use Rattle.std.specs.Prelude.{IsTrue, Some, codes, decimal, map};
ghost use Rattle.std.specs.List.{flat_map};
ghost use Rattle.sudo_words.specs.Command.{arg_text, cmnd_text, escaped_byte};
ghost use Rattle.sudo_words.specs.Command.{arg_rule_text, spaced_arg};
ghost use Rattle.sudo_words.specs.Moment.{IsMoment};
ghost use Rattle.messages.specs.Wire as wires;
ghost use Rattle.messages.specs.private.Past.{IsPast, left_of};

use crate::message::Message;
use crate::request::Request;
use crate::verdict::Verdict;
use itoa::Buffer;
use std::str;
use sudo_words::{Arg, ArgRule, Cmnd, HostName, Moment, is_escaped};

/// The length of a moment's text.
const STAMP_LENGTH: usize = 15;

/// What is left after these bytes.
fn past<'b>(rest: Option<&'b [u8]>, piece: &str) -> Option<&'b [u8]>
    ensures { IsPast piece.now rest.entry result }
{
    rest?.strip_prefix(piece.as_bytes())
}

/// What is left after one byte.
fn past_plain<'b>(rest: Option<&'b [u8]>, byte: u8) -> Option<&'b [u8]>
    ensures { IsPast (byte ∷ []) rest.entry result }
{
    let (first, left) = rest?.split_first()?;
    if *first == byte { Some(left) } else { None }
}

/// Whether the byte has a backslash before it in a text between quotes.
fn is_marked(byte: u8) -> bool
    ensures { result ≡ (byte == 34) || (byte == 92) }
{
    byte == b'"' || byte == b'\\'
}

/// What is left after one byte of a text between quotes, with its escape.
fn past_byte<'b>(rest: Option<&'b [u8]>, byte: u8) -> Option<&'b [u8]>
    ensures { IsPast (wires.escaped (byte ∷ [])) rest.entry result }
{
    if is_marked(byte) {
        past_plain(past_plain(rest, b'\\'), byte)
    } else {
        past_plain(rest, byte)
    }
}

/// What is left after a text, with its escapes.
fn past_escaped<'b>(rest: Option<&'b [u8]>, text: &[u8]) -> Option<&'b [u8]>
    ensures { IsPast (wires.escaped text.now) rest.entry result }
{
    let mut left = rest;
    for byte in text {
        left = past_byte(left, *byte);
    }
    left
}

/// What is left after a text between quotes.
fn past_text<'b>(rest: Option<&'b [u8]>, text: &str) -> Option<&'b [u8]>
    ensures { IsPast (wires.quoted text.now) rest.entry result }
{
    let rest = past(rest, "\"");
    let rest = past_escaped(rest, text.as_bytes());
    past(rest, "\"")
}

/// What is left after a member that is a text: `head`, up to the value, and the value.
fn past_member<'b>(rest: Option<&'b [u8]>, head: &str, text: &str) -> Option<&'b [u8]>
    ensures { IsPast (head.now ++ wires.quoted text.now) rest.entry result }
{
    past_text(past(rest, head), text)
}

/// Whether the text is that of the moment.
fn is_stamp(text: &str, moment: Moment) -> bool
    ensures { IsMoment moment → IsTrue result ↔ (text.now ≡ wires.moment_text moment) }
{
    match Moment::read_stamp(text) {
        Some(found) => found == moment,
        None => false,
    }
}

/// What is left after the text of a moment.
fn past_stamp<'b>(rest: Option<&'b [u8]>, moment: Moment) -> Option<&'b [u8]>
    ensures { IsMoment moment → IsPast (wires.moment_text moment) rest.entry result }
{
    let (stamp, left) = rest?.split_at_checked(STAMP_LENGTH)?;
    match str::from_utf8(stamp) {
        Ok(text) => {
            if is_stamp(text, moment) {
                Some(left)
            } else {
                None
            }
        }
        Err(_) => None,
    }
}

/// What is left after a member that is a moment: `head`, up to the value, and the value.
fn past_moment<'b>(rest: Option<&'b [u8]>, head: &str, moment: Moment) -> Option<&'b [u8]>
    ensures { IsMoment moment
        → IsPast (head.now ++ wires.quoted (wires.moment_text moment)) rest.entry result }
{
    let rest = past(rest, head);
    let rest = past(rest, "\"");
    let rest = past_stamp(rest, moment);
    past(rest, "\"")
}

fn past_number<'b>(rest: Option<&'b [u8]>, no: u32) -> Option<&'b [u8]>
    ensures { IsPast (codes ",\"no\":" ++ decimal no) rest.entry result }
{
    let mut digits = Buffer::new();
    past(past(rest, ",\"no\":"), digits.format(no))
}

/// What is left after the further hosts of a list (from the second on) and the closing bracket.
fn past_more_hosts<'b>(rest: Option<&'b [u8]>, hosts: &[HostName]) -> Option<&'b [u8]>
    ensures { IsPast (wires.rest_text hosts.now) rest.entry result }
{
    match hosts {
        [] => past(rest, "]"),
        [host, more @ ..] => past_more_hosts(past_member(rest, ",", host.as_str()), more),
    }
}

fn past_hosts<'b>(rest: Option<&'b [u8]>, hosts: &[HostName]) -> Option<&'b [u8]>
    ensures { IsPast (wires.list_text hosts.now) rest.entry result }
{
    match hosts {
        [] => past(rest, "[]"),
        [host, more @ ..] => past_more_hosts(past_member(rest, "[", host.as_str()), more),
    }
}

/// What is left after one byte of an argument. The argument's text may have a backslash before the
/// byte, which is escaped like any other backslash.
fn past_arg_byte<'b>(rest: Option<&'b [u8]>, byte: u8) -> Option<&'b [u8]>
    ensures { IsPast (wires.escaped (escaped_byte byte)) rest.entry result }
{
    if is_escaped(byte) {
        past_byte(past_byte(rest, b'\\'), byte)
    } else {
        past_byte(rest, byte)
    }
}

fn past_arg<'b>(rest: Option<&'b [u8]>, arg: &[u8]) -> Option<&'b [u8]>
    ensures { IsPast (wires.escaped (arg_text arg.now)) rest.entry result }
{
    let mut left = rest;
    for byte in arg {
        left = past_arg_byte(left, *byte);
    }
    left
}

/// What is left after arguments, with a space before each.
fn past_args<'b>(rest: Option<&'b [u8]>, args: &[Arg]) -> Option<&'b [u8]>
    ensures { IsPast (wires.escaped (flat_map spaced_arg args.now)) rest.entry result }
{
    match args {
        [] => rest,
        [arg, more @ ..] => { past_args(past_arg(past(rest, " "), arg.as_str().as_bytes()), more) }
    }
}

fn past_rule<'b>(rest: Option<&'b [u8]>, rule: &ArgRule) -> Option<&'b [u8]>
    ensures { IsPast (wires.escaped (arg_rule_text rule.now)) rest.entry result }
{
    match rule {
        ArgRule::Any => rest,
        ArgRule::Empty => past(rest, " \\\"\\\""),
        ArgRule::Exactly(args) => past_args(rest, args.as_slice()),
    }
}

/// What is left after a command's text, with its escapes.
fn past_cmnd_text<'b>(rest: Option<&'b [u8]>, cmnd: &Cmnd) -> Option<&'b [u8]>
    ensures { IsPast (wires.escaped (cmnd_text cmnd.now)) rest.entry result }
{
    match cmnd {
        Cmnd::All => past(rest, "ALL"),
        Cmnd::Path(file, rule) => past_rule(past_escaped(rest, file.as_str().as_bytes()), rule),
        Cmnd::Dir(dir) => past_escaped(rest, dir.as_str().as_bytes()),
    }
}

/// What is left after `head` and a command between quotes.
fn past_cmnd<'b>(rest: Option<&'b [u8]>, head: &str, cmnd: &Cmnd) -> Option<&'b [u8]>
    ensures { IsPast (head.now ++ wires.quoted (cmnd_text cmnd.now)) rest.entry result }
{
    let rest = past(past(rest, head), "\"");
    let rest = past_cmnd_text(rest, cmnd);
    past(rest, "\"")
}

/// What is left after the further commands of a list (from the second on) and the closing bracket.
fn past_more_cmnds<'b>(rest: Option<&'b [u8]>, cmnds: &[Cmnd]) -> Option<&'b [u8]>
    ensures { IsPast (wires.rest_text (map cmnd_text cmnds.now)) rest.entry result }
{
    match cmnds {
        [] => past(rest, "]"),
        [cmnd, more @ ..] => past_more_cmnds(past_cmnd(rest, ",", cmnd), more),
    }
}

fn past_cmnds<'b>(rest: Option<&'b [u8]>, cmnds: &[Cmnd]) -> Option<&'b [u8]>
    ensures { IsPast (wires.list_text (map cmnd_text cmnds.now)) rest.entry result }
{
    match cmnds {
        [] => past(rest, "[]"),
        [cmnd, more @ ..] => past_more_cmnds(past_cmnd(rest, "[", cmnd), more),
    }
}

/// What is left after the members before the commands: when, who asks, and the ceiling.
fn past_asked<'b>(rest: Option<&'b [u8]>, r: &Request) -> Option<&'b [u8]>
    ensures { IsPast (codes "{\"at\":" ++ wires.quoted (wires.moment_text r.now.at)
        ++ codes ",\"by\":" ++ wires.quoted r.now.by
        ++ codes ",\"ceiling\":" ++ wires.quoted r.now.ceiling) rest.entry result }
{
    let rest = past_moment(rest, "{\"at\":", r.at);
    let rest = past_member(rest, ",\"by\":", r.by.as_str());
    past_member(rest, ",\"ceiling\":", r.ceiling.as_str())
}

/// What is left after the commands, the window's first moment and the hosts.
fn past_lists<'b>(rest: Option<&'b [u8]>, r: &Request) -> Option<&'b [u8]>
    ensures { IsPast (codes ",\"cmnds\":" ++ wires.list_text (map cmnd_text r.now.cmnds)
        ++ codes ",\"from\":" ++ wires.quoted (wires.moment_text r.now.from)
        ++ codes ",\"hosts\":" ++ wires.list_text r.now.hosts) rest.entry result }
{
    let rest = past_cmnds(past(rest, ",\"cmnds\":"), &r.cmnds);
    let rest = past_moment(rest, ",\"from\":", r.from);
    past_hosts(past(rest, ",\"hosts\":"), &r.hosts)
}

/// What is left after the members that follow the lists.
fn past_last<'b>(rest: Option<&'b [u8]>, r: &Request) -> Option<&'b [u8]>
    ensures { IsPast (codes ",\"kind\":" ++ wires.quoted (codes "request")
        ++ codes ",\"no\":" ++ decimal r.now.no
        ++ codes ",\"runas\":" ++ wires.quoted r.now.runas
        ++ codes ",\"until\":" ++ wires.quoted (wires.moment_text r.now.until)
        ++ codes "}") rest.entry result }
{
    let rest = past_member(rest, ",\"kind\":", "request");
    let rest = past_number(rest, r.no);
    let rest = past_member(rest, ",\"runas\":", r.runas.as_str());
    let rest = past_moment(rest, ",\"until\":", r.until);
    past(rest, "}")
}

fn past_request<'b>(rest: Option<&'b [u8]>, r: &Request) -> Option<&'b [u8]>
    ensures { IsPast (wires.request_text r.now) rest.entry result }
{
    let rest = past_asked(rest, r);
    let rest = past_lists(rest, r);
    past_last(rest, r)
}

fn past_verdict<'b>(rest: Option<&'b [u8]>, v: &Verdict) -> Option<&'b [u8]>
    ensures { IsPast (wires.verdict_text v.now) rest.entry result }
{
    let rest = past_moment(rest, "{\"at\":", v.at);
    let rest = past_member(rest, ",\"by\":", v.by.as_str());
    let rest = past_member(rest, ",\"kind\":", v.kind.word());
    let rest = past_number(rest, v.no);
    let rest = past_member(rest, ",\"of\":", v.of.as_str());
    past(rest, "}")
}

/// Whether every byte was compared, and none differed.
fn is_whole(left: Option<&[u8]>) -> bool
    ensures { IsTrue result ↔ (left_of left.entry ≡ Some []) }
{
    match left {
        Some(left) => left.is_empty(),
        None => false,
    }
}

/// Whether the bytes are the message's text.
pub(crate) fn is_text_of(message: &Message, body: &[u8]) -> bool
    ensures { IsTrue result ↔ (body.now ≡ wires.wire message.now) }
{
    match message {
        Message::Request(request) => is_whole(past_request(Some(body), request)),
        Message::Verdict(verdict) => is_whole(past_verdict(Some(body), verdict)),
    }
}
