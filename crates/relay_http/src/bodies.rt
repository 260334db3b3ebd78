//! The bodies of responses to questions.

ghost use Rattle.std.specs.Prelude.{◌≡◌, ◌++◌, ◌∷◌, ℕ, List, [], IfOk, OnOk, map, string_bytes};
ghost use Rattle.sudo_words.specs.Bytes.{newline};
ghost use Rattle.sudo_policy.specs.declared.entry.Entry.{Entry};
ghost use Rattle.messages.specs.Wire.{moment_text};
ghost use Rattle.desk.specs.Digests.{digests_text};
ghost use Rattle.findings.specs.Terminal.{name_text};
ghost use Rattle.relay_http.specs.Responses.{count_line, each_on_a_line};
ghost use Rattle.relay_http.specs.Responses.{window_ends_text, live_grant_line};

use desk::{Live, RequestName};
use grants::Window;
use std::alloc::{AllocError, Global};
use std::fmt::Write;
use sudo_words::{Moment, NoMemory};

#[tactic(auto, unfolding(messages::specs::Wire::moment_text))]
fn push_stamp(out: &mut String, moment: Moment) -> Result<(), AllocError>
    ensures { OnOk result (string_bytes out.new ≡ string_bytes out.old ++ moment_text moment) }
{
    write!(out, "{moment}")
}

/// Appends the window of a grant's line: its first and its last moment.
#[tactic(auto, unfolding(crate::specs::Responses::window_ends_text))]
fn push_window(out: &mut String, window: Window) -> Result<(), AllocError>
    ensures { OnOk result (string_bytes out.new ≡ string_bytes out.old ++ window_ends_text window) }
{
    out.push_str(" ")?;
    push_stamp(out, window.start)?;
    out.push_str(" ")?;
    push_stamp(out, window.end)
}

/// Appends the name of a grant's request.
fn push_name(out: &mut String, name: &RequestName) -> Result<(), AllocError>
    ensures { OnOk result (string_bytes out.new ≡ string_bytes out.old ++ name_text name.now) }
{
    out.push_str(name.by.as_str())?;
    out.push_str(" ")?;
    write!(out, "{}", name.no)
}

/// Appends the line of a grant in force.
#[tactic(auto, unfolding(crate::specs::Responses::live_grant_line))]
fn push_live(out: &mut String, live: &Live) -> Result<(), AllocError>
    ensures { OnOk result
        (string_bytes out.new ≡ string_bytes out.old ++ live_grant_line live.now ++ newline ∷ []) }
{
    push_name(out, &live.name)?;
    out.push_str(" ")?;
    out.push_str(live.ceiling.as_str())?;
    push_window(out, live.window)?;
    out.push_str("\n")
}

/// A line for each grant in force.
pub fn live_text(alloc: Global, list: &[Live]) -> Result<String, AllocError>
    ensures { IfOk result (λ s. string_bytes s ≡ each_on_a_line (map live_grant_line list.now)) }
{
    let mut out = String::new(alloc);
    for live in list {
        push_live(&mut out, live)?;
    }
    Ok(out)
}

fn push_line(out: &mut String, text: &str) -> Result<(), AllocError>
    ensures { OnOk result
        (string_bytes out.new ≡ string_bytes out.old ++ text.now ++ newline ∷ []) }
{
    out.push_str(text)?;
    out.push_str("\n")
}

/// Each text on a line of its own.
pub fn lines_text(alloc: Global, texts: &[String]) -> Result<String, AllocError>
    ensures { IfOk result (λ s. string_bytes s ≡ each_on_a_line (map string_bytes texts.now)) }
{
    let mut out = String::new(alloc);
    for text in texts {
        push_line(&mut out, text.as_str())?;
    }
    Ok(out)
}

/// The line that says how many messages there are, with the digests of the roster and the base.
#[tactic(auto, unfolding(crate::specs::Responses::count_line))]
pub fn count_text(alloc: Global, messages: usize, digests: &str) -> Result<String, NoMemory>
    ensures { (roster : List ℕ) (base : List Entry) → digests.now ≡ digests_text roster base
        → IfOk result (λ s. string_bytes s ≡ count_line messages roster base ++ newline ∷ []) }
{
    let mut out = String::new(alloc);
    write!(out, "{messages} ")?;
    out.push_str(digests)?;
    out.push_str("\n")?;
    Ok(out)
}
