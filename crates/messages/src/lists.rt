//! The lists of a request.

ghost use Rattle.std.specs.Prelude.{◌≡◌, ◌⊎◌, List, ℕ, true, All, map, IfOk, IfErr, MatchResult};
ghost use Rattle.json.specs.Json.{string};
ghost use Rattle.json.specs.Value.{value_view, items_view};
ghost use Rattle.sudo_words.specs.Command.{IsLawful, cmnd_text};
ghost use Rattle.sudo_words.specs.Word.{is_host_name};
ghost use Rattle.sudo_words.specs.declared.cmnd.Cmnd.{Cmnd as Command};
ghost use Rattle.messages.specs.Fields.{AreCmnds, AreHosts};
ghost use Rattle.messages.specs.private.Members.{text_items};
ghost use Rattle.messages.specs.declared.fault.MessageFault.TheVariants.{BadField, NoMemory};

use crate::fault::MessageFault;
use crate::members::{text_of, word_of};
use crate::order::texts_rise;
use json::Value;
use std::alloc::Global;
use sudo_words::{Cmnd, CmndFault, HostName, read_cmnd};

/// The most elements of a list.
const MOST: usize = 16;

fn host_of(alloc: Global, item: &Value<'_>) -> Result<HostName, MessageFault>
    ensures found { IfOk result (λ h. is_host_name h ≡ true) }
    ensures text { IfOk result (λ h. value_view item.now ≡ string h) }
    ensures only { (h : List ℕ) → is_host_name h ≡ true → value_view item.now ≡ string h
        → MatchResult result (λ w. w ≡ h) (λ e. e ≡ NoMemory) }
    ensures err { IfErr result (λ e. (e ≡ BadField) ⊎ (e ≡ NoMemory)) }
{
    word_of(alloc, text_of(item)?)
}

fn read_hosts(alloc: Global, items: &[Value<'_>]) -> Result<Vec<HostName>, MessageFault>
    ensures found { IfOk result (λ v. All (λ h. is_host_name h ≡ true) v.items) }
    ensures texts { IfOk result (λ v. items_view items.now ≡ text_items v.items) }
    ensures only { (hs : List (List ℕ)) → All (λ h. is_host_name h ≡ true) hs → items_view items.now
        ≡ text_items hs → MatchResult result (λ v. v.items ≡ hs) (λ e. e ≡ NoMemory) }
    ensures err { IfErr result (λ e. (e ≡ BadField) ⊎ (e ≡ NoMemory)) }
{
    // Most requests name one host, and a list that grows takes room for four at once.
    let mut hosts = Vec::with_capacity(alloc, items.len().min(MOST))?;
    for item in items {
        let host = host_of(alloc, item)?;
        hosts.push(host)?;
    }
    Ok(hosts)
}

/// The 1 to 16 hosts of a list, which rise in byte order.
pub(crate) fn hosts_of(alloc: Global, items: &[Value<'_>]) -> Result<Vec<HostName>, MessageFault>
    ensures found { IfOk result (λ v. AreHosts v.items) }
    ensures only { (hs : List (List ℕ)) → AreHosts hs → items_view items.now ≡ text_items hs
        → MatchResult result (λ v. v.items ≡ hs) (λ e. e ≡ NoMemory) }
    ensures err { IfErr result (λ e. (e ≡ BadField) ⊎ (e ≡ NoMemory)) }
{
    let hosts = read_hosts(alloc, items)?;
    if hosts.len() < 1 || hosts.len() > MOST || !texts_rise(items) {
        return Err(MessageFault::BadField);
    }
    Ok(hosts)
}

fn cmnd_of(alloc: Global, item: &Value<'_>) -> Result<Cmnd, MessageFault>
    ensures found { IfOk result IsLawful }
    ensures text { IfOk result (λ c. value_view item.now ≡ string (cmnd_text c)) }
    ensures only { (c : Command) → IsLawful c → value_view item.now ≡ string (cmnd_text c)
        → MatchResult result (λ d. d ≡ c) (λ e. e ≡ NoMemory) }
    ensures err { IfErr result (λ e. (e ≡ BadField) ⊎ (e ≡ NoMemory)) }
{
    match read_cmnd(alloc, text_of(item)?) {
        Ok(cmnd) => Ok(cmnd),
        Err(CmndFault::BadCmnd) => Err(MessageFault::BadField),
        Err(CmndFault::NoMemory) => Err(MessageFault::NoMemory),
    }
}

fn read_cmnds(alloc: Global, items: &[Value<'_>]) -> Result<Vec<Cmnd>, MessageFault>
    ensures found { IfOk result (λ v. All IsLawful v.items) }
    ensures texts { IfOk result (λ v. items_view items.now ≡ text_items (map cmnd_text v.items)) }
    ensures only { (cs : List Command) → All IsLawful cs → items_view items.now
        ≡ text_items (map cmnd_text cs)
        → MatchResult result (λ v. v.items ≡ cs) (λ e. e ≡ NoMemory) }
    ensures err { IfErr result (λ e. (e ≡ BadField) ⊎ (e ≡ NoMemory)) }
{
    // Most requests name one command, and a list that grows takes room for four at once.
    let mut cmnds = Vec::with_capacity(alloc, items.len().min(MOST))?;
    for item in items {
        let cmnd = cmnd_of(alloc, item)?;
        cmnds.push(cmnd)?;
    }
    Ok(cmnds)
}

/// The 1 to 16 lawful commands of a list, whose texts rise in byte order.
pub(crate) fn cmnds_of(alloc: Global, items: &[Value<'_>]) -> Result<Vec<Cmnd>, MessageFault>
    ensures found { IfOk result (λ v. AreCmnds v.items) }
    ensures only { (cs : List Command) → AreCmnds cs → items_view items.now
        ≡ text_items (map cmnd_text cs)
        → MatchResult result (λ v. v.items ≡ cs) (λ e. e ≡ NoMemory) }
    ensures err { IfErr result (λ e. (e ≡ BadField) ⊎ (e ≡ NoMemory)) }
{
    let cmnds = read_cmnds(alloc, items)?;
    if cmnds.len() < 1 || cmnds.len() > MOST || !texts_rise(items) {
        return Err(MessageFault::BadField);
    }
    Ok(cmnds)
}
