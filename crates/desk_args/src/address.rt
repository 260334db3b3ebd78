//! Where a desk listens, as a text says it.

ghost use Rattle.std.specs.Prelude.{◌≡◌, ◌++◌, IfOk, IfErr, MatchOption, MatchResult};
ghost use Rattle.std.specs.Prelude.{codes, true};
ghost use Rattle.desk_args.specs.CommandLine as line;
ghost use Rattle.desk_args.specs.CommandLine.{BeginsAsSocket, IsHostAndPort};
ghost use Rattle.desk_args.specs.CommandLine.{SaysAddress, SaysNoAddress};
ghost use Rattle.desk_args.specs.Faults.{IsUsage};
ghost use Rattle.desk_args.specs.declared.fault.JobFault.TheVariants.{BadWord, NoMemory};
ghost use Rattle.desk_args.specs.declared.task.Address.{Address as Listened};

use crate::fault::JobFault;
use crate::task::Address;
use crate::text::Text;
use std::alloc::Global;
use sudo_words::decimal_of;

/// The most digits of a port.
const MOST_DIGITS: usize = 5;

/// The greatest port.
const MOST_PORT: u64 = 65_535;

/// The most bytes of a socket's path: the address has 108, and a null byte ends the path (unix(7)).
const MOST_PATH: usize = 107;

fn is_port(text: &[u8]) -> bool
    ensures { result ≡ line.is_port text.now }
{
    if text.len() > MOST_DIGITS {
        return false;
    }
    match decimal_of(text) {
        Some(port) => port <= MOST_PORT,
        None => false,
    }
}

/// Whether the text is a host that is not empty, a colon and a port.
fn is_host_and_port(text: &str) -> bool
    ensures is { result ≡ true → IsHostAndPort text.now }
    ensures only { IsHostAndPort text.now → result ≡ true }
{
    match text.rfind(':') {
        Some(colon) => colon > 0 && is_port(&text.as_bytes()[colon + 1..]),
        None => false,
    }
}

fn is_socket_path(path: &[u8]) -> bool
    ensures { result ≡ line.is_socket_path path.now }
{
    path.starts_with(b"/".as_slice())
        && !path.ends_with(b"/".as_slice())
        && !path.contains(&0)
        && path.len() <= MOST_PATH
}

/// What follows `unix:` in a text that begins with `unix:/`.
fn path_of(text: &str) -> Option<&str>
    ensures { MatchOption result (BeginsAsSocket text.now → ⊥)
        (λ path. (text.now ≡ codes "unix:" ++ path.now) × BeginsAsSocket text.now) }
{
    let path = text.strip_prefix("unix:")?;
    if path.as_bytes().starts_with(b"/".as_slice()) {
        Some(path)
    } else {
        None
    }
}

/// Where the text says to listen. `BadWord` comes where the text has neither form of an address.
pub fn read_address(alloc: Global, text: &str) -> Result<Address, JobFault>
    ensures found { IfOk result (SaysAddress text.now) }
    ensures only { (a : Listened) → SaysAddress text.now a
        → MatchResult result (λ r. r ≡ a) (λ e. e ≡ NoMemory) }
    ensures word { IfErr result
        (λ e. e ≡ BadWord → SaysNoAddress text.now) }
    ensures usage { IfErr result (λ e. IsUsage e → ⊥) }
{
    if let Some(path) = path_of(text) {
        if !is_socket_path(path.as_bytes()) {
            return Err(JobFault::BadWord);
        }
        return Ok(Address::Unix(Text::copy(alloc, path)?));
    }
    if !is_host_and_port(text) {
        return Err(JobFault::BadWord);
    }
    Ok(Address::Tcp(Text::copy(alloc, text)?))
}
