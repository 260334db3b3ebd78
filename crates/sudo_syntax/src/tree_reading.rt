//! Lines read from tokens, and the user specifications among them.

ghost use Rattle.std.specs.Prelude.{◌≡◌, List, ℕ, IfOk, MatchResult};
ghost use Rattle.sudo_words.specs.Bytes.{colon};
ghost use Rattle.sudo_policy.specs.declared.fault.LineFault.TheVariants.{NoMemory};
ghost use Rattle.sudo_policy.specs.declared.tree.Part.{Part as Parted};
ghost use Rattle.sudo_syntax.specs.private.Fronts.{EndsBy};
ghost use Rattle.sudo_policy.specs.Grammar.{SpellsPart, SpellsUserSpec, SpellsTree};
ghost use Rattle.sudo_policy.specs.Lex.{Tok};
ghost use Rattle.sudo_syntax.specs.private.Tokens.{toks};
ghost use Rattle.sudo_policy.specs.declared.tree.Line.{Line as Tree};
ghost use Rattle.sudo_policy.specs.Text.{Names};

use crate::definitions::aliases_of;
use crate::fronts::after_mark;
use crate::items::{Spelled, list_at, rest_as};
use crate::misplaced::misplaced;
use crate::token::{Mark, Token};
use std::alloc::Global;
use sudo_policy::{CmndItem, Item, Line, LineFault, Part, Signed};
use sudo_words::{HostName, Items, Name};

impl Spelled for Part {
    ghost spells = { SpellsPart };

    ghost follows = { EndsBy colon };

    fn at<'a, 'b>(
        alloc: Global,
        tokens: &'b [Token<'a>],
    ) -> Result<(Part, &'b [Token<'a>]), LineFault> {
        let (hosts, after) = list_at(alloc, Mark::Comma, tokens)?;
        let Some(next) = after_mark(Mark::Equals, after) else {
            return Err(misplaced(after));
        };
        let (specs, rest) = list_at(alloc, Mark::Comma, next)?;
        Ok((Part { hosts, specs }, rest))
    }
}

/// Users and the parts of their specification.
#[derive(Drop)]
pub(crate) struct UserSpec {
    pub(crate) users: Items<Signed<Item<Name>>>,
    pub(crate) parts: Items<Part>,
}

/// The user specification that the tokens spell.
pub(crate) fn user_spec_of(alloc: Global, tokens: &[Token<'_>]) -> Result<UserSpec, LineFault>
    ensures found { IfOk result (λ r. SpellsUserSpec (toks tokens.now) r.users r.parts) }
    ensures only { (users : Names) (parts : List Parted)
        → SpellsUserSpec (toks tokens.now) users parts
        → MatchResult result (λ r. (r.users ≡ users) × (r.parts ≡ parts)) (λ e. e ≡ NoMemory) }
{
    let (users, next) = list_at(alloc, Mark::Comma, tokens)?;
    let parts = rest_as(alloc, next)?;
    Ok(UserSpec { users, parts })
}

/// The line that tokens spell: definitions of aliases of one kind, or a user specification
/// (sudoers(5), "Aliases", "User specification").
///
/// Faults: `NoMemory` where memory runs out; any other only where the tokens spell no line.
pub(crate) fn tree_of(alloc: Global, tokens: &[Token<'_>]) -> Result<Line, LineFault>
    ensures found { IfOk result (λ l. SpellsTree (toks tokens.now) l) }
    ensures only { (l : Tree) → SpellsTree (toks tokens.now) l
        → MatchResult result (λ x. x ≡ l) (λ e. e ≡ NoMemory) }
{
    if let Some(users) = aliases_of::<Item<Name>>(alloc, "User_Alias", tokens)? {
        return Ok(Line::Users(users));
    }
    if let Some(runas) = aliases_of::<Item<Name>>(alloc, "Runas_Alias", tokens)? {
        return Ok(Line::Runas(runas));
    }
    if let Some(hosts) = aliases_of::<Item<HostName>>(alloc, "Host_Alias", tokens)? {
        return Ok(Line::Hosts(hosts));
    }
    if let Some(cmnds) = aliases_of::<CmndItem>(alloc, "Cmnd_Alias", tokens)? {
        return Ok(Line::Cmnds(cmnds));
    }
    let user_spec = user_spec_of(alloc, tokens)?;
    Ok(Line::UserSpec(user_spec.users, user_spec.parts))
}
