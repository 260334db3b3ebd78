//! The tags of commands (sudoers(5), "Tag_Spec"): their words, what they override, and how they are
//! printed. No other module names a tag, except to ask what the tag does.

ghost use Rattle.std.specs.Prelude.{◌≡◌, ◌≤◌, ◌++◌, MatchOption, OnOk, length, string_bytes};
ghost use Rattle.sudo_policy.specs.Tags as means;
ghost use Rattle.sudo_policy.specs.Tags.{tag_text, tag_word};

use std::alloc::AllocError;

/// A tag, as it is spelt before a command.
#[derive(Clone, Copy, Debug)]
pub enum Tag {
    /// `PASSWD`: the user has to give a password.
    Passwd,
    /// `NOPASSWD`: no password is asked for.
    NoPasswd,
}

impl Tag {
    /// The tag with this word, if there is one.
    pub fn of_word(word: &str) -> Option<Tag>
        ensures { MatchOption result ((tag : Tag) → word.now ≡ tag_word tag → ⊥)
            (λ tag. word.now ≡ tag_word tag) }
    {
        match word {
            "PASSWD" => Some(Tag::Passwd),
            "NOPASSWD" => Some(Tag::NoPasswd),
            _ => None,
        }
    }

    /// The tag's word.
    fn word(self) -> &'static str
        ensures word { result.now ≡ tag_word self }
        ensures few { length result.now ≤ 14 }
    {
        match self {
            Tag::Passwd => "PASSWD",
            Tag::NoPasswd => "NOPASSWD",
        }
    }

    /// Adds the tag's text, if the tag holds.
    fn push(self, out: &mut String, holds: bool) -> Result<(), AllocError>
        ensures { OnOk result
            (string_bytes out.new ≡ string_bytes out.old ++ tag_text self holds) }
    {
        if holds {
            out.push_str(self.word())?;
            out.push_str(": ")?;
        }
        Ok(())
    }

    /// The length of the text that `push` adds.
    fn len(self, holds: bool) -> usize
        ensures value { result ≡ length (tag_text self holds) }
        ensures few { result ≤ 16 }
    {
        if holds { self.word().len() + 2 } else { 0 }
    }
}

/// What the tags before one command say, for each kind that has a tag there.
#[derive(Clone, Copy, Debug)]
pub struct GivenTags {
    /// Whether the last of `PASSWD` and `NOPASSWD` is `NOPASSWD`.
    pub nopasswd: Option<bool>,
}

impl GivenTags {
    /// What a command without tags says.
    pub fn none() -> GivenTags
        ensures { result ≡ means.none_given }
    {
        GivenTags { nopasswd: None }
    }

    /// What the tags say with one more tag behind them.
    pub fn with(self, tag: Tag) -> GivenTags
        ensures { result ≡ means.with_tag self tag }
    {
        match tag {
            Tag::Passwd => GivenTags {
                nopasswd: Some(false),
            },
            Tag::NoPasswd => GivenTags {
                nopasswd: Some(true),
            },
        }
    }
}

/// The tags of a rule. What a command inherits is filled in.
#[derive(Clone, Copy, Debug)]
pub struct Tags {
    /// Whether no password is asked for.
    pub nopasswd: bool,
}

impl Tags {
    /// The tags where none is given: a password is asked for.
    pub fn none() -> Tags
        ensures { result ≡ means.no_tags }
    {
        Tags { nopasswd: false }
    }

    /// The tags of a command that gives these tags, where `self` held before the command.
    pub fn with(self, given: GivenTags) -> Tags
        ensures { result ≡ means.with_tags self given }
    {
        Tags {
            nopasswd: given.nopasswd.unwrap_or(self.nopasswd),
        }
    }

    /// Adds the text of the tags.
    pub(crate) fn push(self, out: &mut String) -> Result<(), AllocError>
        ensures { OnOk result
            (string_bytes out.new ≡ string_bytes out.old ++ means.tags_text self) }
    {
        Tag::NoPasswd.push(out, self.nopasswd)
    }

    /// The length of the text of the tags.
    pub(crate) fn len(self) -> usize
        ensures value { result ≡ length (means.tags_text self) }
        ensures few { result ≤ 16 }
    {
        Tag::NoPasswd.len(self.nopasswd)
    }
}
