//! A match.
ghost use Rattle.std.specs.Prelude.{◌≡◌, IfOk, length, nat_le};
ghost use Rattle.std.specs.List.{list_any};
ghost use Rattle.std.specs.Str.{bytes_eq};
ghost use Rattle.std.specs.Option.{option_copied};
ghost use Rattle.pcre2_api.specs.Captured.{span_of, group_of, named_of, top_of, mark_of};
ghost use Rattle.pcre2_api.specs.Matched.{AreParts};
ghost use Rattle.pcre2_api.specs.Holding.{found_in, parts_of, as_found, as_reserved};

use crate::code::Code;
use crate::reserved::ReservedError;
use frame_store::Span;
use match_drive::Scratch;
use pcre2_errors::MatchError;
use std::marker::Model;

/// A match, with its captures (pcre2api, "How pcre2_match() returns a string and captured substrings"). All places are
/// in bytes of the subject.
#[derive(Drop)]
pub struct Found<'a> {
    code: &'a Code,
    subject: &'a [u8],
    scratch: &'a Scratch,
    text: Text,
}

/// What a search found, and the workspace that has its captures.
#[derive(Drop)]
pub(crate) struct Held<'a> {
    pub code: &'a Code,
    pub subject: &'a [u8],
    pub scratch: &'a Scratch,
    pub text: Text,
}

/// The text of a match, and its mark.
#[derive(Clone, Copy)]
pub(crate) struct Text {
    pub keep: usize,
    pub to: usize,
    pub mark: Option<u32>,
}

impl<'a> Model for Found<'a> {
    ghost use Rattle.pcre2_api.specs.Matched.{MatchParts, AreParts};

    ghost Value = { MatchParts };

    ghost view = { λ f. record {
      code = f.code.now;
      subject = f.subject.now;
      outcome = record { keep = f.text.keep; to = f.text.to; mark = f.text.mark; caps = f.scratch.now.spans };
    } };

    ghost invariant = { λ f. AreParts (record {
      code = f.code.now;
      subject = f.subject.now;
      outcome = record { keep = f.text.keep; to = f.text.to; mark = f.text.mark; caps = f.scratch.now.spans };
    }) };
}

/// The match that a search found.
pub(crate) fn found_of<'a>(held: Result<Held<'a>, MatchError>) -> Result<Found<'a>, MatchError>
    requires { IfOk held (λ h. AreParts (parts_of h)) }
    ensures { result ≡ as_found held.entry }
{
    match held {
        Ok(held) => Ok(Found {
            code: held.code,
            subject: held.subject,
            scratch: held.scratch,
            text: held.text,
        }),
        Err(e) => Err(e),
    }
}

/// The same of a search in reserved room.
pub(crate) fn reserved_found<'a>(
    held: Result<Held<'a>, ReservedError>,
) -> Result<Found<'a>, ReservedError>
    requires { IfOk held (λ h. AreParts (parts_of h)) }
    ensures { result ≡ as_reserved held.entry }
{
    match held {
        Ok(held) => Ok(Found {
            code: held.code,
            subject: held.subject,
            scratch: held.scratch,
            text: held.text,
        }),
        Err(e) => Err(e),
    }
}

impl<'a> Found<'a> {
    /// The match that a search found, whose captures are in a workspace.
    pub(crate) fn new(
        code: &'a Code,
        subject: &'a [u8],
        scratch: &'a Scratch,
        text: Text,
    ) -> Found<'a>
        requires { AreParts (found_in code.now subject.now text scratch.now) }
        ensures { result ≡ found_in code.now subject.now text scratch.now }
    {
        Found {
            code,
            subject,
            scratch,
            text,
        }
    }

    /// Whether the subject is one in UTF.
    pub fn is_utf(&self) -> bool
        ensures { result ≡ self.now.code.tree.options.utf }
    {
        self.code.options().utf
    }

    /// Where the match begins: at its start place, or where `\K` was met last.
    pub fn start(&self) -> usize
        ensures { result ≡ self.now.outcome.keep }
    {
        self.text.keep
    }

    /// Where the match ends.
    pub fn end(&self) -> usize
        ensures { result ≡ self.now.outcome.to }
    {
        self.text.to
    }

    /// The place of a group's text. Group 0 is the whole match. None where there is no such group, or it is unset.
    pub fn span(&self, n: u32) -> Option<Span>
        ensures { result ≡ span_of self.now.outcome n }
    {
        if n == 0 {
            return Some(Span {
                from: self.text.keep as u64,
                to: self.text.to as u64,
            });
        }
        self.scratch.span(n)
    }

    /// A group's text. Group 0 is the whole match. None where there is no such group, or it is unset.
    pub fn group(&self, n: u32) -> Option<&'a [u8]>
        ensures { option_copied result ≡ group_of self.now n }
    {
        let span = self.span(n)?;
        Some(&self.subject[span.from as usize..span.to as usize])
    }

    /// Whether there is a group of this number.
    pub(crate) fn has_group(&self, n: u32) -> bool
        ensures { result ≡ nat_le n (length self.now.outcome.caps) }
    {
        n <= self.code.info().groups
    }

    /// Whether there is a group of this name.
    pub(crate) fn has_name(&self, name: &[u8]) -> bool
        ensures { result ≡ list_any (λ e. bytes_eq e.name name.now) self.now.code.tree.names }
    {
        self.code
            .names()
            .entries()
            .iter()
            .any(|e| e.name.bytes() == name)
    }

    /// The text of the first set group of this name (pcre2_substring_get_byname). None where there is no such group, or
    /// none of them is set.
    pub fn group_named(&self, name: &[u8]) -> Option<&'a [u8]>
        ensures { option_copied result ≡ named_of self.now name.now }
    {
        let names = self.code.names();
        for i in 0..names.len() {
            if names.name(i) == name {
                if let Some(text) = self.group(u32::from(names.group(i))) {
                    return Some(text);
                }
            }
        }
        None
    }

    /// The greatest number of a set group, 0 where none is set.
    pub fn top(&self) -> u32
        ensures { result ≡ top_of self.now.outcome }
    {
        let mut n = self.code.info().groups;
        while n > 0 {
            if self.scratch.span(n).is_some() {
                return n;
            }
            n -= 1;
        }
        0
    }

    /// The last name on the match's path (pcre2pattern, "Verbs that act immediately"; pcre2_get_mark).
    pub fn mark(&self) -> Option<&'a [u8]>
        ensures { option_copied result ≡ mark_of self.now }
    {
        match self.text.mark {
            Some(id) => self.code.mark_name(id),
            None => None,
        }
    }
}
