//! What the modifiers of a list say.
ghost use Rattle.std.specs.Prelude.{◌≡◌, IfOk};
ghost use Rattle.test_modifiers.specs.Modifiers.{ungiven, over};

use pat_tree::{Bsr, ByteList, Memory, Newline};
use std::alloc::Global;

/// What the modifiers of a list say (pcre2test, "PATTERN MODIFIERS" and "SUBJECT MODIFIERS"). A modifier that isn't
/// given is None, and an on-off one that is given with `-` is false.
#[derive(Debug, Drop)]
pub struct Modifiers {
    /// Matches only at the place where the search begins.
    pub anchored: Option<bool>,
    /// Matches only up to the subject's end.
    pub endanchored: Option<bool>,
    /// Letters match in any case.
    pub caseless: Option<bool>,
    /// `^` and `$` match at newlines too.
    pub multiline: Option<bool>,
    /// `.` matches newlines.
    pub dotall: Option<bool>,
    /// White space and comments in the pattern are ignored.
    pub extended: Option<bool>,
    /// The same, and blanks in classes too.
    pub extended_more: Option<bool>,
    /// `$` doesn't match before a last newline.
    pub dollar_endonly: Option<bool>,
    /// Several groups may have one name.
    pub dupnames: Option<bool>,
    /// A match begins in the subject's first line.
    pub firstline: Option<bool>,
    /// Every character of the pattern stands for itself.
    pub literal: Option<bool>,
    /// Plain parentheses don't capture.
    pub no_auto_capture: Option<bool>,
    /// Quantifiers are lazy unless `?` follows.
    pub ungreedy: Option<bool>,
    /// Pattern and subjects are UTF-8.
    pub utf: Option<bool>,
    /// Classes go by Unicode properties.
    pub ucp: Option<bool>,
    /// `[]` is a class that matches nothing.
    pub allow_empty_class: Option<bool>,
    /// A reference to an unset group matches the empty text.
    pub match_unset_backref: Option<bool>,
    /// No start place is left out.
    pub no_start_optimize: Option<bool>,
    /// A callout stands before each item.
    pub auto_callout: Option<bool>,
    /// Facts of the pattern are shown.
    pub info: Option<bool>,
    /// Marks are shown.
    pub mark: Option<bool>,
    /// All matches are shown, or replaced.
    pub global: Option<bool>,
    /// The replacement has its extended syntax.
    pub substitute_extended: Option<bool>,
    /// The replacement stands for itself.
    pub substitute_literal: Option<bool>,
    /// An unset group is the empty text in a replacement.
    pub substitute_unset_empty: Option<bool>,
    /// A group that doesn't exist counts as unset in a replacement.
    pub substitute_unknown_unset: Option<bool>,
    /// Only the replacements are shown.
    pub substitute_replacement_only: Option<bool>,
    /// The DFA matcher is used.
    pub dfa: Option<bool>,
    /// It gives its shortest match alone.
    pub dfa_shortest: Option<bool>,
    /// A partial match is looked for where there is no whole one.
    pub partial_soft: Option<bool>,
    /// A partial match is looked for before a whole one.
    pub partial_hard: Option<bool>,
    /// The subject's begin is no line's begin.
    pub notbol: Option<bool>,
    /// The subject's end is no line's end.
    pub noteol: Option<bool>,
    /// The empty text is no match.
    pub notempty: Option<bool>,
    /// The empty text is no match where the search begins.
    pub notempty_atstart: Option<bool>,
    /// Callouts go on and show nothing.
    pub callout_none: Option<bool>,
    /// Where in the subject the search begins, in bytes.
    pub offset: Option<u32>,
    /// The greatest number of steps at one start place.
    pub match_limit: Option<u32>,
    /// The greatest number of units that a path may hold.
    pub frame_limit: Option<u32>,
    /// The callout of this number fails.
    pub callout_fail: Option<u32>,
    /// The callout of this number ends the match with an error.
    pub callout_error: Option<u32>,
    /// What ends a line in pattern and subjects.
    pub newline: Option<Newline>,
    /// What `\R` matches.
    pub bsr: Option<Bsr>,
    /// Matches are replaced by this text.
    pub replace: Option<ByteList>,
}

impl Modifiers {
    /// No modifier is given.
    pub fn none() -> Modifiers
        ensures { result ≡ ungiven }
    {
        Modifiers {
            anchored: None,
            endanchored: None,
            caseless: None,
            multiline: None,
            dotall: None,
            extended: None,
            extended_more: None,
            dollar_endonly: None,
            dupnames: None,
            firstline: None,
            literal: None,
            no_auto_capture: None,
            ungreedy: None,
            utf: None,
            ucp: None,
            allow_empty_class: None,
            match_unset_backref: None,
            no_start_optimize: None,
            auto_callout: None,
            info: None,
            mark: None,
            global: None,
            substitute_extended: None,
            substitute_literal: None,
            substitute_unset_empty: None,
            substitute_unknown_unset: None,
            substitute_replacement_only: None,
            dfa: None,
            dfa_shortest: None,
            partial_soft: None,
            partial_hard: None,
            notbol: None,
            noteol: None,
            notempty: None,
            notempty_atstart: None,
            callout_none: None,
            offset: None,
            match_limit: None,
            frame_limit: None,
            callout_fail: None,
            callout_error: None,
            newline: None,
            bsr: None,
            replace: None,
        }
    }

    /// Each modifier that is given here, else as it was given earlier.
    pub fn over(self, earlier: Modifiers) -> Modifiers
        ensures { result ≡ over self earlier }
    {
        Modifiers {
            anchored: self.anchored.or(earlier.anchored),
            endanchored: self.endanchored.or(earlier.endanchored),
            caseless: self.caseless.or(earlier.caseless),
            multiline: self.multiline.or(earlier.multiline),
            dotall: self.dotall.or(earlier.dotall),
            extended: self.extended.or(earlier.extended),
            extended_more: self.extended_more.or(earlier.extended_more),
            dollar_endonly: self.dollar_endonly.or(earlier.dollar_endonly),
            dupnames: self.dupnames.or(earlier.dupnames),
            firstline: self.firstline.or(earlier.firstline),
            literal: self.literal.or(earlier.literal),
            no_auto_capture: self.no_auto_capture.or(earlier.no_auto_capture),
            ungreedy: self.ungreedy.or(earlier.ungreedy),
            utf: self.utf.or(earlier.utf),
            ucp: self.ucp.or(earlier.ucp),
            allow_empty_class: self.allow_empty_class.or(earlier.allow_empty_class),
            match_unset_backref: self.match_unset_backref.or(earlier.match_unset_backref),
            no_start_optimize: self.no_start_optimize.or(earlier.no_start_optimize),
            auto_callout: self.auto_callout.or(earlier.auto_callout),
            info: self.info.or(earlier.info),
            mark: self.mark.or(earlier.mark),
            global: self.global.or(earlier.global),
            substitute_extended: self.substitute_extended.or(earlier.substitute_extended),
            substitute_literal: self.substitute_literal.or(earlier.substitute_literal),
            substitute_unset_empty: self
                .substitute_unset_empty
                .or(earlier.substitute_unset_empty),
            substitute_unknown_unset: self
                .substitute_unknown_unset
                .or(earlier.substitute_unknown_unset),
            substitute_replacement_only: self
                .substitute_replacement_only
                .or(earlier.substitute_replacement_only),
            dfa: self.dfa.or(earlier.dfa),
            dfa_shortest: self.dfa_shortest.or(earlier.dfa_shortest),
            partial_soft: self.partial_soft.or(earlier.partial_soft),
            partial_hard: self.partial_hard.or(earlier.partial_hard),
            notbol: self.notbol.or(earlier.notbol),
            noteol: self.noteol.or(earlier.noteol),
            notempty: self.notempty.or(earlier.notempty),
            notempty_atstart: self.notempty_atstart.or(earlier.notempty_atstart),
            callout_none: self.callout_none.or(earlier.callout_none),
            offset: self.offset.or(earlier.offset),
            match_limit: self.match_limit.or(earlier.match_limit),
            frame_limit: self.frame_limit.or(earlier.frame_limit),
            callout_fail: self.callout_fail.or(earlier.callout_fail),
            callout_error: self.callout_error.or(earlier.callout_error),
            newline: self.newline.or(earlier.newline),
            bsr: self.bsr.or(earlier.bsr),
            replace: self.replace.or(earlier.replace),
        }
    }

    /// The same modifiers once more. Memory may be wanting.
    pub fn copied(&self, alloc: Global) -> Result<Modifiers, Memory>
        ensures { IfOk result (λ modifiers. modifiers ≡ self.now) }
    {
        let replace = match &self.replace {
            Some(text) => Some(ByteList::from_vec(Vec::from_slice(alloc, text.bytes())?)),
            None => None,
        };
        Ok(Modifiers { replace, ..*self })
    }
}
