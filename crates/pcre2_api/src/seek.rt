//! Searches that hold the workspace. It comes first, since a call can say what it leaves of its
//! first parameter alone.
ghost use Rattle.std.specs.Prelude.{◌≡◌, ⊤, ◌<◌, IfOk, IfErr, OnOk, length, pos, None};
ghost use Rattle.std.specs.Borrow.{sem};
ghost use Rattle.pcre_io.specs.declared.callouts.Block.{Block};
ghost use Rattle.uni_text.specs.Characters.{IsChecked};
ghost use Rattle.match_drive.specs.frame_state.Room.{IsQuiet};
ghost use Rattle.match_drive.specs.Starts.{AreAlike};
ghost use Rattle.pcre2_api.specs.Matched.{search_of, shown_by, AreParts, IsFound, IsMatchError};
ghost use Rattle.pcre2_api.specs.Matched.{HasShown};
ghost use Rattle.pcre2_api.specs.Reserved.{Fits, IsOfMatch, as_match_error};
ghost use Rattle.pcre2_api.specs.Starts.{start_fault};
ghost use Rattle.pcre2_api.specs.Holding.{HasAnswer, Leaves, parts_of};

use crate::code::Code;
use crate::found::Held;
use crate::reserved::ReservedError;
use crate::starts::test_place;
use match_drive::Scratch;
use pat_tree::MatchOptions;
use pcre_io::Callouts;
use pcre2_errors::MatchError;

/// The search of [`Code::match_at`].
pub(crate) fn seek<'a, C: Callouts>(
    scratch: &'a mut Scratch,
    code: &'a Code,
    subject: &'a [u8],
    start: usize,
    options: &MatchOptions,
    calls: &mut C,
) -> Result<Held<'a>, MatchError>
    requires short { length subject.now < 4294967295 }
    ensures* leaves { sem 𝓛 (Leaves scratch.entry
        (search_of code.now options.now subject.now start (C.answers calls.old))
        (HasAnswer result)) }
    ensures parts { IfOk result (λ h. AreParts (parts_of h)) }
    ensures found { IfOk result (λ h. IsFound
        (search_of code.now options.now subject.now start (C.answers calls.old)) (parts_of h)) }
    ensures code { IfOk result (λ h. (h.code.now ≡ code.now) × (h.subject.now ≡ subject.now)) }
    ensures refused { IfErr result (IsMatchError
        (search_of code.now options.now subject.now start (C.answers calls.old))) }
    ensures starts { start_fault code.now.tree.options.utf subject.now start ≡ None
        → AreAlike (search_of code.now options.now subject.now start (C.answers calls.old)) }
    ensures rule { (block : Block) → C.answers calls.new block ≡ C.answers calls.old block }
    ensures seen { OnOk result (C.seen calls.new
        ≡ shown_by
        (search_of code.now options.now subject.now start (C.answers calls.old))
        (C.seen calls.old)) }
    ensures shown { IfErr result (λ e. HasShown e (C.seen calls.new)
        (shown_by
        (search_of code.now options.now subject.now start (C.answers calls.old))
        (C.seen calls.old))) }
    ensures reserved { Fits code.now options.now scratch.old
        → IsQuiet C.refuses (C.answers calls.old) → IfErr result IsOfMatch }
{
    code.starts_are_alike(subject, start, options);
    code.test_start(subject, start)?;
    match code.find(subject, start, options, scratch, calls) {
        Ok(text) => Ok(Held {
            code,
            subject,
            scratch,
            text,
        }),
        Err(e) => Err(e),
    }
}

/// The search of [`Code::match_again`].
pub(crate) fn seek_again<'a, C: Callouts>(
    scratch: &'a mut Scratch,
    code: &'a Code,
    subject: &'a [u8],
    start: usize,
    options: &MatchOptions,
    calls: &mut C,
) -> Result<Held<'a>, MatchError>
    requires checked { IsChecked code.now.tree.options.utf subject.now }
    requires short { length subject.now < 4294967295 }
    ensures* leaves { sem 𝓛 (Leaves scratch.entry
        (search_of code.now options.now subject.now start (C.answers calls.old))
        (HasAnswer result)) }
    ensures parts { IfOk result (λ h. AreParts (parts_of h)) }
    ensures found { IfOk result (λ h. IsFound
        (search_of code.now options.now subject.now start (C.answers calls.old)) (parts_of h)) }
    ensures code { IfOk result (λ h. (h.code.now ≡ code.now) × (h.subject.now ≡ subject.now)) }
    ensures refused { IfErr result (IsMatchError
        (search_of code.now options.now subject.now start (C.answers calls.old))) }
    ensures starts { start_fault code.now.tree.options.utf subject.now start ≡ None
        → AreAlike (search_of code.now options.now subject.now start (C.answers calls.old)) }
    ensures rule { (block : Block) → C.answers calls.new block ≡ C.answers calls.old block }
    ensures seen { OnOk result (C.seen calls.new
        ≡ shown_by
        (search_of code.now options.now subject.now start (C.answers calls.old))
        (C.seen calls.old)) }
    ensures shown { IfErr result (λ e. HasShown e (C.seen calls.new)
        (shown_by
        (search_of code.now options.now subject.now start (C.answers calls.old))
        (C.seen calls.old))) }
    ensures reserved { Fits code.now options.now scratch.old
        → IsQuiet C.refuses (C.answers calls.old) → IfErr result IsOfMatch }
{
    code.starts_are_alike(subject, start, options);
    test_place(code.options().utf, subject, start)?;
    match code.find(subject, start, options, scratch, calls) {
        Ok(text) => Ok(Held {
            code,
            subject,
            scratch,
            text,
        }),
        Err(e) => Err(e),
    }
}

/// The search of [`Code::match_reserved`].
pub(crate) fn seek_reserved<'a>(
    scratch: &'a mut Scratch,
    code: &'a Code,
    subject: &'a [u8],
    start: usize,
    options: &MatchOptions,
) -> Result<Held<'a>, ReservedError>
    requires fits { Fits code.now options.now scratch.old }
    requires short { length subject.now < 4294967295 }
    ensures* leaves { sem 𝓛 (Leaves scratch.entry
        (search_of code.now options.now subject.now start (λ block. pos 0)) ⊤) }
    ensures parts { IfOk result (λ h. AreParts (parts_of h)) }
    ensures found { IfOk result (λ h. IsFound
        (search_of code.now options.now subject.now start (λ block. pos 0)) (parts_of h)) }
    ensures code { IfOk result (λ h. (h.code.now ≡ code.now) × (h.subject.now ≡ subject.now)) }
    ensures refused { IfErr result (λ e. IsMatchError
        (search_of code.now options.now subject.now start (λ block. pos 0)) (as_match_error e)) }
{
    match code.find_reserved(subject, start, options, scratch) {
        Ok(text) => Ok(Held {
            code,
            subject,
            scratch,
            text,
        }),
        Err(e) => Err(e),
    }
}
