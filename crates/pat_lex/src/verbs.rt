//! What begins with `(*` and a word: verbs (pcre2pattern, "Backtracking control"), groups by name ("Groups",
//! "Assertions"), and items for the very start ("Special start-of-pattern items").
ghost use Rattle.std.specs.Prelude.{◌≡◌, ◌+◌, ◌<◌, ◌≤◌, ℕ, List, length, IfSome};
ghost use Rattle.token_parts.specs.Tell.{IsSound, IsKind};
ghost use Rattle.pat_lex.specs.Verbs.{start_word, verb_word, group_word, is_script_run, named_verb, closed_word};
ghost use Rattle.pat_lex.specs.Verbs.{colon_word, limit, star_word};

use crate::faults::{MARK_WITHOUT_NAME, UNKNOWN_VERB, VERB_NAME_TOO_LONG};
use pat_tree::{Bsr, Newline};
use token_parts::{
    Fault, LEFT_OUT, Lexed, OpenKind, Run, StartItem, Token, VerbKind, numeral, run_end, stands,
};

/// The greatest length of a verb's name in bytes.
const LONGEST_NAME: usize = 255;

/// The item of a word before `)`.
#[tactic(auto, unfolding(crate::specs::Verbs::start_word))]
fn start_word(word: &[u8]) -> Option<StartItem>
    ensures { result ≡ start_word word.now }
{
    if let Some(newline) = Newline::by_name(word) {
        return Some(StartItem::NewlineIs(newline));
    }
    if word == b"UTF".as_slice() {
        Some(StartItem::Utf)
    } else if word == b"UCP".as_slice() {
        Some(StartItem::Ucp)
    } else if word == b"NOTEMPTY".as_slice() {
        Some(StartItem::NotEmpty)
    } else if word == b"NOTEMPTY_ATSTART".as_slice() {
        Some(StartItem::NotEmptyAtStart)
    } else if word == b"NO_START_OPT".as_slice() {
        Some(StartItem::NoStartOpt)
    } else if word == b"NO_AUTO_POSSESS".as_slice() {
        Some(StartItem::NoEffect)
    } else if word == b"NO_DOTSTAR_ANCHOR".as_slice() {
        Some(StartItem::NoEffect)
    } else if word == b"NO_JIT".as_slice() {
        Some(StartItem::NoEffect)
    } else if word == b"BSR_ANYCRLF".as_slice() {
        Some(StartItem::BsrIs(Bsr::AnyCrLf))
    } else if word == b"BSR_UNICODE".as_slice() {
        Some(StartItem::BsrIs(Bsr::Unicode))
    } else {
        None
    }
}

/// The verb of a word before `)` or `:`. A colon without a word is MARK's.
#[tactic(auto, unfolding(crate::specs::Verbs::verb_word))]
fn verb_word(word: &[u8]) -> Option<VerbKind>
    ensures { result ≡ verb_word word.now }
{
    if word == b"ACCEPT".as_slice() {
        Some(VerbKind::Accept)
    } else if word == b"FAIL".as_slice() {
        Some(VerbKind::Fail)
    } else if word == b"F".as_slice() {
        Some(VerbKind::Fail)
    } else if word == b"COMMIT".as_slice() {
        Some(VerbKind::Commit)
    } else if word == b"PRUNE".as_slice() {
        Some(VerbKind::Prune)
    } else if word == b"SKIP".as_slice() {
        Some(VerbKind::Skip)
    } else if word == b"THEN".as_slice() {
        Some(VerbKind::Then)
    } else if word == b"MARK".as_slice() {
        Some(VerbKind::Mark)
    } else if word == b"".as_slice() {
        Some(VerbKind::Mark)
    } else {
        None
    }
}

/// A lookaround.
pub(crate) fn look(ahead: bool, positive: bool, atomic: bool) -> OpenKind
    ensures { result ≡ OpenKind.Look ahead positive atomic }
{
    OpenKind::Look {
        ahead,
        positive,
        atomic,
    }
}

/// The group of a word before `:`.
#[tactic(auto, unfolding(crate::specs::Verbs::group_word))]
fn group_word(word: &[u8]) -> Option<OpenKind>
    ensures value { result ≡ group_word word.now }
    ensures well { IfSome result (λ kind. (text : List ℕ) → IsKind text kind) }
{
    if word == b"atomic".as_slice() {
        Some(OpenKind::Atomic)
    } else if word == b"pla".as_slice() {
        Some(look(true, true, true))
    } else if word == b"positive_lookahead".as_slice() {
        Some(look(true, true, true))
    } else if word == b"nla".as_slice() {
        Some(look(true, false, true))
    } else if word == b"negative_lookahead".as_slice() {
        Some(look(true, false, true))
    } else if word == b"plb".as_slice() {
        Some(look(false, true, true))
    } else if word == b"positive_lookbehind".as_slice() {
        Some(look(false, true, true))
    } else if word == b"nlb".as_slice() {
        Some(look(false, false, true))
    } else if word == b"negative_lookbehind".as_slice() {
        Some(look(false, false, true))
    } else if word == b"napla".as_slice() {
        Some(look(true, true, false))
    } else if word == b"non_atomic_positive_lookahead".as_slice() {
        Some(look(true, true, false))
    } else if word == b"naplb".as_slice() {
        Some(look(false, true, false))
    } else if word == b"non_atomic_positive_lookbehind".as_slice() {
        Some(look(false, true, false))
    } else {
        None
    }
}

/// Whether a word before `:` begins a script run.
#[tactic(auto, unfolding(crate::specs::Verbs::is_script_run))]
fn is_script_run(word: &[u8]) -> bool
    ensures { result ≡ is_script_run word.now }
{
    word == b"sr".as_slice()
        || (word == b"script_run".as_slice()
            || (word == b"asr".as_slice() || word == b"atomic_script_run".as_slice()))
}

/// A verb with its name, which goes from a place to the next `)`.
#[tactic(auto, unfolding(crate::specs::Verbs::named_verb))]
fn named_verb(text: &[u8], at: usize, verb: VerbKind, from: usize) -> Lexed
    requires order { at ≤ from }
    requires within { from ≤ length text.now }
    ensures value { result ≡ named_verb text.now at verb from }
    ensures sound { IsSound text.now at result }
{
    let to = run_end(text, Run::Until(b')'), from);
    if !stands(text, b')', to) {
        Err(Fault::new(UNKNOWN_VERB, at))
    } else if to - from > LONGEST_NAME {
        Err(Fault::new(VERB_NAME_TOO_LONG, at))
    } else if matches!(verb, VerbKind::Mark) && from == to {
        Err(Fault::new(MARK_WITHOUT_NAME, at))
    } else {
        Ok((Token::VerbItem { verb, from, to }, to + 1))
    }
}

/// A word up to a place with `)` after it.
#[tactic(auto, unfolding(crate::specs::Verbs::closed_word))]
fn closed_word(text: &[u8], at: usize, to: usize) -> Lexed
    requires order { at + 2 ≤ to }
    requires within { to < length text.now }
    ensures value { result ≡ closed_word text.now at to }
    ensures sound { IsSound text.now at result }
{
    let word = &text[at + 2..to];
    if let Some(item) = start_word(word) {
        return Ok((Token::Start(item), to + 1));
    }
    match verb_word(word) {
        Some(verb) => named_verb(text, at, verb, to),
        None => Err(Fault::new(UNKNOWN_VERB, at)),
    }
}

/// A word up to a place with `:` after it.
#[tactic(auto, unfolding(crate::specs::Verbs::colon_word))]
fn colon_word(text: &[u8], at: usize, to: usize) -> Lexed
    requires order { at + 2 ≤ to }
    requires within { to < length text.now }
    ensures value { result ≡ colon_word text.now at to }
    ensures sound { IsSound text.now at result }
{
    let word = &text[at + 2..to];
    if let Some(verb) = verb_word(word) {
        return named_verb(text, at, verb, to + 1);
    }
    if let Some(kind) = group_word(word) {
        return Ok((Token::Open(kind), to + 1));
    }
    if is_script_run(word) {
        Err(Fault::new(LEFT_OUT, at))
    } else {
        Err(Fault::new(UNKNOWN_VERB, at))
    }
}

/// `(*LIMIT_MATCH=d)`, the word up to a place with `=` after it.
#[tactic(auto, unfolding(crate::specs::Verbs::limit))]
fn limit(text: &[u8], at: usize, to: usize) -> Lexed
    requires order { at + 2 ≤ to }
    requires within { to < length text.now }
    ensures value { result ≡ limit text.now at to }
    ensures sound { IsSound text.now at result }
{
    let end = run_end(text, Run::Digits(10), to + 1);
    let number = numeral(text, 10, to + 1, end);
    let is_limit = &text[at + 2..to] == b"LIMIT_MATCH".as_slice();
    if is_limit && (end > to + 1 && (number <= u64::from(u32::MAX) && stands(text, b')', end))) {
        Ok((Token::Start(StartItem::LimitMatch(number as u32)), end + 1))
    } else {
        Err(Fault::new(UNKNOWN_VERB, at))
    }
}

/// `(*` with a letter or a colon after it.
#[tactic(auto, unfolding(crate::specs::Verbs::star_word))]
pub(crate) fn star_word(text: &[u8], at: usize) -> Lexed
    requires { at + 2 ≤ length text.now }
    ensures value { result ≡ star_word text.now at }
    ensures sound { IsSound text.now at result }
{
    let to = run_end(text, Run::Word, at + 2);
    if stands(text, b')', to) {
        closed_word(text, at, to)
    } else if stands(text, b':', to) {
        colon_word(text, at, to)
    } else if stands(text, b'=', to) {
        limit(text, at, to)
    } else {
        Err(Fault::new(UNKNOWN_VERB, at))
    }
}
