//! The kinds of records: what each record of a search stands for.
//!
//! A search follows one path through the pattern, as pcre2matching describes it. Each event on the path that can be
//! taken back, or whose end is still to come, leaves a record, and the newest is gone back to first where the path
//! fails.
//!
//! `node` and `link` say where the event was. But for undo records, the fields from `mark` to `units` and from `place`
//! to `early` keep the path as it was at the event, so that it can be taken up again. What `slot`, `count`, `from` and
//! `to` mean is said at each kind that has them. A kind that is not listed here has nothing left to try.
//!
//! The parts of a pattern that leave records are those of pcre2pattern, from "Vertical bar" to "Backtracking control".

/// A register was written. `slot` is the register, and its old value is the span from `from` to `to` where `count` is
/// 1, and unset where `count` is another number.
pub const KIND_UNDO: u8 = 0;
/// A branch began, and a later one is left to try, which is branch number `count`.
pub const KIND_LATER_BRANCH: u8 = 1;
/// A capturing group was entered at `place`, in the course of the pattern. Its end writes the capture.
pub const KIND_GROUP_OPEN: u8 = 2;
/// A capturing group was entered at `place` by a call. Its end writes the capture and ends the call.
pub const KIND_CALLED_GROUP: u8 = 3;
/// A turn of a group repeat began at `place`, after `count` turns. Nothing else is left to try.
pub const KIND_TURN_OPEN: u8 = 4;
/// A turn of a group repeat began at `place`, after `count` turns. Where it fails, the repeat can still end there.
pub const KIND_TURN_OR_EXIT: u8 = 5;
/// A lazy group repeat ended after `count` turns. Where what follows fails, a further turn can still be made.
pub const KIND_LATER_TURN: u8 = 6;
/// A greedy one-item repeat went on at `to`. It can still go on at each place back to `from`.
pub const KIND_FEWER_ITEMS: u8 = 7;
/// A lazy one-item repeat went on at `to`, after `count` items. It can still take further ones.
pub const KIND_MORE_ITEMS: u8 = 8;
/// An atomic group was entered.
pub const KIND_ATOMIC_OPEN: u8 = 9;
/// A positive lookaround was entered, of which only the first outcome is kept.
pub const KIND_LOOK_OPEN: u8 = 10;
/// A positive non-atomic lookaround was entered, of which all outcomes are kept.
pub const KIND_LOOK_ALL_OPEN: u8 = 11;
/// A positive lookaround was entered as a condition. Where it fails, the condition is false.
pub const KIND_LOOK_TEST: u8 = 12;
/// A negative lookaround was entered. Where it fails, the path goes on.
pub const KIND_DENIAL_OPEN: u8 = 13;
/// A negative lookaround was entered as a condition. Where it fails, the condition is true.
pub const KIND_DENIAL_TEST: u8 = 14;
/// A call of group number `slot` began at `place`. No call that was active then, nor this one, began past `from`.
pub const KIND_CALL_OPEN: u8 = 15;
/// An atomic group or lookaround was left with its first outcome. What it left to try, all records past height `from`,
/// is dropped together where the path fails.
pub const KIND_ATOMIC_LEFT: u8 = 16;
/// MARK was passed, or ACCEPT or FAIL with a name. The name is `mark`, met at `place`.
pub const KIND_MARK_PASSED: u8 = 17;
/// COMMIT was passed. Where the path fails, the search goes back to height `from` at once, which ends it where that is
/// 0.
pub const KIND_COMMIT_PASSED: u8 = 18;
/// PRUNE was passed. Where the path fails, the search goes back to height `from` at once, which ends it at this start
/// place where that is 0.
pub const KIND_PRUNE_PASSED: u8 = 19;
/// SKIP was passed. Where the path fails, the search goes back to height `from` at once. Where that is 0, it ends at
/// this start place, and the next one is `to`.
pub const KIND_SKIP_PASSED: u8 = 20;
/// THEN was passed in the branch `node`. Where the path fails, that branch has failed.
pub const KIND_THEN_PASSED: u8 = 21;
/// A branch of a lookbehind at `place` began. It can still begin nearer to `place`: first `count` characters before it,
/// and then fewer, down to the branch's least length.
pub const KIND_LATER_TRY: u8 = 22;
