//! Shapes of patterns whose searches of a line pass no limit.
ghost use Rattle.std.specs.Prelude.{◌≡◌, ◌+◌, ◌<◌, ◌≤◌, ◌||◌, IfOk, IfSome, false, true};
ghost use Rattle.pat_tree.specs.declared.options.Newline.TheVariants.{Lf};
ghost use Rattle.pat_tree.specs.declared.options.PartialMode.TheVariants.{Off};
ghost use Rattle.pat_tree.specs.Parts.{tree_of};
ghost use Rattle.char_sets.specs.Sets.{class_has};
ghost use Rattle.char_sets.specs.Table.{IsTableOf};
ghost use Rattle.pat_bounds.specs.Bounds as spec;
ghost use Rattle.pat_bounds.specs.Bounds.{at};
ghost use Rattle.pat_bounds.specs.BoundTables.{Refines};
ghost use Rattle.ordered_search.specs.Setting.{lower_of};
ghost use Rattle.regex_hir.specs.Meaning.{meaning};
ghost use Rattle.pat_shape.specs.IsShape.{IsShape};
ghost use Rattle.pat_shape.specs.Lines.{IsLineShape, IsExactLineShape, IsPlainUnder};

use crate::plain::is_plain;
use crate::shape::shape_of;
use char_sets::ClassTable;
use pat_bounds::{Bound, bounds_of};
use pat_tree::{MatchOptions, Memory, Newline, Options, Tree};
use regex_hir::Hir;
use std::alloc::Global;

/// An expression of the kit's for a pattern's searches of lines.
#[derive(Drop)]
pub struct LineShape {
    pub hir: Hir,
    /// Whether a line in which it is found has a match.
    pub is_exact: bool,
}

/// The shape of a pattern, for subjects of at most `most` bytes without LF: one in which it isn't found has no match,
/// and a search of it passes no limit of `matching`. An exact one is found nowhere else. None where the pattern has no
/// shape, or where such a search could pass a limit.
pub fn line_shape(
    alloc: Global,
    tree: &Tree,
    classes: &ClassTable,
    most: u32,
    matching: &MatchOptions,
) -> Result<Option<LineShape>, Memory>
    requires table { IsTableOf tree.now classes.now }
    requires whole { matching.now.«partial» ≡ Off }
    ensures shape { IfOk result (λ o. IfSome o (λ shape.
        IsLineShape tree.now matching.now most (meaning shape.hir))) }
    ensures exact { IfOk result (λ o. IfSome o (λ shape. shape.is_exact ≡ true
        → IsExactLineShape tree.now matching.now most (meaning shape.hir))) }
{
    match whole_bound(alloc, tree, classes)? {
        Some(bound) if is_within(&bound, most, tree.options(), matching) => {
            shape_under(alloc, tree, classes, matching)
        }
        _ => Ok(None),
    }
}

/// The shape, and whether it is exact under these options.
fn shape_under(
    alloc: Global,
    tree: &Tree,
    classes: &ClassTable,
    matching: &MatchOptions,
) -> Result<Option<LineShape>, Memory>
    requires { IsTableOf tree.now classes.now }
    ensures shape { IfOk result (λ o. IfSome o (λ shape.
        IsShape tree.now true (tree_of tree.now) (meaning shape.hir))) }
    ensures exact { IfOk result (λ o. IfSome o (λ shape. shape.is_exact ≡ true
        → IsPlainUnder tree.now matching.now)) }
{
    let Some(hir) = shape_of(alloc, tree, classes, true)? else {
        return Ok(None);
    };
    let is_exact = is_plain_under(alloc, tree, matching)?;
    Ok(Some(LineShape { hir, is_exact }))
}

/// Whether the shape is exact under these options.
fn is_plain_under(alloc: Global, tree: &Tree, matching: &MatchOptions) -> Result<bool, Memory>
    ensures { IfOk result (λ is. is ≡ true → IsPlainUnder tree.now matching.now) }
{
    if is_free(tree.options(), matching) {
        is_plain(alloc, tree)
    } else {
        Ok(false)
    }
}

/// Whether any match counts and any place is tried, outside UTF, in lines that end by LF alone.
fn is_free(options: &Options, matching: &MatchOptions) -> bool
    ensures bytes { result ≡ true → options.now.utf ≡ false }
    ensures by_lf { result ≡ true → options.now.newline ≡ Lf }
    ensures starts { result ≡ true → (options.now.anchored || matching.now.anchored) ≡ false }
    ensures ends { result ≡ true
        → (options.now.endanchored || matching.now.endanchored) ≡ false }
    ensures further { result ≡ true → options.now.firstline ≡ false }
    ensures some { result ≡ true → (options.now.notempty || matching.now.notempty) ≡ false }
    ensures there { result ≡ true
        → (options.now.notempty_atstart || matching.now.notempty_atstart) ≡ false }
{
    if options.utf || options.newline != Newline::Lf || options.firstline {
        return false;
    }
    if options.anchored || matching.anchored || options.endanchored || matching.endanchored {
        return false;
    }
    let some = options.notempty || matching.notempty;
    !some && !options.notempty_atstart && !matching.notempty_atstart
}

/// How much a search for the pattern takes at most, where it is known.
fn whole_bound(alloc: Global, tree: &Tree, classes: &ClassTable) -> Result<Option<Bound>, Memory>
    requires { IsTableOf tree.now classes.now }
    ensures { IfOk result (λ o. Refines o (spec.bound (class_has tree.now) (tree_of tree.now))) }
{
    let mut bounds = bounds_of(alloc, tree, classes)?;
    match bounds.pop() {
        Some(bound) => Ok(bound),
        None => Ok(None),
    }
}

/// The greatest number of Steps at a place: the pattern may lower that of the match.
fn match_limit(options: &Options, matching: &MatchOptions) -> u32
    ensures { result ≡ lower_of options.now.match_limit matching.now.match_limit }
{
    match options.match_limit {
        Some(limit) => limit.min(matching.match_limit),
        None => matching.match_limit,
    }
}

/// Whether what a search of so many bytes takes is within the limits.
fn is_within(bound: &Bound, most: u32, options: &Options, matching: &MatchOptions) -> bool
    ensures steps { result ≡ true → at bound.now.steps (most + 1)
        ≤ lower_of options.now.match_limit matching.now.match_limit }
    ensures units { result ≡ true → at bound.now.units (most + 1) ≤ matching.now.frame_limit }
{
    let size = u64::from(most) + 1;
    bound.units.is_within(size, matching.frame_limit)
        && bound.steps.is_within(size, match_limit(options, matching))
}
