// Texts of which every match of a part of a pattern takes one.
ghost use Rattle.std.specs.Prelude.{◌≡◌, ◌⊎◌, ℕ, ◌+◌, ◌<◌, ◌≤◌, ◌∷◌, [], ◌&&◌, ◌||◌, ◌==◌, nat_lt, if◌then◌else◌};
ghost use Rattle.std.specs.Prelude.{Bool, true, false, None, Some, All, List, map, IfOk, IfSome, length};
ghost use Rattle.byte_lanes.specs.Sets.{has_byte};
ghost use Rattle.char_sets.specs.Sets.{class_has};
ghost use Rattle.pat_tree.specs.declared.nodes.Item.{Item};
ghost use Rattle.pat_tree.specs.Nested.{Nested, Row, one, seq, group, none, more, trees, tree_at, nest, row};
ghost use Rattle.pat_tree.specs.Parts.{TreeParts, tree_of};
ghost use Rattle.pat_tree.specs.Rules.{kids_of, classes_of, class_in};
ghost use Rattle.char_sets.specs.Table.{IsTableOf};
ghost use Rattle.pat_needs.specs.declared.needs.Wanted.{Wanted};
ghost use Rattle.pat_needs.specs.Needs.{may_begin, may_take, Needs, TakesOf, IsTaking, IsShort, Begins, copies};
ghost use Rattle.pat_needs.specs.Texts.{sets_of};
ghost use Rattle.pat_needs.specs.NeedTables.{may_of, IsNeed, IsItemNeed, IsRun, IsSomeNeed, AreAllNeeds, KeepNeeds};
ghost use Rattle.pat_needs.specs.NeedTables.{AreNeeds, IsBehind, IsDistant, IsNeedOf};
ghost use Rattle.pat_needs.specs.declared.lacking.Lacking.{Lacking};
ghost use Rattle.pat_needs.specs.Distances.{IsLong, NeedsAt};
ghost use Rattle.pat_needs.specs.declared.needs.Distant.{Distant};

use crate::choice::{Choice, rarer_than, rarest_of, rate_of, run_weights, text_of, weighed};
use crate::lacking::{Lacking, lacking_of};
use crate::same::is_same_text;
use crate::text::ByteText;
use crate::weights::{
    ANY, COMMON, both_weights, commonness, rarest_place, rate, repeated_weight, weight_of,
    weight_of_cases, weights_of,
};
use byte_lanes::ByteSet;
use char_sets::{ClassTable, add_range, both_cases};
use pat_bounds::{Bound, bounds_of};
use pat_tree::{Item, Memory, Node, NodeId, Tree};
use std::alloc::Global;

/// A text of which every match takes one, and what a search takes at most. So a subject without such a text has no
/// match, and within the limits a search of it passes none.
#[derive(Drop)]
pub struct Need {
    pub text: ByteText,
    /// What a search takes at most where the text stands nowhere: parts behind those that take it
    /// never run then.
    pub lacking: Bound,
    /// A text at a distance from where every match begins, where one is known that may tell more than the first bytes.
    pub begin: Option<BeginText>,
    /// Whether the two are the same text, so that who goes by the second needn't look for the first.
    pub is_begin: bool,
    /// Another text that every match takes, further on, where one is known.
    pub other: Option<ByteText>,
    pub bound: Bound,
}

/// A text that every match takes so many bytes behind the place where it begins.
#[derive(Drop)]
pub struct BeginText {
    pub text: ByteText,
    /// 0 to 255.
    pub distance: u16,
}

/// The bytes that an item takes, and how common they are.
#[derive(Drop)]
pub(crate) struct Taken {
    pub bytes: ByteSet,
    pub weight: u32,
    /// Whether in UTF each character that it takes is one byte.
    pub is_short: bool,
}

/// A text of which every match of a part takes one, and how common the bytes of each place are.
#[derive(Drop)]
pub(crate) struct Wanted {
    pub text: ByteText,
    pub weights: [u32; 3],
    /// Whether the part is one item, and the text is what it takes.
    pub is_item: bool,
    /// Whether that item takes one byte.
    pub is_short: bool,
}

/// A text that every match of some parts takes so many bytes behind the place where it begins.
#[derive(Drop)]
pub(crate) struct Distant {
    pub wanted: Wanted,
    pub distance: u16,
}

/// A text that is chosen, and how far it stands behind where the parts begin.
#[derive(Clone, Copy)]
pub(crate) struct Far {
    pub choice: Choice,
    pub distance: u16,
}

// The greatest distance of a text from where a match begins.
const FARTHEST: u16 = 255;

/// The text that every match of a pattern needs with the pattern's bound, where both are known. Needs the table of the
/// tree's own classes.
pub fn need_of(alloc: Global, tree: &Tree, classes: &ClassTable) -> Result<Option<Need>, Memory>
    requires table { IsTableOf tree.now classes.now }
    ensures { IfOk result (λ need. IfSome need (IsNeedOf tree.now)) }
{
    let root = tree.root() as usize;
    let bounds = bounds_of(alloc, tree, classes)?;
    let Some(bound) = bounds[root] else {
        return Ok(None);
    };
    let needs = needs_of(alloc, tree, classes, true)?;
    if needs[root].is_none() {
        return Ok(None);
    }
    let lacking = lacking_of(tree, classes, &bounds, &needs);
    let begins = needs_of(alloc, tree, classes, false)?;
    let begin = begin_of(tree, &begins);
    let other = further_on(tree, &needs);
    Ok(with_bound(lacking, begin, other, bound))
}

/// The rarest text that every match takes behind the first part that is more than one item, of a pattern that is one
/// sequence.
fn further_on(tree: &Tree, needs: &[Option<Wanted>]) -> Option<ByteText>
    requires { length needs.now ≡ tree.now.root + 1 }
    ensures { KeepNeeds (may_of tree.now) tree.now.options.utf true (trees tree.now.nodes) needs.now
        → IfSome result (λ other. Needs (may_of tree.now) tree.now.options.utf true
        (sets_of other) (tree_of tree.now)) }
{
    let parts = only_parts(tree)?;
    let mut from = 0;
    'items: while from < parts.len() && is_single(&needs[parts[from] as usize]) {
        from += 1;
    }
    if from == parts.len() {
        return None;
    }
    let other = rarest(&parts[from + 1..], needs, true)?;
    Some(sought(&other))
}

fn is_single(need: &Option<Wanted>) -> bool {
    match need {
        Some(wanted) => wanted.is_item,
        None => false,
    }
}

/// The text that every match takes at a distance from where it begins, where it may tell more than the bytes that are
/// known as the first ones: another byte than the first, or in UTF that it doesn't begin with any byte past ASCII.
fn begin_of(tree: &Tree, begins: &[Option<Wanted>]) -> Option<BeginText>
    requires { length begins.now ≡ tree.now.root + 1 }
    ensures { KeepNeeds (may_of tree.now) tree.now.options.utf false
        (trees tree.now.nodes) begins.now
        → IfSome result (λ begin. NeedsAt (may_of tree.now) tree.now.options.utf
        (sets_of begin.text) begin.distance (tree_of tree.now)) }
{
    let here = at_once(copy_of(&begins[tree.root() as usize]));
    told(nearer(behind_begin(tree, begins), here), tree.options().utf)
}

/// The text, where it may tell more than the first bytes do.
fn told(distant: Option<Distant>, utf: bool) -> Option<BeginText>
    ensures { IfSome result (λ begin. (far : Distant) × ((distant ≡ Some far)
        × ((sets_of begin.text ≡ sets_of far.wanted.text) × (begin.distance ≡ far.distance)))) }
{
    match distant {
        Some(far) if far.distance > 0 || tells_more(&far.wanted.text, utf) => Some(BeginText {
            text: sought(&far.wanted),
            distance: far.distance,
        }),
        _ => None,
    }
}

fn tells_more(text: &ByteText, utf: bool) -> bool {
    text.second.is_some() || utf && !text.first.has(0xFF)
}

/// The text, looked for by its rarest byte.
fn sought(wanted: &Wanted) -> ByteText
    ensures { sets_of result ≡ sets_of wanted.now.text }
{
    let anchor = rarest_place(&wanted.text, &wanted.weights);
    wanted.text.copied().looked_for(anchor)
}

fn with_bound(
    lacking: Option<Lacking>,
    begin: Option<BeginText>,
    other: Option<ByteText>,
    bound: Bound,
) -> Option<Need>
    ensures lacking { IfSome result (λ told. (from : Lacking) × ((lacking ≡ Some from)
        × ((sets_of told.text ≡ sets_of from.wanted.text) × (told.lacking ≡ from.bound)))) }
    ensures begin { IfSome result (λ told. told.begin ≡ begin) }
    ensures other { IfSome result (λ told. (told.other ≡ other) ⊎ (told.other ≡ None)) }
    ensures bound { IfSome result (λ told. told.bound ≡ bound) }
{
    let lacking = lacking?;
    let wanted = &lacking.wanted;
    Some(Need {
        text: sought(wanted),
        lacking: lacking.bound,
        is_begin: is_same(&wanted.text, &begin),
        begin,
        other: unlike(other, &wanted.text),
        bound,
    })
}

/// A text, where it isn't this one.
fn unlike(other: Option<ByteText>, text: &ByteText) -> Option<ByteText>
    ensures { (result ≡ other) ⊎ (result ≡ None) }
{
    match other {
        Some(further) if !is_same_text(&further, text) => Some(further),
        _ => None,
    }
}

/// Whether a text is the one at a distance from where a match begins.
fn is_same(text: &ByteText, begin: &Option<BeginText>) -> bool {
    match begin {
        Some(begin) => is_same_text(text, &begin.text),
        None => false,
    }
}

/// What is needed of each node up to the root, anywhere in its matches or where they begin.
fn needs_of(
    alloc: Global,
    tree: &Tree,
    classes: &ClassTable,
    anywhere: bool,
) -> Result<Vec<Option<Wanted>>, Memory>
    requires { IsTableOf tree.now classes.now }
    ensures count { IfOk result (λ needs. length needs.items ≡ tree.now.root + 1) }
    ensures kept { IfOk result (λ needs.
        KeepNeeds (may_of tree.now) tree.now.options.utf anywhere
        (trees tree.now.nodes) needs.items) }
{
    let utf = tree.options().utf;
    let mut needs = Vec::with_capacity(alloc, tree.root() as usize + 1)?;
    for id in 0..tree.root() as u64 + 1 {
        let need = node_need(classes, tree.node(id as u32), utf, anywhere, &needs);
        needs.push(need)?;
    }
    Ok(needs)
}

/// What is needed of a node, in UTF or not, by what is needed of its children: anywhere in a match, or where it begins.
fn node_need(
    classes: &ClassTable,
    node: &Node,
    utf: bool,
    anywhere: bool,
    needs: &[Option<Wanted>],
) -> Option<Wanted>
    requires classes { All (λ n. n < length classes.now) (classes_of node.now) }
    requires below { All (λ k. k < length needs.now) (kids_of node.now) }
    ensures { (tree : TreeParts) → IsTableOf tree classes.now → tree.options.utf ≡ utf
        → (trees : List Nested) → KeepNeeds (may_of tree) tree.options.utf anywhere trees needs.now
        → IsNeed (may_of tree) tree.options.utf anywhere (nest trees node.now) result }
{
    match node {
        Node::One(item) => wanted_of(item_need(classes, item, utf), utf),
        Node::Seq(kids) => rarest(kids.as_slice(), needs, anywhere),
        Node::Group { branches, .. } => each_of(branches.as_slice(), needs),
        Node::OneRepeat { item, min, .. } if *min > 0 => {
            repeated(item_need(classes, item, utf), utf, *min)
        }
        Node::Atomic(branches) => each_of(branches.as_slice(), needs),
        Node::Look {
            ahead,
            positive,
            branches,
            ..
        } => wanted_if(*ahead, *positive, each_of(branches.as_slice(), needs)),
        _ => None,
    }
}

fn wanted_if(ahead: bool, positive: bool, wanted: Option<Wanted>) -> Option<Wanted>
    ensures { result ≡ (if ahead && positive then wanted else None) }
{
    if ahead && positive { wanted } else { None }
}

/// The bytes of an item as a text.
fn wanted_of(taken: Option<Taken>, utf: bool) -> Option<Wanted>
    ensures sets { IfSome result (λ w. sets_of w.text ≡ w.text.first ∷ []) }
    ensures takes { (may : Item → ℕ → Bool) → (item : Item) → IfSome taken (IsItemNeed may utf item)
        → IfSome result (λ w. TakesOf may w.text.first item
        × (w.is_short ≡ true → IsShort may utf item)) }
{
    match taken {
        Some(taken) => Some(Wanted {
            text: ByteText::one(taken.bytes),
            weights: [taken.weight, ANY, ANY],
            is_item: true,
            is_short: !utf || taken.is_short,
        }),
        None => None,
    }
}

/// Whether each character that the item takes is one byte.
fn is_one_byte(taken: &Taken, utf: bool) -> bool
    ensures { (may : Item → ℕ → Bool) → (item : Item) → IsItemNeed may utf item taken.now
        → result ≡ true → IsShort may utf item }
{
    !utf || taken.is_short
}

/// The bytes of an item as a text, as often as the item is taken at least.
fn repeated(taken: Option<Taken>, utf: bool, times: u16) -> Option<Wanted>
    requires { 0 < times }
    ensures item { IfSome result (λ w. w.is_item ≡ false) }
    ensures begins { (may : Item → ℕ → Bool) → (item : Item)
        → IfSome taken (IsItemNeed may utf item)
        → IfSome result (λ w. Begins may utf (sets_of w.text) (copies times item)) }
{
    match taken {
        Some(taken) => {
            let places = places_in_row(is_one_byte(&taken, utf), times);
            Some(Wanted {
                weights: repeated_weight(taken.weight, places),
                text: ByteText::repeated(taken.bytes, places),
                is_item: false,
                is_short: false,
            })
        }
        None => None,
    }
}

/// How many bytes of characters that are taken so many times are known to stand in a row: at most
/// three, and one where the characters may be longer.
fn places_in_row(is_short: bool, times: u16) -> u16
    requires { 0 < times }
    ensures some { 0 < result }
    ensures most { result ≤ 3 }
    ensures within { result ≤ times }
    ensures short { 1 < result → is_short ≡ true }
{
    if !is_short {
        1
    } else if times > 3 {
        3
    } else {
        times
    }
}

/// The bytes that begin what an item takes, where they are known and rare.
fn item_need(classes: &ClassTable, item: &Item, utf: bool) -> Option<Taken>
    requires class { All (λ n. n < length classes.now) (class_in item.now) }
    ensures { (tree : TreeParts) → IsTableOf tree classes.now → tree.options.utf ≡ utf
        → IfSome result (IsItemNeed (may_of tree) utf item.now) }
{
    if utf {
        utf_need(item)
    } else {
        byte_need(classes, item)
    }
}

/// The bytes that begin a character in UTF, where they are all of ASCII or all past it.
fn utf_need(item: &Item) -> Option<Taken>
    ensures { (classes : ℕ → ℕ → Bool)
        → IfSome result (IsItemNeed (may_take true classes) true item.now) }
{
    match item {
        Item::Char { c, caseless: false } if *c < 128 => one_byte(*c),
        Item::Char { c, caseless: false } => Some(past_ascii()),
        Item::Char { c, caseless: true } => letter_need(*c),
        _ => None,
    }
}

/// The bytes that begin a character or one that folds as it does. Characters past ASCII and of ASCII fold alike in two
/// cases: the Kelvin sign U+212A, in bytes E2 84 AA, folds to k, and the long s U+017F, in bytes C5 BF, to s.
fn letter_need(c: u32) -> Option<Taken>
    ensures takes { IfSome result (λ taken. (b : ℕ) → b < 256 → may_begin true c b ≡ true
        → has_byte taken.bytes b ≡ true) }
    ensures short { IfSome result (λ taken. taken.is_short ≡ true
        → (b : ℕ) → 128 ≤ b → b < 256 → may_begin true c b ≡ false) }
{
    match c {
        0x4B | 0x6B => cased(with_byte(both_cases(c), 0xE2), c, false),
        0x53 | 0x73 => cased(with_byte(both_cases(c), 0xC5), c, false),
        0x212A | 0x17F => None,
        0..=0x7F => cased(both_cases(c), c, true),
        _ => Some(past_ascii()),
    }
}

fn with_byte(bytes: ByteSet, byte: u8) -> ByteSet
    ensures { (k : ℕ) → has_byte result k ≡ (has_byte bytes k || k == byte) }
{
    let mut more = bytes;
    more.insert(byte);
    more
}

/// The bytes past ASCII. They are looked for anyway where lines must be UTF-8, and so they are the rarest.
fn past_ascii() -> Taken
    ensures bytes { (b : ℕ) → 128 ≤ b → b < 256 → has_byte result.bytes b ≡ true }
    ensures long { result.is_short ≡ false }
{
    let mut bytes = ByteSet::empty();
    add_range(&mut bytes, 128, 255);
    Taken {
        bytes,
        weight: 1,
        is_short: false,
    }
}

/// The bytes that a character or a class takes outside UTF, where they are rare.
fn byte_need(classes: &ClassTable, item: &Item) -> Option<Taken>
    requires class { All (λ n. n < length classes.now) (class_in item.now) }
    ensures { (tree : TreeParts) → IsTableOf tree classes.now
        → IfSome result (λ taken. TakesOf (may_take false (class_has tree)) taken.bytes item.now) }
{
    match item {
        Item::Char { c, caseless: false } => one_byte(*c),
        Item::Char { c, caseless: true } => cased(both_cases(*c), *c, true),
        Item::Class(class) => if_rare(classes.bytes(*class).copied(), true),
        _ => None,
    }
}

/// A character that is a byte, in its case alone.
fn one_byte(c: u32) -> Option<Taken>
    ensures bytes { IfSome result (λ w. has_byte w.bytes c ≡ true) }
    ensures short { IfSome result (λ w. w.is_short ≡ nat_lt c 128) }
{
    if c >= 256 {
        return None;
    }
    let mut bytes = ByteSet::empty();
    bytes.insert(c as u8);
    Some(Taken {
        bytes,
        weight: commonness(c as u8),
        is_short: c < 128,
    })
}

/// The bytes of a character's cases, with one past ASCII unless they are short.
fn cased(bytes: ByteSet, c: u32, is_short: bool) -> Option<Taken>
    ensures bytes { IfSome result (λ taken. taken.bytes ≡ bytes) }
    ensures short { IfSome result (λ taken. taken.is_short ≡ is_short) }
{
    Some(Taken {
        bytes,
        weight: weight_of_cases(c, is_short),
        is_short,
    })
}

/// These bytes, where they are rare enough.
fn if_rare(bytes: ByteSet, is_short: bool) -> Option<Taken>
    ensures bytes { IfSome result (λ taken. taken.bytes ≡ bytes) }
    ensures short { IfSome result (λ taken. taken.is_short ≡ is_short) }
{
    let weight = weight_of(&bytes)?;
    Some(Taken {
        bytes,
        weight,
        is_short,
    })
}

/// Of what is needed of these parts, and of the texts that the items among them take, the rarest; where a match begins,
/// of the first part and of the items from it on.
fn rarest(parts: &[NodeId], needs: &[Option<Wanted>], anywhere: bool) -> Option<Wanted>
    requires { All (λ k. k < length needs.now) parts.now }
    ensures { (may : Item → ℕ → Bool) (utf : Bool) → (of : ℕ → Nested)
        → AreNeeds may utf anywhere of needs.now parts.now
        → IsSomeNeed may utf anywhere (row (map of parts.now)) result }
{
    let choice = rarest_of(parts, needs, anywhere)?;
    text_of(parts, needs, choice)
}

/// The rarest text at a distance from where a match of a pattern begins that is one sequence.
fn behind_begin(tree: &Tree, begins: &[Option<Wanted>]) -> Option<Distant>
    requires { length begins.now ≡ tree.now.root + 1 }
    ensures { KeepNeeds (may_of tree.now) tree.now.options.utf false
        (trees tree.now.nodes) begins.now
        → IfSome result (λ far. NeedsAt (may_of tree.now) tree.now.options.utf
        (sets_of far.wanted.text) far.distance (tree_of tree.now)) }
{
    rarest_behind(tree, only_parts(tree)?, begins)
}

/// The parts of a pattern that is one sequence.
pub(crate) fn only_parts(tree: &Tree) -> Option<&[NodeId]>
    ensures below { IfSome result (λ parts. All (λ k. k ≤ tree.now.root) parts.now) }
    ensures whole { IfSome result (λ parts. tree_of tree.now
        ≡ group None (more (seq (row (map (tree_at (trees tree.now.nodes)) parts.now))) none)) }
{
    let Node::Group {
        number: None,
        branches,
    } = tree.node(tree.root())
    else {
        return None;
    };
    let [only] = branches.as_slice() else {
        return None;
    };
    let Node::Seq(parts) = tree.node(*only) else {
        return None;
    };
    Some(parts.as_slice())
}

/// Of the texts at a distance from where these parts begin the rarest.
fn rarest_behind(tree: &Tree, parts: &[NodeId], begins: &[Option<Wanted>]) -> Option<Distant>
    requires parts { All (λ k. k ≤ tree.now.root) parts.now }
    requires begins { length begins.now ≡ tree.now.root + 1 }
    ensures { AreNeeds (may_of tree.now) tree.now.options.utf false
        (tree_at (trees tree.now.nodes)) begins.now parts.now
        → IsDistant (may_of tree.now) tree.now.options.utf
        (row (map (tree_at (trees tree.now.nodes)) parts.now)) result }
{
    let far = farther(tree, parts, begins)?;
    Some(Distant {
        wanted: text_of(parts, begins, far.choice)?,
        distance: far.distance,
    })
}

/// Which that is.
fn farther(tree: &Tree, parts: &[NodeId], begins: &[Option<Wanted>]) -> Option<Far>
    requires parts { All (λ k. k ≤ tree.now.root) parts.now }
    requires begins { length begins.now ≡ tree.now.root + 1 }
    ensures { IfSome result (λ far. (far.choice.at < length parts.now)
        × IsBehind (may_of tree.now) tree.now.options.utf (tree_at (trees tree.now.nodes)) parts.now
        far.choice.at far.distance) }
{
    let utf = tree.options().utf;
    let mut run = None;
    let mut best = None;
    let mut i = parts.len();
    while i > 0 {
        i -= 1;
        let part = parts[i];
        let need = &begins[part as usize];
        run = run_weights(need, run);
        let far = behind(best, length_of(tree.node(part), utf));
        let here = rarer_than(weight_of_far(&far), i, weighed(need), rate_of(run));
        best = nearest(far, here);
    }
    best
}

fn weight_of_far(far: &Option<Far>) -> u64 {
    match far {
        Some(far) => far.choice.weight,
        None => u64::MAX,
    }
}

/// What was chosen here, else what is farther on.
fn nearest(far: Option<Far>, here: Option<Choice>) -> Option<Far>
    ensures { (result ≡ far)
        ⊎ IfSome result (λ told. (here ≡ Some told.choice) × (told.distance ≡ 0)) }
{
    match here {
        Some(choice) => Some(Far {
            choice,
            distance: 0,
        }),
        None => far,
    }
}

/// A text with which a match begins.
fn at_once(wanted: Option<Wanted>) -> Option<Distant>
    ensures { IfSome result (λ far. (wanted ≡ Some far.wanted) × (far.distance ≡ 0)) }
{
    match wanted {
        Some(wanted) => Some(Distant {
            wanted,
            distance: 0,
        }),
        None => None,
    }
}

/// A text behind a part that takes so many bytes, where it isn't too far then.
fn behind(far: Option<Far>, length: Option<u16>) -> Option<Far>
    ensures { IfSome result (λ told. (n k : ℕ) × ((length ≡ Some n)
        × ((told.distance ≡ n + k)
        × (far ≡ Some (record { choice = told.choice; distance = k }))))) }
{
    let far = far?;
    let length = length?;
    if length > FARTHEST || far.distance > FARTHEST - length {
        return None;
    }
    Some(Far {
        choice: far.choice,
        distance: far.distance + length,
    })
}

/// The rarer of two.
fn nearer(far: Option<Distant>, here: Option<Distant>) -> Option<Distant>
    ensures { (result ≡ far) ⊎ (result ≡ here) }
{
    if weighed_at(&far) <= weighed_at(&here) {
        far
    } else {
        here
    }
}

fn weighed_at(far: &Option<Distant>) -> u64 {
    match far {
        Some(far) => rate(&far.wanted.weights),
        None => u64::MAX,
    }
}

/// How many bytes each match of a part takes, where that is known.
fn length_of(node: &Node, utf: bool) -> Option<u16>
    ensures { (classes : ℕ → ℕ → Bool) → (trees : List Nested)
        → IfSome result (λ n. IsLong (may_take utf classes) utf n (nest trees node.now)) }
{
    match node {
        Node::One(item) if is_short(item, utf) => Some(1),
        Node::OneRepeat { item, min, max, .. } => repeat_length(item, *min, *max, utf),
        Node::Anchor(_) => Some(0),
        _ => None,
    }
}

/// How many bytes a repeat of an item takes each time, where that is known.
fn repeat_length(item: &Item, min: u16, max: Option<u16>, utf: bool) -> Option<u16>
    ensures { (classes : ℕ → ℕ → Bool) → IfSome result (λ n. (n ≡ min)
        × ((max ≡ Some n) × IsShort (may_take utf classes) utf item.now)) }
{
    match max {
        Some(most) if most == min && is_short(item, utf) => Some(most),
        _ => None,
    }
}

/// Whether each character that an item takes is one byte.
fn is_short(item: &Item, utf: bool) -> bool
    ensures { (classes : ℕ → ℕ → Bool) → result ≡ true
        → IsShort (may_take utf classes) utf item.now }
{
    if !utf {
        return true;
    }
    match utf_need(item) {
        Some(taken) => taken.is_short,
        None => false,
    }
}

/// The text that the items take with which the parts begin, from a part and from the items behind it.
pub(crate) fn run_from(need: &Option<Wanted>, run: &Option<Wanted>) -> Option<Wanted>
    ensures { (may : Item → ℕ → Bool) (utf anywhere : Bool) → (t : Nested) (ts : Row)
        → IsNeed may utf anywhere t need.now
        → IsRun may utf ts run.now → IsRun may utf (more t ts) result }
{
    match need {
        Some(wanted) if wanted.is_item => Some(before(wanted, run)),
        _ => None,
    }
}

/// The text of an item with that of the items behind it, where they stand at the next byte.
fn before(item: &Wanted, run: &Option<Wanted>) -> Wanted
    ensures { (may : Item → ℕ → Bool) (utf : Bool) → (t : Nested) (ts : Row)
        → IsTaking may item.now.text.first t
        → (item.now.is_short ≡ true → (i : Item) → t ≡ one i → IsShort may utf i)
        → IsRun may utf ts run.now → IsRun may utf (more t ts) (Some result) }
{
    let first = item.text.first.copied();
    match run {
        Some(behind) if item.is_short => Wanted {
            text: behind.text.behind(first),
            weights: [item.weights[0], behind.weights[0], behind.weights[1]],
            is_item: false,
            is_short: false,
        },
        _ => Wanted {
            text: ByteText::one(first),
            weights: [item.weights[0], ANY, ANY],
            is_item: false,
            is_short: false,
        },
    }
}

/// What is needed of a part, told of what holds it.
pub(crate) fn copy_of(need: &Option<Wanted>) -> Option<Wanted>
    ensures item { IfSome result (λ w. w.is_item ≡ false) }
    ensures some { (wanted : Wanted) → need.now ≡ Some wanted
        → IfSome result (λ w. sets_of w.text ≡ sets_of wanted.text) }
    ensures none { need.now ≡ None → result ≡ None }
{
    match need {
        Some(wanted) => Some(Wanted {
            text: wanted.text.copied(),
            weights: wanted.weights,
            is_item: false,
            is_short: false,
        }),
        None => None,
    }
}

/// A text that one of these branches needs, whichever it is.
fn each_of(branches: &[NodeId], needs: &[Option<Wanted>]) -> Option<Wanted>
    requires { All (λ k. k < length needs.now) branches.now }
    ensures { (may : Item → ℕ → Bool) (utf anywhere : Bool) → (of : ℕ → Nested)
        → AreNeeds may utf anywhere of needs.now branches.now
        → AreAllNeeds may utf anywhere (row (map of branches.now)) result }
{
    let mut whole = Some(Wanted {
        text: ByteText::nowhere(),
        weights: [0; 3],
        is_item: false,
        is_short: false,
    });
    let mut i = branches.len();
    while i > 0 {
        i -= 1;
        whole = joined(&needs[branches[i] as usize], whole);
    }
    if_useful(whole, branches.len())
}

/// The text of so many branches, where it is rare enough. The same byte in two of them counts once.
fn if_useful(whole: Option<Wanted>, branches: usize) -> Option<Wanted>
    ensures { (may : Item → ℕ → Bool) (utf anywhere : Bool) → (ts : Row)
        → AreAllNeeds may utf anywhere ts whole → AreAllNeeds may utf anywhere ts result }
{
    let mut told = whole?;
    told.weights = weights_of(&told.weights, &told.text, branches);
    if rate(&told.weights) > u64::from(COMMON * ANY * ANY) {
        None
    } else {
        Some(told)
    }
}

/// What a branch needs or the others.
fn joined(one: &Option<Wanted>, others: Option<Wanted>) -> Option<Wanted>
    ensures { (may : Item → ℕ → Bool) (utf anywhere : Bool) → (t : Nested) (ts : Row)
        → IsNeed may utf anywhere t one.now
        → AreAllNeeds may utf anywhere ts others → AreAllNeeds may utf anywhere (more t ts) result }
{
    let Some(one) = one else {
        return None;
    };
    let others = others?;
    Some(Wanted {
        text: others.text.either(&one.text),
        weights: both_weights(&one.weights, &others.weights),
        is_item: false,
        is_short: false,
    })
}
