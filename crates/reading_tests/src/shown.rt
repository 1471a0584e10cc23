//! A tree as a short text.
//!
//! - A letter or digit stands for itself, another printable character stands in quotes, as `'*'`, and any other one by
//! two hexadecimal digits, as `'0a'`. Before a character, a class or a reference `~` stands for any case.
//! - `.` takes no newline, `any` takes every character. `[a-z '_' !Digit]` is a class: its parts, a set by its name,
//! with `!` where it is reversed; `[^a]` is a negated one.
//! - `<a b>` is a sequence, `-` takes nothing. `(a|b)` is a plain group, `(1:a|b)` a capturing one. The whole tree is a
//! plain group.
//! - `a{2,5}` is a repeat of what takes one character, `(a)*{2,5}` a repeat of another part. A lazy one has `?` at its
//! end, one without a maximum is `{2,}`.
//! - `(>a|b)` is an atomic group, `(=a)` and `(!a)` are lookaheads, `(*a)` one that isn't atomic. `(?[1,2]a|b)` is a
//! conditional group on groups, `(?Ra)` one on any call, `(?R[1]a)` one on a call of a group, `(?nevera)` a DEFINE, and
//! `(?(=a)b)` one on a lookaround.
//! - `=1` is a reference, `=1=2` one to the first set of two groups.
//! - `^` and `$` have an `m` where they hold at lines, `$` an `e` where it holds at the subject's end alone. Other
//! assertions, `\R` and `\K` are written as in patterns.
//! - `%Mark:n` is a verb with its name, `%Fail` one without a name.
//! - After the tree stand the names, as `name=1`.
use pat_tree::{
    AnchorKind, ClassSpec, Cond, GroupList, Item, Kids, NameTable, Node, NodeId, Part, Tree, Verb,
};
use std::alloc::{AllocError, Global};
use std::fmt::Write;

/// The nodes of a tree in their order, each after those that it holds.
///
/// # Errors
///
/// Memory lacked.
pub fn nodes_of(alloc: Global, tree: &Tree) -> Result<String, AllocError> {
    let mut text = String::new(alloc);
    for id in 0..=tree.root() {
        let node = format!(in alloc; "{:?}", tree.node(id))?;
        text.push_str(if id == 0 { "" } else { "; " })?;
        text.push_str(node.as_str())?;
    }
    Ok(text)
}

/// The text of a tree.
///
/// # Errors
///
/// Memory lacked.
pub fn shown(alloc: Global, tree: &Tree) -> Result<String, AllocError> {
    let mut texts = Vec::new(alloc);
    for id in 0..=tree.root() {
        let mut text = String::new(alloc);
        add_node(&mut text, tree, tree.node(id), &texts);
        texts.push(text)?;
    }
    let mut text = String::new(alloc);
    add(&mut text, text_of(&texts, tree.root()));
    add_names(&mut text, tree.names());
    Ok(text)
}

// Without memory for it a part is left out, and the text is none that a row has.
fn add(text: &mut String, part: &str) {
    let _ = text.push_str(part);
}

fn add_number(text: &mut String, number: u32) {
    let _ = write!(text, "{number}");
}

fn add_name(text: &mut String, name: &[u8]) {
    add(text, str::from_utf8(name).unwrap_or("none"));
}

fn add_names(text: &mut String, table: &NameTable) {
    for i in 0..table.len() {
        add(text, " ");
        add_name(text, table.name(i));
        add(text, "=");
        add_number(text, u32::from(table.group(i)));
    }
}

// The text of a node that stands before.
fn text_of(texts: &[String], id: NodeId) -> &str {
    match texts.get(id as usize) {
        Some(text) => text.as_str(),
        None => "none",
    }
}

// Groups, each after one of these.
fn add_groups(text: &mut String, groups: &GroupList, first: &str, next: &str) {
    for (i, group) in groups.as_slice().iter().enumerate() {
        add(text, if i == 0 { first } else { next });
        add_number(text, u32::from(*group));
    }
}

fn add_tested(text: &mut String, test: &Cond, texts: &[String]) {
    match test {
        Cond::AnySet(groups) => {
            add_groups(text, groups, "[", ",");
            add(text, "]");
        }
        Cond::InCall => add(text, "R"),
        Cond::InCallOf(groups) => {
            add_groups(text, groups, "R[", ",");
            add(text, "]");
        }
        Cond::Never => add(text, "never"),
        Cond::Assert(id) => add(text, text_of(texts, *id)),
    }
}

// How a lookaround begins.
fn look(ahead: bool, positive: bool, atomic: bool) -> &'static str {
    match (ahead, positive, atomic) {
        (true, false, _) => "(!",
        (true, true, true) => "(=",
        (true, true, false) => "(*",
        (false, false, _) => "(<!",
        (false, true, true) => "(<=",
        (false, true, false) => "(<*",
    }
}

fn add_node(text: &mut String, tree: &Tree, node: &Node, texts: &[String]) {
    match node {
        Node::Empty => add(text, "-"),
        Node::One(item) => add_item(text, tree, item),
        Node::Break => add(text, "\\R"),
        Node::Seq(parts) => {
            add_joined(text, texts, "<", parts, " ");
            add(text, ">");
        }
        Node::Group { number, branches } => add_group(text, texts, *number, branches),
        Node::Atomic(branches) => add_branches(text, texts, "(>", branches),
        Node::Look {
            ahead,
            positive,
            atomic,
            branches,
        } => add_branches(text, texts, look(*ahead, *positive, *atomic), branches),
        Node::Cond { test, yes, no } => add_condition(text, texts, test, *yes, *no),
        Node::Repeat {
            body,
            min,
            max,
            lazy,
        } => {
            add(text, text_of(texts, *body));
            add(text, "*");
            add_bounds(text, *min, *max, *lazy);
        }
        Node::OneRepeat {
            item,
            min,
            max,
            lazy,
        } => {
            add_item(text, tree, item);
            add_bounds(text, *min, *max, *lazy);
        }
        _ => add_other(text, tree, node),
    }
}

// What holds no other node and takes no character.
fn add_other(text: &mut String, tree: &Tree, node: &Node) {
    match node {
        Node::Call { group } => {
            add(text, "@");
            add_number(text, u32::from(*group));
        }
        Node::Ref { groups, caseless } => {
            add(text, if *caseless { "~" } else { "" });
            add_groups(text, groups, "=", "=");
        }
        Node::Anchor(kind) => add(text, anchor(*kind)),
        Node::KeepOut => add(text, "\\K"),
        Node::VerbNode(verb) => add_verb(text, tree, *verb),
        Node::Callout {
            number,
            text_from,
            text_to,
            item_at,
            item_len,
        } => {
            add(text, "C");
            add_number(text, u32::from(*number));
            if *text_to > 0 {
                add_pair(text, "[", *text_from, ",", *text_to);
                add(text, "]");
            }
            add_pair(text, ":", *item_at, "+", *item_len);
        }
        _ => add(text, "none"),
    }
}

fn add_pair(text: &mut String, before: &str, first: u32, between: &str, second: u32) {
    add(text, before);
    add_number(text, first);
    add(text, between);
    add_number(text, second);
}

// Parts that begin with this and have that between them.
fn add_joined(text: &mut String, texts: &[String], begin: &str, kids: &Kids, between: &str) {
    add(text, begin);
    for (i, id) in kids.as_slice().iter().enumerate() {
        add(text, if i == 0 { "" } else { between });
        add(text, text_of(texts, *id));
    }
}

fn add_branches(text: &mut String, texts: &[String], begin: &str, branches: &Kids) {
    add_joined(text, texts, begin, branches, "|");
    add(text, ")");
}

fn add_group(text: &mut String, texts: &[String], number: Option<u16>, branches: &Kids) {
    add(text, "(");
    if let Some(number) = number {
        add_number(text, u32::from(number));
        add(text, ":");
    }
    add_branches(text, texts, "", branches);
}

fn add_condition(
    text: &mut String,
    texts: &[String],
    test: &Cond,
    yes: NodeId,
    no: Option<NodeId>,
) {
    add(text, "(?");
    add_tested(text, test, texts);
    add(text, text_of(texts, yes));
    if let Some(no) = no {
        add(text, "|");
        add(text, text_of(texts, no));
    }
    add(text, ")");
}

// What a verb is called, and the number of its name.
fn verb_parts(verb: Verb) -> (&'static str, Option<u32>) {
    match verb {
        Verb::Accept { name } => ("%Accept", name),
        Verb::Fail { name } => ("%Fail", name),
        Verb::Commit { name } => ("%Commit", name),
        Verb::Prune { name } => ("%Prune", name),
        Verb::Skip { name } => ("%Skip", name),
        Verb::Then { name } => ("%Then", name),
        Verb::Mark { name } => ("%Mark", name),
    }
}

fn add_verb(text: &mut String, tree: &Tree, verb: Verb) {
    let (kind, name) = verb_parts(verb);
    add(text, kind);
    match name {
        Some(id) if id < tree.verb_names() => {
            add(text, ":");
            add_name(text, tree.verb_name(id));
        }
        _ => {}
    }
}

fn add_bounds(text: &mut String, min: u16, max: Option<u16>, lazy: bool) {
    add(text, "{");
    add_number(text, u32::from(min));
    add(text, ",");
    if let Some(max) = max {
        add_number(text, u32::from(max));
    }
    add(text, if lazy { "}?" } else { "}" });
}

fn anchor(kind: AnchorKind) -> &'static str {
    match kind {
        AnchorKind::Caret { multi: false } => "^",
        AnchorKind::Caret { multi: true } => "^m",
        AnchorKind::Dollar {
            multi: false,
            end_only: false,
        } => "$",
        AnchorKind::Dollar {
            multi: true,
            end_only: false,
        } => "$m",
        AnchorKind::Dollar {
            multi: false,
            end_only: true,
        } => "$e",
        AnchorKind::Dollar {
            multi: true,
            end_only: true,
        } => "$me",
        AnchorKind::SubjectStart => "\\A",
        AnchorKind::SubjectEnd => "\\z",
        AnchorKind::EndOrNewline => "\\Z",
        AnchorKind::StartGiven => "\\G",
        AnchorKind::Word { ucp: false } => "\\b",
        AnchorKind::NotWord { ucp: false } => "\\B",
        _ => "other",
    }
}

fn add_item(text: &mut String, tree: &Tree, item: &Item) {
    match *item {
        Item::Char { c, caseless } => {
            add(text, if caseless { "~" } else { "" });
            add_character(text, c);
        }
        Item::AnyAll => add(text, "any"),
        Item::NotNewline => add(text, "."),
        Item::Class(id) if id < tree.classes() => add_class(text, tree.class(id)),
        Item::Class(_) => add(text, "none"),
    }
}

fn add_character(text: &mut String, c: u32) {
    let _ = match char::from_u32(c) {
        Some(c) if c.is_ascii_alphanumeric() => text.push(c),
        Some(c) if c.is_ascii_graphic() || c == ' ' => write!(text, "'{c}'"),
        _ => write!(text, "'{c:02x}'"),
    };
}

fn add_class(text: &mut String, class: &ClassSpec) {
    add(text, if class.caseless { "~" } else { "" });
    add(text, if class.negated { "[^" } else { "[" });
    for (i, part) in class.parts.as_slice().iter().enumerate() {
        add(text, if i == 0 { "" } else { " " });
        add_part(text, *part);
    }
    add(text, "]");
}

fn add_part(text: &mut String, part: Part) {
    match part {
        Part::Range { from, to } => {
            add_character(text, from);
            if from != to {
                add(text, "-");
                add_character(text, to);
            }
        }
        Part::Set { set, not, ucp } => {
            add(text, if not { "!" } else { "" });
            let _ = write!(text, "{set:?}");
            add(text, if ucp { " by properties" } else { "" });
        }
    }
}
