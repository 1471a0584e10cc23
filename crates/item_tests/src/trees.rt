//! Trees: bad references, names, and newlines.
ghost use Rattle.std.specs.Prelude.{true, All, ◌≡◌, ◌≤◌, ◌<◌, ◌+◌, ◌∷◌, [], length, IfOk, OnOk};
ghost use Rattle.pat_tree.specs.Rules.{tests_of};
ghost use Rattle.pat_tree.specs.Refs.{has_group};

use pat_tree::{
    BadRef, ClassSpec, Cond, Draft, GroupList, Kids, Memory, NameTable, Newline, Node, Options,
    PartList, Tree, newline_at, newline_before,
};
use std::alloc::Global;
use std::test::Fail;

/// A node that names a group, or is one.
#[derive(Clone, Copy)]
enum Kind {
    Group,
    Reference,
    Call,
    IfSet,
    IfInCallOf,
}

fn list_of(alloc: Global, group: u16) -> Result<GroupList, Memory>
    ensures { IfOk result (λ groups. groups ≡ group ∷ []) }
{
    let mut groups = GroupList::new(alloc);
    groups.push(group)?;
    Ok(groups)
}

/// Adds a condition with an empty first branch.
fn add_condition(draft: &mut Draft, test: Cond, at: u32) -> Result<(), Memory>
    requires room { length draft.old.nodes < 1000 }
    requires plain { tests_of test ≡ [] }
    ensures names { OnOk result (draft.new.names ≡ draft.old.names) }
    ensures count { OnOk result (length draft.new.nodes ≤ length draft.old.nodes + 2) }
{
    let yes = draft.add(Node::Empty, 0)?;
    draft.add(
        Node::Cond {
            test,
            yes,
            no: None,
        },
        at,
    )?;
    Ok(())
}

fn add(alloc: Global, draft: &mut Draft, kind: Kind, group: u16, at: u32) -> Result<(), Memory>
    requires room { length draft.old.nodes < 1000 }
    ensures names { OnOk result (draft.new.names ≡ draft.old.names) }
    ensures count { OnOk result (length draft.new.nodes ≤ length draft.old.nodes + 2) }
{
    match kind {
        Kind::Group => {
            let node = Node::Group {
                number: Some(group.max(1)),
                branches: Kids::new(alloc),
            };
            draft.add(node, at)?;
            Ok(())
        }
        Kind::Reference => {
            let groups = list_of(alloc, group)?;
            draft.add(
                Node::Ref {
                    groups,
                    caseless: false,
                },
                at,
            )?;
            Ok(())
        }
        Kind::Call => {
            draft.add(Node::Call { group }, at)?;
            Ok(())
        }
        Kind::IfSet => {
            let groups = list_of(alloc, group)?;
            add_condition(draft, Cond::AnySet(groups), at)
        }
        Kind::IfInCallOf => {
            let groups = list_of(alloc, group)?;
            add_condition(draft, Cond::InCallOf(groups), at)
        }
    }
}

/// Where a tree of these nodes has its leftmost bad reference.
fn leftmost(alloc: Global, nodes: &[(Kind, u16, u32)]) -> Result<Option<u32>, Memory>
    requires { length nodes.now < 100 }
{
    let mut draft = Draft::new(alloc, Options::PLAIN);
    for (kind, group, at) in nodes {
        add(alloc, &mut draft, *kind, *group, *at)?;
    }
    let root = draft.add(Node::Empty, 0)?;
    match draft.finish(root) {
        Ok(_) => Ok(None),
        Err(BadRef { at }) => Ok(Some(at)),
    }
}

/// Nodes, with the groups that they name or are and their places; and the leftmost place of a bad reference.
type Nodes = (&'static [(Kind, u16, u32)], Option<u32>);

const GROUP: (Kind, u16, u32) = (Kind::Group, 2, 90);

const NODES: &[Nodes] = &[
    (&[], None),
    (
        &[
            GROUP,
            (Kind::Reference, 2, 5),
            (Kind::Call, 2, 6),
            (Kind::IfSet, 2, 7),
            (Kind::IfInCallOf, 2, 8),
        ],
        None,
    ),
    // a group may come after what names it
    (&[(Kind::Reference, 2, 5), GROUP], None),
    // 0 is the whole pattern in a call and in a condition on a call, and no group elsewhere
    (&[(Kind::Call, 0, 5), (Kind::IfInCallOf, 0, 9)], None),
    (&[GROUP, (Kind::Reference, 0, 5)], Some(5)),
    (&[GROUP, (Kind::IfSet, 0, 5)], Some(5)),
    (&[GROUP, (Kind::Reference, 1, 5)], Some(5)),
    (&[GROUP, (Kind::Call, 3, 5)], Some(5)),
    (&[GROUP, (Kind::IfInCallOf, 1, 5)], Some(5)),
    // the leftmost place, whatever was added first
    (
        &[
            (Kind::Reference, 1, 30),
            (Kind::Call, 1, 10),
            GROUP,
            (Kind::IfSet, 1, 20),
        ],
        Some(10),
    ),
    (
        &[(Kind::IfInCallOf, 1, 7), (Kind::Reference, 2, 3), GROUP],
        Some(7),
    ),
    (
        &[(Kind::Reference, 2, 8), (Kind::Reference, 65535, 4)],
        Some(4),
    ),
];

#[test]
fn the_leftmost_name_of_no_group_is_told(rt: HostRuntime) -> Result<(), Fail> {
    for (nodes, want) in NODES {
        assert!(rt; leftmost(rt.alloc(), nodes)? == *want);
    }
    Ok(())
}

/// Gives group 7 these names.
fn add_names(draft: &mut Draft, names: [&[u8]; 6]) -> Result<(), Memory>
    requires stands { has_group draft.old.nodes 7 ≡ true }
    requires none { draft.old.names ≡ [] }
    ensures stand { OnOk result
        (All (λ entry. has_group draft.new.nodes entry.group ≡ true) draft.new.names) }
    ensures kept { OnOk result (draft.new.nodes ≡ draft.old.nodes) }
{
    for name in names {
        draft.add_name(name, 7)?;
    }
    Ok(())
}

#[test]
fn a_tree_has_what_was_added(rt: HostRuntime) -> Result<(), Fail> {
    let mut draft = Draft::new(rt.alloc(), Options::PLAIN);
    let node = Node::Group {
        number: Some(7),
        branches: Kids::new(rt.alloc()),
    };
    let root = draft.add(node, 3)?;
    let class = draft.add_class(ClassSpec {
        negated: false,
        caseless: true,
        parts: PartList::new(rt.alloc()),
    })?;
    let stop = draft.add_verb_name(b"stop")?;
    let go = draft.add_verb_name(b"go")?;
    assert!(rt; (class, stop, go) == (0, 0, 1));
    add_names(&mut draft, [b"b", b"a", b"ab", b"", b"b", b"a"])?;
    assert!(rt; draft.finish(root).is_ok_and(|tree| is_whole(&tree)));
    Ok(())
}

fn is_whole(tree: &Tree) -> bool {
    has_names(tree.names())
        && tree.at(tree.root()) == 3
        && tree.groups() == 7
        && tree.classes() == 1
        && tree.class(0).caseless
        && tree.verb_names() == 2
        && tree.verb_name(1) == b"go".as_slice()
}

// by the bytes of the name, each pair once
fn has_names(names: &NameTable) -> bool {
    let wanted: [&[u8]; 4] = [b"", b"a", b"ab", b"b"];
    names.len() == 4
        && (0..4).all(|i| i < names.len() && names.name(i) == wanted[i] && names.group(i) == 7)
}

/// A name, and the newline that it names in capitals and in any case.
type Name = (&'static [u8], Option<Newline>, Option<Newline>);

const NAMES: &[Name] = &[
    (b"CR", Some(Newline::Cr), Some(Newline::Cr)),
    (b"LF", Some(Newline::Lf), Some(Newline::Lf)),
    (b"CRLF", Some(Newline::CrLf), Some(Newline::CrLf)),
    (b"ANYCRLF", Some(Newline::AnyCrLf), Some(Newline::AnyCrLf)),
    (b"ANY", Some(Newline::Any), Some(Newline::Any)),
    (b"NUL", Some(Newline::Nul), Some(Newline::Nul)),
    (b"anyCRLF", None, Some(Newline::AnyCrLf)),
    (b"nul", None, Some(Newline::Nul)),
    (b"", None, None),
    (b"CRL", None, None),
];

#[test]
fn newlines_have_names(rt: HostRuntime) {
    for (name, capital, any_case) in NAMES {
        assert!(rt; Newline::by_name(name) == *capital);
        assert!(rt; Newline::by_name_in_any_case(name) == *any_case);
    }
}

/// A convention, whether in UTF, a place, and how many bytes the newlines have that begin and end there.
type Ends = (Newline, bool, usize, usize, usize);

const ENDS: &[Ends] = &[
    (Newline::Cr, false, 1, 1, 0),
    (Newline::Cr, false, 2, 0, 1),
    (Newline::Lf, false, 2, 1, 0),
    (Newline::Lf, false, 3, 0, 1),
    (Newline::CrLf, false, 1, 2, 0),
    (Newline::CrLf, false, 2, 0, 0),
    (Newline::CrLf, false, 3, 0, 2),
    (Newline::AnyCrLf, false, 1, 2, 0),
    (Newline::AnyCrLf, false, 2, 1, 1),
    (Newline::AnyCrLf, false, 3, 0, 2),
    (Newline::Any, true, 4, 3, 0),
    (Newline::Any, false, 4, 0, 0),
    (Newline::Any, true, 7, 2, 3),
    (Newline::Any, false, 8, 1, 0),
    (Newline::Any, true, 9, 1, 2),
    (Newline::Any, false, 9, 1, 1),
    (Newline::Any, true, 10, 0, 1),
    (Newline::Nul, true, 10, 1, 0),
    (Newline::Nul, false, 11, 0, 1),
    (Newline::Any, true, 0, 0, 0),
];

#[test]
fn newlines_begin_and_end(rt: HostRuntime) {
    // a CR LF b LS NEL VT 0
    let text = b"a\r\nb\xe2\x80\xa8\xc2\x85\x0b\x00";
    for (newline, utf, at, begins, ends) in ENDS {
        assert!(rt; *at <= text.len());
        assert!(rt; newline_at(text, *at, *newline, *utf) == *begins);
        assert!(rt; newline_before(text, *at, *newline, *utf) == *ends);
    }
}
