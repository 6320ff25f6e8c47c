// A tree of names fed with texts that were worked out by hand. Each table makes its own tree.
use crate::tests::made::key_of;
use log_node::{Form, Names, Text};
use object_form::{TreeWhy, read_form};
use std::alloc::{AllocError, Global};
use std::process::Abort;
use std::test::Fail;
use tree_fold::{Path, PathFault, Told, TreeFold, read_change, write_change};

/// Texts, and whether each is that of a path.
const PATHS: [(&str, bool); 15] = [
    ("/", true),
    ("/a", true),
    ("/0", true),
    ("/a/b", true),
    ("/a/b/c/d", true),
    ("/abcdefgh", true),
    ("", false),
    ("a", false),
    ("//", false),
    ("/a/", false),
    ("/a//b", false),
    ("/A", false),
    ("/a=", false),
    ("/abcdefghi", false),
    ("/a/b/c/d/e", false),
];

/// The path with this text, and none with no text at all.
fn path(alloc: Global, text: &str) -> Result<Option<Path>, AllocError> {
    match Path::make(alloc, text.as_bytes()) {
        Ok(path) => Ok(Some(path)),
        Err(PathFault::BadPath { len: _len }) => Ok(None),
        Err(PathFault::NoMemory) => Err(AllocError),
    }
}

/// The text that is written of a path.
fn path_text(alloc: Global, path: &Path) -> Result<Text, AllocError> {
    let mut bytes = Vec::new(alloc);
    path.put(&mut bytes)?;
    Text::copied(alloc, &bytes)
}

/// The path is written as this text, and it is the root where that is a slash alone.
fn is_written_so(
    rt: &impl Abort,
    alloc: Global,
    path: &Path,
    text: &str,
) -> Result<(), AllocError> {
    let written = path_text(alloc, path)?;
    assert_eq!(rt; written.as_bytes(), text.as_bytes(), "{text}");
    assert_eq!(rt;
        path.is_root(),
        text.as_bytes() == b"/".as_slice(),
        "{text}"
    );
    Ok(())
}

#[test]
fn a_path_is_written_as_it_was_read(rt: HostRuntime) -> Result<(), Fail> {
    for (text, is_path) in PATHS {
        match path(rt.alloc(), text)? {
            Some(path) => {
                assert!(rt; is_path, "{text}");
                is_written_so(&rt, rt.alloc(), &path, text)?;
            }
            None => assert!(rt; !is_path, "{text}"),
        }
    }
    Ok(())
}

/// Texts, and whether each is that of a change.
const TEXTS: [(&str, bool); 20] = [
    ("k:/a=1", true),
    ("k:/a/b/c/d=0123456789abcdef", true),
    ("x:/a", true),
    ("x:/a/b", true),
    ("v:/a>/b", true),
    ("v:/a/b/c/d>/abcdefgh", true),
    ("", false),
    ("k", false),
    ("k:/=1", false),
    ("k:/a", false),
    ("k:a=1", false),
    ("k:/A=1", false),
    ("k:/abcdefghi=1", false),
    ("k:/a/b/c/d/e=1", false),
    ("k:/a=", false),
    ("v:/a>/", false),
    ("v:/a", false),
    ("x:/", false),
    ("x:/a/", false),
    ("p:k=1", false),
];

/// The text that is written of the change that is read, if one is read.
fn written_again(alloc: Global, text: &Text) -> Result<Option<Text>, AllocError> {
    match read_change(alloc, text)? {
        Some(change) => Ok(Some(write_change(alloc, &change)?)),
        None => Ok(None),
    }
}

fn is_plain(alloc: Global, text: &Text) -> Result<bool, AllocError> {
    match read_form(alloc, text)? {
        Form::Plain => Ok(true),
        _ => Ok(false),
    }
}

#[test]
fn a_change_is_written_as_it_was_read(rt: HostRuntime) -> Result<(), Fail> {
    for (text, is_change) in TEXTS {
        let text = Text::copied(rt.alloc(), text.as_bytes())?;
        match written_again(rt.alloc(), &text)? {
            Some(again) => {
                assert!(rt; is_change);
                assert_eq!(rt; again.as_bytes(), text.as_bytes());
            }
            None => assert!(rt; !is_change),
        }
    }
    Ok(())
}

#[test]
fn changes_are_plain_to_the_other_objects(rt: HostRuntime) -> Result<(), Fail> {
    for (text, is_change) in TEXTS {
        let text = Text::copied(rt.alloc(), text.as_bytes())?;
        assert!(rt; !is_change || is_plain(rt.alloc(), &text)?);
    }
    Ok(())
}

/// What becomes of a text: none where it is no change, and else why the change fails, or none where it is done.
type Fate = Option<Option<TreeWhy>>;

const NONE: Fate = None;

const DONE: Fate = Some(None);

const EXISTS: Fate = Some(Some(TreeWhy::Exists));

const NO_PARENT: Fate = Some(Some(TreeWhy::NoParent));

const MISSING: Fate = Some(Some(TreeWhy::Missing));

const NOT_EMPTY: Fate = Some(Some(TreeWhy::NotEmpty));

const INSIDE: Fate = Some(Some(TreeWhy::Inside));

const DEEP: Fate = Some(Some(TreeWhy::Deep));

/// A path that is moved whole.
const MOVED: [(&str, Fate); 4] = [
    ("k:/a=1", DONE),
    ("k:/b/c=2", NO_PARENT),
    ("v:/a>/b", DONE),
    ("hello", NONE),
];

/// Each reason, and a branch that is moved behind where it stood.
const FAILED: [(&str, Fate); 16] = [
    ("k:/a=1", DONE),
    ("k:/a/b=2", DONE),
    ("k:/a/b/c=3", DONE),
    ("k:/d=4", DONE),
    ("k:/d/e=5", DONE),
    // /a/b/c has three names, and so has /d/e/f: /d/e/f/b/c would have five.
    ("v:/a>/d/e/f", DEEP),
    ("v:/a>/a/x", INSIDE),
    ("v:/a>/a", INSIDE),
    ("v:/a>/d", EXISTS),
    ("v:/q>/d", MISSING),
    ("v:/a>/q/r", NO_PARENT),
    ("x:/a", NOT_EMPTY),
    ("x:/z", MISSING),
    ("k:/d=9", EXISTS),
    ("v:/a>/d/a", DONE),
    ("x:/d/e", DONE),
];

/// Names that begin alike: /a0 does not go on from /a, and /a/b does. A branch is moved before where it stood.
const ALIKE: [(&str, Fate); 12] = [
    ("k:/a0=1", DONE),
    ("k:/a=2", DONE),
    ("k:/a/b=3", DONE),
    ("k:/a0/b=4", DONE),
    ("v:/a>/a1", DONE),
    ("v:/a>/a2", MISSING),
    ("v:/a1>/0", DONE),
    ("x:/a0", NOT_EMPTY),
    ("x:/a0/b", DONE),
    ("x:/a0", DONE),
    ("k:/0/a0=5", DONE),
    ("k:/0/a=6", DONE),
];

/// What is told of a change under this stamp.
fn told(stamp: u64, fate: Fate) -> Option<Told> {
    match fate {
        None => None,
        Some(None) => Some(Told::Done { stamp }),
        Some(Some(why)) => Some(Told::Failed { stamp, why }),
    }
}

fn fed(
    alloc: Global,
    tree: &mut TreeFold,
    stamp: u64,
    text: &str,
) -> Result<Option<Told>, AllocError> {
    let text = Text::copied(alloc, text.as_bytes())?;
    tree.feed(alloc, key_of(stamp, 0, stamp), &text)
}

/// The tree after all texts, under the stamps from 1 on, of each of which was told what it should be.
fn tree_of(rt: &impl Abort, alloc: Global, texts: &[(&str, Fate)]) -> Result<TreeFold, AllocError> {
    let mut tree = TreeFold::new(alloc);
    for (place, (text, fate)) in texts.iter().enumerate() {
        let stamp = (place as u64).saturating_add(1);
        let became = fed(alloc, &mut tree, stamp, text)?;
        assert_eq!(rt; became, told(stamp, *fate), "{text}");
    }
    Ok(tree)
}

/// The names are these.
fn are_so(rt: &impl Abort, names: &Names, wanted: &[&str]) {
    assert_eq!(rt; names.len(), wanted.len());
    for (place, name) in wanted.iter().enumerate() {
        match names.get(place) {
            Some(found) => assert_eq!(rt; found.as_bytes(), name.as_bytes()),
            None => assert!(rt; false, "no name"),
        }
    }
}

/// The names in a path are these, or it is not there.
fn are_names(
    rt: &impl Abort,
    alloc: Global,
    tree: &TreeFold,
    text: &str,
    wanted: Option<&[&str]>,
) -> Result<(), AllocError> {
    let Some(path) = path(alloc, text)? else {
        assert!(rt; false, "no path");
        return Ok(());
    };
    match (tree.names(alloc, &path)?, wanted) {
        (Some(names), Some(wanted)) => are_so(rt, &names, wanted),
        (Some(_), None) => assert!(rt; false, "names in {text}"),
        (None, Some(_)) => assert!(rt; false, "no names in {text}"),
        (None, None) => {}
    }
    Ok(())
}

/// The value of a path is this one, or there is none.
fn is_value_of(
    rt: &impl Abort,
    alloc: Global,
    tree: &TreeFold,
    text: &str,
    wanted: Option<&str>,
) -> Result<(), AllocError> {
    let Some(path) = path(alloc, text)? else {
        assert!(rt; false, "no path");
        return Ok(());
    };
    match (tree.value(&path), wanted) {
        (Some(value), Some(wanted)) => assert_eq!(rt; value.as_bytes(), wanted.as_bytes()),
        (Some(_), None) => assert!(rt; false, "a value of {text}"),
        (None, Some(_)) => assert!(rt; false, "no value of {text}"),
        (None, None) => {}
    }
    Ok(())
}

#[test]
fn a_moved_path_has_its_value_at_its_new_place(rt: HostRuntime) -> Result<(), Fail> {
    let tree = tree_of(&rt, rt.alloc(), &MOVED)?;
    are_names(&rt, rt.alloc(), &tree, "/", Some(&["b"]))?;
    are_names(&rt, rt.alloc(), &tree, "/b", Some(&[]))?;
    are_names(&rt, rt.alloc(), &tree, "/a", None)?;
    is_value_of(&rt, rt.alloc(), &tree, "/b", Some("1"))?;
    is_value_of(&rt, rt.alloc(), &tree, "/a", None)?;
    is_value_of(&rt, rt.alloc(), &tree, "/", None)?;
    Ok(())
}

#[test]
fn a_change_fails_for_the_first_reason_and_changes_nothing(rt: HostRuntime) -> Result<(), Fail> {
    let tree = tree_of(&rt, rt.alloc(), &FAILED[..14])?;
    are_names(&rt, rt.alloc(), &tree, "/", Some(&["a", "d"]))?;
    are_names(&rt, rt.alloc(), &tree, "/a", Some(&["b"]))?;
    is_value_of(&rt, rt.alloc(), &tree, "/d", Some("4"))?;
    Ok(())
}

#[test]
fn what_goes_on_from_a_path_moves_with_it(rt: HostRuntime) -> Result<(), Fail> {
    let tree = tree_of(&rt, rt.alloc(), &FAILED[..15])?;
    are_names(&rt, rt.alloc(), &tree, "/d", Some(&["a", "e"]))?;
    is_value_of(&rt, rt.alloc(), &tree, "/d/a/b/c", Some("3"))?;
    let tree = tree_of(&rt, rt.alloc(), &FAILED)?;
    are_names(&rt, rt.alloc(), &tree, "/d", Some(&["a"]))?;
    are_names(&rt, rt.alloc(), &tree, "/", Some(&["d"]))?;
    Ok(())
}

#[test]
fn names_that_begin_alike_are_not_mixed_up(rt: HostRuntime) -> Result<(), Fail> {
    let tree = tree_of(&rt, rt.alloc(), &ALIKE[..4])?;
    are_names(&rt, rt.alloc(), &tree, "/", Some(&["a", "a0"]))?;
    are_names(&rt, rt.alloc(), &tree, "/a", Some(&["b"]))?;
    let tree = tree_of(&rt, rt.alloc(), &ALIKE[..7])?;
    are_names(&rt, rt.alloc(), &tree, "/", Some(&["0", "a0"]))?;
    is_value_of(&rt, rt.alloc(), &tree, "/0/b", Some("3"))?;
    is_value_of(&rt, rt.alloc(), &tree, "/a0/b", Some("4"))?;
    let tree = tree_of(&rt, rt.alloc(), &ALIKE)?;
    are_names(&rt, rt.alloc(), &tree, "/0", Some(&["a", "a0", "b"]))?;
    Ok(())
}
