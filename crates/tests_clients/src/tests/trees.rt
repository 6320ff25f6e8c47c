// Trees of names.
ghost use Rattle.std.specs.Prelude.{IfOk, IfSome};
ghost use Rattle.tests_clients.specs.Stores.{IsSmall};
ghost use Rattle.log_client.specs.Clients.{IsClient};
ghost use Rattle.log_tree.specs.Trees.{IsTreeOf};
ghost use Rattle.tree_fold.specs.Changes.{IsChange};

use crate::tests::made::{opened, two_colours};
use crate::tests::shown::{Row, is_value, shows, stands_at};
use fuzzy_io::OpenGate;
use log_client::{Client, Store};
use log_node::{At, Text};
use log_tree::LogTree;
use object_form::TreeWhy;
use std::alloc::{AllocError, Global};
use std::process::Abort;
use std::sync::Wait;
use std::test::Fail;
use tree_fold::{Change, Path, Told, read_change};

// The change of a text, if it has one.
fn change_in(alloc: Global, text: &str) -> Result<Option<Change>, AllocError>
    ensures { IfOk result (λ change. IfSome change IsChange) }
{
    let text = Text::copied(alloc, text.as_bytes())?;
    read_change(alloc, &text)
}

// A client with its tree of both colours.
#[derive(Drop)]
struct Gardener {
    client: Client,
    tree: LogTree,
}

// A change, what it is told, and where it stands: its stamp and row, and its events and positions in its colours.
struct Step {
    text: &'static str,
    told: Told,
    stamp: u64,
    row: Option<u32>,
    points: &'static [(u8, u64, u64)],
    read: Row,
}

const PLANTED: Step = Step {
    text: "k:/a=1",
    told: Told::Done { stamp: 1 },
    stamp: 1,
    row: None,
    points: &[(1, 0, 0)],
    read: Row {
        stamp: 1,
        raises: [At::Event(0), At::Look(1)],
        syncs: [(1, 0), (1, 1)],
        texts: &["k:/a=1"],
    },
};

const IN_THE_AIR: Step = Step {
    text: "k:/b/c=2",
    told: Told::Failed {
        stamp: 2,
        why: TreeWhy::NoParent,
    },
    stamp: 2,
    row: None,
    points: &[(0, 1, 0)],
    read: Row {
        stamp: 2,
        raises: [At::Look(2), At::Event(1)],
        syncs: [(2, 1), (2, 1)],
        texts: &["k:/a=1", "k:/b/c=2"],
    },
};

const RENAMED: Step = Step {
    text: "v:/a>/b",
    told: Told::Done { stamp: 3 },
    stamp: 3,
    row: Some(0),
    points: &[(0, 2, 1), (1, 2, 1)],
    read: Row {
        stamp: 3,
        raises: [At::Look(4), At::Look(4)],
        syncs: [(4, 2), (4, 2)],
        texts: &["k:/b/c=2", "v:/a>/b"],
    },
};

const SEEN: Row = Row {
    stamp: 3,
    raises: [At::Look(4), At::Look(4)],
    syncs: [(4, 2), (4, 2)],
    texts: &["v:/a>/b"],
};

const SEEN_AGAIN: Row = Row {
    stamp: 3,
    raises: [At::Look(4), At::Look(4)],
    syncs: [(4, 2), (4, 2)],
    texts: &[],
};

impl Gardener {
    // The change of a step stands and is told what the step says.
    fn changes<R: Wait + Abort>(
        &mut self,
        rt: &R,
        alloc: Global,
        store: &Store,
        step: &Step,
    ) -> Result<(), Fail>
        requires client { IsClient store.now self.old.client }
        requires tree { IsTreeOf self.old.client self.old.tree }
        ensures client { IsClient store.now self.new.client }
        ensures tree { IsTreeOf self.new.client self.new.tree }
    {
        let Some(change) = change_in(alloc, step.text)? else {
            assert!(rt; false, "no change");
            return Ok(());
        };
        let (told, own, read) = self
            .tree
            .change(rt, alloc, &mut self.client, store, &OpenGate, &change)?;
        assert_eq!(rt; told, step.told);
        stands_at(rt, &own, step.stamp, step.row, step.points);
        shows(rt, &read, &step.read);
        Ok(())
    }

    // The names in the root are these, after this read.
    fn lists<R: Wait + Abort>(
        &mut self,
        rt: &R,
        alloc: Global,
        store: &Store,
        names: &[&str],
        row: &Row,
    ) -> Result<(), Fail>
        requires client { IsClient store.now self.old.client }
        requires tree { IsTreeOf self.old.client self.old.tree }
        ensures client { IsClient store.now self.new.client }
        ensures tree { IsTreeOf self.new.client self.new.tree }
    {
        let root = Path::make(alloc, b"/")?;
        let (found, read) = self
            .tree
            .list(rt, alloc, &mut self.client, store, &OpenGate, &root)?;
        match found {
            Some(found) => {
                assert_eq!(rt; found.len(), names.len());
                for (name, wanted) in found.as_slice().iter().zip(names) {
                    assert_eq!(rt; name.as_bytes(), wanted.as_bytes());
                }
            }
            None => assert!(rt; false, "no root"),
        }
        shows(rt, &read, row);
        Ok(())
    }

    // The value of a path is this, after this read; empty stands for none.
    fn finds<R: Wait + Abort>(
        &mut self,
        rt: &R,
        alloc: Global,
        store: &Store,
        path: &str,
        value: &str,
        row: &Row,
    ) -> Result<(), Fail>
        requires client { IsClient store.now self.old.client }
        requires tree { IsTreeOf self.old.client self.old.tree }
        ensures client { IsClient store.now self.new.client }
        ensures tree { IsTreeOf self.new.client self.new.tree }
    {
        let path = Path::make(alloc, path.as_bytes())?;
        let (found, read) = self
            .tree
            .value(rt, alloc, &mut self.client, store, &OpenGate, &path)?;
        is_value(rt, &found, value.as_bytes());
        shows(rt, &read, row);
        Ok(())
    }
}

// A client with a new tree.
fn with_tree(alloc: Global, _store: &Store, client: Client) -> Result<Gardener, AllocError>
    requires small { IsSmall _store.now }
    requires client { IsClient _store.now client }
    ensures client { IfOk result (λ g. IsClient _store.now g.client) }
    ensures tree { IfOk result (λ g. IsTreeOf g.client g.tree) }
{
    let colours = two_colours(alloc)?;
    let tree = LogTree::open(alloc, 0, colours);
    Ok(Gardener { client, tree })
}

// Two clients change one tree, and both see what became of it.
fn grow<R: Wait + Abort>(
    rt: &R,
    alloc: Global,
    store: &Store,
    a: &mut Gardener,
    b: &mut Gardener,
) -> Result<(), Fail>
    requires clients { IsClient store.now a.old.client × IsClient store.now b.old.client }
    requires trees { IsTreeOf a.old.client a.old.tree × IsTreeOf b.old.client b.old.tree }
{
    a.changes(rt, alloc, store, &PLANTED)?;
    b.changes(rt, alloc, store, &IN_THE_AIR)?;
    a.changes(rt, alloc, store, &RENAMED)?;
    b.lists(rt, alloc, store, &["b"], &SEEN)?;
    b.finds(rt, alloc, store, "/b", "1", &SEEN_AGAIN)?;
    b.finds(rt, alloc, store, "/a", "", &SEEN_AGAIN)
}

#[test]
fn a_rename_is_one_step_for_all_clients(rt: HostRuntime) -> Result<(), Fail> {
    let alloc = rt.alloc();
    let (store, one, two) = opened(alloc)?;
    let mut a = with_tree(alloc, &store, one)?;
    let mut b = with_tree(alloc, &store, two)?;
    grow(&rt, alloc, &store, &mut a, &mut b)
}
