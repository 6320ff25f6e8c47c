// Transactional maps: what a read of one finds.
ghost use Rattle.std.specs.Prelude.{◌≡◌, ◌<◌, List, IfOk, length, map};
ghost use Rattle.log_node.specs.Sets.{members};
ghost use Rattle.object_fold.specs.Nodes.{ObjectNode};
ghost use Rattle.object_fold.specs.States.{IsTxState};
ghost use Rattle.object_fold.specs.Transactions.{value_of, writes_after, versions_after};
ghost use Rattle.script_text.specs.Fitting.{AreBelow};
ghost use Rattle.world_code.specs.WorldView.{world_of};
ghost use Rattle.script_meaning.specs.Dequeues.{object_node_at};
ghost use Rattle.script_meaning.specs.Gets.{key_answers};
ghost use Rattle.script_meaning.specs.Stamped.{keys_read};
ghost use Rattle.script_in_order.specs.Folds.{IsLinesFold};

use crate::lines_fold::{LinesFold, LinesRead};
use log_node::{Keys, ListOf, Text, Versions};
use object_fold::TxState;
use report_text::KeyAnswer;
use std::alloc::{AllocError, Global};
use world_code::World;

impl LinesFold<TxState> {
    /// The values of keys after all nodes that are read, and who wrote them last. Where there is no memory, the fold may
    /// begin anew.
    pub fn found(
        &mut self,
        alloc: Global,
        world: &World,
        read: LinesRead,
        keys: &Keys,
    ) -> Result<(ListOf<KeyAnswer>, Versions), AllocError>
        requires client { read.client < length world.now.shape.homes }
        requires within { AreBelow world.now.shape.colours read.colours }
        requires folded { IsLinesFold IsTxState (world_of world.now) self.old }
        ensures found { IfOk result (λ found. let nodes = map (object_node_at (world_of world.now))
            (keys_read (world_of world.now) read.client read.stamp (members read.colours)) in
            (found.0 ≡ key_answers (value_of (writes_after nodes)) keys.now) × (found.1 ≡ versions_after nodes keys.now)) }
        ensures folded { IsLinesFold IsTxState (world_of world.now) self.new }
    {
        self.fold_to(alloc, world, read)?;
        let answers = key_answers(alloc, &self.kept.state, keys.as_slice())?;
        let versions = self.kept.state.versions(alloc, keys)?;
        Ok((answers, versions))
    }
}

// A key's value in a transactional map.
fn value(alloc: Global, state: &TxState, key: &[u8]) -> Result<Option<Text>, AllocError>
    ensures { (nodes : List ObjectNode) → IsTxState state.now nodes
        → IfOk result (λ value. value ≡ value_of (writes_after nodes) key.now) }
{
    match state.value(key) {
        None => Ok(None),
        Some(value) => Ok(Some(Text::copied(alloc, value.as_bytes())?)),
    }
}

// Keys with their values in a transactional map.
fn key_answers(
    alloc: Global,
    state: &TxState,
    keys: &[Text],
) -> Result<ListOf<KeyAnswer>, AllocError>
    ensures { (nodes : List ObjectNode) → IsTxState state.now nodes
        → IfOk result (λ answers. answers ≡ key_answers (value_of (writes_after nodes)) keys.now) }
{
    let mut answers = ListOf::new(alloc);
    for key in keys {
        let value = value(alloc, state, key.as_bytes())?;
        let key = Text::copied(alloc, key.as_bytes())?;
        answers.push(KeyAnswer { key, value })?;
    }
    Ok(answers)
}
