// The queue, folded from the line of its colour.
ghost use Rattle.std.specs.Prelude.{◌≡◌, ◌++◌, ◌∷◌, [], List, IfOk, OnOk, OnErr, slice_get};
ghost use Rattle.std.specs.Option.{option_copied};
ghost use Rattle.object_form.specs.Readings.{form_of};
ghost use Rattle.object_fold.specs.Nodes.{ObjectNode};
ghost use Rattle.object_fold.specs.Queues.{queue_with, answer_with, front_after, queue_after};
ghost use Rattle.object_fold.specs.States.{IsValueQueue};

use crate::fold::LineFold;
use log_node::{Form, Key, Node, Text};
use object_form::read_form;
use std::alloc::{AllocError, Global};
use std::collections::VecDeque;

/// The queue: what waits after the nodes that were fed.
#[derive(Drop)]
pub struct ValueQueue {
    waiting: VecDeque<Text>,
}

impl ValueQueue {
    /// The queue before any node.
    pub fn new(alloc: Global) -> Self
        ensures { IsValueQueue result [] }
    {
        ValueQueue {
            waiting: VecDeque::new(alloc),
        }
    }

    fn apply(&mut self, form: Form) -> Result<Option<Text>, AllocError>
        ensures answer { IfOk result (λ answer. answer ≡ answer_with self.old.waiting.items form) }
        ensures ok { OnOk result (self.new.waiting.items ≡ queue_with self.old.waiting.items form) }
        ensures err { OnErr result (self.new.waiting.items ≡ self.old.waiting.items) }
    {
        match form {
            Form::Enqueue { value } => {
                self.waiting.push_back(value)?;
                Ok(None)
            }
            Form::Dequeue => Ok(self.waiting.pop_front()),
            Form::Put {
                key: _key,
                value: _value,
            } => Ok(None),
            Form::Delete { key: _key } => Ok(None),
            Form::PutAll { pairs: _pairs } => Ok(None),
            Form::Transaction {
                reads: _reads,
                writes: _writes,
            } => Ok(None),
            Form::Causal {
                key: _key,
                value: _value,
            } => Ok(None),
            Form::Plain => Ok(None),
        }
    }

    /// Feeds the next node of the line of the queue's colour, and gives what the node is answered: the front, if it is
    /// a dequeue and the queue is not empty. At an error the queue is as before.
    pub fn feed(&mut self, alloc: Global, text: &Text) -> Result<Option<Text>, AllocError>
        ensures answer { (nodes : List ObjectNode) → IsValueQueue self.old nodes
            → IfOk result (λ answer. answer ≡ answer_with (queue_after nodes) (form_of text.now)) }
        ensures ok { (nodes : List ObjectNode) (node : ObjectNode) → node.text ≡ text.now → IsValueQueue self.old nodes
            → OnOk result (IsValueQueue self.new (nodes ++ node ∷ [])) }
        ensures err { (nodes : List ObjectNode) → IsValueQueue self.old nodes → OnErr result (IsValueQueue self.new nodes) }
    {
        let form = read_form(alloc, text)?;
        self.apply(form)
    }

    /// What a dequeue would be answered now.
    pub fn front(&self) -> Option<&Text>
        ensures { (nodes : List ObjectNode) → IsValueQueue self.now nodes → option_copied result ≡ front_after nodes }
    {
        self.waiting.front()
    }
}

impl LineFold for ValueQueue {
    ghost Holds = { IsValueQueue };

    ghost Opened = { Unit {0} };

    ghost opened = { λ _. tt };

    fn feed(&mut self, alloc: Global, _key: Key, node: &Node) -> Result<(), AllocError> {
        let _answer = self.feed(alloc, &node.text)?;
        Ok(())
    }
}
