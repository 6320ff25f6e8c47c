// What calls of objects append: the text of a form.
ghost use Rattle.std.specs.Prelude.{◌≡◌, ◌<◌, ◌∷◌, [], IfOk, IfErr};
ghost use Rattle.log_node.specs.Sets.{members};
ghost use Rattle.object_form.specs.Forms.{IsForm, form_text};
ghost use Rattle.log_client.specs.Clients.{IsClient, tracks_of};
ghost use Rattle.log_client.specs.Appends.{AreColoursOf};
ghost use Rattle.log_client.specs.Reading.{RestsOn};
ghost use Rattle.log_client.specs.Objects.{StandsIn, StandsNot};

use crate::answers::Appended;
use crate::client::Client;
use crate::object_fault::ObjectFault;
use crate::store::Store;
use fuzzy_io::Gate;
use log_node::{Colours, Form, MAX_COLOURS, Text};
use object_form::write_form;
use std::alloc::{AllocError, Global};
use std::sync::Wait;

// The text of a form.
fn text_of(alloc: Global, form: Form) -> Result<Text, AllocError>
    requires { IsForm form }
    ensures { IfOk result (λ text. text ≡ form_text form) }
{
    write_form(alloc, &form)
}

impl Client {
    /// Appends a node with the text of a form to some colours, and plays nothing, as `append` does. Without memory for the text
    /// nothing is done. Waits as `append` does.
    pub fn append_form<R: Wait, G: Gate>(
        &mut self,
        rt: &R,
        alloc: Global,
        store: &Store,
        gate: &G,
        colours: Colours,
        form: Form,
    ) -> Result<Appended, ObjectFault>
        requires client { IsClient store.now self.old }
        requires colours { AreColoursOf store.now colours }
        requires form { IsForm form }
        ensures client { RestsOn store.now self.old self.new }
        ensures plays { tracks_of self.new ≡ tracks_of self.old }
        ensures ok { IfOk result (StandsIn store.now self.old self.new
            (members colours) (form_text form)) }
        ensures err { IfErr result (StandsNot store.now self.old self.new
            (members colours) (form_text form)) }
    {
        let Ok(text) = text_of(alloc, form) else {
            return Err(ObjectFault::NoMemory);
        };
        match self.append(rt, alloc, store, gate, colours, text, None) {
            Ok(appended) => Ok(appended),
            Err(fault) => Err(ObjectFault::Append(fault)),
        }
    }

    /// Appends a node with the text of a form to one colour, and plays nothing.
    pub fn append_form_to<R: Wait, G: Gate>(
        &mut self,
        rt: &R,
        alloc: Global,
        store: &Store,
        gate: &G,
        colour: u8,
        form: Form,
    ) -> Result<Appended, ObjectFault>
        requires client { IsClient store.now self.old }
        requires colour { colour < store.now.size.colours }
        requires few { colour < MAX_COLOURS }
        requires form { IsForm form }
        ensures client { RestsOn store.now self.old self.new }
        ensures plays { tracks_of self.new ≡ tracks_of self.old }
        ensures ok { IfOk result (StandsIn store.now self.old self.new
            (colour ∷ []) (form_text form)) }
        ensures err { IfErr result (StandsNot store.now self.old self.new
            (colour ∷ []) (form_text form)) }
    {
        self.append_form(rt, alloc, store, gate, Colours::of(&[colour]), form)
    }
}
