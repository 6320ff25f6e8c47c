// The texts of commands' nodes, whatever the numbers in them.
ghost use Rattle.std.specs.Prelude.{◌≡◌, ◌++◌, ◌∷◌, IfOk, IfSome, OnOk, Some};
ghost use Rattle.std.specs.Option.{option_copied};
ghost use Rattle.log_node.specs.declared.forms.Form.TheVariants as forms;
ghost use Rattle.object_form.specs.Forms.{equals, form_text, pairs_text, version_text, versions_text};
ghost use Rattle.tree_fold.specs.Changes.{IsChange};
ghost use Rattle.lawful_run.specs.Asks.{put_form};
ghost use Rattle.lawful_run.specs.Deeds.{saying_of, says_change};
ghost use Rattle.walk_law.specs.Finds.{text_of};

use log_node::{Pair, Text, Version};
use object_form::put_key;
use part_fold::{Decision, write_decision};
use script_text::{Kind, What};
use std::alloc::{AllocError, Global};
use tree_fold::{Change, make_change, move_change, remove_change, write_change};

// PIECES

// Writes KEY=VALUE behind these bytes.
fn put_pair(bytes: &mut Vec<u8>, key: &Text, value: &Text) -> Result<(), AllocError>
    ensures { OnOk result (bytes.new.items ≡ bytes.old.items ++ (key.now ++ equals ∷ value.now)) }
{
    bytes.extend_from_slice(key.as_bytes())?;
    bytes.push(b'=')?;
    bytes.extend_from_slice(value.as_bytes())
}

// Writes pairs.
fn put_pairs(bytes: &mut Vec<u8>, pairs: &[Pair]) -> Result<(), AllocError>
    ensures { OnOk result (bytes.new.items ≡ bytes.old.items ++ pairs_text pairs.now) }
{
    let [first, others @ ..] = pairs else {
        return Ok(());
    };
    put_pair(bytes, &first.key, &first.value)?;
    for pair in others {
        bytes.push(b',')?;
        put_pair(bytes, &pair.key, &pair.value)?;
    }
    Ok(())
}

// Writes KEY@WRITER.
fn put_version(bytes: &mut Vec<u8>, version: &Version) -> Result<(), AllocError>
    ensures { OnOk result (bytes.new.items ≡ bytes.old.items ++ version_text version.now) }
{
    bytes.extend_from_slice(version.key.as_bytes())?;
    bytes.push(b'@')?;
    match &version.writer {
        None => {
            bytes.push(b'-')?;
            Ok(())
        }
        Some(key) => put_key(bytes, key),
    }
}

// Writes versions.
fn put_versions(bytes: &mut Vec<u8>, versions: &[Version]) -> Result<(), AllocError>
    ensures { OnOk result (bytes.new.items ≡ bytes.old.items ++ versions_text versions.now) }
{
    let [first, others @ ..] = versions else {
        return Ok(());
    };
    put_version(bytes, first)?;
    for version in others {
        bytes.push(b',')?;
        put_version(bytes, version)?;
    }
    Ok(())
}

// TEXTS

// A front and a word.
fn word_text(alloc: Global, front: &[u8], word: &Text) -> Result<Text, AllocError>
    ensures { IfOk result (λ text. text ≡ front.now ++ word.now) }
{
    let mut bytes = Vec::new(alloc);
    bytes.extend_from_slice(front)?;
    bytes.extend_from_slice(word.as_bytes())?;
    Text::copied(alloc, &bytes)
}

// A front and KEY=VALUE.
fn pair_text(alloc: Global, front: &[u8], key: &Text, value: &Text) -> Result<Text, AllocError>
    ensures { IfOk result (λ text. text ≡ front.now ++ (key.now ++ equals ∷ value.now)) }
{
    let mut bytes = Vec::new(alloc);
    bytes.extend_from_slice(front)?;
    put_pair(&mut bytes, key, value)?;
    Text::copied(alloc, &bytes)
}

// A front and pairs.
fn pairs_text(alloc: Global, front: &[u8], pairs: &[Pair]) -> Result<Text, AllocError>
    ensures { IfOk result (λ text. text ≡ front.now ++ pairs_text pairs.now) }
{
    let mut bytes = Vec::new(alloc);
    bytes.extend_from_slice(front)?;
    put_pairs(&mut bytes, pairs)?;
    Text::copied(alloc, &bytes)
}

/// The text of a transaction that found these versions and writes these pairs.
pub fn transaction_text(
    alloc: Global,
    found: &[Version],
    pairs: &[Pair],
) -> Result<Text, AllocError>
    ensures { IfOk result (λ text. text ≡ form_text (forms.Transaction found.now pairs.now)) }
{
    let mut bytes = Vec::new(alloc);
    bytes.extend_from_slice(b"t:")?;
    put_versions(&mut bytes, found)?;
    bytes.push(b'|')?;
    put_pairs(&mut bytes, pairs)?;
    Text::copied(alloc, &bytes)
}

// That of a put on an object of a kind.
fn put_text(
    alloc: Global,
    kind: Option<&Kind>,
    key: &Text,
    value: &Text,
) -> Result<Text, AllocError>
    ensures { IfOk result (λ text. text ≡ form_text (put_form (option_copied kind.entry) key.now value.now)) }
{
    match kind {
        Some(Kind::Causal { .. }) => pair_text(alloc, b"c:", key, value),
        _ => pair_text(alloc, b"p:", key, value),
    }
}

// That of a change of a tree; none where there is no change.
fn text_of_change(
    alloc: Global,
    decision: Decision,
    change: Option<Change>,
) -> Result<Option<Text>, AllocError>
    requires { IfSome change IsChange }
    ensures { IfOk result (λ text. text ≡ text_of decision (says_change change)) }
{
    match change {
        Some(change) => Ok(Some(write_change(alloc, &change)?)),
        None => Ok(None),
    }
}

/// The text of the node of a command on an object of a kind, where it appends one: by what the read found that it uses up, and by
/// what a decision says.
pub fn text_said(
    alloc: Global,
    kind: Option<&Kind>,
    what: &What,
    found: Option<&[Version]>,
    decision: Decision,
) -> Result<Option<Text>, AllocError>
    ensures { IfOk result (λ text. text
        ≡ text_of decision (saying_of (option_copied kind.entry) (option_copied found.entry) what.now)) }
{
    match what {
        What::Append { text, .. } => Ok(Some(Text::copied(alloc, text.as_bytes())?)),
        What::Stop { text, .. } => Ok(Some(Text::copied(alloc, text.as_bytes())?)),
        What::Only { text, .. } => Ok(Some(Text::copied(alloc, text.as_bytes())?)),
        What::Put { key, value, .. } => Ok(Some(put_text(alloc, kind, key, value)?)),
        What::Del { key, .. } => Ok(Some(word_text(alloc, b"d:", key)?)),
        What::PutAll { pairs, .. } => Ok(Some(pairs_text(alloc, b"m:", pairs.as_slice())?)),
        What::Commit { pairs, .. } => match found {
            Some(found) => Ok(Some(transaction_text(alloc, found, pairs.as_slice())?)),
            None => Ok(None),
        },
        What::Enq { value, .. } => Ok(Some(word_text(alloc, b"e:", value)?)),
        What::Deq { .. } => Ok(Some(Text::copied(alloc, b"q:")?)),
        What::Mk { path, value, .. } => {
            let change = make_change(alloc, path.as_bytes(), value.as_bytes())?;
            text_of_change(alloc, decision, change)
        }
        What::Rm { path, .. } => {
            let change = remove_change(alloc, path.as_bytes())?;
            text_of_change(alloc, decision, change)
        }
        What::Mv { source, target, .. } => {
            let change = move_change(alloc, source.as_bytes(), target.as_bytes())?;
            text_of_change(alloc, decision, change)
        }
        What::Decide { .. } => Ok(Some(write_decision(alloc, &decision)?)),
        What::Sync { .. }
        | What::Scan { .. }
        | What::Pull { .. }
        | What::Trim { .. }
        | What::Get { .. }
        | What::GetAll { .. }
        | What::Read { .. }
        | What::Ls { .. }
        | What::Peek { .. } => Ok(None),
    }
}
