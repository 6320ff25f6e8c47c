// The form of a text.
ghost use Rattle.std.specs.Prelude.{◌≡◌, IfOk, map};
ghost use Rattle.object_form.specs.Forms.{equals, at_sign, bar, IsReading};
ghost use Rattle.object_form.specs.Readings.{form_of, form_after, pair_of, version_of, key_in, pieces_in, is_pair, before, after, put_of, delete_of, put_all_of, transaction_of, enqueue_of, dequeue_of, causal_of};

use crate::pieces::{are_pairs, are_versions, cut, is_pair, is_word, parts_of, read_key};
use log_node::{Form, ListOf, Pair, Pairs, Text, Version, Versions};
use std::alloc::{AllocError, Global};

fn pair_of(alloc: Global, bytes: &[u8]) -> Result<Pair, AllocError>
    ensures { IfOk result (λ pair. pair ≡ pair_of bytes.now) }
{
    let (key, value) = cut(bytes, b'=');
    let key = Text::copied(alloc, key)?;
    let value = Text::copied(alloc, value)?;
    Ok(Pair { key, value })
}

fn pairs_of(alloc: Global, pieces: &[&[u8]]) -> Result<Pairs, AllocError>
    ensures { IfOk result (λ pairs. pairs ≡ map pair_of (pieces_in pieces.now)) }
{
    let mut pairs = ListOf::new(alloc);
    for piece in pieces {
        let pair = pair_of(alloc, piece)?;
        pairs.push(pair)?;
    }
    Ok(pairs)
}

fn version_of(alloc: Global, bytes: &[u8]) -> Result<Version, AllocError>
    ensures { IfOk result (λ version. version ≡ version_of bytes.now) }
{
    let (key, writer) = cut(bytes, b'@');
    let key = Text::copied(alloc, key)?;
    Ok(Version {
        key,
        writer: read_key(writer),
    })
}

fn versions_of(alloc: Global, pieces: &[&[u8]]) -> Result<Versions, AllocError>
    ensures { IfOk result (λ versions. versions ≡ map version_of (pieces_in pieces.now)) }
{
    let mut versions = ListOf::new(alloc);
    for piece in pieces {
        let version = version_of(alloc, piece)?;
        versions.push(version)?;
    }
    Ok(versions)
}

fn put_of(alloc: Global, bytes: &[u8]) -> Result<Form, AllocError>
    ensures { IfOk result (λ form. form ≡ put_of bytes.now) }
{
    if !is_pair(bytes) {
        return Ok(Form::Plain);
    }
    let Pair { key, value } = pair_of(alloc, bytes)?;
    Ok(Form::Put { key, value })
}

fn delete_of(alloc: Global, bytes: &[u8]) -> Result<Form, AllocError>
    ensures { IfOk result (λ form. form ≡ delete_of bytes.now) }
{
    if !is_word(bytes) {
        return Ok(Form::Plain);
    }
    let key = Text::copied(alloc, bytes)?;
    Ok(Form::Delete { key })
}

fn put_all_of(alloc: Global, bytes: &[u8]) -> Result<Form, AllocError>
    ensures { IfOk result (λ form. form ≡ put_all_of bytes.now) }
{
    let pieces = parts_of(alloc, bytes)?;
    if !are_pairs(4, &pieces) {
        return Ok(Form::Plain);
    }
    let pairs = pairs_of(alloc, &pieces)?;
    Ok(Form::PutAll { pairs })
}

fn transaction_of(alloc: Global, bytes: &[u8]) -> Result<Form, AllocError>
    ensures { IfOk result (λ form. form ≡ transaction_of bytes.now) }
{
    let (reads, writes) = cut(bytes, b'|');
    let reads = parts_of(alloc, reads)?;
    let writes = parts_of(alloc, writes)?;
    if !are_versions(&reads) || !are_pairs(2, &writes) {
        return Ok(Form::Plain);
    }
    let reads = versions_of(alloc, &reads)?;
    let writes = pairs_of(alloc, &writes)?;
    Ok(Form::Transaction { reads, writes })
}

fn enqueue_of(alloc: Global, bytes: &[u8]) -> Result<Form, AllocError>
    ensures { IfOk result (λ form. form ≡ enqueue_of bytes.now) }
{
    if !is_word(bytes) {
        return Ok(Form::Plain);
    }
    let value = Text::copied(alloc, bytes)?;
    Ok(Form::Enqueue { value })
}

fn dequeue_of(bytes: &[u8]) -> Form
    ensures { result ≡ dequeue_of bytes.now }
{
    if bytes.is_empty() {
        Form::Dequeue
    } else {
        Form::Plain
    }
}

fn causal_of(alloc: Global, bytes: &[u8]) -> Result<Form, AllocError>
    ensures { IfOk result (λ form. form ≡ causal_of bytes.now) }
{
    if !is_pair(bytes) {
        return Ok(Form::Plain);
    }
    let Pair { key, value } = pair_of(alloc, bytes)?;
    Ok(Form::Causal { key, value })
}

// The form of a text with this letter before its colon.
fn form_after(alloc: Global, letter: u8, bytes: &[u8]) -> Result<Form, AllocError>
    ensures { IfOk result (λ form. form ≡ form_after letter bytes.now) }
{
    match letter {
        b'p' => put_of(alloc, bytes),
        b'd' => delete_of(alloc, bytes),
        b'm' => put_all_of(alloc, bytes),
        b't' => transaction_of(alloc, bytes),
        b'e' => enqueue_of(alloc, bytes),
        b'q' => Ok(dequeue_of(bytes)),
        b'c' => causal_of(alloc, bytes),
        _ => Ok(Form::Plain),
    }
}

fn form_in(alloc: Global, bytes: &[u8]) -> Result<Form, AllocError>
    ensures { IfOk result (λ form. form ≡ form_of bytes.now) }
{
    match bytes {
        [letter, b':', others @ ..] => form_after(alloc, *letter, others),
        _ => Ok(Form::Plain),
    }
}

/// The form of a node's text: the one that has this text, or `Plain` where none has it. `AllocError` where memory is
/// refused.
pub fn read_form(alloc: Global, text: &Text) -> Result<Form, AllocError>
    ensures reading { IfOk result (λ form. IsReading text.now form) }
    ensures form { IfOk result (λ form. form ≡ form_of text.now) }
{
    form_in(alloc, text.as_bytes())
}
