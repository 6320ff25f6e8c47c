// The text of a form.
ghost use Rattle.std.specs.Prelude.{◌≡◌, ◌++◌, ◌∷◌, IfOk, OnOk, decimal};
ghost use Rattle.object_form.specs.Forms.{pair_text, pairs_text, writer_text, version_text, versions_text, form_text, IsForm, equals, comma};

use log_node::{Form, Key, Pair, Text, Version};
use std::alloc::{AllocError, Global};

fn put_number(bytes: &mut Vec<u8>, number: u64) -> Result<(), AllocError>
    ensures { OnOk result (bytes.new.items ≡ bytes.old.items ++ decimal number) }
{
    bytes.extend_from_slice(itoa::Buffer::new().format(number).as_bytes())
}

fn put_key_and_value(bytes: &mut Vec<u8>, key: &Text, value: &Text) -> Result<(), AllocError>
    ensures { OnOk result (bytes.new.items ≡ bytes.old.items ++ (key.now ++ equals ∷ value.now)) }
{
    bytes.extend_from_slice(key.as_bytes())?;
    bytes.push(b'=')?;
    bytes.extend_from_slice(value.as_bytes())
}

fn put_pairs(bytes: &mut Vec<u8>, pairs: &[Pair]) -> Result<(), AllocError>
    ensures { OnOk result (bytes.new.items ≡ bytes.old.items ++ pairs_text pairs.now) }
{
    let [first, others @ ..] = pairs else {
        return Ok(());
    };
    put_key_and_value(bytes, &first.key, &first.value)?;
    for pair in others {
        bytes.push(b',')?;
        put_key_and_value(bytes, &pair.key, &pair.value)?;
    }
    Ok(())
}

/// Writes a key, its stamp, client and count with dots, behind these bytes. `AllocError` where memory is refused.
pub fn put_key(bytes: &mut Vec<u8>, key: &Key) -> Result<(), AllocError>
    ensures { OnOk result (bytes.new.items ≡ bytes.old.items ++ writer_text (Some key.now)) }
{
    put_number(bytes, key.stamp)?;
    bytes.push(b'.')?;
    put_number(bytes, u64::from(key.id.client))?;
    bytes.push(b'.')?;
    put_number(bytes, key.id.count)
}

fn put_version(bytes: &mut Vec<u8>, version: &Version) -> Result<(), AllocError>
    ensures { OnOk result (bytes.new.items ≡ bytes.old.items ++ version_text version.now) }
{
    bytes.extend_from_slice(version.key.as_bytes())?;
    bytes.push(b'@')?;
    match &version.writer {
        None => {
            bytes.push(b'-')?;
            Ok(())
        }
        Some(key) => put_key(bytes, key),
    }
}

fn put_versions(bytes: &mut Vec<u8>, versions: &[Version]) -> Result<(), AllocError>
    ensures { OnOk result (bytes.new.items ≡ bytes.old.items ++ versions_text versions.now) }
{
    let [first, others @ ..] = versions else {
        return Ok(());
    };
    put_version(bytes, first)?;
    for version in others {
        bytes.push(b',')?;
        put_version(bytes, version)?;
    }
    Ok(())
}

fn put_form(bytes: &mut Vec<u8>, form: &Form) -> Result<(), AllocError>
    ensures { OnOk result (bytes.new.items ≡ bytes.old.items ++ form_text form.now) }
{
    match form {
        Form::Put { key, value } => {
            bytes.extend_from_slice(b"p:")?;
            put_key_and_value(bytes, key, value)
        }
        Form::Delete { key } => {
            bytes.extend_from_slice(b"d:")?;
            bytes.extend_from_slice(key.as_bytes())
        }
        Form::PutAll { pairs } => {
            bytes.extend_from_slice(b"m:")?;
            put_pairs(bytes, pairs.as_slice())
        }
        Form::Transaction { reads, writes } => {
            bytes.extend_from_slice(b"t:")?;
            put_versions(bytes, reads.as_slice())?;
            bytes.push(b'|')?;
            put_pairs(bytes, writes.as_slice())
        }
        Form::Enqueue { value } => {
            bytes.extend_from_slice(b"e:")?;
            bytes.extend_from_slice(value.as_bytes())
        }
        Form::Dequeue => bytes.extend_from_slice(b"q:"),
        Form::Causal { key, value } => {
            bytes.extend_from_slice(b"c:")?;
            put_key_and_value(bytes, key, value)
        }
        Form::Plain => Ok(()),
    }
}

/// The text of a form that may be: any but `Plain`. `AllocError` where memory is refused.
pub fn write_form(alloc: Global, form: &Form) -> Result<Text, AllocError>
    requires { IsForm form.now }
    ensures { IfOk result (λ text. text ≡ form_text form.now) }
{
    let mut bytes = Vec::new(alloc);
    put_form(&mut bytes, form)?;
    Text::copied(alloc, &bytes)
}
