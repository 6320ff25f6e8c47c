// Texts that were written by hand.
use crate::tests::made::key_of;
use log_node::{Form, Pair, Text, Version};
use object_form::read_form;
use std::alloc::{AllocError, Global};
use std::process::Abort;
use std::test::Fail;

/// Texts that are read as forms, each with the letter that it begins with.
const READ: [(&str, char); 13] = [
    ("p:k=1", 'p'),
    ("p:abcdefghijklmno0=0123456789012345", 'p'),
    ("d:k", 'd'),
    ("d:abcdefghijklmno0", 'd'),
    ("m:b=1", 'm'),
    ("m:b=1,a=2", 'm'),
    ("m:a=1,b=1,c=1,d=1", 'm'),
    ("t:b@-|b=7", 't'),
    ("t:b@1.1.0|b=9", 't'),
    (
        "t:a@-,b@4611686018427387903.255.9223372036854775807|b=1,c=2",
        't',
    ),
    ("e:v", 'e'),
    ("q:", 'q'),
    ("c:k=3", 'c'),
];

/// Texts that are plain.
const PLAIN: [&str; 34] = [
    // No letter, or no colon behind it.
    "",
    "p",
    "hello",
    "x:k",
    "pk=1",
    // Words of no byte, of 17, and of other bytes.
    "p:k",
    "p:=1",
    "p:k=",
    "p:K=1",
    "p:k=1=2",
    "d:",
    "d:abcdefghijklmnop0",
    "e:",
    "c:k",
    "q:v",
    "m:",
    "m:a=1,a=2",
    "m:a=1,",
    "m:a=1,b=1,c=1,d=1,e=1",
    // Keys twice, too many of them, none.
    "t:b@-",
    "t:b@-|",
    "t:|b=1",
    "t:b@-,b@-|b=1",
    "t:b@-|b=1,b=2",
    "t:a@-,b@-,c@-|b=1",
    // Numbers with a leading zero, out of their ranges, or lacking.
    "t:b@0.1.0|b=7",
    "t:b@01.1.0|b=7",
    "t:b@4611686018427387904.1.0|b=7",
    "t:b@1.256.0|b=7",
    "t:b@1.1.9223372036854775808|b=7",
    "t:b@1.1.10000000000000000000|b=7",
    "t:b@1.1|b=7",
    "t:b@1.1.0.0|b=7",
    "t:b@|b=7",
];

/// The letter that a form's text begins with, and a dash for a plain one.
fn letter_of(form: &Form) -> char {
    match form {
        Form::Put { .. } => 'p',
        Form::Delete { .. } => 'd',
        Form::PutAll { .. } => 'm',
        Form::Transaction { .. } => 't',
        Form::Enqueue { .. } => 'e',
        Form::Dequeue => 'q',
        Form::Causal { .. } => 'c',
        Form::Plain => '-',
    }
}

/// The form of a text.
fn form_of(alloc: Global, text: &str) -> Result<Form, AllocError> {
    let text = Text::copied(alloc, text.as_bytes())?;
    read_form(alloc, &text)
}

#[test]
fn each_form_is_read(rt: HostRuntime) -> Result<(), Fail> {
    for (text, letter) in READ {
        assert_eq!(rt; letter_of(&form_of(rt.alloc(), text)?), letter, "{text}");
    }
    Ok(())
}

#[test]
fn other_texts_are_plain(rt: HostRuntime) -> Result<(), Fail> {
    for text in PLAIN {
        assert_eq!(rt; letter_of(&form_of(rt.alloc(), text)?), '-', "{text}");
    }
    Ok(())
}

/// A transaction read `b` as a writer left it and `c` before any, and writes 7 to one key.
fn is_read_so(rt: &impl Abort, reads: &[Version], writes: &[Pair]) {
    assert_eq!(rt; reads.len(), 2);
    assert_eq!(rt; writes.len(), 1);
    assert_eq!(rt; reads[0].key.as_bytes(), b"b".as_slice());
    assert_eq!(rt; reads[0].writer, Some(key_of(1, 2, 3)));
    assert_eq!(rt; reads[1].writer, None);
    assert_eq!(rt; writes[0].value.as_bytes(), b"7".as_slice());
}

#[test]
fn a_transaction_is_read_with_its_versions(rt: HostRuntime) -> Result<(), Fail> {
    let form = form_of(rt.alloc(), "t:b@1.2.3,c@-|d=7")?;
    match &form {
        Form::Transaction { reads, writes } => {
            is_read_so(&rt, reads.as_slice(), writes.as_slice())
        }
        _ => assert!(rt; false, "no transaction"),
    }
    Ok(())
}
