// What a command says, as a drawing has it. Each field has a space before it.
ghost use Rattle.std.specs.Prelude.{◌≡◌};
ghost use Rattle.std.specs.List.{flat_map};
ghost use Rattle.script_text.specs.Commands.{use_of};
ghost use Rattle.report_text.specs.Output.{Adds};
ghost use Rattle.run_picture.specs.Labels.{name_among, word_label, field_label, pair_label, paths_label, pairs_label, colours_label, object_label, source_label, IsOfLog, named_label, subject_label, heading_label, content_label, short_label, saying_label, unread_label, failed_label, decides_label, node_label};

use crate::pieces::{Piece, put_all};
use log_node::{Colours, Pair, Text};
use object_form::TreeWhy;
use report_text::{Answer, Output};
use script_text::{Content, NameSet, Script, Use, What};

/// The name with this number; nothing where the number names nothing.
pub fn name_among(names: &NameSet, number: u8) -> &[u8]
    ensures { result.now ≡ name_among names.now number }
{
    match names.get(number as usize) {
        Some(name) => name.as_bytes(),
        None => &[],
    }
}

// The command's word.
fn put_word<O: Output>(what: &What, out: &mut O)
    ensures { Adds (O.state out.old) (O.state out.new) (word_label what.now) }
{
    put_all(&[Piece::Text(what.word().as_bytes())], out);
}

// A field.
fn put_field<O: Output>(field: &[u8], out: &mut O)
    ensures { Adds (O.state out.old) (O.state out.new) (field_label field.now) }
{
    put_all(&[Piece::Mark(" "), Piece::Text(field)], out);
}

// A key and its value.
fn put_pair<'x, O: Output>(key: &'x [u8], value: &'x [u8], out: &mut O)
    ensures { Adds (O.state out.old) (O.state out.new) (pair_label key.now value.now) }
{
    put_all(
        &[
            Piece::Mark(" "),
            Piece::Text(key),
            Piece::Mark("="),
            Piece::Text(value),
        ],
        out,
    );
}

// A path and another one.
fn put_paths<'x, O: Output>(source: &'x [u8], target: &'x [u8], out: &mut O)
    ensures { Adds (O.state out.old) (O.state out.new) (paths_label source.now target.now) }
{
    put_all(
        &[
            Piece::Mark(" "),
            Piece::Text(source),
            Piece::Mark(" "),
            Piece::Text(target),
        ],
        out,
    );
}

// Keys with their values.
fn put_pairs<O: Output>(pairs: &[Pair], out: &mut O)
    ensures { Adds (O.state out.old) (O.state out.new) (pairs_label pairs.now) }
{
    for pair in pairs {
        put_pair(pair.key.as_bytes(), pair.value.as_bytes(), out);
    }
}

/// Texts, one field each.
pub fn put_fields<O: Output>(fields: &[Text], out: &mut O)
    ensures { Adds (O.state out.old) (O.state out.new) (flat_map field_label fields.now) }
{
    for field in fields {
        put_field(field.as_bytes(), out);
    }
}

// The names of colours.
fn put_colours<O: Output>(script: &Script, colours: Colours, out: &mut O)
    ensures { Adds (O.state out.old) (O.state out.new) (colours_label script.now colours) }
{
    for colour in colours.members() {
        put_field(name_among(&script.colours, colour), out);
    }
}

// The name of an object.
fn put_object<O: Output>(script: &Script, object: u8, out: &mut O)
    ensures { Adds (O.state out.old) (O.state out.new) (object_label script.now object) }
{
    match script.objects.get(object as usize) {
        Some(object) => put_field(object.name.as_bytes(), out),
        None => put_field(&[], out),
    }
}

// A region and a colour.
fn put_source<O: Output>(script: &Script, region: u8, colour: u8, out: &mut O)
    ensures { Adds (O.state out.old) (O.state out.new) (source_label script.now region colour) }
{
    put_all(
        &[
            Piece::Mark(" "),
            Piece::Text(name_among(&script.regions, region)),
            Piece::Mark(" "),
            Piece::Text(name_among(&script.colours, colour)),
        ],
        out,
    );
}

// What a command of the log is about: its colours, or a region and a colour.
fn put_named<O: Output>(script: &Script, what: &What, out: &mut O)
    requires { IsOfLog (use_of what.now) }
    ensures { Adds (O.state out.old) (O.state out.new) (named_label script.now what.now) }
{
    match what {
        What::Append { colours, .. } => put_colours(script, *colours, out),
        What::Stop { colours, .. } => put_colours(script, *colours, out),
        What::Scan { colours } => put_colours(script, *colours, out),
        What::Sync { colour } => put_field(name_among(&script.colours, *colour), out),
        What::Trim { colour } => put_field(name_among(&script.colours, *colour), out),
        What::Only { colour, .. } => put_field(name_among(&script.colours, *colour), out),
        What::Pull { region, colour } => put_source(script, *region, *colour, out),
        _ => unreachable!(),
    }
}

// What the command is about: its colours, a region and a colour, or an object.
fn put_subject<O: Output>(script: &Script, what: &What, out: &mut O)
    ensures { Adds (O.state out.old) (O.state out.new) (subject_label script.now what.now) }
{
    match what.use_of() {
        Use::OfLog { .. } => put_named(script, what, out),
        Use::OfObject { object, .. } => put_object(script, object, out),
    }
}

/// The command's word, and what it is about.
pub fn put_heading<O: Output>(script: &Script, what: &What, out: &mut O)
    ensures { Adds (O.state out.old) (O.state out.new) (heading_label script.now what.now) }
{
    put_word(what, out);
    put_subject(script, what, out);
}

/// The fields after these: a text, keys, a value.
pub fn put_content<O: Output>(what: &What, out: &mut O)
    ensures { Adds (O.state out.old) (O.state out.new) (content_label what.now) }
{
    match what.content() {
        Content::Nothing => put_all(&[], out),
        Content::Text(text) => put_field(text, out),
        Content::Key(key) => put_field(key, out),
        Content::Value(value) => put_field(value, out),
        Content::Pair(key, value) => put_pair(key, value, out),
        Content::Keys(keys) => put_fields(keys, out),
        Content::Pairs(pairs) => put_pairs(pairs, out),
        Content::Path(path) => put_field(path, out),
        Content::Folder(path) => put_field(path, out),
        Content::PathValue(path, value) => put_pair(path, value, out),
        Content::Paths(source, target) => put_paths(source, target, out),
    }
}

// The command's word, and its content.
fn put_short<O: Output>(what: &What, out: &mut O)
    ensures { Adds (O.state out.old) (O.state out.new) (short_label what.now) }
{
    put_word(what, out);
    put_content(what, out);
}

// The command's word, where its object could not be read.
fn put_unread<O: Output>(what: &What, out: &mut O)
    ensures { Adds (O.state out.old) (O.state out.new) (unread_label what.now) }
{
    put_all(
        &[Piece::Text(what.word().as_bytes()), Piece::Mark(": unread")],
        out,
    );
}

// The command's word, and why the change that it asks for failed.
fn put_failed<O: Output>(what: &What, why: TreeWhy, out: &mut O)
    ensures { Adds (O.state out.old) (O.state out.new) (failed_label what.now why) }
{
    put_all(
        &[
            Piece::Text(what.word().as_bytes()),
            Piece::Mark(": "),
            Piece::Text(why.as_str().as_bytes()),
        ],
        out,
    );
}

// What a command says: one that appends a text that alone, and any other its word and its content.
fn put_saying<O: Output>(what: &What, out: &mut O)
    ensures { Adds (O.state out.old) (O.state out.new) (saying_label what.now) }
{
    match what.content() {
        Content::Text(text) => put_field(text, out),
        Content::Nothing => put_short(what, out),
        Content::Key(_) => put_short(what, out),
        Content::Value(_) => put_short(what, out),
        Content::Pair(_, _) => put_short(what, out),
        Content::Keys(_) => put_short(what, out),
        Content::Pairs(_) => put_short(what, out),
        Content::Path(_) => put_short(what, out),
        Content::Folder(_) => put_short(what, out),
        Content::PathValue(_, _) => put_short(what, out),
        Content::Paths(_, _) => put_short(what, out),
    }
}

// What a decision says of a transaction.
fn put_decides<O: Output>(commits: bool, stamp: u64, out: &mut O)
    ensures { Adds (O.state out.old) (O.state out.new) (decides_label commits stamp) }
{
    match commits {
        true => put_all(
            &[Piece::Mark("decide: committed "), Piece::Number(stamp)],
            out,
        ),
        false => put_all(
            &[Piece::Mark("decide: conflict "), Piece::Number(stamp)],
            out,
        ),
    }
}

/// What the node says that a command made: what the command says, or what was answered to a `deq`, to a `decide`, to a
/// `commit` in a conflict, to a change of a tree that failed, and to one of these that could not read its object.
pub fn put_node<O: Output>(what: &What, answer: &Answer, out: &mut O)
    ensures { Adds (O.state out.old) (O.state out.new) (node_label what.now answer.now) }
{
    match answer {
        Answer::Took {
            value: Some(value),
            ..
        } => { put_all(&[Piece::Mark("deq: "), Piece::Text(value.as_bytes())], out) }
        Answer::Took { value: None, .. } => put_all(&[Piece::Mark("deq: none")], out),
        Answer::Ruled {
            conflict: Some(key),
            ..
        } => put_all(
            &[
                Piece::Mark("commit: conflict "),
                Piece::Text(key.as_bytes()),
            ],
            out,
        ),
        Answer::Ruled { conflict: None, .. } => put_saying(what, out),
        Answer::Changed {
            failed: Some(why),
            ..
        } => put_failed(what, *why, out),
        Answer::Changed { failed: None, .. } => put_saying(what, out),
        Answer::Listed { .. } => put_saying(what, out),
        Answer::Undecided { .. } => put_saying(what, out),
        Answer::Decided { commits, stamp, .. } => put_decides(*commits, *stamp, out),
        Answer::Moved { .. } => put_saying(what, out),
        Answer::UnreadTrimmed { .. } => put_unread(what, out),
        Answer::UnreadNoMemory { .. } => put_unread(what, out),
        Answer::Stood { .. } => put_saying(what, out),
        Answer::Stopped { .. } => put_saying(what, out),
        Answer::StampEnd { .. } => put_saying(what, out),
        Answer::Full { .. } => put_saying(what, out),
        Answer::Synced { .. } => put_saying(what, out),
        Answer::Scanned { .. } => put_saying(what, out),
        Answer::Pulled { .. } => put_saying(what, out),
        Answer::SameRegion => put_saying(what, out),
        Answer::Based { .. } => put_saying(what, out),
        Answer::Got { .. } => put_saying(what, out),
        Answer::GotMany { .. } => put_saying(what, out),
        Answer::GotKeys { .. } => put_saying(what, out),
        Answer::NoTx => put_saying(what, out),
        Answer::Trimmed { .. } => put_saying(what, out),
        Answer::NotHome { .. } => put_saying(what, out),
        Answer::NoMemory => put_saying(what, out),
    }
}
