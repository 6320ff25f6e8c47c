// The pieces of a drawing's text.
ghost use Rattle.std.specs.List.{flat_map};
ghost use Rattle.report_text.specs.Output.{Adds};
ghost use Rattle.run_picture.specs.Pieces.{escaped, text_shown, piece_text};

use report_text::Output;

/// A piece of a drawing's text.
#[derive(Clone, Copy)]
pub enum Piece<'a> {
    /// What stands there as it is.
    Mark(&'a str),
    /// A number, in decimal.
    Number(u64),
    /// A text of the script, in which XML's own signs are written as entities.
    Text(&'a [u8]),
}

// A byte of a text: what XML keeps for itself is written as an entity, and what can't be seen as a question mark.
fn put_byte<O: Output>(byte: u8, out: &mut O)
    ensures { Adds (O.state out.old) (O.state out.new) (escaped byte) }
{
    match byte {
        b'&' => out.put(b"&amp;"),
        b'<' => out.put(b"&lt;"),
        32..=126 => out.put(&[byte]),
        _ => out.put(b"?"),
    }
}

// A text, byte by byte.
fn put_text<O: Output>(bytes: &[u8], out: &mut O)
    ensures { Adds (O.state out.old) (O.state out.new) (text_shown bytes.now) }
{
    for byte in bytes {
        put_byte(*byte, out);
    }
}

// A piece.
fn put_piece<O: Output>(piece: &Piece<'_>, out: &mut O)
    ensures { Adds (O.state out.old) (O.state out.new) (piece_text piece.now) }
{
    match piece {
        Piece::Mark(mark) => out.put(mark.as_bytes()),
        Piece::Number(number) => out.put_number(*number),
        Piece::Text(text) => put_text(text, out),
    }
}

/// The pieces, one after another.
pub fn put_all<O: Output>(pieces: &[Piece<'_>], out: &mut O)
    ensures { Adds (O.state out.old) (O.state out.new) (flat_map piece_text pieces.now) }
{
    for piece in pieces {
        put_piece(piece, out);
    }
}
