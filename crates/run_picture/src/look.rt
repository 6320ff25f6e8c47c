// How drawings look, and what they say of themselves.
ghost use Rattle.report_text.specs.Output.{Adds};
ghost use Rattle.run_picture.specs.Look.{start_text};

use crate::pieces::{Piece, put_all};
use report_text::Output;

/// How the parts of a drawing look.
const LOOK: &str =
    "<defs><rect id='b' x='1' y='1' width='128' height='34' rx='6'/><rect id='o' x='1' y='1' width='128' height='34' rx='17'/><rect id='l' width='9999' height='84' opacity='.3'/><marker id='k' viewBox='0 0 10 10' refX='9' refY='5' markerWidth='6' markerHeight='6' orient='auto'><path d='M0 0L10 5L0 10z' fill='#333'/></marker><marker id='e' viewBox='0 0 10 10' refX='9' refY='5' markerWidth='6' markerHeight='6' orient='auto'><path d='M0 0L10 5L0 10z' fill='#b03030'/></marker><pattern id='h' width='7' height='7' patternUnits='userSpaceOnUse' patternTransform='rotate(45)'><rect width='7' height='7' fill='#f4f4f4'/><rect width='3' height='7' fill='#d5d5d5'/></pattern></defs>\n<style>text{fill:#222;stroke:none}.box{stroke-width:1.6}.lane{stroke:none}.box text:first-of-type,.lane text:first-of-type{font-weight:bold}.lane text:first-of-type{font-size:15px}.axis{fill:#777}.note{fill:#555;stroke:#fff;stroke-width:3;paint-order:stroke}.r0{fill:#cfe8ff}.r1{fill:#ffe2c4}.r2{fill:#d9f2d0}.r3{fill:#eadcf5}.box.r0{stroke:#1f6fb2}.box.r1{stroke:#b5651d}.box.r2{stroke:#3d8b37}.box.r3{stroke:#7a4fa3}.box.asks,.box.stops,.box.waits,.box.open{fill:#fff}.box.waits{stroke-dasharray:2 3}.box.open,.box.stops{stroke-dasharray:5 4}.box.trimmed{fill:url(#h);stroke:#aaa}.chain{stroke:#333;stroke-width:1.8;marker-end:url(#k)}.edge{stroke:#b03030;stroke-width:1.8;stroke-dasharray:6 4;marker-end:url(#e)}.arrow{stroke:#b03030;stroke-width:1.3;marker-end:url(#e)}.band{stroke:#999;stroke-width:14;opacity:.4}.tick{stroke:#ddd}.time{stroke:#bbb}</style>\n<rect width='100%' height='100%' fill='#fff'/>\n";

/// What a picture says of itself.
pub const PICTURE_LEGEND: &str =
    "<text x='18' y='18'>A box is a node, under its stamp, with what it says. A solid arrow goes to the node before it in its line,</text><text x='18' y='33'>a dashed arrow to the last node of another region that its author had read.</text><text x='18' y='48'>A grey band joins the boxes of one node of several colours. Dashed box: still open. Dotted: final, and waits</text><text x='18' y='63'>behind an open one. Hatched: trimmed from this copy.</text>\n";

/// What a timeline says of itself.
pub const TIMELINE_LEGEND: &str =
    "<text x='18' y='18'>Time goes to the right, in the order of the file. A filled box appends a node, a round one only asks;</text><text x='18' y='33'>a dashed one stops halfway. Below stands the answer. An arrow goes from an append to the first command of</text><text x='18' y='48'>another client that played its node.</text>\n";

/// The beginning of a drawing of this size, in pixels, with what it says of itself.
pub fn put_start<O: Output>(width: u64, height: u64, legend: &str, out: &mut O)
    ensures { Adds (O.state out.old) (O.state out.new) (start_text width height legend.now) }
{
    put_all(
        &[
            Piece::Mark(
                "<svg xmlns='http://www.w3.org/2000/svg' font-family='Helvetica,Arial,sans-serif' font-size='11' width='",
            ),
            Piece::Number(width),
            Piece::Mark("' height='"),
            Piece::Number(height),
            Piece::Mark("'>\n"),
            Piece::Mark(LOOK),
            Piece::Mark(legend),
        ],
        out,
    );
}
