// A drawing of a script's run, and its way to a sink.
ghost use Rattle.std.specs.Prelude.{◌≡◌, OnOk, OnErr};
ghost use Rattle.std.specs.Io.KnownBytes.{Appends};
ghost use Rattle.fuzzy_io.specs.Causes.{CountsFaults, AppendsFront};
ghost use Rattle.report_text.specs.Output.{Adds};
ghost use Rattle.run_picture.specs.Boxes.{boxes};
ghost use Rattle.run_picture.specs.Drawn.{drawing_text};

use crate::asked::Drawing;
use crate::picture::NodeBox;
use crate::svg::put_picture;
use crate::timeline::put_timeline;
use fuzzy_io::{Failed, Sink};
use report_text::{Output, Page, Report};
use script_text::Script;

// The text of a drawing, where these are the boxes of its picture.
fn put_drawing<O: Output>(
    drawing: Drawing,
    script: &Script,
    report: &Report,
    nodes: &[NodeBox],
    out: &mut O,
)
    requires { nodes.now ≡ boxes script.now report.now }
    ensures { Adds (O.state out.old) (O.state out.new) (drawing_text drawing script.now report.now) }
{
    match drawing {
        Drawing::Picture => put_picture(script, report, nodes, out),
        Drawing::Timeline => put_timeline(script, report, out),
    }
}

/// Writes the text of a drawing, where these are the boxes of its picture. At `Err` a front of it went out. It takes no
/// memory.
pub fn print<K: Sink>(
    drawing: Drawing,
    script: &Script,
    report: &Report,
    nodes: &[NodeBox],
    sink: &mut K,
) -> Result<(), Failed>
    requires { nodes.now ≡ boxes script.now report.now }
    ensures ok { OnOk result
        (Appends (K.holds sink.old) (K.holds sink.new) (drawing_text drawing script.now report.now)) }
    ensures front { OnErr result
        (AppendsFront (K.holds sink.old) (K.holds sink.new) (drawing_text drawing script.now report.now)) }
    ensures cause { CountsFaults (K.faults sink.old) (K.faults sink.new) result }
{
    let mut page = Page::over(sink);
    put_drawing(drawing, script, report, nodes, &mut page);
    page.finish()
}
