// Where a report begins.
ghost use Rattle.std.specs.Prelude.{◌≡◌, ◌<◌, ◌≤◌, ◌+◌, ◌∷◌, IfSome, length};
ghost use Rattle.script_text.specs.Pieces.{lines_of};
ghost use Rattle.run_check.specs.Verdicts.{begins_report, report_start};

use memchr::memchr;

// Whether a report begins with this line.
fn begins_report(line: &[u8]) -> bool
    ensures { result ≡ begins_report line.now }
{
    line == b"report 1".as_slice() || line == b"report 2".as_slice()
}

// The first line of the bytes, and the bytes after it.
fn first_line(bytes: &[u8]) -> (&[u8], &[u8])
    requires { 0 < length bytes.now }
    ensures line { lines_of bytes.now ≡ result.0.now ∷ lines_of result.1.now }
    ensures rest { length result.1.now < length bytes.now }
    ensures end { 0 < length result.1.now → length bytes.now ≡ length result.0.now + 1 + length result.1.now }
{
    match memchr(b'\n', bytes) {
        Some(end) => (&bytes[..end], &bytes[end + 1..]),
        None => (bytes, &[]),
    }
}

/// How many bytes stand before the first line that begins a report, if there is one.
pub fn report_start(bytes: &[u8]) -> Option<usize>
    ensures start { result ≡ report_start bytes.now }
    ensures within { IfSome result (λ start. start ≤ length bytes.now) }
{
    let mut rest = bytes;
    while !rest.is_empty() {
        let (line, after) = first_line(rest);
        if begins_report(line) {
            return Some(bytes.len() - rest.len());
        }
        rest = after;
    }
    None
}
