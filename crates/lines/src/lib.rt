// Finds where the lines of a text end (definition 8.1).
#![tactic(auto)]

ghost use Rattle.std.specs.Prelude.{◌≡◌, ◌+◌, ◌-◌, ◌≤◌, min, length, drop};
ghost use Rattle.lines.specs.Lines.{crlf};
ghost use Rattle.lines.specs.Seen.{line_end, too_long};
ghost use Rattle.lines.specs.Code.{before_cr};

// The most bytes that a line may have before its CR LF (definition 8.7).
pub const LONGEST: usize = 160;

// A line with this many bytes is too long, whatever follows.
pub const TOO_LONG: usize = LONGEST + 1;

// CR and LF together end a line.
const CR: u8 = b'\r';

const LF: u8 = b'\n';

// The offset up to which a line has to be searched for its CR LF.
fn last_seen(text: &[u8], start: usize) -> usize
    requires { start ≤ length text.now }
    ensures { result ≡ start + min (length (drop start text.now)) too_long }
{
    start + (text.len() - start).min(TOO_LONG)
}

// Whether CR LF stands at an offset.
pub fn ends_line(text: &[u8], at: usize) -> bool
    ensures { result ≡ crlf (drop at text.now) }
{
    matches!(text.get(at..), Some([CR, LF, ..]))
}

// The offset of the next CR from an offset on, or `last`.
fn next_cr(text: &[u8], start: usize, last: usize) -> usize
    requires ordered { start ≤ last }
    requires inside { last ≤ length text.now }
    ensures { result ≡ start + before_cr (last - start) (drop start text.now) }
{
    let rest = &text[start..last];
    let cr = rest.iter().position(|&byte| byte == CR);
    start + cr.unwrap_or(rest.len())
}

// The offset at which a line ends: at its CR LF, where it is certainly too long, or at the end of the text.
// Stays: a text and an offset as parameters, as the form for what reads fields has it; and a loop from CR to CR, which counts nothing.
pub fn line_end(text: &[u8], start: usize) -> usize
    ensures { result ≡ line_end text.now start }
{
    if text.len() <= start {
        return start;
    }
    let last = last_seen(text, start);
    let mut at = next_cr(text, start, last);
    while at < last {
        if ends_line(text, at) {
            return at;
        }
        at = next_cr(text, at + 1, last);
    }
    at
}
