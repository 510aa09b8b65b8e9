// Parses the first line of a text (definition 8.1, 8.4). The fields of a good line are taken by matching names where they stand; any other
// line goes the general way, and both ways give the same.
#![tactic(auto)]

ghost use Rattle.std.specs.Prelude.{◌≡◌, IfSome};
ghost use Rattle.names.specs.Names.{columns};
ghost use Rattle.first_line.specs.First.{first_line, first_in_numbers};
ghost use Rattle.first_line.specs.InPlace.{MetAll, Leads};

use kinds::Refusal;
use lines::LONGEST;
use parser::{Codes, Fields, Line, Taken};

mod in_place;

// A line that is not too long stands in this many bytes, with its CR LF.
const WINDOW: usize = LONGEST + 2;

// The first line of a text: parsed, the offset at which it ends, and whether its CR LF is there.
// Stays: a flag, since the offset is there in either case.
#[derive(Clone, Copy, PartialEq, Eq)]
pub struct FirstLine {
    pub line: Result<Line, Refusal>,
    pub end: usize,
    pub whole: bool,
}

// Takes the next field as its column does: its code.
fn take<F: Fn(&[u8], usize) -> Option<Taken>>(fields: &mut Fields, column: F) -> Option<u32>
    requires { F.IsAlwaysCallable column }
    ensures taken { IfSome result (λ code. F.post column fields.old.line fields.old.at (Some (record { code = code; next = fields.new.at }))) }
    ensures line { fields.new.line.now ≡ fields.old.line.now }
{
    let taken = column(fields.line, fields.at)?;
    fields.at = taken.next;
    Some(taken.code)
}

// Takes the twelve fields of the line at the front of a text, one after another, by matching names in place.
fn meet_all(text: &[u8]) -> Option<Codes>
    ensures { IfSome result (λ met. MetAll columns text.now 0 met.codes met.end) }
{
    let mut fields = Fields { line: text, at: 0 };
    let codes = [
        take(&mut fields, in_place::pair)?,
        take(&mut fields, in_place::request)?,
        take(&mut fields, in_place::flag)?, // RetToSrc
        take(&mut fields, in_place::flag)?, // DoNotGoToSD
        take(&mut fields, in_place::flag)?, // excl
        take(&mut fields, in_place::tag)?,
        take(&mut fields, in_place::response)?,
        take(&mut fields, in_place::tag_op)?,
        take(&mut fields, in_place::resp_err)?,
        take(&mut fields, in_place::forward)?,
        take(&mut fields, in_place::state_after)?,
        take(&mut fields, in_place::fwd_err)?,
    ];
    Some(Codes {
        codes,
        end: fields.at,
    })
}

// The well-formed line at the front of a text, if its fields are taken in place.
fn good_line(text: &[u8]) -> Option<FirstLine>
    ensures { IfSome result (λ line. Leads text.now (first_in_numbers line)) }
{
    let met = meet_all(text)?;
    if !parser::dashes_agree(met.codes) {
        return None;
    }
    Some(FirstLine {
        line: parser::line_of(met.codes),
        end: met.end - 2,
        whole: true,
    })
}

// The first line of a text, whatever it is. It is parsed if that is asked for, its end is known and it is not too long.
fn any_line(text: &[u8], ended: bool, asked: bool) -> FirstLine
    ensures { first_in_numbers result ≡ first_line asked ended text.now }
{
    let end = lines::line_end(text, 0);
    let whole = lines::ends_line(text, end);
    let line = if asked & (whole | ended) & (end <= LONGEST) {
        parser::parse_line(&text[..end])
    } else {
        Err(Refusal::Fields)
    };
    FirstLine { line, end, whole }
}

// Finds the first line of a text, and parses it if that is asked for. If `ended`, nothing follows the text. Fields are taken in place if as
// many bytes are at hand as a line has at most.
pub fn parse(text: &[u8], ended: bool, asked: bool) -> FirstLine
    ensures { first_in_numbers result ≡ first_line asked ended text.now }
{
    if asked && WINDOW <= text.len() {
        if let Some(good) = good_line(&text[..WINDOW]) {
            return good;
        }
    }
    any_line(text, ended, asked)
}
