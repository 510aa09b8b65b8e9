// Finds where the fields of a line end (definition 8.3).
#![tactic(auto)]

ghost use Rattle.std.specs.Prelude.{◌≡◌};
ghost use Rattle.fields.specs.Fields.{field_end};

// Separates two fields.
const COMMA: u8 = b',';

// The offset at which a field ends: at the next comma, or at the end of the line.
pub fn end_of(line: &[u8], at: usize) -> usize
    ensures { result ≡ field_end line.now at }
{
    let Some(rest) = line.get(at..) else {
        return at;
    };
    let comma = rest.iter().position(|&byte| byte == COMMA);
    at + comma.unwrap_or(rest.len())
}
