// Several bytes read as one number, the first byte lowest.
#![tactic(auto)]

ghost use Rattle.std.specs.Prelude.{◌+◌, ◌≤◌, ◌≡◌, length, drop};
ghost use Rattle.words.specs.Words.{half, word, word_of};

// The bytes from an offset to the end, at most eight.
fn last(bytes: &[u8], at: usize) -> u64
    requires { length bytes.now ≤ at + 8 }
    ensures { result ≡ word_of (drop at bytes.now) }
{
    let mut number: u64 = 0;
    for &byte in bytes.get(at..).unwrap_or(&[]).iter().rev() {
        number = number * 256 + byte as u64;
    }
    number
}

// The four bytes from an offset on; a byte past the end is 0.
// Stays: byte by byte, as `word_at` below, since with `first_chunk` two goals of each stayed open; each width has its own `from_le_bytes`.
pub fn half_at(bytes: &[u8], at: usize) -> u64
    ensures { result ≡ half bytes.now at }
{
    if bytes.len() < 4 || at > bytes.len() - 4 {
        return last(bytes, at);
    }
    u32::from_le_bytes([bytes[at], bytes[at + 1], bytes[at + 2], bytes[at + 3]]) as u64
}

// The eight bytes from an offset on; a byte past the end is 0.
pub fn word_at(bytes: &[u8], at: usize) -> u64
    ensures { result ≡ word bytes.now at }
{
    if bytes.len() < 8 || at > bytes.len() - 8 {
        return last(bytes, at);
    }
    u64::from_le_bytes([
        bytes[at],
        bytes[at + 1],
        bytes[at + 2],
        bytes[at + 3],
        bytes[at + 4],
        bytes[at + 5],
        bytes[at + 6],
        bytes[at + 7],
    ])
}
