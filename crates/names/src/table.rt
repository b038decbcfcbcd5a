// A table of names as one text, and the search in it. Each name ends in a comma, or in a bar where the name after it
// has the same code; codes count from 0. For every text and every slice of bytes.
ghost use Rattle.std.specs.Prelude.{◌≡◌, ◌<◌, ◌^◌};
ghost use Rattle.names.specs.Names.{lookup};
ghost use Rattle.names.specs.Table.{ends_name, next_code, entries};

use crate::letters;

#[tactic(auto, unfolding(crate::specs::Table::ends_name))]
fn ends_name(b: u8) -> bool
    ensures { result ≡ ends_name b }
{
    b == b',' || b == b'|'
}

// The code after an end.
#[tactic(auto, unfolding(crate::specs::Table::next_code))]
fn next_code(code: u64, b: u8) -> u64
    requires { code < 2 ^ 63 }
    ensures { result ≡ next_code code b }
{
    if b == b',' { code + 1 } else { code }
}

// The code of the first name in the text that s is in lower case.
pub(crate) fn find(s: &[u8], text: &[u8]) -> Option<u64>
    ensures { result ≡ lookup (entries text.now) s.now }
{
    let mut from = 0;
    let mut code = 0;
    for (k, &b) in text.iter().enumerate() {
        if ends_name(b) {
            if letters::same_name(s, &text[from..k]) {
                return Some(code);
            }
            from = k + 1;
            code = next_code(code, b);
        }
    }
    None
}
