// Bytes compared with a name, ASCII case ignored. For every two slices.
ghost use Rattle.std.specs.Prelude.{◌≡◌, ◌==◌};
ghost use Rattle.std.specs.Char.{to_ascii_lowercase};
ghost use Rattle.std.specs.List.{list_all, zip};
ghost use Rattle.names.specs.Names.{same_name};

// Whether each byte of s, in lower case, is that of the name at its place, as far as both go.
fn all_same(s: &[u8], name: &[u8]) -> bool
    ensures { result ≡ list_all (λ p. to_ascii_lowercase p.0 == p.1) (zip s.now name.now) }
{
    s.iter()
        .zip(name)
        .all(|(b, n)| b.to_ascii_lowercase() == *n)
}

// Whether s, in lower case, is the name.
#[tactic(auto, using(crate::proofs::Equal::same_length))]
pub(crate) fn same_name(s: &[u8], name: &[u8]) -> bool
    ensures { result ≡ same_name s.now name.now }
{
    s.len() == name.len() && all_same(s, name)
}
