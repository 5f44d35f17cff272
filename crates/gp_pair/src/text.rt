// Telling a text of glTF from a container.
ghost use Rattle.std.specs.Prelude.{◌≡◌};
ghost use Rattle.gp_glb.specs.Container.{is_blank};
ghost use Rattle.gp_pair.specs.Joined.{is_text};

// White space of JSON (RFC 8259, section 2).
fn is_blank(byte: u8) -> bool
    ensures { result ≡ is_blank byte }
{
    byte == b' ' || byte == b'\t' || byte == b'\n' || byte == b'\r'
}

/// Whether bytes go on with `{` past white space: then they are a text, and else they may be a container.
#[tactic(auto, unfolding(crate::specs::Joined::is_text))]
pub(crate) fn is_text(bytes: &[u8]) -> bool
    ensures { result ≡ is_text bytes.now }
{
    'blanks: for at in 0..bytes.len() {
        if !is_blank(bytes[at]) {
            return bytes[at] == b'{';
        }
    }
    false
}
