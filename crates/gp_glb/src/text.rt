// Telling a JSON text from a GLB, by the byte behind its white space.
ghost use Rattle.std.specs.Prelude.{◌≡◌, ◌↔◌, IsTrue};
ghost use Rattle.gp_glb.specs.Container.{IsText, is_blank};

// White space of JSON (RFC 8259, section 2).
fn is_blank(byte: u8) -> bool
    ensures { result ≡ is_blank byte }
{
    byte == b' ' || byte == b'\t' || byte == b'\n' || byte == b'\r'
}

// Past white space, the bytes go on with `{`.
pub(crate) fn is_text(bytes: &[u8]) -> bool
    ensures { IsTrue result ↔ IsText bytes.now }
{
    'blanks: for at in 0..bytes.len() {
        if !is_blank(bytes[at]) {
            return bytes[at] == b'{';
        }
    }
    false
}
