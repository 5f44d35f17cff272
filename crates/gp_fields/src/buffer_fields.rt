// The fields of a buffer (glTF 2.0, section 5.10).
ghost use Rattle.std.specs.Prelude.{◌≡◌, map, unwrap_or, option_map};
ghost use Rattle.gp_tree.specs.Plain.{plain};
ghost use Rattle.gp_tree.specs.Find.{object_members};
ghost use Rattle.gp_fields.specs.Shapes.{object_of};
ghost use Rattle.gp_fields.specs.Fields.{BufferFields as Meaning, buffer_fields, empty_object, key_of};

use crate::reading::{as_object, optional_object, optional_text, required_whole};
use gp_tree::{Lexeme, Tree};
use std::marker::Model;

/// A buffer (glTF 2.0, section 5.10) by its fields.
#[derive(Drop)]
pub struct BufferFields<'a> {
    /// `byteLength`, in bytes.
    pub length: u32,
    /// `uri`, as it is spelled in the JSON; `None` where it is absent.
    pub uri: Option<&'a Lexeme>,
    /// `extensions`, the object whose keys name them; `None` where it is absent.
    pub extensions: Option<&'a Tree>,
}

impl<'a> Model for BufferFields<'a> {
    ghost Value = { Meaning };

    ghost view = { λ b. record { length = b.length; uri = option_map (λ s. s.now) b.uri; extensions = map key_of (object_members (unwrap_or (option_map (λ t. plain t.now) b.extensions) empty_object)) } };
}

impl<'a> BufferFields<'a> {
    pub(crate) fn read(value: &'a Tree) -> Option<BufferFields<'a>>
        ensures { result ≡ object_of buffer_fields (plain value.now) }
    {
        let object = as_object(value)?;
        let length = required_whole(object, "byteLength")?;
        let uri = optional_text(object, "uri")?;
        let extensions = optional_object(object, "extensions")?;
        Some(BufferFields {
            length,
            uri,
            extensions,
        })
    }
}
