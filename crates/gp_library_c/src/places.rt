// Bytes that are handed out to a caller.
ghost use Rattle.std.specs.Prelude.{◌≡◌};
ghost use Rattle.gp_library_c.specs.Places.{place, has_room, with_bytes};

// Puts bytes at the front of the room where they fit, and tells how many they are; the answer is whether they fit.
pub fn hand_out(bytes: &[u8], room: &mut [u8], size: &mut usize) -> bool
    ensures fits { result ≡ has_room bytes.now (place room.old size.old) }
    ensures after { place room.new size.new ≡ with_bytes bytes.now (place room.old size.old) }
{
    *size = bytes.len();
    let fits = bytes.len() <= room.len();
    if fits {
        room[..bytes.len()].copy_from_slice(bytes);
    }
    fits
}
