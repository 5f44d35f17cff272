//! One row of three views.
use crate::lay;
use gp_asset::ViewBytes;
use std::test::Fail;

// Three views.
#[derive(Drop)]
struct Three<'a> {
    first: &'a [u8],
    second: &'a [u8],
    third: &'a [u8],
}

impl<'a> ViewBytes for Three<'a> {
    ghost use Rattle.std.specs.Prelude.{◌∷◌, [], Some};

    ghost views = { λ three. Some three.first.now ∷ Some three.second.now ∷ Some three.third.now ∷ [] };

    fn has(&self, at: usize) -> bool {
        at < 3
    }

    fn view(&self, at: usize) -> &[u8] {
        match at {
            0 => self.first,
            1 => self.second,
            _ => self.third,
        }
    }
}

#[test]
fn each_view_begins_at_a_multiple_of_four(rt: HostRuntime) -> Result<(), Fail> {
    let views = Three {
        first: b"abcde",
        second: b"",
        third: b"wxyz",
    };
    let row = lay(rt.alloc(), &views, 3)?;
    assert_eq!(rt; row.bytes(), b"abcde\0\0\0wxyz".as_slice());
    assert_eq!(rt; row.starts(), [0usize, 8, 8].as_slice());
    Ok(())
}
