// Differences of indices in zigzag code.
ghost use Rattle.std.specs.Prelude.{◌≡◌, ◌+◌, ◌%◌, ◌^◌, ◌<◌};
ghost use Rattle.gp_groups.specs.Sequence.{difference};
ghost use Rattle.gp_groups.specs.WrittenSequence.{zigzag_difference};

/// The difference modulo 2^32 of a zigzag code: 0, 1, 2, 3 and so on are 0, -1, 1, -2 (EXT_meshopt_compression, modes 1 and 2).
pub fn unzigzag32(coded: u32) -> u32
    ensures { result ≡ difference coded }
{
    if coded % 2 == 0 {
        coded / 2
    } else {
        u32::MAX - coded / 2
    }
}

/// The zigzag code of the difference of an index from a number (EXT_meshopt_compression, modes 1 and 2).
pub fn zigzag_difference(base: u32, index: u32) -> u32
    requires base { base < 2 ^ 30 }
    requires index { index < 2 ^ 30 }
    ensures value { result ≡ zigzag_difference base index }
    ensures inverse { (base + difference result) % 2 ^ 32 ≡ index }
    ensures small { result < 2 ^ 31 }
{
    // Without a branch, since either sign is as likely.
    2 * base.abs_diff(index) - u32::from(index < base)
}
