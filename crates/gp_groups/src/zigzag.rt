// Zigzag codes, in which small deltas of either sign are small numbers.
ghost use Rattle.std.specs.Prelude.{◌≡◌};
ghost use Rattle.gp_groups.specs.Group.{zigzag, unzigzag};

/// The zigzag code of a delta modulo 256: 0, -1, 1, -2 and so on are 0, 1, 2, 3 (EXT_meshopt_compression, appendix A, mode 0).
pub fn zigzag8(delta: u8) -> u8
    ensures value { result ≡ zigzag delta }
    ensures inverse { unzigzag result ≡ delta }
{
    if delta < 128 {
        2 * delta
    } else {
        2 * (255 - delta) + 1
    }
}

/// The delta modulo 256 of a zigzag code (EXT_meshopt_compression, appendix A, mode 0).
pub fn unzigzag8(coded: u8) -> u8
    ensures value { result ≡ unzigzag coded }
    ensures inverse { zigzag result ≡ coded }
{
    if coded % 2 == 0 {
        coded / 2
    } else {
        255 - coded / 2
    }
}
