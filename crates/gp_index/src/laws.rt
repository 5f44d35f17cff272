//! Laws of the streams that the encoder writes, which no answer of a call shows.
ghost use Rattle.std.specs.Prelude.{◌<◌, ◌^◌};
ghost use Rattle.std.specs.List.{All};
ghost use Rattle.gp_index.specs.Resets.{NeverResets};

/// No triangle is written in a way that sets `next` to 0 (EXT_meshopt_compression, mode 1: the codes 0xFE and 0xFF).
pub fn no_code_resets_next(indices: &[u32])
    requires { All (λ index. index < 2 ^ 24) indices.now }
    ensures { NeverResets indices.now }
{}
