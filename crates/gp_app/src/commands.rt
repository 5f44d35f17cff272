// What the program can be asked to do.

/// A command: to pack the input, to unpack it, to analyse it, to pack a sample of this size, which is its own input, to make
/// lists of its strips and fans, or to tell its meshlets.
#[derive(Clone, Copy, Debug, PartialEq, Eq)]
pub enum Command {
    Pack,
    Unpack,
    Analyse,
    Sample(u32),
    Lists,
    Meshlets,
}

/// A command where there is a folder: one without it; to pack a file of the folder, bundled with the files of its buffers; or
/// to put what this gives into the folder as a pair of files.
#[derive(Clone, Copy, Debug, PartialEq, Eq)]
pub enum Wide {
    Plain(Command),
    Bundle,
    Pair,
}
