//! Laws of containers and data URIs, each the contract of a function that does nothing.
ghost use Rattle.gp_glb.specs.Laws.{CodesAgree, ContentsAgree, HasAlphabet, HasLength, HaveOneCode, HaveOneContent, HaveOneReading, PartsAreWithin, ReadsBack, RestsAreKept, RestsAreWhole, RestsHaveChunks, StandForOne, StandsForItsParts};

/// Bytes have one reading: the parts of one container, or one first fault.
pub fn have_one_reading()
    ensures { HaveOneReading }
{}

/// Bytes stand for one container, also where its JSON is too large to be read.
pub fn stand_for_one()
    ensures { StandForOne }
{}

/// The length of a joined container is that which `total` gives.
pub fn has_length()
    ensures { HasLength }
{}

/// A joined container whose length is below 2^32 stands for the parts that were joined, with their padding, where no chunk of the rest is JSON or BIN.
pub fn stands_for_its_parts()
    ensures { StandsForItsParts }
{}

/// Where its JSON has at most 2^26 bytes with its padding too, `split` gives these parts.
pub fn reads_back()
    ensures { ReadsBack }
{}

/// The rest that `split` gives may be handed to `join`.
pub fn rests_are_whole()
    ensures { RestsAreWhole }
{}

/// No chunk of the rest that `split` gives is JSON or BIN.
pub fn rests_have_chunks()
    ensures { RestsHaveChunks }
{}

/// Other JSON and another BIN chunk, joined with the rest that `split` gave, make a container of this same rest, where its length is below 2^32.
pub fn rests_are_kept()
    ensures { RestsAreKept }
{}

/// No part that `split` gives is longer than the bytes.
pub fn parts_are_within()
    ensures { PartsAreWithin }
{}

/// A data URI has one code.
pub fn have_one_code()
    ensures { HaveOneCode }
{}

/// A data URI holds one list of bytes.
pub fn have_one_content()
    ensures { HaveOneContent }
{}

/// `code_of` gives exactly the code of a data URI.
pub fn codes_agree()
    ensures { CodesAgree }
{}

/// `uri_bytes` gives exactly the bytes that a data URI holds.
pub fn contents_agree()
    ensures { ContentsAgree }
{}

/// The engine's alphabet is that of base64 (RFC 4648, section 4, table 1).
pub fn has_alphabet()
    ensures { HasAlphabet }
{}
