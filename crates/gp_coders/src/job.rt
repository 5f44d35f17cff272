// What is asked for.

/// A kind of stream.
#[derive(Clone, Copy, Debug, PartialEq, Eq)]
pub(crate) enum Kind {
    Attributes,
    Sequence,
    Triangles,
}

/// To pass the bytes on, to decode `count` elements of `stride` bytes each, or to encode them.
#[derive(Clone, Copy, Debug, PartialEq, Eq)]
pub(crate) enum Job {
    Copy,
    Decode {
        kind: Kind,
        count: usize,
        stride: usize,
    },
    Encode {
        kind: Kind,
        count: usize,
        stride: usize,
    },
}

/// The job of these words, or none.
pub(crate) fn job_of(words: &[String]) -> Option<Job> {
    match words {
        [word] if word.as_str() == "copy" => Some(Job::Copy),
        [kind, way] => job_for(kind.as_str(), way.as_str(), 0, 4),
        [kind, way, count, stride] => job_for(
            kind.as_str(),
            way.as_str(),
            count.as_str().parse::<usize>().ok()?,
            stride.as_str().parse::<usize>().ok()?,
        ),
        _ => None,
    }
}

fn job_for(kind: &str, way: &str, count: usize, stride: usize) -> Option<Job> {
    let kind = kind_of(kind)?;
    match way {
        "decode" => Some(Job::Decode {
            kind,
            count,
            stride,
        }),
        "encode" => Some(Job::Encode {
            kind,
            count,
            stride,
        }),
        _ => None,
    }
}

fn kind_of(word: &str) -> Option<Kind> {
    match word {
        "attributes" => Some(Kind::Attributes),
        "sequence" => Some(Kind::Sequence),
        "triangles" => Some(Kind::Triangles),
        _ => None,
    }
}
