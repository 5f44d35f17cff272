// Where the search for a record begins.
ghost use Rattle.std.specs.Prelude.{◌≡◌, ◌≤◌, ◌<◌, ◌%◌};
ghost use Rattle.std.specs.Hash.DefaultHasher as sip;

use std::hash::{DefaultHasher, Hasher};

// A hasher that has read a key.
#[derive(Clone, Copy)]
pub struct Keyed {
    initial: DefaultHasher,
}

impl Keyed {
    // Its key is a hash of all these bytes: whoever changes a record to meet another one's hash changes every hash.
    pub fn by(bytes: &[u8]) -> Keyed {
        let mut whole = DefaultHasher::new();
        whole.write(bytes);
        let mut initial = DefaultHasher::new();
        initial.write_u64(whole.finish());
        Keyed { initial }
    }

    // One of so many slots, by the record's hash.
    pub fn start(&self, wanted: &[u8], slots: usize) -> usize
        requires { 1 ≤ slots }
        ensures start { result ≡ sip.finish (sip.write self.now.initial wanted.now) % slots }
        ensures within { result < slots }
    {
        let mut hasher = self.initial;
        hasher.write(wanted);
        (hasher.finish() % slots as u64) as usize
    }
}
