// Files in memory.
ghost use Rattle.std.specs.Prelude.{◌≡◌, [], OnOk, OnErr, position};
ghost use Rattle.std.specs.Option.{option_copied};
ghost use Rattle.gp_folder.specs.Files.{has_name, bytes_of, with_file, AreNamed};

use gp_host::{Bytes, NoMemory};
use std::alloc::Global;
use std::marker::Model;

/// A file: its name and its bytes.
#[derive(Drop)]
pub struct File {
    pub name: Bytes,
    pub bytes: Bytes,
}

/// A list of files.
#[derive(Drop)]
pub struct FileList {
    items: Vec<File>,
}

impl Model for FileList {
    ghost use Rattle.std.specs.Prelude.{List};
    ghost use Rattle.gp_folder.specs.declared.file.File.{File};

    ghost Value = { List File };

    ghost view = { λ list. list.items.items };
}

impl FileList {
    /// No files.
    pub fn new(alloc: Global) -> Self
        ensures empty { result ≡ [] }
        ensures named { AreNamed result }
    {
        FileList {
            items: Vec::new(alloc),
        }
    }

    /// The list of these items. It takes no memory.
    pub fn from_vec(items: Vec<File>) -> Self
        ensures { result ≡ items.items }
    {
        FileList { items }
    }

    /// The items. It takes no memory.
    pub fn into_vec(self) -> Vec<File>
        ensures { result.items ≡ self }
    {
        self.items
    }

    /// The items, as a slice.
    pub fn as_slice(&self) -> &[File]
        ensures { result.now ≡ self.now }
    {
        self.items.as_slice()
    }

    /// The bytes of the file with this name, where there is one.
    pub fn get(&self, name: &str) -> Option<&[u8]>
        ensures { option_copied result ≡ bytes_of name.now self.now }
    {
        let place = place_of(&self.items, name)?;
        Some(self.items[place].bytes.as_slice())
    }

    /// Gives this name these bytes: a file with that name keeps its place, and a new one goes last.
    pub fn set(&mut self, alloc: Global, name: &str, bytes: &[u8]) -> Result<(), NoMemory>
        ensures set { OnOk result (self.new ≡ with_file name.now bytes.now self.old) }
        ensures kept { OnErr result (self.new ≡ self.old) }
        ensures named { AreNamed self.old → AreNamed self.new }
    {
        let bytes = Bytes::from_vec(Vec::from_slice(alloc, bytes)?);
        match place_of(&self.items, name) {
            Some(place) => self.items[place].bytes = bytes,
            None => {
                let name = Bytes::from_vec(Vec::from_slice(alloc, name.as_bytes())?);
                self.items.push(File { name, bytes })?;
            }
        }
        Ok(())
    }
}

/// The place of the file with this name.
fn place_of(files: &[File], name: &str) -> Option<usize>
    ensures { result ≡ position (has_name name.now) files.now }
{
    files
        .iter()
        .position(|file| file.name.as_slice() == name.as_bytes())
}
