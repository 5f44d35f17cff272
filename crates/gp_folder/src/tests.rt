// Folders in memory and over std's files.
use crate::{File, FileList, Folder, MemoryFolder, PutRefusal, StdFolder, TakeRefusal};
use gp_host::{Bytes, NoMemory};
use std::alloc::Global;
use std::fs;
use std::test::Fail;

/// A folder of `a` with 4 bytes and `b` with none.
fn two_files(alloc: Global, failing: Vec<u32>) -> Result<MemoryFolder, NoMemory> {
    let mut files = FileList::new(alloc);
    files.set(alloc, "a", b"four")?;
    files.set(alloc, "b", b"")?;
    Ok(MemoryFolder::new(alloc, files, failing))
}

#[test]
fn a_file_is_taken_whole(rt: HostRuntime) -> Result<(), Fail> {
    let alloc = rt.alloc();
    let mut folder = two_files(alloc, Vec::new(alloc))?;
    let taken = folder.take(alloc, "a", 4)?;
    assert_eq!(rt; taken.as_slice(), b"four".as_slice());
    let empty = folder.take(alloc, "b", 0)?;
    assert_eq!(rt; empty.as_slice(), b"".as_slice());
    Ok(())
}

#[test]
fn a_take_is_refused_for_its_own_reason(rt: HostRuntime) -> Result<(), Fail> {
    let alloc = rt.alloc();
    let mut folder = two_files(alloc, vec![in alloc; 2]?)?;
    assert_eq!(rt;
        folder.take(alloc, "c", 4).err(),
        Some(TakeRefusal::Missing)
    );
    assert_eq!(rt;
        folder.take(alloc, "a", 3).err(),
        Some(TakeRefusal::TooLarge)
    );
    assert_eq!(rt; folder.take(alloc, "c", 4).err(), Some(TakeRefusal::Failed));
    assert_eq!(rt; folder.take(alloc, "a", 4).is_ok(), true);
    Ok(())
}

#[test]
fn a_put_replaces_in_place_or_goes_last(rt: HostRuntime) -> Result<(), Fail> {
    let alloc = rt.alloc();
    let mut folder = two_files(alloc, vec![in alloc; 2]?)?;
    folder.put(alloc, "c", b"new")?;
    folder.put(alloc, "a", b"1")?;
    assert_eq!(rt; folder.put(alloc, "b", b"2"), Err(PutRefusal::Failed));
    let files = folder.files().as_slice();
    assert_eq!(rt; files.len(), 3);
    assert_eq!(rt; files[0].name.as_slice(), b"a".as_slice());
    assert_eq!(rt; files[0].bytes.as_slice(), b"1".as_slice());
    assert_eq!(rt; files[1].bytes.as_slice(), b"".as_slice());
    assert_eq!(rt; files[2].name.as_slice(), b"c".as_slice());
    assert_eq!(rt; files[2].bytes.as_slice(), b"new".as_slice());
    Ok(())
}

#[test]
fn a_list_of_files_gives_its_items_back(rt: HostRuntime) -> Result<(), Fail> {
    let alloc = rt.alloc();
    let name = Bytes::from_vec(Vec::from_slice(alloc, b"n")?);
    let bytes = Bytes::from_vec(Vec::from_slice(alloc, b"12")?);
    let list = FileList::from_vec(vec![in alloc; File { name, bytes }]?);
    assert_eq!(rt; list.get("n"), Some(b"12".as_slice()));
    assert_eq!(rt; list.get("m"), None);
    assert_eq!(rt; list.into_vec().len(), 1);
    Ok(())
}

#[test]
fn the_folder_over_std_passes_the_bytes_on(rt: HostRuntime) -> Result<(), Fail> {
    let alloc = rt.alloc();
    let name = "gp_folder_of_a_test";
    let mut folder = StdFolder::new(rt);
    assert_eq!(rt;
        folder.take(alloc, name, 4).err(),
        Some(TakeRefusal::Missing)
    );
    folder.put(alloc, name, b"longer")?;
    folder.put(alloc, name, b"four")?;
    assert_eq!(rt; folder.take(alloc, name, 4)?.as_slice(), b"four".as_slice());
    assert_eq!(rt;
        folder.take(alloc, name, 3).err(),
        Some(TakeRefusal::TooLarge)
    );
    fs::remove_file(&rt, name)?;
    assert_eq!(rt;
        folder.take(alloc, name, 4).err(),
        Some(TakeRefusal::Missing)
    );
    assert_eq!(rt; folder.take(alloc, ".", 4).err(), Some(TakeRefusal::Failed));
    assert_eq!(rt;
        folder.put(alloc, "no/such/folder", b""),
        Err(PutRefusal::Failed)
    );
    Ok(())
}
