use module_shelves::{DirShelf, MemShelf};
use outside_io::{Shelf, ShelfFault};
use std::fs::{File, OpenFile};
use std::rt::Files;
use std::test::Fail;
use std::{fs, io};

#[test]
fn a_shelf_in_memory_fails_where_it_is_to(rt: HostRuntime) -> Result<(), Fail> {
    let alloc = rt.alloc();
    let mut shelf = MemShelf::new(Vec::new(alloc), vec![in alloc; 3]?);
    shelf.put("a.wmf", b"before")?;
    shelf.place("cache")?;
    assert_eq!(rt; shelf.get(alloc, "a.wmf")?, None);
    assert_eq!(rt; shelf.put("a.wmf", b"lost"), Err(ShelfFault::Failed));
    shelf.put("a.wmf", b"one")?;
    shelf.put("b.wmf", b"two")?;
    shelf.put("a.wmf", b"three")?;
    let found = shelf.get(alloc, "a.wmf")?.ok_or("no file")?;
    assert_eq!(rt; found.as_slice(), b"three".as_slice());
    assert_eq!(rt; shelf.get(alloc, "c.wmf")?, None);
    Ok(())
}

#[test]
fn a_shelf_over_a_folder_gives_what_it_was_given(rt: HostRuntime) -> Result<(), Fail> {
    let alloc = rt.alloc();
    let folder = "module_shelf_of_a_test";
    let mut shelf = DirShelf::new(&rt);
    assert_eq!(rt; shelf.get(alloc, "a.wmf")?, None);
    shelf.place(folder)?;
    assert_eq!(rt; shelf.get(alloc, "a.wmf")?, None);
    shelf.put("a.wmf", b"bytes")?;
    let found = shelf.get(alloc, "a.wmf")?.ok_or("no file")?;
    assert_eq!(rt; found.as_slice(), b"bytes".as_slice());
    fs::remove_dir_all(&rt, folder)?;
    Ok(())
}

/// The longest file that a shelf over a folder gives, in bytes.
const LONGEST: u64 = 64 * 1024 * 1024;

/// Makes a file of this many zeros.
fn put_zeros<R: Files>(rt: &R, path: &str, count: u64) -> io::Result<()> {
    let file = File::create(rt, path)?;
    file.set_len(count)
}

#[test]
fn a_file_over_the_limit_is_not_given(rt: HostRuntime) -> Result<(), Fail> {
    let alloc = rt.alloc();
    let folder = "module_shelf_of_long_files";
    let mut shelf = DirShelf::new(&rt);
    shelf.place(folder)?;
    put_zeros(&rt, "module_shelf_of_long_files/a.wmf", LONGEST)?;
    put_zeros(&rt, "module_shelf_of_long_files/b.wmf", LONGEST + 1)?;
    let found = shelf.get(alloc, "a.wmf")?.ok_or("no file")?;
    assert_eq!(rt; found.len() as u64, LONGEST);
    assert_eq!(rt; shelf.get(alloc, "b.wmf")?, None);
    fs::remove_dir_all(&rt, folder)?;
    Ok(())
}

#[test]
fn a_folder_that_takes_no_file_is_a_fault(rt: HostRuntime) -> Result<(), Fail> {
    let alloc = rt.alloc();
    let folder = "module_shelf_that_goes";
    let mut shelf = DirShelf::new(&rt);
    shelf.place(folder)?;
    fs::remove_dir_all(&rt, folder)?;
    assert_eq!(rt; shelf.put("a.wmf", b"bytes"), Err(ShelfFault::Failed));
    assert_eq!(rt; shelf.get(alloc, "a.wmf")?, None);
    Ok(())
}

#[test]
fn a_shelf_whose_folder_cannot_be_made_is_not_placed(rt: HostRuntime) -> Result<(), Fail> {
    let alloc = rt.alloc();
    let file = "no_folder_of_a_module_shelf";
    fs::write(&rt, file, b"bytes")?;
    let mut shelf = DirShelf::new(&rt);
    let inner = "no_folder_of_a_module_shelf/inner";
    assert_eq!(rt; shelf.place(inner), Err(ShelfFault::Failed));
    assert_eq!(rt; shelf.place(""), Err(ShelfFault::Failed));
    shelf.put("a.wmf", b"bytes")?;
    assert_eq!(rt; shelf.get(alloc, "a.wmf")?, None);
    fs::remove_file(&rt, file)?;
    Ok(())
}

#[test]
fn a_folder_under_the_name_of_a_file_is_a_fault(rt: HostRuntime) -> Result<(), Fail> {
    let alloc = rt.alloc();
    let folder = "module_shelf_of_folders";
    fs::create_dir_all(&rt, "module_shelf_of_folders/a.wmf")?;
    let mut shelf = DirShelf::new(&rt);
    shelf.place(folder)?;
    assert_eq!(rt; shelf.get(alloc, "a.wmf"), Err(ShelfFault::Failed));
    assert_eq!(rt; shelf.put("a.wmf", b"bytes"), Err(ShelfFault::Failed));
    fs::remove_dir_all(&rt, folder)?;
    Ok(())
}
