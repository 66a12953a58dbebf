//! What no clause says: that calls succeed over shelves and sinks in memory, and what real files hold.

use ip_defs::Memory;
use ips_io::{MemShelf, ReadError, Shelf, file_shelf, mem_shelf, mem_sink, read_all, write_all};
use std::alloc::{AllocError, Global};
use std::fs;
use std::test::Fail;

/// Whether a shelf gives these bytes of a file of at most `most` bytes, or this error.
fn gives<S: Shelf>(
    alloc: Global,
    shelf: &mut S,
    name: &str,
    most: u64,
    wanted: Result<&[u8], ReadError>,
) -> bool {
    match read_all(alloc, shelf, name, most) {
        Ok(bytes) => wanted == Ok(bytes.as_slice()),
        Err(error) => wanted == Err(error),
    }
}

/// A shelf in memory with a file `a` of five bytes and an empty file `e`, which fails at one call.
fn shelf_of_two(alloc: Global, piece: u64, failing: u64) -> Result<MemShelf, Memory> {
    let mut shelf = mem_shelf(alloc, 2, 7, piece.max(1))?;
    let _first = shelf.add("a", b"hello");
    let _second = shelf.add("e", b"");
    let _listed = shelf.fail_at(failing);
    Ok(shelf)
}

/// Whether that shelf gives this.
fn two_give(
    alloc: Global,
    piece: u64,
    failing: u64,
    name: &str,
    most: u64,
    wanted: Result<&[u8], ReadError>,
) -> bool {
    match shelf_of_two(alloc, piece, failing) {
        Ok(mut shelf) => gives(alloc, &mut shelf, name, most, wanted),
        Err(_) => false,
    }
}

#[test]
fn files_are_read_in_pieces(rt: HostRuntime) {
    let hello = Ok(b"hello".as_slice());
    let too_long = Err(ReadError::TooLong);
    let fault = Err(ReadError::Fault);
    for (piece, failing, name, most, wanted) in [
        (1, 0, "a", 5, hello),
        (3, 0, "a", 5, hello),
        (9, 0, "a", 9, hello),
        (1, 0, "e", 0, Ok(b"".as_slice())),
        (1, 8, "a", 5, hello),
        (1, 0, "a", 4, too_long),
        (9, 0, "a", 4, too_long),
        (9, 0, "a", 0, too_long),
        (1, 0, "b", 5, fault),
        (1, 1, "a", 5, fault),
        (1, 3, "a", 5, fault),
        (1, 7, "a", 5, fault),
    ] {
        let found = two_give(rt.alloc(), piece, failing, name, most, wanted);
        assert!(rt; found, "piece {piece}, failing {failing}");
    }
}

/// Whether a sink in memory takes this of a text of five bytes, and whether that is all.
fn takes(alloc: Global, room: u64, piece: u64, failing: u64, text: &str, all: bool) -> bool {
    match mem_sink(alloc, room, piece.max(1)) {
        Ok(mut sink) => {
            let _listed = sink.fail_at(failing);
            let wrote = write_all(&mut sink, b"hello").is_ok();
            wrote == all && sink.bytes() == text.as_bytes()
        }
        Err(_) => false,
    }
}

#[test]
fn texts_are_written_in_pieces(rt: HostRuntime) {
    for (room, piece, failing, text, all) in [
        (9, 1, 0, "hello", true),
        (9, 3, 0, "hello", true),
        (9, 9, 0, "hello", true),
        (5, 2, 0, "hello", true),
        (9, 2, 4, "hello", true),
        (4, 3, 0, "hell", false),
        (0, 1, 0, "", false),
        (9, 2, 1, "", false),
        (9, 2, 2, "he", false),
    ] {
        let well = takes(rt.alloc(), room, piece, failing, text, all);
        assert!(rt; well, "room {room}, failing {failing}");
    }
}

/// A save, whether it succeeds, and what the files `a` and `b` hold then.
#[derive(Clone, Copy)]
struct Save<'a> {
    name: &'a str,
    text: &'a str,
    succeeds: bool,
    a: Option<&'a str>,
    b: Option<&'a str>,
}

/// Whether a file of a shelf holds this text, or stands there not at all.
fn holds(shelf: &MemShelf, name: &str, text: Option<&str>) -> bool {
    match (shelf.file(name), text) {
        (Some(bytes), Some(text)) => bytes == text.as_bytes(),
        (None, None) => true,
        _ => false,
    }
}

/// Whether a shelf saves so.
fn saves(shelf: &mut MemShelf, save: &Save<'_>) -> bool {
    shelf.save(save.name, save.text.as_bytes()).is_ok() == save.succeeds
        && holds(shelf, "a", save.a)
        && holds(shelf, "b", save.b)
}

/// Whether a shelf with room for two files, and for 12 bytes of them and their names, saves all of these in order. Its sixth call fails.
fn saves_all(alloc: Global, list: &[Save<'_>]) -> bool {
    match mem_shelf(alloc, 2, 12, 1) {
        Ok(mut shelf) => shelf.fail_at(6) && list.iter().all(|save| saves(&mut shelf, save)),
        Err(_) => false,
    }
}

fn wanted<'a>(name: &'a str, text: &'a str, succeeds: bool, a: &'a str, b: &'a str) -> Save<'a> {
    Save {
        name,
        text,
        succeeds,
        a: Some(a),
        b: Some(b),
    }
}

#[test]
fn files_are_saved_within_the_room(rt: HostRuntime) {
    let list = [
        Save {
            name: "a",
            text: "one",
            succeeds: true,
            a: Some("one"),
            b: None,
        },
        wanted("b", "two", true, "one", "two"),
        wanted("a", "longer", true, "longer", "two"),
        wanted("a", "longest!", false, "longer", "two"),
        wanted("c", "", false, "longer", "two"),
        wanted("b", "x", false, "longer", "two"),
        wanted("b", "x", true, "longer", "x"),
        wanted("a", "", true, "", "x"),
    ];
    assert!(rt; saves_all(rt.alloc(), list.as_slice()));
}

/// Whether a new shelf and a new sink list eight failing calls and no ninth.
fn lists_eight(alloc: Global) -> Result<bool, Memory> {
    let mut sink = mem_sink(alloc, 1, 1)?;
    let mut shelf = mem_shelf(alloc, 1, 1, 1)?;
    let mut listed = true;
    for call in 1..9 {
        listed = listed && sink.fail_at(call) && shelf.fail_at(call);
    }
    Ok(listed && !sink.fail_at(9) && !shelf.fail_at(9))
}

#[test]
fn eight_failing_calls_are_listed(rt: HostRuntime) {
    assert!(rt; lists_eight(rt.alloc()) == Ok(true));
}

/// Bytes that repeat only after 251 of them, so that none is lost or moved unseen.
fn bytes_of(alloc: Global, count: usize) -> Result<Vec<u8>, AllocError> {
    let mut bytes = Vec::with_capacity(alloc, count)?;
    for j in 0..count {
        bytes.push((j % 251) as u8)?;
    }
    Ok(bytes)
}

/// Whether a file of these bytes, which the machine writes, is read as it is.
fn real_gives(rt: &HostRuntime, name: &str, bytes: &[u8]) -> bool {
    let most = bytes.len() as u64;
    match rt.clone() {
        Ok(files) => fs::write(rt, name, bytes).is_ok()
            && gives(rt.alloc(), &mut file_shelf(files), name, most, Ok(bytes))
            && fs::remove_file(rt, name).is_ok(),
        Err(_) => false,
    }
}

/// Whether the machine has these bytes in a file, which is then removed.
fn real_has(rt: &HostRuntime, name: &str, bytes: &[u8]) -> bool {
    match fs::read(rt, name) {
        Ok(kept) => kept.as_slice() == bytes && fs::remove_file(rt, name).is_ok(),
        Err(_) => false,
    }
}

/// Whether a file of these bytes is saved.
fn real_saves(rt: &HostRuntime, name: &str, bytes: &[u8]) -> bool {
    match rt.clone() {
        Ok(files) => file_shelf(files).save(name, bytes).is_ok(),
        Err(_) => false,
    }
}

/// Whether a file of this many bytes, which the machine wrote, is read as it is; and whether one that is saved is what the machine
/// reads.
fn keeps_bytes(rt: &HostRuntime, count: usize) -> bool {
    let name = "ips_io_test_bytes";
    match bytes_of(rt.alloc(), count) {
        Ok(bytes) => real_gives(rt, name, bytes.as_slice())
            && real_saves(rt, name, bytes.as_slice())
            && real_has(rt, name, bytes.as_slice()),
        Err(_) => false,
    }
}

#[test]
fn real_files_keep_their_bytes(rt: HostRuntime) {
    for count in [4095, 4096, 4097, 10_000] {
        assert!(rt; keeps_bytes(&rt, count), "{count} bytes");
    }
}

/// Whether a real file of at most five bytes is not read, with this error.
fn real_refuses(rt: &HostRuntime, name: &str, error: ReadError) -> bool {
    match rt.clone() {
        Ok(files) => gives(rt.alloc(), &mut file_shelf(files), name, 5, Err(error)),
        Err(_) => false,
    }
}

#[test]
fn failures_of_real_files(rt: HostRuntime) -> Result<(), Fail> {
    let name = "ips_io_test_file";
    assert!(rt; real_saves(&rt, name, b"hello\n") && !real_saves(&rt, ".", b"hello\n"));
    for (name, error) in [
        (name, ReadError::TooLong),
        (".", ReadError::Fault),
        ("no_such_file", ReadError::Fault),
    ] {
        assert!(rt; real_refuses(&rt, name, error), "{name}");
    }
    fs::remove_file(&rt, name)?;
    Ok(())
}
