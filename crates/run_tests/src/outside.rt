use crate::scene::{plan, shelf};
use cfix_outside::{MemorySink, Shelf, ShelfFault, Sink, put_text};
use std::test::Fail;

#[test]
fn a_shelf_in_memory_fails_as_planned(rt: HostRuntime) -> Result<(), Fail> {
    let alloc = rt.alloc();
    let files = [("a", b"abc".as_slice()), ("a", b"other")];
    let mut shelf = shelf(alloc, &files, &[(1, 0)]).expect(&rt, "memory");
    for (name, limit, bytes, fault) in [
        ("a", 3usize, "abc", None),
        ("a", 3, "", Some(ShelfFault::Failed)),
        ("b", 3, "", Some(ShelfFault::Failed)),
        ("a", 2, "", Some(ShelfFault::TooLong(2))),
        ("a", 3, "abc", None),
    ] {
        match shelf.read(alloc, name, limit) {
            Ok(read) => {
                assert_eq!(rt; fault, None);
                assert_eq!(rt; read.as_slice(), bytes.as_bytes());
            }
            Err(found) => assert_eq!(rt; Some(found), fault),
        }
    }
    Ok(())
}

#[test]
fn a_sink_in_memory_fails_as_planned(rt: HostRuntime) -> Result<(), Fail> {
    let alloc = rt.alloc();
    let plan = plan(alloc, &[(1, 2), (1, 0), (2, 9), (7, 1)]).expect(&rt, "memory");
    let mut sink = MemorySink::with_room(alloc, 12, plan).expect(&rt, "memory");
    for (piece, is_ok, taken) in [
        ("abc", true, "abc"),
        ("def", false, "abcde"),
        ("fgh", false, "abcdefgh"),
        ("", true, "abcdefgh"),
        ("ijk", true, "abcdefghijk"),
        ("lmn", false, "abcdefghijkl"),
        ("m", false, "abcdefghijkl"),
        ("", false, "abcdefghijkl"),
    ] {
        assert_eq!(rt; sink.put(piece.as_bytes()).is_ok(), is_ok);
        assert_eq!(rt; sink.taken(), taken.as_bytes());
    }
    Ok(())
}

#[test]
fn a_text_is_put_in_pieces_of_256_bytes(rt: HostRuntime) -> Result<(), Fail> {
    let alloc = rt.alloc();
    let text = vec![in alloc; b'x'; 600]?;
    for (entry, is_ok, taken) in [
        ((0u32, 7u32), false, 7usize),
        ((1, 10), false, 266),
        ((2, 90), false, 600),
        ((3, 0), true, 600),
    ] {
        let plan = plan(alloc, &[entry]).expect(&rt, "memory");
        let mut sink = MemorySink::with_room(alloc, 1000, plan).expect(&rt, "memory");
        assert_eq!(rt; put_text(&mut sink, &text).is_ok(), is_ok);
        assert_eq!(rt; sink.taken().len(), taken);
    }
    Ok(())
}
