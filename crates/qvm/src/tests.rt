// The module's own words.
use qv_tool::own::{argv_into, own_from};
use std::alloc::{AllocError, Global};
use std::test::Fail;

fn texts(alloc: Global, words: &[&str]) -> Result<Vec<String>, AllocError> {
    let mut texts = Vec::new(alloc);
    for word in words {
        texts.push(String::from_str(alloc, word)?)?;
    }
    Ok(texts)
}

// Words, and the place from which they are the module's own.
const PLACES: [(&[&str], usize); 4] = [
    (&[], 0),
    (&["qrun", "x"], 2),
    (&["qrun", "x", "--", "a", "--"], 2),
    (&["-", "---", "--"], 2),
];

#[test]
fn finds_the_mark(rt: HostRuntime) -> Result<(), Fail> {
    for (words, place) in &PLACES {
        let words = texts(rt.alloc(), words)?;
        assert!(rt; own_from(&words) == *place);
    }
    Ok(())
}

// The number of a word of `ab` and `c`, the buffer's length, what is put into a buffer of `xyz`, and how
// many bytes that is.
const ROWS: [(u32, usize, &[u8], u32); 6] = [
    (0, 2, b"a\0z", 2),
    (0, 3, b"ab\0", 3),
    (1, 3, b"c\0z", 2),
    (2, 2, b"\0yz", 1),
    (0, 1, b"\0yz", 1),
    (0, 0, b"xyz", 0),
];

#[test]
fn puts_a_word(rt: HostRuntime) -> Result<(), Fail> {
    let words = texts(rt.alloc(), &["ab", "c"])?;
    for (number, len, left, used) in &ROWS {
        let mut buffer = *b"xyz";
        let reply = argv_into(&words, *number, &mut buffer[..(*len).min(3)]);
        assert!(rt; reply.word == 0);
        assert!(rt; reply.used == *used);
        assert!(rt; buffer.as_slice() == *left);
    }
    Ok(())
}
