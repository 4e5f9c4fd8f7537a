//! Lists of names.

use spf_batch_lists::{ListError, read_names};
use std::alloc::Global;
use std::test::Fail;

/// How many names a list has, or the number of its first bad line; 0 without memory.
fn verdict(alloc: Global, list: &[u8]) -> Result<usize, u64> {
    match read_names(alloc, list) {
        Ok(names) => Ok(names.len()),
        Err(ListError::NotAName { line }) => Err(line),
        Err(ListError::OutOfMemory) => Err(0),
    }
}

#[test]
fn lines_are_names(rt: HostRuntime) -> Result<(), Fail> {
    let rows: [(&[u8], Result<usize, u64>); 11] = [
        (b"", Ok(0)),
        (b"a", Ok(1)),
        (b"a\n", Ok(1)),
        (b"a\nb\nc", Ok(3)),
        (b"a\r\nb -c\n", Ok(2)),
        (b"\n", Err(1)),
        (b"a\n\nb", Err(2)),
        (b"a\n-b\n", Err(2)),
        (b"-", Err(1)),
        (b"a\nb\n\xff\n", Err(3)),
        (b"a\n\n\n", Err(2)),
    ];
    for (list, wanted) in rows {
        assert!(rt; verdict(rt.alloc(), list) == wanted);
    }
    Ok(())
}

#[test]
fn a_thousand_names_are_a_list(rt: HostRuntime) -> Result<(), Fail> {
    let mut list = Vec::new(rt.alloc());
    for _ in 0..1000 {
        list.extend_from_slice(b"a\n")?;
    }
    assert!(rt; verdict(rt.alloc(), &list) == Ok(1000));
    list.push(b'a')?;
    assert!(rt; verdict(rt.alloc(), &list) == Err(1001));
    Ok(())
}
