//! Logs as bytes, by hand.
use crate::log::{Event, LogError, Step};
use crate::reader::read_log;
use crate::writer::write_log;
use std::alloc::{AllocError, Global};

/// A section of three steps, an empty one, and one with the last block and the largest numbers.
const BYTES: &[u8] = b"SPL1\
    \x00\x00\x00\x00\x00\x00\x00\x03\
    \x02\x00\x00\x00\x00\x00\x00\x00\x00\x00\x00\x00\x00\x00\x00\x00\x00\x00\x03\
    \x03\x00\x00\x00\x00\x00\x00\x00\x00\x00\x00\x00\x00\x00\x00\x00\x00\x00\x00\
    \x01\x00\x00\x00\x00\x00\x00\x00\x00\x00\x00\x00\x00\x00\x00\x00\x00\x00\x03\
    \x00\x00\x00\x00\x00\x00\x00\x00\
    \x00\x00\x00\x00\x00\x00\x00\x01\
    \x01\x0f\xff\xff\xff\xff\xff\xff\xff\xff\xff\xff\xff\xff\xff\xff\xff\xff\xfe";

/// The log that these bytes are.
fn sections(alloc: Global) -> Result<Vec<Vec<Step>>, AllocError> {
    let block = 0;
    let first = vec![in alloc;
        Step {
            block,
            event: Event::Store { cell: 0, word: 3 }
        },
        Step {
            block,
            event: Event::Turn { number: 0 }
        },
        Step {
            block,
            event: Event::Load { cell: 0, word: 3 }
        },
    ]?;
    let last = vec![in alloc;
        Step {
            block: 4095,
            event: Event::Load {
                cell: u64::MAX,
                word: -2
            }
        },
    ]?;
    Ok(vec![in alloc; first, Vec::new(alloc), last]?)
}

#[test]
fn a_log_is_written_and_read(rt: HostRuntime) -> Result<(), AllocError> {
    let alloc = rt.alloc();
    let log = sections(alloc)?;
    assert!(rt; read_log(alloc, BYTES) == Ok(log));
    Ok(())
}

/// Why bytes are no log.
fn refusal(alloc: Global, bytes: &[u8]) -> Option<LogError> {
    read_log(alloc, bytes).err()
}

#[test]
fn the_first_wrong_field_is_named(rt: HostRuntime) {
    let cases: [(&[u8], u64); 9] = [
        (b"", 0),
        (b"SPL", 3),
        (b"SPL2", 0),
        (b"SPL1\0\0\0\0\0\0\0", 11),
        (b"SPL1\0\0\0\0\0\0\0\x01\x04", 12),
        (b"SPL1\0\0\0\0\0\0\0\x01\x03\x10\0", 13),
        (b"SPL1\0\0\0\0\0\0\0\x01\x03\xff", 14),
        (b"SPL1\0\0\0\0\0\0\0\x01\x03\0\0\0\0\0\0\0\0\0\x01", 15),
        (
            b"SPL1\0\0\0\0\0\0\0\x01\x01\0\0\0\0\0\0\0\0\0\x01\0\0\0\0\0\0\0",
            30,
        ),
    ];
    for (bytes, at) in cases {
        assert_eq!(rt;
            refusal(rt.alloc(), bytes),
            Some(LogError::NotLog { at }),
            "for {bytes:?}"
        );
    }
}
