//! Stores in which a run finds what isn't its own, or for which its records are too long.
use super::{
    BATCH, CONFIG, FOLDER_ALONE, HELD, Kept, NONE, ROOM, TWO, cache_of, has_files, left_by, pair,
    project,
};
use ap_disk::Side;
use std::process::Abort;
use std::test::Fail;

const NOTHING_DONE: &str = "sources 0 jobs 0 done 0 published 0 shadowed 0 wrote 0 removed 0\nok\n";

/// A store's file, and the status, the output and the file that a run without a source leaves: a record that is none
/// of a database, the same under another mark, and files in which no record stands.
const STORES: [(&[u8], u8, &str, &[u8]); 4] = [
    (
        b"APSTORE1\0\0\0\0\0\0\0\x01\x01\0\0\0\x01\xff\0",
        9,
        "ap: bad store: record 1 offset 0\n",
        b"APSTORE1\0\0\0\0\0\0\0\x01\x01\0\0\0\x01\xff\0",
    ),
    (
        b"APSTORE2\0\0\0\0\0\0\0\x01\x01\0\0\0\x01\xff\0",
        9,
        "ap: bad store: record 0 offset 0\n",
        b"APSTORE2\0\0\0\0\0\0\0\x01\x01\0\0\0\x01\xff\0",
    ),
    (
        b"APSTORE1\0\0\0\0\0\0\0\x01\0\0\0\0\x01\xff\0",
        0,
        NOTHING_DONE,
        FOLDER_ALONE,
    ),
    (
        b"\xff\xff\xff\xff\xff\xff\xff\xff\xff\xff\xff\xff\xff\xff\xff\xff",
        0,
        NOTHING_DONE,
        FOLDER_ALONE,
    ),
];

fn held(rt: &(impl Abort + AllocGlobal), bytes: &[u8], room: usize) -> Result<Kept, Fail> {
    Ok(Kept {
        cache: cache_of(rt, HELD, None)?,
        store: pair(rt, bytes, room, None)?,
    })
}

#[test]
fn runs_meet_each_store(rt: HostRuntime) -> Result<(), Fail> {
    for (bytes, status, output, after) in STORES {
        let mut kept = held(&rt, bytes, ROOM)?;
        let files = project(rt.alloc(), CONFIG, &[])?;
        let left = left_by(&rt, BATCH, files, &mut kept, &NONE)?;
        assert!(rt; left.status == status, "{bytes:?}");
        assert!(rt; left.output.as_slice() == output.as_bytes(), "{bytes:?}");
        assert!(rt; left.entries == 0, "{bytes:?}");
        assert!(rt; has_files(kept.cache.files(), HELD), "{bytes:?}");
        assert!(rt; kept.store.disk(Side::A).bytes() == after, "{bytes:?}");
    }
    Ok(())
}

#[test]
fn the_last_record_needs_its_room(rt: HostRuntime) -> Result<(), Fail> {
    for (room, status) in [(682, 11), (683, 0)] {
        let mut kept = held(&rt, b"", room)?;
        let files = project(rt.alloc(), CONFIG, TWO)?;
        let left = left_by(&rt, BATCH, files, &mut kept, &NONE)?;
        assert!(rt; left.status == status, "{room}");
        assert!(rt; left.entries == 4, "{room}");
        if status == 11 {
            let line = b"ap: store full: length 524 wanted 159\n".as_slice();
            assert!(rt; left.output.as_slice() == line);
            assert!(rt; has_files(kept.cache.files(), HELD));
            assert!(rt; kept.store.disk(Side::A).bytes().len() == 524);
        }
    }
    Ok(())
}
