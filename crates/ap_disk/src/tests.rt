use crate::{Disk, FileDisk, MemoryDisk, Pair, Side, SureMemoryDisk};
use std::alloc::Global;
use std::fs;
use std::process::Abort;
use std::test::Fail;

/// Whether the bytes are those wanted, where a question mark stands for the fill.
fn are_like(bytes: &[u8], want: &[u8], fill: u8) -> bool {
    bytes.len() == want.len()
        && bytes.iter().zip(want).all(|(byte, like)| *byte == *like
            || (*like == b'?' && *byte == fill))
}

fn assert_image(
    rt: &impl Abort,
    alloc: Global,
    disk: &MemoryDisk,
    moment: u64,
    want: &[u8],
) -> Result<(), Fail> {
    let Some(now) = disk.clock() else {
        panic!(rt; "no clock is told");
    };
    assert!(rt; 1 <= moment);
    assert!(rt; moment <= now);
    for fill in [0u8, 1, 7, 255] {
        let image = disk.image(alloc, moment, fill)?;
        assert!(rt;
            are_like(&image, want, fill),
            "moment {moment}, fill {fill}"
        );
    }
    Ok(())
}

#[test]
fn images_of_each_moment(rt: HostRuntime) -> Result<(), Fail> {
    let alloc = rt.alloc();
    let failing = vec![in alloc; 6]?;
    let mut disk = MemoryDisk::new(alloc, b"abc".to_vec(alloc)?, 32, 9, 9, failing)?;
    disk.write_at(1, b"XY")?;
    disk.sync()?;
    disk.write_at(4, b"Z")?;
    assert_eq!(rt; disk.bytes(), b"aXY\0Z".as_slice());
    disk.cut(2)?;
    disk.rest();
    disk.sync()?;
    assert!(rt; disk.write_at(0, b"Q").is_err());
    assert_eq!(rt; disk.len()?, 2);
    assert_eq!(rt; disk.bytes(), b"aX".as_slice());
    assert_eq!(rt; Disk::faults(&disk), 1);
    assert_eq!(rt; disk.clock(), Some(8));
    assert_eq!(rt; disk.recorded(), 7);
    for (call, moment) in [(1, 1), (4, 4), (5, 6), (7, 8)] {
        assert_eq!(rt; disk.moment(call), moment);
    }
    assert_image(&rt, alloc, &disk, 1, b"a??")?;
    assert_image(&rt, alloc, &disk, 2, b"a??")?;
    assert_image(&rt, alloc, &disk, 3, b"aXY??")?;
    assert_image(&rt, alloc, &disk, 4, b"aX")?;
    assert_image(&rt, alloc, &disk, 5, b"aX")?;
    assert_image(&rt, alloc, &disk, 6, b"aX")?;
    assert_image(&rt, alloc, &disk, 7, b"?X")?;
    assert_image(&rt, alloc, &disk, 8, b"?X")?;
    Ok(())
}

#[test]
fn a_full_record_refuses(rt: HostRuntime) -> Result<(), Fail> {
    let alloc = rt.alloc();
    let mut disk = MemoryDisk::new(alloc, Vec::new(alloc), 17, 3, 2, Vec::new(alloc))?;
    disk.write_at(0, b"ab")?;
    assert!(rt; disk.write_at(2, b"c").is_err());
    disk.sync()?;
    assert!(rt; disk.sync().is_err());
    assert!(rt; disk.cut(0).is_err());
    assert_eq!(rt; disk.bytes(), b"ab".as_slice());
    assert_eq!(rt; Disk::faults(&disk), 3);
    Ok(())
}

#[test]
fn a_pair_rests_the_other_disk(rt: HostRuntime) -> Result<(), Fail> {
    let alloc = rt.alloc();
    let a = MemoryDisk::new(alloc, b"one".to_vec(alloc)?, 17, 9, 9, Vec::new(alloc))?;
    let b = MemoryDisk::new(alloc, b"two".to_vec(alloc)?, 17, 9, 9, Vec::new(alloc))?;
    let mut pair = Pair::new(a, b);
    assert_eq!(rt; pair.room(Side::B), 17);
    pair.write_at(Side::A, 3, b"!")?;
    pair.cut(Side::B, 1)?;
    pair.sync(Side::B)?;
    let mut buf = [0u8; 4];
    assert_eq!(rt; pair.read(Side::A, 0, &mut buf)?, 4);
    assert_eq!(rt; buf.as_slice(), b"one!".as_slice());
    assert_eq!(rt; pair.len(Side::B)?, 1);
    assert_eq!(rt; pair.disk(Side::A).clock(), Some(5));
    let (a, b) = pair.into_disks();
    assert_eq!(rt; a.bytes(), b"one!".as_slice());
    assert_eq!(rt; b.bytes(), b"t".as_slice());
    assert_eq!(rt; b.clock(), Some(5));
    Ok(())
}

#[test]
fn a_sure_disk_keeps_each_write(rt: HostRuntime) -> Result<(), Fail> {
    let alloc = rt.alloc();
    let mut disk = SureMemoryDisk::new(vec![in alloc; 9u8; 20]?, 2);
    disk.write_at(4, b"ab")?;
    disk.cut(7)?;
    assert_eq!(rt; disk.bytes(), b"\x09\x09\0\0ab".as_slice());
    disk.cut(5)?;
    disk.sync()?;
    disk.rest();
    let mut buf = [7u8; 3];
    assert_eq!(rt; disk.read(3, &mut buf)?, 2);
    assert_eq!(rt; buf, [0, b'a', 7]);
    assert_eq!(rt; disk.read(5, &mut buf)?, 0);
    assert_eq!(rt; disk.len()?, 5);
    assert_eq!(rt; Disk::room(&disk), 20);
    assert_eq!(rt; Disk::faults(&disk), 0);
    Ok(())
}

#[test]
fn a_real_file(rt: HostRuntime) -> Result<(), Fail> {
    let path = "file_disk_test.bin";
    let _absent = fs::remove_file(&rt, path);
    let mut disk = FileDisk::new(rt.clone()?, path)?;
    assert!(rt;
        fs::metadata(&rt, path).is_err(),
        "nothing is opened before the first call"
    );
    assert_eq!(rt; disk.len()?, 0);
    disk.write_at(4, b"ab")?;
    disk.cut(9)?;
    let mut buf = [7u8; 8];
    assert_eq!(rt; disk.read(0, &mut buf)?, 6);
    assert_eq!(rt; buf.as_slice(), b"\0\0\0\0ab\x07\x07".as_slice());
    assert_eq!(rt; disk.read(6, &mut buf)?, 0);
    disk.cut(5)?;
    disk.sync()?;
    disk.rest();
    let mut again = FileDisk::new(rt.clone()?, path)?;
    assert_eq!(rt; again.read(3, &mut buf)?, 2);
    assert_eq!(rt; &buf[..2], [0, b'a'].as_slice());
    assert_eq!(rt; again.len()?, 5);
    fs::remove_file(&rt, path)?;
    let mut folder = FileDisk::new(rt.clone()?, ".")?;
    assert!(rt; folder.len().is_err());
    assert_eq!(rt; Disk::faults(&folder), 1);
    assert_eq!(rt; Disk::room(&folder), 18446744073709551615);
    Ok(())
}

// The places lie before, on and behind the bounds of what is read at once. The byte at n is n modulo 251.
#[test]
fn small_reads_of_a_real_file(rt: HostRuntime) -> Result<(), Fail> {
    let path = "file_disk_reads_test.bin";
    let _absent = fs::remove_file(&rt, path);
    let mut disk = FileDisk::new(rt.clone()?, path)?;
    let mut bytes = Vec::new(rt.alloc());
    for n in 0..20000u32 {
        bytes.push((n % 251) as u8)?;
    }
    disk.write_at(0, &bytes)?;
    let mut buf = [7u8; 8];
    for (at, count, first) in [
        (0u64, 8usize, 0u8),
        (3, 8, 3),
        (8188, 8, 156),
        (8192, 8, 160),
        (2, 8, 2),
        (16380, 8, 65),
        (19996, 4, 167),
        (20000, 0, 167),
    ] {
        assert_eq!(rt; disk.read(at, &mut buf)?, count, "at {at}");
        assert_eq!(rt; buf[0], first, "at {at}");
    }
    disk.write_at(8190, b"news")?;
    assert_eq!(rt; disk.read(8188, &mut buf)?, 8);
    assert_eq!(rt; buf.as_slice(), b"\x9c\x9dnews\xa2\xa3".as_slice());
    disk.cut(8192)?;
    assert_eq!(rt; disk.read(8190, &mut buf)?, 2);
    assert_eq!(rt; &buf[..2], b"ne".as_slice());
    fs::remove_file(&rt, path)?;
    Ok(())
}
