use crate::*;
use std::alloc::Global;
use std::test::Fail;

/// The path that the bytes spell, as text, or the fault.
fn path_answer(alloc: Global, bytes: &[u8]) -> Result<Vec<u8>, PathFault> {
    let path = RelPath::read(alloc, bytes)?;
    match path.as_slice().to_vec(alloc) {
        Ok(bytes) => Ok(bytes),
        Err(_) => Err(PathFault::OutOfMemory),
    }
}

#[test]
fn paths_are_read_exactly(rt: HostRuntime) -> Result<(), Fail> {
    let alloc = rt.alloc();
    let longest = vec![in alloc; b'a'; 240]?;
    let too_long = vec![in alloc; b'a'; 241]?;
    let too_long_and_bad = vec![in alloc; b'/'; 241]?;
    let good: [&[u8]; 6] = [
        b"a",
        b"a.mat",
        b"Textures/Grid 01.png",
        "\u{e9}t\u{e9}/na\u{ef}ve.txt".as_bytes(),
        b"...",
        &longest,
    ];
    for bytes in good {
        let path = RelPath::read(alloc, bytes).ok().ok_or("refused")?;
        assert!(rt; path.as_slice() == bytes, "{bytes:?}");
        assert!(rt; path.as_str().as_bytes() == bytes, "{bytes:?}");
        assert!(rt;
            path.copy(alloc).ok().ok_or("no memory")?.as_slice() == bytes,
            "{bytes:?}"
        );
    }
    let refused: [(&[u8], PathFault); 16] = [
        (b"", PathFault::Empty),
        (&too_long, PathFault::TooLong),
        (&too_long_and_bad, PathFault::TooLong),
        (b"a\xff", PathFault::NotUtf8),
        (b"../\xc3", PathFault::NotUtf8),
        (b"a//b", PathFault::BadPart),
        (b"/a", PathFault::BadPart),
        (b"a/", PathFault::BadPart),
        (b"../a", PathFault::BadPart),
        (b"a/..", PathFault::BadPart),
        (b"a/./b", PathFault::BadPart),
        (b"..\\..", PathFault::BadByte),
        (b"a\\b", PathFault::BadByte),
        (b"a\x1f", PathFault::BadByte),
        (b"a\nb", PathFault::BadByte),
        (b"a\x7f", PathFault::BadByte),
    ];
    for (bytes, fault) in refused {
        let answer = path_answer(alloc, bytes);
        assert!(rt; answer.err() == Some(fault), "{bytes:?}");
    }
    Ok(())
}

#[test]
fn paths_have_parts(rt: HostRuntime) -> Result<(), Fail> {
    let alloc = rt.alloc();
    let rows = [
        ("A.txt", "", "A.txt", "a.txt"),
        ("b/C.bin", "b", "C.bin", "b/c.bin"),
        (
            "Gems/W\u{c4}/Wave01.WAV",
            "Gems/W\u{c4}",
            "Wave01.WAV",
            "gems/w\u{c4}/wave01.wav",
        ),
        ("@Z[`z{/x", "@Z[`z{", "x", "@z[`z{/x"),
    ];
    for (text, parent, file_name, folded) in rows {
        let path = RelPath::read(alloc, text.as_bytes()).ok().ok_or("refused")?;
        assert_eq!(rt; path.parent(), parent);
        assert_eq!(rt; path.file_name(), file_name);
        let folded_path = path.fold(alloc).ok().ok_or("no memory")?;
        assert_eq!(rt; folded_path.as_str(), folded);
    }
    Ok(())
}

#[test]
fn names_are_read_exactly(rt: HostRuntime) -> Result<(), Fail> {
    let alloc = rt.alloc();
    let (longest, too_long) = (vec![in alloc; b'z'; 32]?, vec![in alloc; b'z'; 33]?);
    let (long_platform, too_long_platform) = (vec![in alloc; b'9'; 16]?, vec![in alloc; b'9'; 17]?);
    let (long_file, too_long_file) = (vec![in alloc; b'a'; 255]?, vec![in alloc; b'a'; 256]?);
    // Whether the bytes are a name, a platform and a file name.
    let rows: [(&[u8], bool, bool, bool); 19] = [
        (b"", false, false, false),
        (b"copy", true, true, true),
        (b"a_b-0", true, false, true),
        (b"Copy", false, false, false),
        (b"a.b", false, false, true),
        (b"a b", false, false, true),
        (b".", false, false, false),
        (b"..", false, false, false),
        (b"...", false, false, true),
        (b"a/b", false, false, false),
        (b"a\\b", false, false, false),
        (b"a\x1f", false, false, false),
        (b"a\x7f", false, false, false),
        ("\u{e9}".as_bytes(), false, false, true),
        (b"\xff", false, false, false),
        (&longest, true, false, true),
        (&too_long, false, false, true),
        (&long_platform, true, true, true),
        (&too_long_platform, true, false, true),
    ];
    for (bytes, is_name, is_platform, is_file_name) in rows {
        let name = Name::read(alloc, bytes);
        assert!(rt; name.is_ok() == is_name, "{bytes:?}");
        if let Ok(name) = name {
            assert!(rt; name.copy(alloc).ok().ok_or("no memory")?.as_slice() == bytes);
        }
        let platform = Platform::read(alloc, bytes);
        assert!(rt; platform.is_ok() == is_platform, "{bytes:?}");
        if let Ok(platform) = platform {
            assert!(rt; platform.copy(alloc).ok().ok_or("no memory")?.as_slice() == bytes);
        }
        let file_name = FileName::read(alloc, bytes);
        assert!(rt; file_name.is_ok() == is_file_name, "{bytes:?}");
        if let Ok(file_name) = file_name {
            assert!(rt; file_name.copy(alloc).ok().ok_or("no memory")?.as_slice() == bytes);
        }
    }
    assert!(rt; FileName::read(alloc, &long_file).is_ok());
    assert!(rt; FileName::read(alloc, &too_long_file).err() == Some(NameFault::Bad));
    Ok(())
}

#[test]
fn copies_are_equal(rt: HostRuntime) -> Result<(), Fail> {
    let alloc = rt.alloc();
    let bytes = Bytes::of(b"ab".to_vec(alloc)?);
    let copy = bytes.copy(alloc).ok().ok_or("no memory")?;
    assert!(rt; copy == bytes);
    let larger = Bytes::of(b"ab\x00".to_vec(alloc)?);
    assert!(rt; bytes < larger);
    assert!(rt; larger.into_vec().as_slice() == b"ab\x00".as_slice());
    let id = JobId {
        source: RelPath::read(alloc, b"a.txt").ok().ok_or("refused")?,
        key: Name::read(alloc, b"copy").ok().ok_or("refused")?,
        platform: Platform::read(alloc, b"pc").ok().ok_or("refused")?,
    };
    let again = id.copy(alloc).ok().ok_or("no memory")?;
    assert!(rt; again.source.as_str() == "a.txt");
    assert!(rt; again.key.as_slice() == b"copy".as_slice());
    assert!(rt; again.platform.as_slice() == b"pc".as_slice());
    let list = List::of(vec![in alloc; 3u8, 4]?);
    assert_eq!(rt; list.as_slice().len(), 2);
    assert!(rt; list.into_vec().as_slice() == [3u8, 4].as_slice());
    Ok(())
}

#[test]
fn patterns_match_paths(rt: HostRuntime) -> Result<(), Fail> {
    let cases: [(&str, &str, bool); 20] = [
        ("*.mat", "a/b.MAT", true),
        ("a?c", "a\u{e9}c", true),
        ("**", "", true),
        ("", "", true),
        ("a?c", "ac", false),
        ("", "a", false),
        ("a", "", false),
        ("*", "", true),
        ("*", "a/b/c", true),
        ("?", "/", true),
        ("*.MAT", "a.mat", true),
        ("*.mat", "a.mat.txt", false),
        ("a*", "b/a", false),
        ("*/flat/*.mat", "x/flat/y/flat.mat", true),
        ("*aab", "aaab", true),
        ("*a*b*c", "xaxbxcxbxc", true),
        ("*a*b*c", "xaxcxb", false),
        ("\u{c9}", "\u{e9}", false),
        ("a\u{e9}*", "A\u{e9}b", true),
        ("[a]", "a", false),
    ];
    for (pattern, path, matches) in cases {
        assert!(rt; wild(pattern, path) == matches, "{pattern:?} on {path:?}");
    }
    Ok(())
}

#[test]
fn many_runs_take_no_longer_than_the_product(rt: HostRuntime) -> Result<(), Fail> {
    let alloc = rt.alloc();
    let mut pattern = String::new(alloc);
    for _ in 0..100 {
        pattern.push_str("*a")?;
    }
    pattern.push_str("*b")?;
    let mut path = String::new(alloc);
    for _ in 0..240 {
        path.push_str("a")?;
    }
    assert!(rt; !wild(&pattern, &path));
    Ok(())
}
