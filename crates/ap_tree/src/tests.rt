use crate::*;
use ap_system::Culprit;
use ap_text::{Bytes, RelPath, Seen};
use std::alloc::Global;
use std::fs::OpenOptions;
use std::os::unix::fs::symlink;
use std::test::Fail;
use std::{env, fs, process};

/// A folder of the test's own, empty.
fn make_folder(rt: &HostRuntime, name: &str) -> Result<String, Fail> {
    let temp = env::temp_dir(rt)?;
    let folder = format!(in rt.alloc();
        "{}/ap_tree_{}_{}",
        temp.as_str(),
        name,
        process::id(rt.process())
    )?;
    fs::create_dir_all(rt, folder.as_str())?;
    Ok(folder)
}

fn put(rt: &HostRuntime, folder: &str, path: &str, bytes: &[u8]) -> Result<(), Fail> {
    let full = format!(in rt.alloc(); "{folder}/{path}")?;
    if let Some((parent, _)) = full.as_str().rsplit_once('/') {
        fs::create_dir_all(rt, parent)?;
    }
    fs::write(rt, full.as_str(), bytes)?;
    Ok(())
}

fn link(rt: &HostRuntime, original: &str, folder: &str, path: &str) -> Result<(), Fail> {
    let full = format!(in rt.alloc(); "{folder}/{path}")?;
    symlink(rt, original, full.as_str())?;
    Ok(())
}

/// Whether anything stands at a path, a link too.
fn stands(rt: &HostRuntime, folder: &str, path: &str) -> Result<bool, Fail> {
    let full = format!(in rt.alloc(); "{folder}/{path}")?;
    Ok(fs::symlink_metadata(rt, full.as_str()).is_ok())
}

/// The names in the order of their bytes, each with a bar behind it.
fn joined(alloc: Global, names: Vec<Bytes>) -> Result<String, Fail> {
    let mut names = names;
    names.sort()?;
    let mut all = String::new(alloc);
    for name in &names {
        all.push_str(std::str::from_utf8(name.as_slice()).unwrap_or("?"))?;
        all.push('|')?;
    }
    Ok(all)
}

/// How a file was seen, as text.
fn shown(alloc: Global, seen: Option<Seen>) -> Result<String, Fail> {
    let text = match seen {
        Some(Seen::Absent) => String::from_str(alloc, "absent")?,
        Some(Seen::TooLarge) => String::from_str(alloc, "too large")?,
        Some(Seen::Bytes(bytes)) => {
            format!(in alloc;
                "bytes {}",
                std::str::from_utf8(bytes.as_slice()).unwrap_or("?")
            )?
        }
        None => String::from_str(alloc, "no answer")?,
    };
    Ok(text)
}

fn tree_names(tree: &mut impl Tree, alloc: Global, folder: &str) -> Result<String, Fail> {
    names_but(tree, alloc, folder, &[])
}

fn names_but(
    tree: &mut impl Tree,
    alloc: Global,
    folder: &str,
    exclude: &[Bytes],
) -> Result<String, Fail> {
    let folder = RelPath::read(alloc, folder.as_bytes())?;
    joined(alloc, tree.list(alloc, &folder, exclude)?)
}

/// What is told of a failure, or `none`.
fn told(alloc: Global, culprit: Option<Culprit<'_>>) -> Result<String, Fail> {
    match culprit {
        Some(culprit) => Ok(culprit.to_string(alloc)?),
        None => Ok(String::from_str(alloc, "none")?),
    }
}

fn files_of(alloc: Global, files: &[(&str, &str)]) -> Result<Vec<(Bytes, Bytes)>, Fail> {
    let mut all = Vec::new(alloc);
    for (path, bytes) in files {
        let path = Bytes::of(path.as_bytes().to_vec(alloc)?);
        let bytes = Bytes::of(bytes.as_bytes().to_vec(alloc)?);
        all.push((path, bytes))?;
    }
    Ok(all)
}

#[test]
fn tree_in_a_folder(rt: HostRuntime) -> Result<(), Fail> {
    let alloc = rt.alloc();
    let folder = make_folder(&rt, "tree")?;
    let root = folder.as_str();
    put(&rt, root, "game/a b.txt", b"1")?;
    put(&rt, root, "game/sub/\u{e9}.txt", b"22")?;
    put(&rt, root, "game/sub/deep/c", b"")?;
    put(&rt, root, "games/other", b"3")?;
    put(&rt, root, "other/x", b"4")?;
    link(&rt, "a b.txt", root, "game/link")?;
    link(&rt, "sub", root, "game/linked")?;
    link(&rt, "nowhere", root, "game/broken")?;
    let mut tree = DirTree::new(rt, root)?;
    let listed = [
        ("game", "a b.txt|sub/deep/c|sub/\u{e9}.txt|"),
        ("game/sub", "deep/c|\u{e9}.txt|"),
        ("absent", ""),
        ("game/absent/more", ""),
        ("game/a b.txt", ""),
        ("game/a b.txt/more", ""),
        ("game/linked", ""),
        ("game/linked/deep", ""),
    ];
    for (below, names) in listed {
        let answer = tree_names(&mut tree, alloc, below)?;
        assert!(rt; answer.as_str() == names, "{below}: {answer}");
    }
    let read = [
        ("game/a b.txt", "bytes 1"),
        ("game/sub/\u{e9}.txt", "bytes 22"),
        ("game/sub/deep/c", "bytes "),
        ("games/other", "bytes 3"),
        ("game/none", "absent"),
        ("game/sub", "absent"),
        ("game/a b.txt/more", "absent"),
        ("game/link", "absent"),
        ("game/broken", "absent"),
        ("game/linked/deep/c", "absent"),
        ("game/sub/../a b.txt", "absent"),
        ("/etc/passwd", "absent"),
        ("", "absent"),
    ];
    for (path, seen) in read {
        let answer = shown(alloc, tree.read(alloc, path.as_bytes()).ok())?;
        assert!(rt; answer.as_str() == seen, "{path}: {answer}");
    }
    assert_eq!(rt; tree.faults(), 0);
    for count in 1..3u64 {
        let answer = tree.read(alloc, b"game/\xff");
        assert!(rt; answer.err() == Some(TreeFault::Failed));
        assert_eq!(rt; tree.faults(), count);
    }
    fs::remove_dir_all(&rt, root)?;
    assert!(rt; tree_names(&mut tree, alloc, "game")?.is_empty());
    Ok(())
}

#[test]
fn tree_in_a_folder_takes_no_larger_file(rt: HostRuntime) -> Result<(), Fail> {
    let alloc = rt.alloc();
    let folder = make_folder(&rt, "large")?;
    for (len, is_taken) in [(4_194_304, true), (4_194_305, false)] {
        let path = format!(in alloc; "{folder}/file")?;
        let file = fs::create(&rt, path.as_str())?;
        file.set_len(len)?;
        let mut tree = DirTree::new(rt, folder.as_str())?;
        match tree.read(alloc, b"file") {
            Ok(Seen::Bytes(bytes)) => assert!(rt; is_taken && bytes.as_slice().len() as u64 == len),
            Ok(Seen::TooLarge) => assert!(rt; !is_taken),
            _ => assert!(rt; false, "{len}"),
        }
    }
    fs::remove_dir_all(&rt, folder.as_str())?;
    Ok(())
}

fn cache_names(cache: &mut impl CacheDir, alloc: Global) -> Result<String, Fail> {
    joined(alloc, cache.list(alloc)?)
}

#[test]
fn cache_in_a_folder(rt: HostRuntime) -> Result<(), Fail> {
    let alloc = rt.alloc();
    let folder = make_folder(&rt, "cache")?;
    let root = folder.as_str();
    let path = format!(in alloc; "{root}/made/here")?;
    let mut cache = DirCache::new(rt, path.as_str())?;
    assert!(rt; cache_names(&mut cache, alloc)?.is_empty());
    for path in ["pc/a", "top"] {
        assert!(rt; shown(alloc, cache.read(alloc, path.as_bytes()).ok())?.as_str() == "absent");
    }
    assert!(rt; !stands(&rt, root, "made")?);
    let written = [
        ("pc/a b.txt", "1"),
        ("pc/d/\u{e9}", "22"),
        ("pc/d/e/f", "333"),
        ("pc/a b.txt", "new"),
        ("pc/d/e/f", ""),
    ];
    for (path, bytes) in written {
        cache.write(alloc, path.as_bytes(), bytes.as_bytes())?;
        let answer = shown(alloc, cache.read(alloc, path.as_bytes()).ok())?;
        let wanted = format!(in alloc; "bytes {bytes}")?;
        assert!(rt; answer.as_str() == wanted.as_str(), "{path}: {answer}");
    }
    let names = cache_names(&mut cache, alloc)?;
    assert!(rt;
        names.as_str() == "pc/a b.txt|pc/d/e/f|pc/d/\u{e9}|",
        "{names}"
    );
    assert_eq!(rt; cache.writes(), 5);
    for path in ["pc/d/e/none", "pc/d", "pc/a b.txt/x", "none", "../made"] {
        cache.remove(alloc, path.as_bytes())?;
    }
    assert!(rt; stands(&rt, root, "made/here/pc/d/e/f")?);
    assert!(rt; stands(&rt, root, "made/here/pc/a b.txt")?);
    cache.remove(alloc, b"pc/d/e/f")?;
    assert!(rt; !stands(&rt, root, "made/here/pc/d/e")?);
    assert!(rt; stands(&rt, root, "made/here/pc/d")?);
    cache.write(alloc, b"pc/d/e/f", b"again")?;
    for path in ["pc/d/e/f", "pc/d/\u{e9}", "pc/a b.txt"] {
        cache.remove(alloc, path.as_bytes())?;
        assert!(rt; shown(alloc, cache.read(alloc, path.as_bytes()).ok())?.as_str() == "absent");
    }
    assert!(rt; !stands(&rt, root, "made/here/pc")?);
    assert!(rt; stands(&rt, root, "made/here")?);
    assert_eq!(rt; cache.writes(), 15);
    assert_eq!(rt; cache.faults(), 0);
    fs::remove_dir_all(&rt, root)?;
    Ok(())
}

#[test]
fn cache_passes_no_link(rt: HostRuntime) -> Result<(), Fail> {
    let alloc = rt.alloc();
    let folder = make_folder(&rt, "links")?;
    let root = folder.as_str();
    put(&rt, root, "outside/file", b"kept")?;
    put(&rt, root, "cache/pc/plain", b"1")?;
    link(&rt, "../../outside/file", root, "cache/pc/link")?;
    link(&rt, "nowhere", root, "cache/pc/broken")?;
    link(&rt, "../outside", root, "cache/linked")?;
    let path = format!(in alloc; "{root}/cache")?;
    let mut cache = DirCache::new(rt, path.as_str())?;
    let mut count = 0u64;
    for path in [
        "pc/link",
        "pc/broken",
        "linked/file",
        "linked/more/file",
        "pc",
        "pc/plain/x",
        "../outside/file",
        "",
    ] {
        let answer = cache.write(alloc, path.as_bytes(), b"changed");
        assert!(rt; answer.err() == Some(CacheFault::Failed), "{path}");
        count = count.saturating_add(1);
        assert_eq!(rt; cache.faults(), count);
        assert!(rt; shown(alloc, cache.read(alloc, path.as_bytes()).ok())?.as_str() == "absent");
        cache.remove(alloc, path.as_bytes())?;
    }
    for path in ["cache/pc/link", "cache/pc/broken", "cache/linked"] {
        assert!(rt; stands(&rt, root, path)?, "{path}");
    }
    assert!(rt; !stands(&rt, root, "outside/more")?);
    assert!(rt; !stands(&rt, root, "cache/pc/nowhere")?);
    let mut outside = DirCache::new(rt, root)?;
    assert!(rt; shown(alloc, outside.read(alloc, b"outside/file").ok())?.as_str() == "bytes kept");
    assert!(rt; cache_names(&mut cache, alloc)?.as_str() == "pc/plain|");
    let answer = cache.remove(alloc, b"pc/\xff");
    assert!(rt; answer.err() == Some(CacheFault::Failed));
    count = count.saturating_add(1);
    assert_eq!(rt; cache.faults(), count);
    fs::remove_dir_all(&rt, root)?;
    Ok(())
}

/// What a list of the folder `game` has where this is excluded.
fn names_without(tree: &mut impl Tree, alloc: Global, pattern: &str) -> Result<String, Fail> {
    let pattern = Bytes::of(pattern.as_bytes().to_vec(alloc)?);
    names_but(tree, alloc, "game", &[pattern])
}

#[test]
fn excluded_folders_are_passed_over(rt: HostRuntime) -> Result<(), Fail> {
    let alloc = rt.alloc();
    let folder = make_folder(&rt, "exclude")?;
    let root = folder.as_str();
    put(&rt, root, "game/a.txt", b"1")?;
    put(&rt, root, "game/sub/b.txt", b"2")?;
    put(&rt, root, "game/sub/deep/c", b"3")?;
    let mut tree = DirTree::new(rt, root)?;
    for (pattern, names) in [
        ("sub/*", "a.txt|"),
        ("SUB/D*", "a.txt|sub/b.txt|"),
        ("sub", "a.txt|sub/b.txt|sub/deep/c|"),
        ("*c", "a.txt|sub/b.txt|sub/deep/c|"),
        ("*", "a.txt|"),
    ] {
        let answer = names_without(&mut tree, alloc, pattern)?;
        assert!(rt; answer.as_str() == names, "{pattern}: {answer}");
    }
    fs::remove_dir_all(&rt, root)?;
    Ok(())
}

#[test]
fn a_failed_read_is_told(rt: HostRuntime) -> Result<(), Fail> {
    let alloc = rt.alloc();
    let mut tree = DirTree::new(rt, ".")?;
    assert!(rt; told(alloc, tree.culprit())?.as_str() == "none");
    assert!(rt; tree.read(alloc, b"game/\xff").is_err());
    assert!(rt; told(alloc, tree.culprit())?.as_str() == "reach \"\": the path isn't UTF-8");
    Ok(())
}

#[test]
fn a_failed_write_is_told(rt: HostRuntime) -> Result<(), Fail> {
    let mut full = StdSink::new(OpenOptions::new().write(true).open(&rt, "/dev/full")?);
    assert!(rt; full.write(b"ok\n").is_err());
    let text = told(rt.alloc(), full.culprit("full"))?;
    assert!(rt; text.as_str() == "write \"full\": No space left on device (os error 28)");
    Ok(())
}

#[test]
fn a_file_that_is_too_large_is_told(rt: HostRuntime) -> Result<(), Fail> {
    let alloc = rt.alloc();
    let folder = make_folder(&rt, "told")?;
    let path = format!(in alloc; "{folder}/file")?;
    fs::create(&rt, path.as_str())?.set_len(4_194_305)?;
    let mut tree = DirTree::new(rt, folder.as_str())?;
    assert!(rt; tree.too_large().is_none());
    let _ = tree.read(alloc, b"file")?;
    assert!(rt; tree.too_large() == Some("file"));
    fs::remove_dir_all(&rt, folder.as_str())?;
    Ok(())
}

#[test]
fn no_file_that_stood_there_is_written(rt: HostRuntime) -> Result<(), Fail> {
    let alloc = rt.alloc();
    let folder = make_folder(&rt, "whole")?;
    let root = folder.as_str();
    put(&rt, root, "source", b"source")?;
    put(&rt, root, "pc/other", b"other")?;
    put(&rt, root, ".ap.new", b"left by a run that was stopped")?;
    let source = format!(in alloc; "{root}/source")?;
    let product = format!(in alloc; "{root}/pc/a")?;
    fs::hard_link(&rt, source.as_str(), product.as_str())?;
    let mut cache = DirCache::new(rt, root)?;
    cache.write(alloc, b"pc/a", b"product")?;
    assert!(rt; fs::read(&rt, source.as_str())?.as_slice() == b"source".as_slice());
    let names = cache_names(&mut cache, alloc)?;
    assert!(rt; names.as_str() == "pc/a|pc/other|source|", "{names}");
    fs::remove_dir_all(&rt, root)?;
    Ok(())
}

#[test]
fn a_cache_that_is_a_link_fails(rt: HostRuntime) -> Result<(), Fail> {
    let alloc = rt.alloc();
    let folder = make_folder(&rt, "linked")?;
    let root = folder.as_str();
    put(&rt, root, "there/a", b"1")?;
    link(&rt, "there", root, "cache")?;
    let path = format!(in alloc; "{root}/cache")?;
    let mut cache = DirCache::new(rt, path.as_str())?;
    assert!(rt; cache.read(alloc, b"a").is_err());
    assert!(rt; cache.write(alloc, b"a", b"2").is_err());
    assert!(rt; cache.remove(alloc, b"a").is_err());
    assert!(rt; cache.list(alloc).is_err());
    let wanted = format!(in alloc; "open \"{path}\": is a link")?;
    assert!(rt; told(alloc, cache.culprit())?.as_str() == wanted.as_str());
    fs::remove_dir_all(&rt, root)?;
    Ok(())
}

#[test]
fn sink_over_a_file(rt: HostRuntime) -> Result<(), Fail> {
    let alloc = rt.alloc();
    let folder = make_folder(&rt, "sink")?;
    let path = format!(in alloc; "{folder}/report")?;
    let mut sink = StdSink::new(fs::create(&rt, path.as_str())?);
    assert_eq!(rt; sink.write(b"")?, 0);
    assert_eq!(rt; sink.write(b"ok\n")?, 3);
    assert_eq!(rt; sink.faults(), 0);
    assert!(rt; fs::read(&rt, path.as_str())?.as_slice() == b"ok\n".as_slice());
    let mut full = StdSink::new(OpenOptions::new().write(true).open(&rt, "/dev/full")?);
    for count in 1..3u64 {
        assert!(rt; full.write(b"ok\n").err() == Some(SinkFault::Failed));
        assert_eq!(rt; full.faults(), count);
    }
    fs::remove_dir_all(&rt, folder.as_str())?;
    Ok(())
}

#[test]
fn sure_tree_in_memory(rt: HostRuntime) -> Result<(), Fail> {
    let alloc = rt.alloc();
    let files = files_of(alloc, &[("game/b", "2"), ("game/a/c", "1"), ("games", "3")])?;
    assert!(rt; are_distinct(&files));
    let mut tree = SureMemoryTree::of(files);
    assert!(rt; tree_names(&mut tree, alloc, "game")?.as_str() == "a/c|b|");
    assert!(rt; shown(alloc, tree.read(alloc, b"game/a/c").ok())?.as_str() == "bytes 1");
    assert!(rt; shown(alloc, tree.read(alloc, b"game/a").ok())?.as_str() == "absent");
    assert_eq!(rt; tree.files().len(), 3);
    assert_eq!(rt; tree.faults(), 0);
    let twice = files_of(alloc, &[("a", "1"), ("b", "2"), ("a", "3")])?;
    assert!(rt; !are_distinct(&twice));
    Ok(())
}

#[test]
fn sure_cache_in_memory(rt: HostRuntime) -> Result<(), Fail> {
    let alloc = rt.alloc();
    let files = files_of(alloc, &[("pc/a", "1"), ("pc/b", "2")])?;
    assert!(rt; are_distinct(&files));
    let mut cache = SureMemoryCache::of(files);
    cache.write(alloc, b"pc/a", b"11")?;
    cache.write(alloc, b"pc/c", b"3")?;
    cache.remove(alloc, b"pc/b")?;
    cache.remove(alloc, b"pc/none")?;
    assert!(rt; cache_names(&mut cache, alloc)?.as_str() == "pc/a|pc/c|");
    assert!(rt; shown(alloc, cache.read(alloc, b"pc/a").ok())?.as_str() == "bytes 11");
    assert!(rt; shown(alloc, cache.read(alloc, b"pc/b").ok())?.as_str() == "absent");
    assert_eq!(rt; cache.files().len(), 2);
    assert_eq!(rt; cache.writes(), 4);
    assert_eq!(rt; cache.faults(), 0);
    Ok(())
}

#[test]
fn sure_sink_in_memory(rt: HostRuntime) -> Result<(), Fail> {
    let mut sink = SureMemorySink::new(vec![in rt.alloc(); 0u8; 4]?);
    assert_eq!(rt; sink.write(b"abc")?, 3);
    assert_eq!(rt; sink.write(b"de")?, 1);
    assert_eq!(rt; sink.write(b"")?, 0);
    assert_eq!(rt; sink.faults(), 0);
    assert!(rt; sink.write(b"e").err() == Some(SinkFault::Failed));
    assert_eq!(rt; sink.faults(), 1);
    assert!(rt; sink.written() == b"abcd".as_slice());
    Ok(())
}

#[test]
fn listed_calls_fail(rt: HostRuntime) -> Result<(), Fail> {
    let alloc = rt.alloc();
    let files = files_of(alloc, &[("game/a", "1")])?;
    assert!(rt; are_distinct(&files));
    let mut tree = MemoryTree::of(files, [2, 5].to_vec(alloc)?);
    assert!(rt; tree_names(&mut tree, alloc, "game")?.as_str() == "a|");
    assert!(rt; tree.read(alloc, b"game/a").err() == Some(TreeFault::Failed));
    assert_eq!(rt; tree.faults(), 1);
    assert!(rt; shown(alloc, tree.read(alloc, b"game/a").ok())?.as_str() == "bytes 1");
    assert_eq!(rt; tree.files().len(), 1);
    let files = files_of(alloc, &[("pc/a", "1")])?;
    assert!(rt; are_distinct(&files));
    let mut cache = MemoryCache::of(files, [1, 3, 5, 7].to_vec(alloc)?);
    assert!(rt; cache.write(alloc, b"pc/a", b"2").err() == Some(CacheFault::Failed));
    assert!(rt; shown(alloc, cache.read(alloc, b"pc/a").ok())?.as_str() == "bytes 1");
    assert!(rt; cache.remove(alloc, b"pc/a").err() == Some(CacheFault::Failed));
    assert!(rt; cache_names(&mut cache, alloc)?.as_str() == "pc/a|");
    assert!(rt; cache.list(alloc).err() == Some(CacheFault::Failed));
    cache.write(alloc, b"pc/b", b"2")?;
    assert!(rt; cache.read(alloc, b"pc/b").err() == Some(CacheFault::Failed));
    cache.remove(alloc, b"pc/a")?;
    assert_eq!(rt; cache.files().len(), 1);
    assert_eq!(rt; cache.writes(), 2);
    assert_eq!(rt; cache.faults(), 4);
    let mut sink = MemorySink::new(vec![in alloc; 0u8; 4]?, [2].to_vec(alloc)?);
    assert_eq!(rt; sink.write(b"abc")?, 3);
    assert!(rt; sink.write(b"d").err() == Some(SinkFault::Failed));
    assert_eq!(rt; sink.write(b"de")?, 1);
    assert!(rt; sink.write(b"e").err() == Some(SinkFault::Failed));
    assert_eq!(rt; sink.faults(), 2);
    assert!(rt; sink.written() == b"abcd".as_slice());
    Ok(())
}
