use crate::{Culprit, Failure, Stands, fill, look};
use std::io::{Error, ErrorKind, Read};
use std::os::unix::fs::symlink;
use std::test::Fail;
use std::{env, fs, io, process};

/// Gives the bytes in pieces of at most two, and is interrupted before each.
#[derive(Drop)]
struct Interrupted<'a> {
    left: &'a [u8],
    is_next: bool,
}

impl<'a> Read for Interrupted<'a> {
    fn read(&mut self, buf: &mut [u8]) -> io::Result<usize> {
        self.is_next = !self.is_next;
        if self.is_next {
            return Err(Error::from(ErrorKind::Interrupted));
        }
        let most = buf.len().min(2);
        self.left.read(&mut buf[..most])
    }
}

#[test]
fn a_read_goes_on_after_a_signal(rt: HostRuntime) -> Result<(), Fail> {
    for (len, filled) in [(0usize, 0usize), (3, 3), (5, 5), (8, 5)] {
        let mut reader = Interrupted {
            left: b"abcde",
            is_next: false,
        };
        let mut buf = vec![in rt.alloc(); 0u8; len]?;
        assert_eq!(rt; fill(&mut reader, &mut buf)?, filled);
        assert!(rt; buf.starts_with(&b"abcde"[..filled]));
    }
    Ok(())
}

#[test]
fn a_failure_names_path_and_call(rt: HostRuntime) -> Result<(), Fail> {
    let alloc = rt.alloc();
    let refused = Failure::refused("open", "is a link");
    let shown = Culprit::new("Cache", &refused).to_string(alloc)?;
    assert_eq!(rt; shown.as_str(), "open \"Cache\": is a link");
    assert!(rt; !refused.is_out_of_memory());
    let denied = Failure::new("open", Error::from_raw_os_error(13));
    let shown = Culprit::new("a\nb", &denied).to_string(alloc)?;
    assert_eq!(rt;
        shown.as_str(),
        "open \"a\\nb\": Permission denied (os error 13)"
    );
    assert!(rt; Failure::new("open", Error::from_raw_os_error(12)).is_out_of_memory());
    Ok(())
}

#[test]
fn what_stands_at_a_path(rt: HostRuntime) -> Result<(), Fail> {
    let temp = env::temp_dir(&rt)?;
    let folder = format!(in rt.alloc();
        "{}/ap_system_{}",
        temp.as_str(),
        process::id(rt.process())
    )?;
    let [file, other, link, none] = [
        format!(in rt.alloc(); "{folder}/file")?,
        format!(in rt.alloc(); "{folder}/other")?,
        format!(in rt.alloc(); "{folder}/link")?,
        format!(in rt.alloc(); "{folder}/file/none")?,
    ];
    fs::create_dir_all(&rt, folder.as_str())?;
    fs::write(&rt, file.as_str(), b"12")?;
    fs::hard_link(&rt, file.as_str(), other.as_str())?;
    symlink(&rt, "file", link.as_str())?;
    assert!(rt; look(&rt, &folder)? == Stands::Folder);
    assert!(rt; look(&rt, &file)? == Stands::File { len: 2, names: 2 });
    assert!(rt; look(&rt, &link)? == Stands::Link);
    assert!(rt; look(&rt, &none)? == Stands::Nothing);
    assert!(rt; look(&rt, "/dev/null")? == Stands::Other);
    fs::remove_dir_all(&rt, folder.as_str())?;
    Ok(())
}
