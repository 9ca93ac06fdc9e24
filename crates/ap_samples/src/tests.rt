use crate::{
    Directive, copy_create, copy_declare, copy_process, flat_create, flat_declare, read_directives,
    read_line,
};
use ap_builder::{CreateAnswer, CreateInput, DepKind, JobInput, Outcome, Target};
use ap_text::{Bytes, List, Name, Platform, RelPath};
use std::alloc::Global;
use std::str;
use std::test::Fail;

/// The word of what a line asks for.
fn word_of(directive: &Directive) -> &'static str {
    match directive {
        Directive::Include(_) => "include",
        Directive::Glob(_) => "glob",
        Directive::Job { kind, .. } => match kind {
            DepKind::Order => "order",
            DepKind::OrderOnce => "once",
            DepKind::Fingerprint => "print",
        },
        Directive::Key(_) => "key",
        Directive::Priority(_) => "priority",
        Directive::Part(_) => "part",
        Directive::Ref { .. } => "ref",
        Directive::OldSub(_) => "old",
        Directive::Formerly(_) => "formerly",
        Directive::Fail(_) => "fail",
        Directive::Malformed => "malformed",
    }
}

/// The path, the pattern or the name that it has, or nothing.
fn text_of(directive: &Directive) -> &[u8] {
    match directive {
        Directive::Include(path) | Directive::Formerly(path) => path.as_slice(),
        Directive::Job { source, .. } => source.as_slice(),
        Directive::Ref { path, .. } => path.as_slice(),
        Directive::Glob(pattern) => pattern.as_slice(),
        Directive::Key(name) | Directive::Part(name) => name.as_slice(),
        _ => b"",
    }
}

/// The key that it has, or nothing.
fn key_of(directive: &Directive) -> &[u8] {
    match directive {
        Directive::Job { key, .. } => key.as_slice(),
        _ => b"",
    }
}

/// The number that it has.
fn number_of(directive: &Directive) -> Option<i64> {
    match directive {
        Directive::Priority(priority) => Some(*priority as i64),
        Directive::Ref { sub, .. } => Some(*sub as i64),
        Directive::OldSub(number) | Directive::Fail(number) => Some(*number as i64),
        _ => None,
    }
}

/// Adds a part behind a space, unless it is empty.
fn push_part(text: &mut String, part: &[u8]) -> Result<(), Fail> {
    if !part.is_empty() {
        text.push(' ')?;
        text.push_str(str::from_utf8(part)?)?;
    }
    Ok(())
}

/// What a line asks for: its word, its path, pattern or name, its key and its number.
fn told(alloc: Global, line: &str) -> Result<String, Fail> {
    let Some(directive) = read_line(alloc, line.as_bytes())? else {
        return Ok(String::from_str(alloc, "plain")?);
    };
    let mut text = String::from_str(alloc, word_of(&directive))?;
    push_part(&mut text, text_of(&directive))?;
    push_part(&mut text, key_of(&directive))?;
    if let Some(number) = number_of(&directive) {
        let number = number.to_string(alloc)?;
        push_part(&mut text, number.as_bytes())?;
    }
    Ok(text)
}

#[test]
fn reads_lines(rt: HostRuntime) -> Result<(), Fail> {
    let alloc = rt.alloc();
    let lines = [
        ("", "plain"),
        ("u", "plain"),
        ("@", "plain"),
        ("@includex a", "plain"),
        ("@fail\t7", "plain"),
        (" @fail 7", "plain"),
        ("@Fail 7", "plain"),
        ("@include Maps/A b.INC", "include maps/a b.inc"),
        ("@include", "malformed"),
        ("@include ", "malformed"),
        ("@include a//b", "malformed"),
        ("@include b.inc\r", "malformed"),
        ("@glob Maps/*.txt", "glob Maps/*.txt"),
        ("@glob", "malformed"),
        ("@after a b.mat flat", "order a b.mat flat"),
        ("@once A.mat k-1", "once a.mat k-1"),
        ("@print a.mat flat", "print a.mat flat"),
        ("@after flat", "malformed"),
        ("@after a.mat Flat", "malformed"),
        ("@key k", "key k"),
        ("@key  k", "malformed"),
        ("@priority 7", "priority 7"),
        ("@priority -2147483648", "priority -2147483648"),
        ("@priority 2147483648", "malformed"),
        ("@priority -0", "malformed"),
        ("@priority +1", "malformed"),
        ("@part a", "part a"),
        ("@part X", "malformed"),
        ("@ref A.mat 0", "ref a.mat 0"),
        ("@ref a.mat", "malformed"),
        ("@oldsub 4294967295", "old 4294967295"),
        ("@oldsub 4294967296", "malformed"),
        ("@oldsub 01", "malformed"),
        ("@formerly B.mat", "formerly b.mat"),
        ("@fail 7", "fail 7"),
        ("@fail 0", "malformed"),
    ];
    for (line, wanted) in lines {
        let told = told(alloc, line)?;
        assert_eq!(rt; told.as_str(), wanted, "{line}");
    }
    Ok(())
}

#[test]
fn reads_sources(rt: HostRuntime) -> Result<(), Fail> {
    let alloc = rt.alloc();
    let directives = read_directives(alloc, b"@key k\r\nu\n\n@fail 7")?;
    assert_eq!(rt; directives.len(), 2);
    assert!(rt; matches!(directives.first(), Some(Directive::Key(_))));
    assert!(rt; matches!(directives.last(), Some(Directive::Fail(7))));
    Ok(())
}

fn create_input(alloc: Global, path: &[u8], bytes: &[u8]) -> Result<CreateInput, Fail> {
    let platforms = vec![in alloc;
        Platform::read(alloc, b"pc")?,
        Platform::read(alloc, b"mac")?,
    ]?;
    let builders = vec![in alloc;
        (Name::read(alloc, b"copy")?, 3),
        (Name::read(alloc, b"flat")?, 4),
    ]?;
    Ok(CreateInput {
        builders: List::of(builders),
        platforms: List::of(platforms),
        path: RelPath::read(alloc, path)?,
        bytes: Bytes::of(bytes.to_vec(alloc)?),
        reached: List::of(Vec::new(alloc)),
    })
}

fn job_input(alloc: Global, builder: &[u8], path: &[u8], bytes: &[u8]) -> Result<JobInput, Fail> {
    Ok(JobInput {
        builder: Name::read(alloc, builder)?,
        version: 1,
        platform: Platform::read(alloc, b"pc")?,
        key: Name::read(alloc, builder)?,
        params: Bytes::of(Vec::new(alloc)),
        path: RelPath::read(alloc, path)?,
        bytes: Bytes::of(bytes.to_vec(alloc)?),
        reached: List::of(Vec::new(alloc)),
        handed: List::of(Vec::new(alloc)),
    })
}

#[test]
fn copies(rt: HostRuntime) -> Result<(), Fail> {
    let alloc = rt.alloc();
    let name = Name::read(alloc, b"copy")?;
    let input = create_input(alloc, b"a.txt", b"@fail 7\n")?;
    assert!(rt; copy_declare(alloc, &name, &input.path, input.bytes.as_slice())?.is_empty());
    let CreateAnswer::Jobs(jobs) = copy_create(alloc, &name, &input)? else {
        return Err("failed".into());
    };
    let jobs = jobs.as_slice();
    assert_eq!(rt; jobs.len(), 2);
    assert_eq!(rt; jobs[1].platform.as_slice(), b"mac".as_slice());
    assert_eq!(rt; jobs[1].version, 3);
    let input = job_input(alloc, b"copy", b"d/A.txt", b"@fail 7\n")?;
    let Outcome::Done(products) = copy_process(alloc, &input)? else {
        return Err("failed".into());
    };
    let products = products.as_slice();
    assert_eq!(rt; products.len(), 1);
    assert_eq!(rt; products[0].name.as_slice(), b"a.txt".as_slice());
    assert_eq!(rt; products[0].bytes.as_slice(), b"@fail 7\n".as_slice());
    Ok(())
}

#[test]
fn creates_by_directives(rt: HostRuntime) -> Result<(), Fail> {
    let alloc = rt.alloc();
    let name = Name::read(alloc, b"flat")?;
    let source = b"@include B.inc\n@glob *.txt\n@print c.mat flat\n@priority -3\nu\n";
    let input = create_input(alloc, b"a.mat", source)?;
    let targets = flat_declare(alloc, &name, &input.path, input.bytes.as_slice())?;
    assert_eq!(rt; targets.len(), 2);
    assert!(rt; matches!(&targets[0], Target::File(path) if path.as_str() == "b.inc"));
    assert!(rt;
        matches!(&targets[1], Target::Glob(pattern) if pattern.as_slice() == b"*.txt".as_slice())
    );
    let CreateAnswer::Jobs(jobs) = flat_create(alloc, &name, &input)? else {
        return Err("failed".into());
    };
    let jobs = jobs.as_slice();
    assert_eq!(rt; jobs.len(), 2);
    assert_eq!(rt; jobs[0].key.as_slice(), b"flat".as_slice());
    assert_eq!(rt; jobs[0].version, 4);
    assert_eq!(rt; jobs[0].priority, -3);
    let deps = jobs[0].deps.as_slice();
    assert_eq!(rt; deps.len(), 1);
    assert_eq!(rt; deps[0].job.source.as_str(), "c.mat");
    assert_eq!(rt; deps[0].job.platform.as_slice(), b"pc".as_slice());
    Ok(())
}

#[test]
fn refuses_sources(rt: HostRuntime) -> Result<(), Fail> {
    let alloc = rt.alloc();
    let name = Name::read(alloc, b"flat")?;
    for source in [
        "@include",
        "@key a\n@key a",
        "@fail 1\n@fail 2",
        "@priority 1\n@priority 1",
        "@part X",
    ] {
        let input = create_input(alloc, b"a.mat", source.as_bytes())?;
        let answer = flat_create(alloc, &name, &input)?;
        assert!(rt; matches!(&answer, CreateAnswer::Failed(1)), "{source}");
    }
    Ok(())
}
