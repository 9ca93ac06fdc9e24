use crate::*;
use ap_content::{Node, Number};
use ap_text::{Bytes, JobId, List, RelPath};
use std::alloc::Global;
use std::fmt::Write;
use std::process::Abort;
use std::str;
use std::test::Fail;

/// The bytes as text.
fn text(bytes: &[u8]) -> &str {
    str::from_utf8(bytes).unwrap_or("?")
}

fn show_job(out: &mut String, job: &JobId) -> Result<(), Fail> {
    write!(
        out,
        " {}:{}:{}",
        job.source.as_str(),
        text(job.key.as_slice()),
        text(job.platform.as_slice())
    )?;
    Ok(())
}

fn show_desc(out: &mut String, desc: &JobDesc) -> Result<(), Fail> {
    write!(
        out,
        " [{} {} {} {} {} {}",
        text(desc.builder.as_slice()),
        desc.version,
        text(desc.platform.as_slice()),
        text(desc.key.as_slice()),
        desc.priority,
        text(desc.params.as_slice())
    )?;
    for dep in desc.deps.as_slice() {
        write!(out, " {:?}", dep.kind)?;
        show_job(out, &dep.job)?;
    }
    write!(out, "]")?;
    Ok(())
}

fn show_created(out: &mut String, row: &CreateRow) -> Result<(), Fail> {
    write!(out, "create {} {}", row.source.as_str(), row.input.0)?;
    match &row.created {
        Created::Jobs(jobs) => {
            for desc in jobs.as_slice() {
                show_desc(out, desc)?;
            }
        }
        Created::Builder { builder, code } => {
            write!(out, " failed {} {code}", text(builder.as_slice()))?;
        }
        Created::DuplicateKey { key, platform } => {
            write!(
                out,
                " twice {} {}",
                text(key.as_slice()),
                text(platform.as_slice())
            )?;
        }
        Created::TooLarge => write!(out, " too large")?,
    }
    Ok(())
}

fn show_result(out: &mut String, became: &JobResult) -> Result<(), Fail> {
    match became {
        JobResult::Processed { input, outcome } => match outcome {
            OutcomeRow::Done(products) => write!(out, " {} done {}", input.0, products.0)?,
            OutcomeRow::Failed(code) => write!(out, " {} failed {code}", input.0)?,
        },
        JobResult::Cycle => write!(out, " cycle")?,
        JobResult::Missing(job) => {
            write!(out, " missing")?;
            show_job(out, job)?;
        }
        JobResult::DepFailed(job) => {
            write!(out, " after")?;
            show_job(out, job)?;
        }
    }
    Ok(())
}

fn show_source(out: &mut String, row: &SourceRow) -> Result<(), Fail> {
    write!(
        out,
        "source {} {} {}",
        row.path.as_str(),
        row.order,
        row.name.as_str()
    )?;
    match row.seen {
        SeenRow::Bytes(thing) => write!(out, " {}", thing.0)?,
        SeenRow::TooLarge => write!(out, " too large")?,
    }
    Ok(())
}

fn show_define(out: &mut String, tag: u8, bytes: &[u8], kids: &[Number]) -> Result<(), Fail> {
    write!(out, "define {tag} {}", text(bytes))?;
    for kid in kids {
        write!(out, " {}", kid.0)?;
    }
    Ok(())
}

/// The fields of an item, as text.
fn show(out: &mut String, item: &Item) -> Result<(), Fail> {
    match item {
        Item::Define { tag, text, kids } => show_define(
            out,
            *tag,
            text.as_slice(),
            kids.as_slice(),
        )?,
        Item::Drop(thing) => write!(out, "drop {}", thing.0)?,
        Item::PutSource(row) => show_source(out, row)?,
        Item::RemoveSource(path) => write!(out, "no source {}", path.as_str())?,
        Item::PutCreate(row) => show_created(out, row)?,
        Item::RemoveCreate(path) => write!(out, "no create {}", path.as_str())?,
        Item::PutJob(row) => {
            write!(out, "job")?;
            show_job(out, &row.id)?;
            show_result(out, &row.result)?;
        }
        Item::RemoveJob(id) => {
            write!(out, "no job")?;
            show_job(out, id)?;
        }
        Item::PutFolders(rows) => {
            write!(out, "folders")?;
            for row in rows.as_slice() {
                write!(out, " {} {}", row.order, row.path.as_str())?;
            }
        }
    }
    Ok(())
}

/// An item's bytes, written by hand, and its fields.
const ITEMS: [(&[u8], &str); 18] = [
    (
        b"\x01\x03\0\0\0\x02ab\0\0\0\x02\0\0\0\0\0\0\0\x01\x01\x02\x03\x04\x05\x06\x07\x08",
        "define 3 ab 1 72623859790382856",
    ),
    (b"\x01\xff\0\0\0\0\0\0\0\0", "define 255 "),
    (b"\x02\0\0\0\0\0\0\x01\x02", "drop 258"),
    (
        b"\x03\0\x05a.mat\0\0\x01\x14\0\x05A.mat\0\0\0\0\0\0\0\0\x07",
        "source a.mat 276 A.mat 7",
    ),
    (b"\x03\0\x01b\0\0\0\0\0\x01B\x02", "source b 0 B too large"),
    (b"\x04\0\x03a/b", "no source a/b"),
    (
        b"\x05\0\x01a\0\0\0\0\0\0\0\x09\0\0\0\0\x02\
\x04copy\0\0\x01\x02\x02pc\x01k\xff\xff\xff\xfb\0\0\0\x02-q\0\0\0\x03\0\0\x01c\x01k\x02pc\x01\0\x01d\x01m\x02pc\x02\0\x01e\x01n\x02pc\
\x01b\0\0\0\0\x01x\x01j\x7f\xff\xff\xff\0\0\0\0\0\0\0\0",
        "create a 9 [copy 258 pc k -5 -q Order c:k:pc OrderOnce d:m:pc Fingerprint e:n:pc] [b 0 x j 2147483647 ]",
    ),
    (
        b"\x05\0\x01a\0\0\0\0\0\0\0\x09\x01\x04copy\0\0\x02\x01",
        "create a 9 failed copy 513",
    ),
    (
        b"\x05\0\x01a\0\0\0\0\0\0\0\x09\x02\x03a_b\x02pc",
        "create a 9 twice a_b pc",
    ),
    (b"\x05\0\x01a\0\0\0\0\0\0\0\x09\x03", "create a 9 too large"),
    (b"\x06\0\x01a", "no create a"),
    (
        b"\x07\0\x01a\x01k\x02pc\0\0\0\0\0\0\0\0\x03\0\0\0\0\0\0\0\0\x04",
        "job a:k:pc 3 done 4",
    ),
    (
        b"\x07\0\x01a\x01k\x02pc\0\0\0\0\0\0\0\0\x03\x01\0\0\0\x09",
        "job a:k:pc 3 failed 9",
    ),
    (b"\x07\0\x01a\x01k\x02pc\x01", "job a:k:pc cycle"),
    (
        b"\x07\0\x01a\x01k\x02pc\x02\0\x01b\x01k\x02pc",
        "job a:k:pc missing b:k:pc",
    ),
    (
        b"\x07\0\x01a\x01k\x02pc\x03\0\x01b\x01k\x02pc",
        "job a:k:pc after b:k:pc",
    ),
    (b"\x08\0\x01a\x01k\x02pc", "no job a:k:pc"),
    (
        b"\x09\0\0\0\x02\0\0\0\0\0\x04game\0\0\0\x0a\0\x09Gems/Main",
        "folders 0 game 10 Gems/Main",
    ),
];

/// The change that the bytes spell, after it was spelled again.
fn spelled_again(rt: &impl Abort, alloc: Global, bytes: &[u8]) -> Result<Change, Fail> {
    assert!(rt; bytes.len() < 4294967296);
    let change = decode(alloc, bytes).ok().ok_or("refused")?;
    assert!(rt; spelled_length(&change) == bytes.len() as u64);
    let again = encode(alloc, &change).ok().ok_or("no memory")?;
    assert!(rt; again.as_slice() == bytes);
    Ok(change)
}

#[test]
fn items_are_spelled_as_by_hand(rt: HostRuntime) -> Result<(), Fail> {
    let alloc = rt.alloc();
    for (bytes, fields) in ITEMS {
        let change = spelled_again(&rt, alloc, bytes)?;
        let mut shown = String::new(alloc);
        for item in change.items.as_slice() {
            show(&mut shown, item)?;
        }
        assert_eq!(rt; shown.as_str(), fields);
    }
    Ok(())
}

fn copied(alloc: Global, change: &Change) -> Result<Change, Fail> {
    let mut items = Vec::new(alloc);
    for item in change.items.as_slice() {
        items.push(item.copy(alloc)?)?;
    }
    Ok(Change {
        items: List::of(items),
    })
}

#[test]
fn a_copy_of_an_item_is_spelled_as_the_item(rt: HostRuntime) -> Result<(), Fail> {
    let alloc = rt.alloc();
    for (bytes, _) in ITEMS {
        let change = decode(alloc, bytes).ok().ok_or("refused")?;
        let copy = copied(alloc, &change)?;
        assert!(rt; bytes.len() < 4294967296);
        assert!(rt; spelled_length(&copy) == bytes.len() as u64);
        let again = encode(alloc, &copy).ok().ok_or("no memory")?;
        assert!(rt; again.as_slice() == bytes);
    }
    Ok(())
}

// The offset of a cut item is that of the item, and bytes cut between two items are the change of those before.
#[test]
fn a_cut_change_is_refused_where_its_item_begins(rt: HostRuntime) -> Result<(), Fail> {
    let alloc = rt.alloc();
    let mut all = Vec::new(alloc);
    for (bytes, _) in ITEMS {
        let offset = all.len() as u64;
        let wanted = Some(RowFault::BadRecord { offset });
        for byte in bytes {
            if all.len() as u64 > offset {
                assert!(rt; decode(alloc, &all).err() == wanted, "at {}", all.len());
            }
            all.push(*byte)?;
        }
        let _whole = spelled_again(&rt, alloc, &all)?;
    }
    let change = spelled_again(&rt, alloc, &all)?;
    assert_eq!(rt; change.items.as_slice().len(), 18);
    Ok(())
}

// The record of the first commit of a project without files, and what is no item.
#[test]
fn what_is_no_item_is_refused(rt: HostRuntime) -> Result<(), Fail> {
    let alloc = rt.alloc();
    let first = spelled_again(&rt, alloc, b"\x09\0\0\0\x01\0\0\0\0\0\x04game")?;
    let mut shown = String::new(alloc);
    for item in first.items.as_slice() {
        show(&mut shown, item)?;
    }
    assert_eq!(rt; shown.as_str(), "folders 0 game");
    assert!(rt; decode(alloc, b"").is_ok_and(|change| change.items.as_slice().is_empty()));
    // Each stands behind an item of four bytes.
    let faults: [(&[u8], &str); 33] = [
        (b"\0", "no item"),
        (b"\x0a", "no item"),
        (b"\x01\x03\0\0\0\x02a", "text one short"),
        (b"\x01\x03\x01\0\0\0a", "length the other way round"),
        (
            b"\x01\x03\0\0\0\0\0\0\0\x02\0\0\0\0\0\0\0\x01",
            "kids one short",
        ),
        (b"\x02\0\0\0\0\0\0\x01", "number one short"),
        (b"\x03\0\x01A\0\0\0\0\0\x01A\x02", "source isn't folded"),
        (b"\x03\0\0\0\0\0\0\0\x01A\x02", "source is empty"),
        (b"\x03\0\x01a\0\0\0\0\0\x02a/\x02", "name is no path"),
        (b"\x03\0\x01a\0\0\0\0\0\x01a\x01", "absent"),
        (b"\x03\0\x01a\0\0\0\0\0\x01a\x03", "no mark"),
        (b"\x04\0\x01Z", "path isn't folded"),
        (b"\x04\0\x02.\x2e", "path has a bad part"),
        (b"\x04\0\x01\x7f", "path has a bad byte"),
        (b"\x04\0\x01\xc3", "path is no text"),
        (b"\x04\x01\0a", "length the other way round"),
        (b"\x05\0\x01A\0\0\0\0\0\0\0\x09\x03", "source isn't folded"),
        (b"\x05\0\x01a\0\0\0\0\0\0\0\x09\x04", "no creation"),
        (
            b"\x05\0\x01a\0\0\0\0\0\0\0\x09\x01\0\0\0\x02\x01",
            "builder is empty",
        ),
        (
            b"\x05\0\x01a\0\0\0\0\0\0\0\x09\x01\x01.\0\0\x02\x01",
            "builder is no name",
        ),
        (
            b"\x05\0\x01a\0\0\0\0\0\0\0\x09\x02\x01k\x02p-",
            "no platform",
        ),
        (
            b"\x05\0\x01a\0\0\0\0\0\0\0\x09\x02\x01K\x02pc",
            "key is no name",
        ),
        (
            b"\x05\0\x01a\0\0\0\0\0\0\0\x09\0\0\0\0\x01\x01b\0\0\0\0\x01x\x01j\0\0\0\0\0\0\0\0\0\0\0\x01\x03\0\x01c\x01k\x02pc",
            "no kind of dependency",
        ),
        (
            b"\x05\0\x01a\0\0\0\0\0\0\0\x09\0\0\0\0\x01\x01b\0\0\0\0\x01x\x01j\0\0\0\0\0\0\0\0\0\0\0\x02\0\0\x01c\x01k\x02pc",
            "dependencies one short",
        ),
        (
            b"\x05\0\x01a\0\0\0\0\0\0\0\x09\0\0\0\0\x01\x01b\0\0\0\0\x01x\x01j\0\0\0\0\0\0\0\0\0\0\0\x01\0\0\x01C\x01k\x02pc",
            "dependency isn't folded",
        ),
        (b"\x06\0\x01A", "path isn't folded"),
        (b"\x07\0\x01a\x01k\x02pc\x04", "no result"),
        (
            b"\x07\0\x01a\x01k\x02pc\0\0\0\0\0\0\0\0\x03\x02\0\0\0\x09",
            "no outcome",
        ),
        (
            b"\x07\0\x01a\x01k\x02pc\x02\0\x01B\x01k\x02pc",
            "missing job isn't folded",
        ),
        (b"\x08\0\x01A\x01k\x02pc", "job isn't folded"),
        (
            b"\x08\0\x01a\x01k\x11pcpcpcpcpcpcpcpcp",
            "platform is too long",
        ),
        (b"\x09\0\0\0\x02\0\0\0\0\0\x04game", "folders one short"),
        (b"\x09\0\0\0\x01\0\0\0\0\0\x02//", "folder is no path"),
    ];
    for (fault, why) in faults {
        let mut bytes = b"\x04\0\x01a".to_vec(alloc)?;
        bytes.extend_from_slice(fault)?;
        assert!(rt;
            decode(alloc, &bytes).err() == Some(RowFault::BadRecord { offset: 4 }),
            "{why}"
        );
    }
    Ok(())
}

#[test]
fn fields_are_read_as_they_are_put(rt: HostRuntime) -> Result<(), Fail> {
    let alloc = rt.alloc();
    let mut out = Vec::new(alloc);
    put_number(&mut out, 1, 0x01)?;
    put_number(&mut out, 2, 0x0203)?;
    put_number(&mut out, 4, 0x04050607)?;
    put_number(&mut out, 8, 0x08090a0b0c0d0e0f)?;
    put_run(&mut out, 1, b"a")?;
    put_run(&mut out, 2, b"bc")?;
    put_run(&mut out, 4, b"")?;
    put_run(&mut out, 8, b"d")?;
    let wanted: &[u8] =
        b"\x01\x02\x03\x04\x05\x06\x07\x08\x09\x0a\x0b\x0c\x0d\x0e\x0f\x01a\0\x02bc\0\0\0\0\0\0\0\0\0\0\0\x01d";
    assert!(rt; out.as_slice() == wanted);
    let mut reader = FieldReader::new(&out);
    assert!(rt; reader.number(1) == Some(0x01) && reader.number(2) == Some(0x0203));
    assert!(rt;
        reader.number(4) == Some(0x04050607) && reader.number(8) == Some(0x08090a0b0c0d0e0f)
    );
    assert!(rt; reader.run(1) == Some(b"a".as_slice()) && reader.run(2) == Some(b"bc".as_slice()));
    assert!(rt; reader.run(4) == Some(b"".as_slice()) && reader.run(8) == Some(b"d".as_slice()));
    assert!(rt; reader.rest().is_empty() && reader.number(1).is_none());
    let mut short = FieldReader::new(b"\0\x02a");
    assert!(rt; short.run(2).is_none() && short.number(4).is_none());
    assert!(rt; short.rest() == b"\0\x02a".as_slice() && short.number(2) == Some(2));
    Ok(())
}

/// A text of two products, written by hand: one with references and legacy ids, and one without.
const PRODUCTS: &[u8] = b"\0\0\0\x02\
\0\x06a.flat\x04mesh\0\0\x01\x02\0\0\0\x02\0\x03b/c\0\0\0\x05\0\x01d\0\0\0\0\0\0\0\x02\0\0\0\x07\0\0\0\x09\0\0\0\x01\0\x05old/a\
\0\x01e\x01x\0\0\0\0\0\0\0\0\0\0\0\0\0\0\0\0";

fn node(alloc: Global, tag: u8, text: &[u8], kids: &[u64]) -> Result<Node, Fail> {
    let kids = kids.iter().map(|kid| Number(*kid)).collect(alloc)?;
    Ok(Node {
        tag,
        text: Bytes::of(text.to_vec(alloc)?),
        kids: List::of(kids),
    })
}

/// The fields of products, as text.
fn show_products(out: &mut String, rows: &[ProductRow]) -> Result<(), Fail> {
    for row in rows {
        write!(out, "{}", text(row.name.as_slice()))?;
        write!(
            out,
            " {} {} {}",
            text(row.kind.as_slice()),
            row.sub,
            row.bytes.0
        )?;
        for at in row.refs.as_slice() {
            write!(out, " ref {} {}", at.path.as_str(), at.sub)?;
        }
        for old in row.legacy.old.as_slice() {
            write!(out, " old {old}")?;
        }
        for path in row.legacy.formerly.as_slice() {
            write!(out, " from {}", path.as_str())?;
        }
        write!(out, "; ")?;
    }
    Ok(())
}

#[test]
fn products_are_read_and_spelled(rt: HostRuntime) -> Result<(), Fail> {
    let alloc = rt.alloc();
    let read = node(alloc, 3, PRODUCTS, &[8, 513])?;
    let rows = read_products(alloc, &read)?.ok_or("refused")?;
    let mut shown = String::new(alloc);
    show_products(&mut shown, &rows)?;
    assert_eq!(rt;
        shown.as_str(),
        "a.flat mesh 258 8 ref b/c 5 ref d 0 old 7 old 9 from old/a; e x 0 513; "
    );
    let again = products_node(alloc, &rows)?;
    assert!(rt; again.tag == 3 && again.text.as_slice() == PRODUCTS);
    assert!(rt; again.kids.as_slice() == [Number(8), Number(513)].as_slice());
    let none = products_node(alloc, &[])?;
    assert!(rt; none.tag == 3 && none.text.as_slice() == b"\0\0\0\0".as_slice());
    assert!(rt; none.kids.as_slice().is_empty());
    Ok(())
}

#[test]
fn what_is_no_products_node_is_refused(rt: HostRuntime) -> Result<(), Fail> {
    let alloc = rt.alloc();
    let one: &[u8] = b"\0\0\0\x01\0\x01e\x01x\0\0\0\0\0\0\0\0\0\0\0\0\0\0\0\0";
    let refused: [(u8, &[u8], &[u64], &str); 10] = [
        (2, one, &[8], "another tag"),
        (3, one, &[], "a thing too few"),
        (3, one, &[8, 9], "a thing too many"),
        (3, b"", &[], "no count"),
        (3, b"\0\0\0\0\0", &[], "a byte behind it"),
        (
            3,
            b"\0\0\0\x01\0\x01E\x01x\0\0\0\0\0\0\0\0\0\0\0\0\0\0\0\0",
            &[8],
            "no file name",
        ),
        (
            3,
            b"\0\0\0\x01\0\x01e\x01X\0\0\0\0\0\0\0\0\0\0\0\0\0\0\0\0",
            &[8],
            "no type",
        ),
        (
            3,
            b"\0\0\0\x01\0\x01e\x01x\0\0\0\0\0\0\0\x01\0\x01B\0\0\0\0\0\0\0\0\0\0\0\0",
            &[8],
            "a reference isn't folded",
        ),
        (
            3,
            b"\0\0\0\x01\0\x01e\x01x\0\0\0\0\0\0\0\0\0\0\0\0\0\0\0\x01\0\x01B",
            &[8],
            "a former path isn't folded",
        ),
        (
            3,
            b"\0\0\0\x01\0\x01e\x01x\0\0\0\0\0\0\0\0\0\0\0\x01\0\0\0\0",
            &[8],
            "a legacy id too few",
        ),
    ];
    for (tag, text, kids, why) in refused {
        let node = node(alloc, tag, text, kids)?;
        assert!(rt; read_products(alloc, &node)?.is_none(), "{why}");
    }
    let read = node(alloc, 3, one, &[8])?;
    assert!(rt; read_products(alloc, &read)?.is_some());
    Ok(())
}

#[test]
fn folded_paths_are_known(rt: HostRuntime) -> Result<(), Fail> {
    let alloc = rt.alloc();
    let rows = [
        ("a/b.c", true),
        ("A", false),
        ("a/bZ", false),
        ("@[`{", true),
        ("\u{c4}", true),
    ];
    for (text, folded) in rows {
        let path = RelPath::read(alloc, text.as_bytes()).ok().ok_or("refused")?;
        assert!(rt; is_folded(&path) == folded, "{text}");
    }
    Ok(())
}
