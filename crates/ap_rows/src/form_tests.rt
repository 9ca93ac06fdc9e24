use crate::*;
use ap_content::{Contents, Node, Number};
use ap_text::{Bytes, JobId, List, Name, Platform, RelPath};
use std::alloc::Global;
use std::process::Abort;
use std::test::Fail;

/// A thing of this tag without text and kids.
fn of_tag(alloc: Global, contents: &mut Contents, tag: u8) -> Result<Number, Fail> {
    let node = Node {
        tag,
        text: Bytes::of(Vec::new(alloc)),
        kids: List::of(Vec::new(alloc)),
    };
    let number = contents.intern_node(&node)?;
    Ok(number)
}

/// A builder, a platform, a source with bytes, and three files that it reaches.
const CREATE: &[u8] = b"\0\0\0\0\0\0\0\x01\x04copy\0\0\0\x02\
\0\0\0\0\0\0\0\x01\x02pc\
\0\x05a.txt\0\
\0\0\0\0\0\0\0\x03\0\x01b\0\0\x01c\x01\0\x03d/e\x02";

/// A builder, a platform, a key, two bytes of parameters, a source, a file that it reaches, and two dependencies.
const INPUT: &[u8] = b"\x04join\0\0\0\x03\x02pc\x01k\
\0\0\0\0\0\0\0\x02xy\
\0\x01a\
\0\0\0\0\0\0\0\x01\0\x01b\0\
\0\0\0\0\0\0\0\x02\0\0\x01c\x01k\x02pc\x02\0\x01d\x01k\x02pc";

/// A product with a reference and legacy ids.
const PRODUCT: &[u8] =
    b"\0\0\0\x01\0\x01e\x01x\0\0\0\x07\0\0\0\x01\0\x01r\0\0\0\0\0\0\0\x01\0\0\0\x05\0\0\0\x01\0\x01f";

/// A tag, a text that was written by hand, its kids by letter, whether it has the form of the tag, and why.
type Row = (u8, &'static [u8], &'static [u8], bool, &'static str);

// Bytes, and tags of no form.
const BYTES_ROWS: [Row; 5] = [
    (0, b"", b"", true, "no bytes"),
    (0, b"any\xff", b"", true, "bytes"),
    (0, b"", b"b", false, "bytes with a kid"),
    (4, b"", b"", false, "no tag"),
    (255, b"", b"", false, "no tag"),
];

const CREATE_KIDS_ROWS: [Row; 6] = [
    (1, CREATE, b"bb", true, "a create input"),
    (1, CREATE, b"b", false, "a kid too few"),
    (1, CREATE, b"bbb", false, "a kid too many"),
    (1, CREATE, b"bp", false, "a kid of another tag"),
    (1, CREATE, b"bx", false, "a kid that doesn't live"),
    (2, CREATE, b"bb", false, "a text of another tag"),
];

const CREATE_TEXTS_ROWS: [Row; 11] = [
    (
        1,
        b"\0\0\0\0\0\0\0\0\0\0\0\0\0\0\0\0\0\x01a\x02\0\0\0\0\0\0\0\0",
        b"",
        true,
        "too large",
    ),
    (
        1,
        b"\0\0\0\0\0\0\0\0\0\0\0\0\0\0\0\0\0\x01a\x01\0\0\0\0\0\0\0\0",
        b"",
        false,
        "absent",
    ),
    (
        1,
        b"\0\0\0\0\0\0\0\0\0\0\0\0\0\0\0\0\0\x01a\x03\0\0\0\0\0\0\0\0",
        b"",
        false,
        "no mark",
    ),
    (
        1,
        b"\0\0\0\0\0\0\0\0\0\0\0\0\0\0\0\0\0\x01a\x02\0\0\0\0\0\0\0\0\0",
        b"",
        false,
        "a byte too many",
    ),
    (
        1,
        b"\0\0\0\0\0\0\0\0\0\0\0\0\0\0\0\0\0\x01a\x02\0\0\0\0\0\0\0",
        b"",
        false,
        "a byte too few",
    ),
    (
        1,
        b"\0\0\0\0\0\0\0\0\0\0\0\0\0\0\0\0\0\x01A\x02\0\0\0\0\0\0\0\0",
        b"",
        false,
        "a path that isn't folded",
    ),
    (
        1,
        b"\0\0\0\0\0\0\0\0\0\0\0\0\0\0\0\0\0\x02a/\x02\0\0\0\0\0\0\0\0",
        b"",
        false,
        "no path",
    ),
    (
        1,
        b"\0\0\0\0\0\0\0\0\0\0\0\0\0\0\0\0\0\x01a\x02\0\0\0\0\0\0\0\x01\0\x01b\x03",
        b"",
        false,
        "no mark of a reached file",
    ),
    (
        1,
        b"\0\0\0\0\0\0\0\0\0\0\0\x01\x02pc\0\x01a\x02\0\0\0\0\0\0\0\0",
        b"",
        false,
        "a count of four bytes",
    ),
    (
        1,
        b"\0\0\0\0\0\0\0\0\0\0\0\0\0\0\0\x01\x02p-\0\x01a\x02\0\0\0\0\0\0\0\0",
        b"",
        false,
        "no platform",
    ),
    (
        1,
        b"\0\0\0\0\0\0\0\x01\x01B\0\0\0\x01\0\0\0\0\0\0\0\0\0\x01a\x02\0\0\0\0\0\0\0\0",
        b"",
        false,
        "no builder's name",
    ),
];

const INPUT_KIDS_ROWS: [Row; 6] = [
    (2, INPUT, b"bbpip", true, "a job input"),
    (2, INPUT, b"bbppi", false, "products before an input"),
    (2, INPUT, b"bbpcp", false, "a create input handed over"),
    (2, INPUT, b"bbpi", false, "an input without products"),
    (2, INPUT, b"pbpip", false, "products as a source"),
    (1, INPUT, b"bbpip", false, "a text of another tag"),
];

const INPUT_TEXTS_ROWS: [Row; 6] = [
    (
        2,
        b"\x01b\0\0\0\0\x01p\x01k\0\0\0\0\0\0\0\0\0\x01a\0\0\0\0\0\0\0\0\0\0\0\0\0\0\0\0",
        b"b",
        true,
        "the least job input",
    ),
    (
        2,
        b"\x01b\0\0\0\0\x01p\x01k\0\0\0\0\0\0\0\0\0\x01a\0\0\0\0\0\0\0\0\0\0\0\0\0\0\0\x01\x01\0\x01c\x01k\x01p",
        b"b",
        false,
        "an OrderOnce dependency",
    ),
    (
        2,
        b"\x01b\0\0\0\0\x01p\x01k\0\0\0\0\0\0\0\0\0\x01a\0\0\0\0\0\0\0\0\0\0\0\0\0\0\0\x01\x03\0\x01c\x01k\x01p",
        b"b",
        false,
        "no kind of dependency",
    ),
    (
        2,
        b"\x01b\0\0\0\0\x01p\x01k\0\0\0\0\0\0\0\0\0\x01a\0\0\0\0\0\0\0\0\0\0\0\0\0\0\0\x01\0\0\x01C\x01k\x01p",
        b"bp",
        false,
        "a dependency that isn't folded",
    ),
    (
        2,
        b"\x01b\0\0\0\0\x01p\x01k\0\0\0\0\0\0\0\x02x\0\x01a\0\0\0\0\0\0\0\0\0\0\0\0\0\0\0\0",
        b"b",
        false,
        "parameters one short",
    ),
    (
        2,
        b"\x01b\0\0\0\0\x01p\x01k\0\0\0\0\0\0\0\0\0\x01a\0\0\0\0\0\0\0\0\0\0\0\0\0\0\0\0\0",
        b"b",
        false,
        "a byte too many",
    ),
];

const PRODUCTS_ROWS: [Row; 8] = [
    (3, b"\0\0\0\0", b"", true, "no products"),
    (3, b"\0\0\0\0", b"b", false, "bytes of no product"),
    (3, PRODUCT, b"b", true, "a product"),
    (3, PRODUCT, b"", false, "a product without bytes"),
    (3, PRODUCT, b"p", false, "products as bytes"),
    (
        3,
        b"\0\0\0\x01\0\x01E\x01x\0\0\0\0\0\0\0\0\0\0\0\0\0\0\0\0",
        b"b",
        false,
        "no file name",
    ),
    (
        3,
        b"\0\0\0\x01\0\x02..\x01x\0\0\0\0\0\0\0\0\0\0\0\0\0\0\0\0",
        b"b",
        false,
        "the folder above as a file name",
    ),
    (
        3,
        b"\0\0\0\x01\0\x01e\x01x\0\0\0\0\0\0\0\0\0\0\0\0\0\0\0\x01\0\x01F",
        b"b",
        false,
        "a former path that isn't folded",
    ),
];

/// Contents with a thing of each tag.
#[derive(Drop)]
struct Things {
    contents: Contents,
    bytes: Number,
    create: Number,
    input: Number,
    products: Number,
}

impl Things {
    fn new(alloc: Global) -> Result<Things, Fail> {
        let mut contents = Contents::new(alloc);
        let bytes = contents.intern(b"x")?;
        let create = of_tag(alloc, &mut contents, 1)?;
        let input = of_tag(alloc, &mut contents, 2)?;
        let products = of_tag(alloc, &mut contents, 3)?;
        Ok(Things {
            contents,
            bytes,
            create,
            input,
            products,
        })
    }

    /// By letter: b bytes, c a create input, i a job input, p products, x a number that doesn't live.
    fn number(&self, letter: u8) -> Number {
        match letter {
            b'b' => self.bytes,
            b'c' => self.create,
            b'i' => self.input,
            b'p' => self.products,
            _ => Number(99),
        }
    }

    fn numbers(&self, alloc: Global, letters: &[u8]) -> Result<Vec<Number>, Fail> {
        let mut numbers = Vec::new(alloc);
        for letter in letters {
            numbers.push(self.number(*letter))?;
        }
        Ok(numbers)
    }
}

fn assert_forms(rt: &impl Abort, alloc: Global, rows: &[Row]) -> Result<(), Fail> {
    let things = Things::new(alloc)?;
    for (tag, text, letters, wanted, why) in rows {
        let kids = things.numbers(alloc, letters)?;
        assert!(rt;
            has_form(&things.contents, *tag, text, &kids) == *wanted,
            "{why}"
        );
    }
    Ok(())
}

#[test]
fn forms_of_bytes_are_told(rt: HostRuntime) -> Result<(), Fail> {
    assert_forms(&rt, rt.alloc(), &BYTES_ROWS)
}

#[test]
fn kids_of_create_inputs_are_told(rt: HostRuntime) -> Result<(), Fail> {
    assert_forms(&rt, rt.alloc(), &CREATE_KIDS_ROWS)
}

#[test]
fn texts_of_create_inputs_are_told(rt: HostRuntime) -> Result<(), Fail> {
    assert_forms(&rt, rt.alloc(), &CREATE_TEXTS_ROWS)
}

#[test]
fn kids_of_job_inputs_are_told(rt: HostRuntime) -> Result<(), Fail> {
    assert_forms(&rt, rt.alloc(), &INPUT_KIDS_ROWS)
}

#[test]
fn texts_of_job_inputs_are_told(rt: HostRuntime) -> Result<(), Fail> {
    assert_forms(&rt, rt.alloc(), &INPUT_TEXTS_ROWS)
}

#[test]
fn forms_of_products_are_told(rt: HostRuntime) -> Result<(), Fail> {
    assert_forms(&rt, rt.alloc(), &PRODUCTS_ROWS)
}

fn job(alloc: Global, source: &[u8]) -> Result<JobId, Fail> {
    Ok(JobId {
        source: RelPath::read(alloc, source)?,
        key: Name::read(alloc, b"k")?,
        platform: Platform::read(alloc, b"pc")?,
    })
}

#[test]
fn a_create_input_is_made_a_node(rt: HostRuntime) -> Result<(), Fail> {
    let alloc = rt.alloc();
    let name = Name::read(alloc, b"copy")?;
    let mut platforms = Vec::new(alloc);
    platforms.push(Platform::read(alloc, b"pc")?)?;
    let source = RelPath::read(alloc, b"a.txt")?;
    let first = RelPath::read(alloc, b"b")?;
    let second = RelPath::read(alloc, b"c")?;
    let third = RelPath::read(alloc, b"d/e")?;
    let builders = [MatchingBuilder {
        name: &name,
        version: 2,
    }];
    let reached = [
        ReachedFile {
            path: &first,
            seen: SeenThing::Bytes(Number(5)),
        },
        ReachedFile {
            path: &second,
            seen: SeenThing::Absent,
        },
        ReachedFile {
            path: &third,
            seen: SeenThing::TooLarge,
        },
    ];
    let parts = CreateParts {
        builders: &builders,
        platforms: &platforms,
        path: &source,
        seen: SeenThing::Bytes(Number(4)),
        reached: &reached,
    };
    let node = create_node(alloc, &parts)?;
    assert!(rt; node.tag == 1 && node.text.as_slice() == CREATE);
    assert!(rt; node.kids.as_slice() == [Number(4), Number(5)].as_slice());
    Ok(())
}

#[test]
fn a_job_input_is_made_a_node(rt: HostRuntime) -> Result<(), Fail> {
    let alloc = rt.alloc();
    let desc = JobDesc {
        builder: Name::read(alloc, b"join")?,
        version: 3,
        platform: Platform::read(alloc, b"pc")?,
        key: Name::read(alloc, b"k")?,
        priority: -1,
        params: Bytes::of(b"xy".to_vec(alloc)?),
        deps: List::of(Vec::new(alloc)),
    };
    let source = RelPath::read(alloc, b"a")?;
    let file = RelPath::read(alloc, b"b")?;
    let first = job(alloc, b"c")?;
    let second = job(alloc, b"d")?;
    let reached = [ReachedFile {
        path: &file,
        seen: SeenThing::Bytes(Number(5)),
    }];
    let handed = [
        HandedThings::Order {
            job: &first,
            products: Number(6),
        },
        HandedThings::Fingerprint {
            job: &second,
            input: Number(7),
            products: Number(8),
        },
    ];
    let parts = JobParts {
        job: &desc,
        path: &source,
        bytes: Number(4),
        reached: &reached,
        handed: &handed,
    };
    let node = input_node(alloc, &parts)?;
    assert!(rt; node.tag == 2 && node.text.as_slice() == INPUT);
    assert!(rt;
        node.kids.as_slice() == [Number(4), Number(5), Number(6), Number(7), Number(8)].as_slice()
    );
    Ok(())
}
