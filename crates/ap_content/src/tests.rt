ghost use Rattle.std.specs.Prelude.{◌<◌, ◌≤◌, IfOk};
ghost use Rattle.ap_content.specs.Entries.{holds_at};
ghost use Rattle.ap_content.specs.declared.node.Number.{Number};

use crate::*;
use std::alloc::Global;
use std::process::Abort;
use std::test::Fail;

/// The number of the thing of this node, whose kids are found to live.
fn parent_of(
    rt: &impl Abort,
    alloc: Global,
    contents: &mut Contents,
    tag: u8,
    text: &[u8],
    kids: &[Number],
) -> Result<Number, Fail>
    ensures held { IfOk result (λ n. 0 < holds_at contents.new n) }
    ensures others { IfOk result (λ n. (m : Number) → holds_at contents.old m ≤ holds_at contents.new m) }
{
    for kid in kids {
        assert!(rt; contents.get(*kid).is_some());
    }
    let node = Node::of(alloc, tag, text, kids)?;
    Ok(contents.intern_node(&node)?)
}

// The digests are those that another program's SHA-1 gives of the bytes that are digested.
#[test]
fn digests_are_those_of_sha1(rt: HostRuntime) -> Result<(), Fail> {
    let alloc = rt.alloc();
    let mut contents = Contents::new(alloc);
    let empty = contents.intern(b"")?;
    let x = contents.intern(b"x")?;
    let two = parent_of(&rt, alloc, &mut contents, 2, b"text", &[x, empty])?;
    let deep = parent_of(&rt, alloc, &mut contents, 1, b"", &[two, x, two])?;
    let wanted: [(Number, &str); 4] = [
        (empty, "ed24e12820f2f900ae383b7cc4f2b31c402db1be"),
        (x, "02d1c60c711f8ceb47f3f999bbaaa825543ad903"),
        (two, "cba71271e7ffa55d3d2b1a3979279c42f1b2365e"),
        (deep, "3327e5517b6185a674cc56a9c996d169ebb967b7"),
    ];
    for (n, digest) in wanted {
        let found = contents.digest(n).ok_or("dead")?;
        let mut text = String::new(alloc);
        for byte in found {
            write!(text, "{byte:02x}")?;
        }
        assert_eq!(rt; text.as_str(), digest);
    }
    Ok(())
}

// A number is given again once its thing has died.
#[test]
fn numbers_live_as_long_as_they_are_held(rt: HostRuntime) -> Result<(), Fail> {
    let alloc = rt.alloc();
    let mut contents = Contents::new(alloc);
    let a = contents.intern(b"a")?;
    let again = contents.intern(b"a")?;
    assert!(rt; again == a);
    contents.hold(a);
    contents.release(a);
    contents.release(a);
    let kept = contents.get(a).ok_or("dead")?;
    assert!(rt; kept.tag == 0 && kept.text.as_slice() == b"a".as_slice());
    assert!(rt; kept.kids.as_slice().is_empty());
    contents.release(a);
    assert!(rt; contents.get(a).is_none() && contents.digest(a).is_none());
    let b = contents.intern(b"b")?;
    assert!(rt; b == a);
    Ok(())
}

#[test]
fn things_are_compared_whole(rt: HostRuntime) -> Result<(), Fail> {
    let alloc = rt.alloc();
    let mut contents = Contents::new(alloc);
    let a = contents.intern(b"a")?;
    let b = contents.intern(b"b")?;
    let pair = parent_of(&rt, alloc, &mut contents, 3, b"", &[a, b])?;
    let same = parent_of(&rt, alloc, &mut contents, 3, b"", &[a, b])?;
    assert!(rt; same == pair);
    let others: [(u8, &[u8], [Number; 2]); 3] = [
        (3, b"", [b, a]),
        (2, b"", [a, b]),
        (3, b"a", [a, b]),
    ];
    for (tag, text, kids) in others {
        let other = parent_of(&rt, alloc, &mut contents, tag, text, &kids)?;
        assert!(rt; other != pair && other != a && other != b);
    }
    Ok(())
}

// What has died takes its kids with it, where nothing else holds them.
#[test]
fn kids_live_as_long_as_a_parent(rt: HostRuntime) -> Result<(), Fail> {
    let alloc = rt.alloc();
    let mut contents = Contents::new(alloc);
    let a = contents.intern(b"a")?;
    let pair = parent_of(&rt, alloc, &mut contents, 3, b"", &[a, a])?;
    assert!(rt; pair != a);
    contents.release(a);
    assert!(rt; contents.get(a).is_some());
    contents.release(pair);
    assert!(rt; contents.get(pair).is_none() && contents.get(a).is_none());
    Ok(())
}

/// The thing with this one as its only kid, held in its place.
fn stack(
    rt: &impl Abort,
    alloc: Global,
    contents: &mut Contents,
    kid: Number,
) -> Result<Number, Fail>
    requires { 0 < holds_at contents.old kid }
    ensures { IfOk result (λ n. 0 < holds_at contents.new n) }
{
    let n = parent_of(rt, alloc, contents, 3, b"", &[kid])?;
    assert!(rt; n != kid);
    contents.release(kid);
    Ok(n)
}

#[test]
fn a_long_chain_is_released(rt: HostRuntime) -> Result<(), Fail> {
    let alloc = rt.alloc();
    let mut contents = Contents::new(alloc);
    let bottom = contents.intern(b"bottom")?;
    let mut top = bottom;
    for _ in 0..50_000 {
        top = stack(&rt, alloc, &mut contents, top)?;
    }
    assert!(rt; contents.get(bottom).is_some());
    contents.release(top);
    assert!(rt; contents.get(bottom).is_none() && contents.get(top).is_none());
    Ok(())
}
