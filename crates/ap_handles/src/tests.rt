//! A handle over later publications, two threads that publish, and four that do all calls.
ghost use Rattle.std.specs.Prelude.{◌≡◌, ◌≤◌, length, IfOk, IfSome};
ghost use Rattle.ap_handles.specs.Legal.{IsLegal};
ghost use Rattle.ap_handles.specs.Held.{held};
ghost use Rattle.ap_handles.specs.Publishing.{IsProductPath, ArePublishable};
ghost use Rattle.ap_handles.specs.Calls.{IsReady, IsAtRest};

use super::*;
use ap_text::{AssetId, Bytes, Name, OutOfMemory, Platform};
use std::alloc::Global;
use std::sync::Wait;
use std::test::*;
use std::thread;
use std::thread::{Promise, Threads};

const ROUNDS: u64 = 500;

fn id(sub: u32) -> AssetId {
    AssetId { uuid: [7; 16], sub }
}

fn flat_path(alloc: Global) -> Result<Bytes, OutOfMemory>
    ensures { IfOk result (λ path. IsProductPath path) }
{
    let path = Bytes::of(b"a.flat".to_vec(alloc)?);
    Ok(path)
}

/// The product `a.flat`, with sub id 0.
fn flat_entry(alloc: Global, bytes: &[u8]) -> Result<HallEntry, OutOfMemory>
    requires { length bytes.now ≤ 268435456 }
    ensures path { IfOk result (λ entry. IsProductPath entry.path) }
    ensures short { IfOk result (λ entry. length entry.bytes ≤ 268435456) }
{
    Ok(HallEntry {
        platform: Platform::read(alloc, b"pc").ok().ok_or(OutOfMemory)?,
        id: id(0),
        path: flat_path(alloc)?,
        kind: Name::read(alloc, b"flat").ok().ok_or(OutOfMemory)?,
        bytes: Bytes::of(bytes.to_vec(alloc)?),
    })
}

/// A list of that product alone.
#[tactic(auto, using(crate::proofs::Samples::one_publishable))]
fn flat(alloc: Global, bytes: &[u8]) -> Result<Vec<HallEntry>, OutOfMemory>
    requires { length bytes.now ≤ 268435456 }
    ensures { IfOk result (λ entries. ArePublishable entries.items) }
{
    let entry = flat_entry(alloc, bytes)?;
    let mut entries = Vec::new(alloc);
    entries.push(entry)?;
    Ok(entries)
}

/// The byte that all bytes of a handle are, if they are the same.
fn only_byte(handle: &Handle) -> Option<u8> {
    let (first, more) = handle.bytes().split_first()?;
    if more.iter().all(|byte| *byte == *first) {
        Some(*first)
    } else {
        None
    }
}

/// Publishes four equal bytes as `a.flat`, and answers whether there was memory for it.
fn publish<R: Wait>(rt: &R, alloc: Global, hall: &Hall, seat: &mut Seat, byte: u8) -> bool
    requires { IsReady hall.now seat.old }
    ensures ready { IsReady hall.now seat.new }
    ensures legal { IsLegal seat.old.seen → IsLegal seat.new.seen }
    ensures held { held seat.new ≡ held seat.old }
{
    match flat(alloc, &[byte; 4]) {
        Ok(entries) => hall.publish(rt, seat, entries).is_ok(),
        Err(_) => false,
    }
}

/// What the calls of threads did.
#[derive(Clone, Copy)]
struct Done {
    published: u64,
    acquired: u64,
    asked: u64,
    /// Whether each handle showed one publication's bytes, before and after another.
    steady: bool,
}

impl Done {
    const NOTHING: Done = Done {
        published: 0,
        acquired: 0,
        asked: 0,
        steady: true,
    };

    fn with(self, other: Done) -> Done {
        Done {
            published: self.published.wrapping_add(other.published),
            acquired: self.acquired.wrapping_add(other.acquired),
            asked: self.asked.wrapping_add(other.asked),
            steady: self.steady && other.steady,
        }
    }
}

/// Publishes, acquires, publishes again, reads and releases.
fn visit<R: Wait>(
    rt: &R,
    alloc: Global,
    hall: &Hall,
    seat: &mut Seat,
    platform: &Platform,
    byte: u8,
) -> Done
    requires { IsAtRest hall.now seat.old }
    ensures { IsAtRest hall.now seat.new }
{
    let first = publish(rt, alloc, hall, seat, byte);
    let handle = match hall.acquire(rt, seat, platform, id(0)) {
        Ok(Some(handle)) => handle,
        Ok(None) | Err(_) => return Done::NOTHING,
    };
    let before = only_byte(&handle);
    let second = publish(rt, alloc, hall, seat, byte / 2);
    let steady = before.is_some() && only_byte(&handle) == before;
    hall.release(rt, seat, handle);
    hall.ask(rt, seat);
    Done {
        published: first as u64 + second as u64,
        acquired: 1,
        asked: 1,
        steady,
    }
}

/// Visits the hall again and again.
fn visits<R: Wait>(rt: &R, alloc: Global, hall: &Hall, mut seat: Seat) -> (Seat, Done)
    requires { IsAtRest hall.now seat }
    ensures { IsAtRest hall.now result.0 }
{
    let mut done = Done::NOTHING;
    let Ok(platform) = Platform::read(alloc, b"pc") else {
        return (seat, done);
    };
    for round in 0..ROUNDS {
        done = done.with(visit(rt, alloc, hall, &mut seat, &platform, (round % 256) as u8));
    }
    (seat, done)
}

/// Visits from two threads, with a seat each.
fn visits_of_two<R: Threads + Wait + Sync>(
    rt: &R,
    alloc: Global,
    hall: &Hall,
    mut seat: Seat,
) -> (Seat, Done)
    requires { IsAtRest hall.now seat }
    ensures { IsAtRest hall.now result.0 }
{
    let Ok(second) = hall.split(&mut seat) else {
        return visits(rt, alloc, hall, seat);
    };
    let (a, b) = thread::join(
        rt,
        || -> (Seat, Done)
            requires { IsAtRest hall.now seat }
            ensures { IsAtRest hall.entry.now result.0 }
        { visits(rt, alloc, hall, seat) },
        || -> (Seat, Done)
            requires { IsAtRest hall.now second }
            ensures { IsAtRest hall.entry.now result.0 }
        { visits(rt, alloc, hall, second) },
    );
    let (mut seat, done) = a;
    let (other, others) = b;
    hall.join(&mut seat, other);
    (seat, done.with(others))
}

/// Visits from four threads, with a seat each.
fn visits_of_four<R: Threads + Wait + Sync>(
    rt: &R,
    alloc: Global,
    hall: &Hall,
    mut seat: Seat,
) -> (Seat, Done)
    requires { IsAtRest hall.now seat }
    ensures { IsAtRest hall.now result.0 }
{
    let Ok(second) = hall.split(&mut seat) else {
        return visits_of_two(rt, alloc, hall, seat);
    };
    let (a, b) = thread::join(
        rt,
        || -> (Seat, Done)
            requires { IsAtRest hall.now seat }
            ensures { IsAtRest hall.entry.now result.0 }
        { visits_of_two(rt, alloc, hall, seat) },
        || -> (Seat, Done)
            requires { IsAtRest hall.now second }
            ensures { IsAtRest hall.entry.now result.0 }
        { visits_of_two(rt, alloc, hall, second) },
    );
    let (mut seat, done) = a;
    let (other, others) = b;
    hall.join(&mut seat, other);
    (seat, done.with(others))
}

/// The row of calls of one seat. Each part of it is told: the bytes of the handle after each publication, the statuses and the serials.
fn hold_over_publications<R: Wait>(
    rt: &R,
    alloc: Global,
    hall: &Hall,
    seat: &mut Seat,
    platform: &Platform,
) -> Option<(u8, u8, Status, Status)>
    requires { IsAtRest hall.now seat.old }
    ensures { IsAtRest hall.now seat.new }
{
    let handle = match hall.acquire(rt, seat, platform, id(0)) {
        Ok(Some(handle)) => handle,
        Ok(None) | Err(_) => return None,
    };
    let early = only_byte(&handle);
    publish(rt, alloc, hall, seat, b'b');
    publish(rt, alloc, hall, seat, b'c');
    let late = only_byte(&handle);
    let held = hall.status(rt, seat);
    hall.release(rt, seat, handle);
    let released = hall.status(rt, seat);
    Some((early?, late?, held, released))
}

/// Whether a product has the sub id.
fn is_there<R: Wait>(rt: &R, hall: &Hall, seat: &mut Seat, platform: &Platform, sub: u32) -> bool
    requires { IsAtRest hall.now seat.old }
    ensures { IsAtRest hall.now seat.new }
{
    match hall.acquire(rt, seat, platform, id(sub)) {
        Ok(Some(handle)) => {
            hall.release(rt, seat, handle);
            true
        }
        Ok(None) | Err(_) => false,
    }
}

#[test]
fn a_handle_keeps_its_bytes(rt: HostRuntime) -> Result<(), Fail> {
    let alloc = rt.alloc();
    let platform = Platform::read(alloc, b"pc").ok().ok_or("a platform")?;
    let (hall, mut seat) = Hall::new(alloc)?;
    assert!(rt; publish(&rt, alloc, &hall, &mut seat, b'a'));
    let (early, late, held, released) = hold_over_publications(
        &rt, alloc, &hall, &mut seat, &platform,
    ).ok_or("a handle")?;
    assert_eq!(rt; (early, late), (b'a', b'a'));
    assert_eq!(rt;
        (held.serial, held.products, held.handles, held.asked),
        (3, 1, 1, 0)
    );
    assert_eq!(rt; released.handles, 0);
    assert_eq!(rt; hall.ask(&rt, &mut seat), 1);
    assert!(rt; is_there(&rt, &hall, &mut seat, &platform, 0));
    assert!(rt; !is_there(&rt, &hall, &mut seat, &platform, 1));
    Ok(())
}

/// Publishes, looks, and answers whether the serial that it saw is its own or a later one.
fn publish_and_look<R: Wait>(
    rt: &R,
    hall: &Hall,
    mut seat: Seat,
    entries: Vec<HallEntry>,
) -> (Seat, bool)
    requires { IsAtRest hall.now seat × ArePublishable entries.items }
    ensures { IsAtRest hall.now result.0 }
{
    let published = hall.publish(rt, &mut seat, entries);
    let status = hall.status(rt, &mut seat);
    let in_order = published.is_ok_and(|serial| serial <= status.serial);
    (seat, in_order)
}

/// The seat that comes back from a thread is one of this hall, and holds nothing.
#[derive(Clone, Copy)]
struct ComesBack<'a>(&'a Hall);

impl<'a> Promise<(Seat, bool)> for ComesBack<'a> {
    ghost use Rattle.ap_handles.specs.Calls.{IsAtRest};

    ghost kept_by = { λ p r. IsAtRest p.0.now r.0 };
}

/// Two seats publish and look, each in a thread of a scope, and are joined.
fn publish_from_two<R: Threads + Wait + Sync>(
    rt: &R,
    hall: &Hall,
    one: Seat,
    other: Seat,
    list: Vec<HallEntry>,
    other_list: Vec<HallEntry>,
) -> Option<(Seat, bool)>
    requires { IsAtRest hall.now one × IsAtRest hall.now other × ArePublishable list.items × ArePublishable other_list.items }
    ensures { IfSome result (λ r. IsAtRest hall.now r.0) }
{
    let ((mut seat, first), (other, second)) = thread::scope(
        thread::scope_env(),
        rt,
        |scope| -> Option<((Seat, bool), (Seat, bool))>
            requires { IsAtRest hall.now one × IsAtRest hall.now other × ArePublishable list.items × ArePublishable other_list.items }
            ensures { IfSome result (λ r. IsAtRest hall.entry.now r.0.0 × IsAtRest hall.entry.now r.1.0) }
        {
            let a = scope
                .spawn_with(
                    ComesBack(hall),
                    move || publish_and_look(rt, hall, one, list),
                )
                .ok()?;
            let b = scope
                .spawn_with(
                    ComesBack(hall),
                    move || publish_and_look(rt, hall, other, other_list),
                )
                .ok()?;
            Some((a.join(rt), b.join(rt)))
        },
    )?;
    hall.join(&mut seat, other);
    Some((seat, first && second))
}

#[test]
fn two_threads_publish(rt: HostRuntime) -> Result<(), Fail> {
    let (hall, mut seat) = Hall::new(rt.alloc())?;
    let second = hall.split(&mut seat)?;
    let list = flat(rt.alloc(), b"a\n")?;
    let other_list = flat(rt.alloc(), b"b\n")?;
    let (mut seat, in_order) = publish_from_two(&rt, &hall, seat, second, list, other_list).ok_or(
        "two threads start",
    )?;
    assert!(rt; in_order);
    assert_eq!(rt; hall.status(&rt, &mut seat).serial, 2);
    Ok(())
}

#[test]
fn the_calls_of_many_threads_add_up(rt: HostRuntime) -> Result<(), Fail> {
    let (hall, seat) = Hall::new(rt.alloc())?;
    let (mut seat, done) = visits_of_four(&rt, rt.alloc(), &hall, seat);
    let status = hall.status(&rt, &mut seat);
    assert!(rt; done.steady);
    assert_eq!(rt; done.acquired, 4 * ROUNDS);
    assert_eq!(rt; done.published, 8 * ROUNDS);
    assert_eq!(rt; (status.serial, status.asked), (done.published, done.asked));
    assert_eq!(rt; (status.products, status.handles), (1, 0));
    Ok(())
}
