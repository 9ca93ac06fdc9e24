//! Changes that are spelled by hand, with the numbers that their things have in the contents.
use super::Opened;
use ap_content::{Node, Number};
use ap_disk::Disk;
use ap_rows::{Change, decode, put_number};
use ap_text::{Bytes, List};
use std::alloc::Global;
use std::process::Abort;
use std::test::Fail;

/// A thing: its tag, its text, and its kids by their places among the things beside it.
pub(super) type Thing = (u8, &'static [u8], &'static [usize]);

/// A piece of the spelling of a change.
#[derive(Clone, Copy)]
pub(super) enum Piece {
    /// These bytes.
    Text(&'static [u8]),
    /// The number of the thing at this place.
    Of(usize),
}

/// The number at a place.
fn number_at(rt: &impl Abort, numbers: &[Number], place: usize) -> Number {
    assert!(rt; place < numbers.len());
    numbers[place]
}

/// The numbers at these places.
fn kids_of(
    rt: &impl Abort,
    alloc: Global,
    numbers: &[Number],
    places: &[usize],
) -> Result<List<Number>, Fail> {
    let mut kids = Vec::new(alloc);
    for place in places {
        kids.push(number_at(rt, numbers, *place))?;
    }
    Ok(List::of(kids))
}

/// The node of a thing, where the things beside it have these numbers.
fn node_of(
    rt: &impl Abort,
    alloc: Global,
    numbers: &[Number],
    thing: &Thing,
) -> Result<Node, Fail> {
    let (tag, text, places) = *thing;
    Ok(Node {
        tag,
        text: Bytes::of(text.to_vec(alloc)?),
        kids: kids_of(rt, alloc, numbers, places)?,
    })
}

/// The numbers of these things in the contents.
pub(super) fn numbers_of<D: Disk>(
    opened: &mut Opened<D>,
    rt: &impl Abort,
    alloc: Global,
    things: &[Thing],
) -> Result<Vec<Number>, Fail> {
    let mut numbers = Vec::new(alloc);
    for thing in things {
        let node = node_of(rt, alloc, &numbers, thing)?;
        numbers.push(opened.node(rt, &node)?)?;
    }
    Ok(numbers)
}

/// The bytes of these pieces, where the things have these numbers.
fn spelled(
    rt: &impl Abort,
    alloc: Global,
    numbers: &[Number],
    pieces: &[Piece],
) -> Result<Vec<u8>, Fail> {
    let mut bytes = Vec::new(alloc);
    for piece in pieces {
        match piece {
            Piece::Text(text) => bytes.extend_from_slice(text)?,
            Piece::Of(place) => put_number(&mut bytes, 8, number_at(rt, numbers, *place).0)?,
        }
    }
    Ok(bytes)
}

/// The change of these pieces, where the things have these numbers.
pub(super) fn change_of(
    rt: &impl Abort,
    alloc: Global,
    numbers: &[Number],
    pieces: &[Piece],
) -> Result<Change, Fail> {
    let bytes = spelled(rt, alloc, numbers, pieces)?;
    Ok(decode(alloc, &bytes)?)
}
