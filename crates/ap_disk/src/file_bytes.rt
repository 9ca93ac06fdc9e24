ghost use Rattle.std.specs.Prelude.{◌≡◌, ◌+◌, ◌-◌, ◌≤◌, ◌++◌, length, take, drop, replicate, Some};
ghost use Rattle.ap_disk.specs.Calls.{Reads, with_bytes_at};
ghost use Rattle.ap_disk.specs.Crashes.{Torn};

/// Copies the bytes of a file from an offset on to the buffer, as many as fit, and gives their number.
pub(crate) fn read_from(file: &[u8], at: u64, buf: &mut [u8]) -> usize
    ensures { Reads (Some file.now) at buf.old result buf.new }
{
    if at >= file.len() as u64 {
        return 0;
    }
    let rest = &file[at as usize..];
    let count = rest.len().min(buf.len());
    buf[..count].copy_from_slice(&rest[..count]);
    count
}

/// Writes bytes at an offset of the file that is the first `len` bytes of the room, and gives its new length.
pub(crate) fn write_into(room: &mut [u8], len: usize, at: usize, bytes: &[u8]) -> usize
    requires within { len ≤ length room.old }
    requires room { at + length bytes.now ≤ length room.old }
    ensures bound { result ≤ length room.new }
    ensures file { take result room.new ≡ with_bytes_at (take len room.old) at bytes.now }
{
    if len <= at {
        zero_gap(room, len, at);
        put_bytes(room, at, bytes);
        return at + bytes.len();
    }
    if len <= at + bytes.len() {
        put_bytes(room, at, bytes);
        return at + bytes.len();
    }
    put_bytes(&mut room[..len], at, bytes);
    len
}

/// Fills the range of a write, and the gap before it, with one byte, and gives the file's new length.
pub(crate) fn tear_into(room: &mut [u8], len: usize, at: usize, count: usize, fill: u8) -> usize
    requires within { len ≤ length room.old }
    requires room { at + count ≤ length room.old }
    ensures bound { result ≤ length room.new }
    ensures file { Torn at count (take len room.old) (take result room.new) }
{
    let end = at + count;
    fill_range(room, at.min(len), end, fill);
    len.max(end)
}

fn zero_gap(room: &mut [u8], len: usize, at: usize)
    requires order { len ≤ at }
    requires within { at ≤ length room.old }
    ensures gap { room.new ≡ take len room.old ++ replicate (at - len) 0 ++ drop at room.old }
{
    room[len..at].fill(0);
}

fn fill_range(room: &mut [u8], begin: usize, end: usize, fill: u8)
    requires order { begin ≤ end }
    requires within { end ≤ length room.old }
    ensures range { room.new ≡ take begin room.old ++ replicate (end - begin) fill ++ drop end room.old }
{
    room[begin..end].fill(fill);
}

pub(crate) fn put_bytes(room: &mut [u8], at: usize, bytes: &[u8])
    requires { at + length bytes.now ≤ length room.old }
    ensures bytes { room.new ≡ take at room.old ++ bytes.now ++ drop (at + length bytes.now) room.old }
{
    room[at..at + bytes.len()].copy_from_slice(bytes);
}
