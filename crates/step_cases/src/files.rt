// Files read into a buffer that the caller has: what they hold, or as much of it as there is room for. No heap.
// A public call that reads a file cannot fix its whole result, so each program has its own.
ghost use Rattle.std.specs.Prelude.{◌≡◌, [], IfOk, ◌≤◌, length};
ghost use Rattle.std.specs.Io.KnownBytes.{Consumes};
ghost use Rattle.std.specs.Str.{IsUtf8};

use std::fs::File;
use std::io::{self, Read};
use std::rt::Files;

// Reads until the room is full, the file ends or a read fails: the bytes that came, at the front of the room.
fn read_full<'a, F: Read>(file: &mut F, room: &'a mut [u8]) -> &'a [u8]
    ensures fits { length result.now ≤ length room.old }
    ensures bytes { Consumes (F.remaining file.old) (F.remaining file.new) result.now }
{
    let mut done = 0;
    while done < room.len() {
        match file.read(&mut room[done..]) {
            Ok(0) | Err(_) => break,
            Ok(got) => done += got,
        }
    }
    &room[..done]
}

// What the file has, at the front of the room.
pub(crate) fn read<'a>(rt: &impl Files, name: &str, room: &'a mut [u8]) -> io::Result<&'a [u8]>
    ensures { IfOk result (λ bytes. length bytes.now ≤ length room.old) }
{
    let mut file = File::open(rt, name)?;
    Ok(read_full(&mut file, room))
}

// The same by a name of any bytes. A missing file, or one whose name is no text, has no bytes.
pub(crate) fn read_named<'a>(rt: &impl Files, name: &[u8], room: &'a mut [u8]) -> &'a [u8]
    ensures fits { length result.now ≤ length room.old }
    ensures no_text { ¬ (IsUtf8 name.now) → (result.now ≡ []) }
{
    match str::from_utf8(name) {
        Ok(name) => read(rt, name, room).unwrap_or_default(),
        Err(_) => &[],
    }
}
