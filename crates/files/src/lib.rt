// Files read into a buffer that the caller has: what they hold, or as much of it as there is room for. No heap.
// What a file has is not in these calls' hands: their contracts bound what is read and cannot fix it.
#![tactic(auto)]

ghost use Rattle.std.specs.Prelude.{◌≡◌, [], IfOk, ◌≤◌, length};
ghost use Rattle.std.specs.Io.KnownBytes.{Consumes};
ghost use Rattle.std.specs.Str.{IsUtf8};

use std::fs::File;
use std::io::{self, Read};
use std::rt::Files;

// Reads until the room is full, the file ends or a read fails: the bytes that came, at the front of the room.
fn read_full<'a, F: Read>(file: &mut F, room: &'a mut [u8]) -> &'a [u8]
    ensures fits { length result.now ≤ length room.old }
    ensures bytes { Consumes (F.remaining file.old) (F.remaining file.new) result.now }
{
    let mut done = 0;
    while done < room.len() {
        match file.read(&mut room[done..]) {
            Ok(0) | Err(_) => break,
            Ok(got) => done += got,
        }
    }
    &room[..done]
}

// What the file has, at the front of the room.
pub fn read<'a>(rt: &impl Files, name: &str, room: &'a mut [u8]) -> io::Result<&'a [u8]>
    ensures { IfOk result (λ bytes. length bytes.now ≤ length room.old) }
{
    let mut file = File::open(rt, name)?;
    Ok(read_full(&mut file, room))
}

// The same by a name of any bytes. A missing file, or one whose name is no text, has no bytes.
pub fn read_named<'a>(rt: &impl Files, name: &[u8], room: &'a mut [u8]) -> &'a [u8]
    ensures fits { length result.now ≤ length room.old }
    ensures no_text { ¬ (IsUtf8 name.now) → (result.now ≡ []) }
{
    match str::from_utf8(name) {
        Ok(name) => read(rt, name, room).unwrap_or_default(),
        Err(_) => &[],
    }
}

#[cfg(test)]
mod tests {
    use super::*;
    use std::fs;
    use std::test::Fail;

    // A test passes where all that was read is right.
    fn passed(right: bool) -> Result<(), &'static str> {
        if right {
            Ok(())
        } else {
            Err("other bytes than the file has")
        }
    }

    // All that the file has, or as much as there is room for.
    #[test]
    fn a_file_is_read(rt: HostRuntime) -> Result<(), Fail> {
        let mut room = [0; 8];
        let mut right = true;
        fs::write(&rt, "probe.txt", "12 kPa")?;
        for (places, text) in [(8, "12 kPa"), (6, "12 kPa"), (3, "12 "), (0, "")] {
            let want = text.as_bytes();
            right &= read(&rt, "probe.txt", &mut room[..places]).is_ok_and(|got| got == want);
            right &= read_named(&rt, b"probe.txt", &mut room[..places]) == want;
        }
        fs::remove_file(&rt, "probe.txt")?;
        passed(right)?;
        Ok(())
    }

    // A name that no file has, and one that is no text.
    #[test]
    fn no_file_is_read(rt: HostRuntime) -> Result<(), Fail> {
        let mut room = [7; 8];
        passed(read(&rt, "no such file", &mut room).is_err())?;
        passed(read_named(&rt, b"no such file", &mut room).is_empty())?;
        passed(read_named(&rt, &[255], &mut room).is_empty())?;
        Ok(())
    }
}
