// Models written back: into the first bytes of an array full of marks, which is then looked at.
ghost use Rattle.std.specs.Prelude.{◌≤◌, length};

use super::ROOM;
use model::{Model, Unwritten};

pub(crate) const MARK: u8 = 170;

// Room for the longest file that is read, and 100 bytes more.
pub(crate) const MARKED: usize = ROOM + 100;

// The number of the refusal that the line shows; 0 is none.
fn refusal_of(written: Result<usize, Unwritten>) -> u8 {
    match written {
        Ok(_) => 0,
        Err(Unwritten::NotValid) => 8,
        Err(Unwritten::TooShort) => 6,
    }
}

fn is_marked(bytes: &[u8]) -> bool {
    bytes.iter().all(|b| *b == MARK)
}

// What became of the marks: none changed; or the file stands there, and behind it marks alone.
fn word_of(bytes: &[u8], file: &[u8]) -> &'static str {
    if is_marked(bytes) {
        "kept"
    } else if bytes
        .strip_prefix(file)
        .is_some_and(|behind| is_marked(behind))
    {
        "same"
    } else {
        "WRONG"
    }
}

// A group of a line: the refusal, the length, 0 where it is refused, and what became of the marks.
pub(crate) fn write_group(
    rt: &impl Print,
    written: Result<usize, Unwritten>,
    bytes: &[u8],
    file: &[u8],
) {
    let refusal = refusal_of(written);
    let length = written.unwrap_or(0);
    let word = word_of(bytes, file);
    let _ = print!(rt; " | {refusal} {length} {word}");
}

// The model is written into the first `lent` bytes of a marked array.
pub(crate) fn write_into(rt: &impl Print, m: Model, file: &[u8], lent: usize)
    requires { lent ≤ 23140 }
{
    let mut bytes = [MARK; MARKED];
    let written = model::write(m, &mut bytes[..lent]);
    write_group(rt, written, &bytes, file);
}

// The model of a file into nothing, into one byte less than the file has, into as many, and into
// 100 more.
pub(crate) fn write_four(rt: &impl Print, m: Model, file: &[u8])
    requires { length file.now ≤ 23040 }
{
    let n = file.len();
    if n == 0 {
        return;
    }
    write_into(rt, m, file, 0);
    write_into(rt, m, file, n - 1);
    write_into(rt, m, file, n);
    write_into(rt, m, file, n + 100);
}
