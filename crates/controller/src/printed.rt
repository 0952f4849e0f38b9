// The text of a tape: a line for each command.
ghost use Rattle.std.specs.Prelude.{◌≡◌, cond, true, ◌∷◌, [], ◌+◌, ◌*◌, ◌≤◌, ◌<◌, ◌^◌, eqb, length};
ghost use Rattle.model.specs.Valid.{valid};
ghost use Rattle.engine.specs.configs.Valid.{config_valid};
ghost use Rattle.engine.specs.Tapes.{commands};
ghost use Rattle.controller.specs.Printed.{rows_text, printed, served_of};
ghost use Rattle.controller.specs.Text.{pasted, row_text};

use super::{Served, text};
use engine::Config;
use model::Model;

// Puts a line into the buffer from place p on, and answers the place behind.
fn put_line(out: &mut [u8], p: usize, row: [u64; 7]) -> usize
    requires { p + 147 ≤ length out.old }
    ensures place { result ≡ p + length (row_text row) }
    ensures text { out.new ≡ pasted out.old p (row_text row) }
{
    let mut at = p;
    for x in &row[..6] {
        at = text::put(out, at, *x, b' ');
    }
    text::put(out, at, row[6], b'\n')
}

// The subject that a line shows: for Tick, code 8, subject 0. engine has the same for itself: a public one would be a call for one line.
fn shown_of(code: u8, subject: u8) -> u8
    ensures { result ≡ cond (eqb code 8) 0 subject }
{
    if code == 8 { 0 } else { subject }
}

// Puts the lines of a tape into the buffer, by the four numbers of each command, and answers how long the text is.
fn put_lines(tape: &[u8], numbers: &[u32], first: u64, out: &mut [u8]) -> usize
    requires tape_in_bounds { 4 * commands tape.now ≤ length numbers.now }
    requires tape_in_bounds_2 { 147 * commands tape.now ≤ length out.old }
    requires tape_bound { first + commands tape.now < 2 ^ 64 }
    ensures fits { result ≤ 147 * commands tape.now }
    ensures place { result ≡ length (rows_text tape.now numbers.now first (commands tape.now)) }
    ensures text { out.new ≡ pasted out.old 0 (rows_text tape.now numbers.now first (commands tape.now)) }
{
    let mut p: usize = 0;
    for i in 0..tape.len() / 8 {
        let code = tape[8 * i];
        let shown = shown_of(code, tape[8 * i + 1]);
        let at = 4 * i;
        let row = [
            first + i as u64,
            code as u64,
            shown as u64,
            numbers[at] as u64,
            numbers[at + 1] as u64,
            numbers[at + 2] as u64,
            numbers[at + 3] as u64,
        ];
        p = put_line(out, p, row);
    }
    p
}

// Runs a tape and puts its lines, numbered from `first` on, at the start of the buffer.
pub(crate) fn serve(
    m: Model,
    c: Config,
    tape: &[u8],
    numbers: &mut [u32],
    first: u64,
    out: &mut [u8],
) -> Served
    requires m_value { valid m ≡ true }
    requires c_value { config_valid m c ≡ true }
    requires tape_in_bounds { 4 * commands tape.now ≤ length numbers.old }
    requires tape_in_bounds_2 { 147 * commands tape.now ≤ length out.old }
    requires tape_bound { first + commands tape.now < 2 ^ 64 }
    ensures config { config_valid m result.config ≡ true }
    ensures fits { result.length ≤ 147 * commands tape.now }
    ensures served { result ≡ served_of m c tape.now first }
    ensures text { out.new ≡ pasted out.old 0 (printed m c tape.now first) }
{
    let ran = engine::run(m, c, tape, numbers);
    let length = put_lines(tape, numbers, first, out);
    Served {
        config: ran.config,
        length,
    }
}
