// Input in pieces: what is held over between them, and what each of them prints.
ghost use Rattle.std.specs.Prelude.{◌≡◌, true, ◌+◌, ◌*◌, ◌/◌, ◌%◌, ◌≤◌, ◌<◌, ◌^◌, length, take, drop};
ghost use Rattle.model.specs.Valid.{valid};
ghost use Rattle.engine.specs.configs.Valid.{config_valid};
ghost use Rattle.controller.specs.Pieces.{piece, ending, place_in, piece_in};

use super::{Serving, printed};
use model::Model;

// Moves the bytes from one place up to another to the front, and answers how many there are.
#[tactic(auto, using(crate::proofs::PiecesLaws::moved_bytes))]
fn keep_rest(room: &mut [u8], from: usize, to: usize) -> usize
    requires from_le_to { from ≤ to }
    requires to_in_bounds { to ≤ length room.old }
    ensures count { from + result ≡ to }
    ensures bytes { take result room.new ≡ drop from (take to room.old) }
{
    room.copy_within(from..to, 0);
    to - from
}

// Serves a piece: the bytes held over, at the front of the room, and the `got` bytes behind them. Its text is put at the
// front of the other buffer, and the bytes held over then at the front of the room.
pub(crate) fn piece(
    m: Model,
    at: Serving,
    room: &mut [u8],
    got: usize,
    numbers: &mut [u32],
    out: &mut [u8],
) -> Serving
    requires m_value { valid m ≡ true }
    requires config_value { config_valid m at.config ≡ true }
    requires got_in_bounds { at.held + got ≤ length room.old }
    requires room_in_bounds { 4 * (length room.old / 8) ≤ length numbers.old }
    requires room_in_bounds_2 { 147 * (length room.old / 8) ≤ length out.old }
    requires room_bound { at.next + length room.old < 2 ^ 64 }
    ensures piece { piece_in result room.new out.new ≡ piece m (place_in at room.old) (take got (drop at.held room.old)) }
    ensures config { config_valid m result.config ≡ true }
    ensures held { result.held ≡ (at.held + got) % 8 }
    ensures next { result.next ≡ at.next + (at.held + got) / 8 }
    ensures fits { result.length ≤ length out.old }
{
    let have = at.held + got;
    let n = have / 8;
    let served = printed::serve(m, at.config, &room[..have], numbers, at.next, out);
    let held = keep_rest(room, 8 * n, have);
    Serving {
        config: served.config,
        held,
        next: at.next + n as u64,
        length: served.length,
    }
}

// What is printed at the end of the input.
pub(crate) fn ending(held: usize) -> &'static [u8]
    ensures { result.now ≡ ending held }
{
    if held == 0 { b"" } else { b"cut\n" }
}
