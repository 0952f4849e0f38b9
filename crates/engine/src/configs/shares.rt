// Whether a pool is shared out: every sender has its own row, and the limits fit into the pool together.
ghost use Rattle.std.specs.Prelude.{◌≡◌, not, true, ◌&&◌, ◌||◌, ◌<◌, ◌≤◌, eqb, leb, length, get_or, take};
ghost use Rattle.std.specs.List.{list_all, list_any, sum_by};
ghost use Rattle.sets.specs.Below.{all_below};
ghost use Rattle.sets.specs.Masks.{bit};
ghost use Rattle.model.specs.Records.{blank_row};
ghost use Rattle.model.specs.Sizes.{most_rows};
ghost use Rattle.model.specs.Valid.{subject_at, valid};
ghost use Rattle.engine.specs.pools.Sizes.{most_entries};
ghost use Rattle.engine.specs.configs.Subjects.{is_send};
ghost use Rattle.engine.specs.configs.Shares.{row_names, can_send, shared_out, share_of};

use crate::NotAsked;
use crate::pools::rows;
use model::{MOST_STATES, Model, Row, Subject};

// The row names one sender, for all message types.
fn row_names(w: Row) -> bool
    ensures { result ≡ row_names w }
{
    w.sender != 255 && w.typ == 255
}

// Every row names one sender for all message types.
fn rows_name(rows: &[Row]) -> bool
    ensures { result ≡ list_all row_names rows.now }
{
    rows.iter().all(|w| row_names(*w))
}

// There is a row for the sender.
fn has_row(rows: &[Row], s: u8) -> bool
    ensures { result ≡ list_any (λ w. eqb w.sender s) rows.now }
{
    rows.iter().any(|w| w.sender == s)
}

// No sender has two rows.
fn none_twice(rows: &[Row]) -> bool
    ensures { result ≡ all_below (λ k. not (list_any (λ w. eqb w.sender (get_or rows.now k blank_row).sender) (take k rows.now))) (length rows.now) }
{
    for (k, w) in rows.iter().enumerate() {
        if has_row(&rows[..k], w.sender) {
            return false;
        }
    }
    true
}

// The limits add up to at most 16.
fn limits_fit(rows: &[Row]) -> bool
    requires { length rows.now ≤ most_rows }
    ensures { result ≡ leb (sum_by (λ w. w.limit) rows.now) most_entries }
{
    let sum: usize = rows.iter().map(|w| w.limit as usize).sum();
    sum <= 16
}

// A state of the kind and with the receivers is a send and names the owner.
fn sends_to(owner: u8, kind: u8, receivers: u16) -> bool
    ensures { result ≡ (is_send kind && bit receivers owner) }
{
    kind == 2 && sets::has(receivers, owner)
}

// Subject s has a send state that names the owner.
fn can_send(m: Model, owner: u8, s: usize) -> bool
    requires m_value { valid m ≡ true }
    requires s_lt_n { s < m.n }
    ensures { result ≡ can_send m owner s }
{
    let first = s * MOST_STATES;
    let n = m.subjects[s].states as usize;
    m.states[first..first + n]
        .iter()
        .any(|st| sends_to(owner, st.kind, st.receivers))
}

// There is a row for each subject that can send to the owner.
fn senders_have_rows(m: Model, owner: u8, rows: &[Row]) -> bool
    requires { valid m ≡ true }
    ensures { result ≡ all_below (λ s. not (can_send m owner s) || list_any (λ w. eqb w.sender s) rows.now) m.n }
{
    for s in 0..m.n {
        if can_send(m, owner, s as usize) && !has_row(rows, s) {
            return false;
        }
    }
    true
}

// The pool of the owner, of which the model says own, is shared out.
fn is_shared(m: Model, owner: u8, own: Subject) -> bool
    requires m_value { valid m ≡ true }
    requires owner_lt_n { owner < m.n }
    requires own_value { own ≡ subject_at m owner }
    ensures { result ≡ shared_out most_entries m owner }
{
    let rows = rows::rows_of(&own);
    rows_name(rows) && none_twice(rows) && limits_fit(rows) && senders_have_rows(m, owner, rows)
}

// Whether the owner's pool is shared out; refused, the answer is no.
pub fn shared_out(m: Model, owner: u8) -> Result<bool, NotAsked>
    ensures { result ≡ share_of most_entries m owner }
{
    if !model::is_valid(m) {
        return Err(NotAsked::ModelNotValid);
    }
    if m.n <= owner {
        return Err(NotAsked::NoSubject);
    }
    Ok(is_shared(m, owner, m.subjects[owner as usize]))
}
