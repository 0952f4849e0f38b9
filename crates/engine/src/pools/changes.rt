// What the steps do to a pool. Each gives a new pool.
ghost use Rattle.std.specs.Prelude.{◌≡◌, ℕ, ◌<◌, Option, filter_map};
ghost use Rattle.std.specs.List.{enumerate_from};
ghost use Rattle.engine.specs.pools.Sizes.{most_entries};
ghost use Rattle.engine.specs.pools.Pools.{held, pooled, appended, taken_at, delivered_in, withdrawn_from, Well};

use super::entries;
use crate::{Entry, Pool, Taken};

// One more entry, at the end.
pub(crate) fn append(mut p: Pool, e: Entry) -> Pool
    requires well { Well most_entries p }
    requires count_lt_most_entries { p.count < most_entries }
    ensures { result ≡ appended most_entries p e }
{
    p.entries[p.count as usize] = e;
    p.count += 1;
    p
}

// The pool of what f gives of each place and its entry, in order. An entry of which it gives nothing leaves; those behind it move up.
// It is made at the end: entries and count by themselves are smaller pieces to copy.
fn rebuilt<F: Fn(usize, Entry) -> Option<Entry>>(p: &Pool, f: F) -> Pool
    requires { F.IsAlwaysCallable f }
    ensures { (g : ℕ × Entry → Option Entry) → ((i : ℕ) (e : Entry) (r : Option Entry) → F.post f i e r → r ≡ g (i, e)) → result ≡ pooled most_entries (filter_map g (enumerate_from 0 (held p.now))) }
{
    let mut entries = Pool::default().entries;
    let mut count: u8 = 0;
    for (j, e) in p.held().iter().enumerate() {
        if let Some(x) = f(j, *e) {
            entries[count as usize] = x;
            count += 1;
        }
    }
    Pool { entries, count }
}

// The content at place i, and the pool without it.
pub(crate) fn take_at(p: Pool, i: usize) -> Taken
    ensures { result ≡ taken_at most_entries p i }
{
    Taken {
        content: p.held().get(i).copied().unwrap_or_default().content,
        pool: rebuilt(&p, |j, e| if j == i { None } else { Some(e) }),
    }
}

// The sender's reservations become messages with the word, each at its own place in the line.
pub(crate) fn deliver(p: Pool, sender: u8, word: u32) -> Pool
    ensures { result ≡ delivered_in most_entries sender word p }
{
    rebuilt(&p, |_, e| Some(entries::deliver_entry(e, sender, word)))
}

// The sender's reservations leave; the others keep their order.
pub(crate) fn withdraw(p: Pool, sender: u8) -> Pool
    ensures { result ≡ withdrawn_from most_entries sender p }
{
    rebuilt(&p, |_, e| {
        if entries::reserved_by(e, sender, 255) {
            None
        } else {
            Some(e)
        }
    })
}
