// Reserve: each receiver that has no place yet answers, from the lowest number.
ghost use Rattle.std.specs.Prelude.{◌≡◌, [], ◌∷◌, ◌<◌};
ghost use Rattle.sets.specs.Masks.{bit};
ghost use Rattle.model.specs.Sizes.{most_subjects};
ghost use Rattle.engine.specs.pools.Sizes.{most_entries};
ghost use Rattle.engine.specs.pools.Pools.{Well};
ghost use Rattle.engine.specs.configs.Subjects.{with_mask};
ghost use Rattle.engine.specs.commands.Reserve.{reply_of, with_place, noted};
ghost use Rattle.engine.specs.commands.Rules.{wrong_kind};
ghost use Rattle.engine.specs.inner.Spine.{no_places, reached_as, answer_of};
ghost use Rattle.engine.specs.declared.Command.TheVariants.{Reserve};
ghost use Rattle.engine.specs.declared.Reply.TheVariants.{Placed};
ghost use Rattle.engine.specs.inner.Refusals.{first_refusal};
ghost use Rattle.engine.specs.declared.Rule.TheVariants.{WrongKind};

use super::rules;
use crate::pools::{changes, rows};
use crate::{Answer, Entry, Places, Reached, Reply, Rule, Subject};
use model::State;

// What refuses it.
#[tactic(auto, unfolding(crate::specs::inner::Refusals::first_refusal))]
pub(crate) fn refuse(here: State) -> Result<(), Rule>
    ensures { result ≡ first_refusal ((wrong_kind 2 here, WrongKind) ∷ []) }
{
    if here.kind != 2 {
        Err(Rule::WrongKind)
    } else {
        Ok(())
    }
}

// The marks of a sender say that the queue is closed for this type.
#[tactic(auto, unfolding(sets::specs::Masks::bit))]
fn is_marked(mark: u32, typ: u8) -> bool
    ensures { result ≡ bit mark typ }
{
    typ < 32 && (mark >> typ) % 2 == 1
}

// What a receiver answers: ended improperly, else closed for this sender and type, else full, else there is a place.
#[tactic(auto, unfolding(crate::specs::commands::Reserve::reply_of, crate::specs::commands::Reserve::is_closed))]
fn reply_of(owner: model::Subject, x: Subject, sender: u8, typ: u8) -> Reply
    requires { sender < most_subjects }
    ensures { result ≡ reply_of owner x sender typ }
{
    if x.mode == 3 {
        Reply::Improper
    } else if is_marked(x.closed[sender as usize], typ) {
        Reply::Closed
    } else if !rows::has_room(owner, &x.pool, sender, typ) {
        Reply::Full
    } else {
        Reply::Placed
    }
}

// Where there is a place, a reservation is put at the end of the pool.
#[tactic(auto, unfolding(crate::specs::commands::Reserve::with_place))]
fn with_place(reply: Reply, sender: u8, typ: u8, mut x: Subject) -> Subject
    requires well { Well most_entries x.pool }
    requires count_lt_most_entries { reply ≡ Placed → x.pool.count < most_entries }
    ensures { result ≡ with_place reply sender typ x }
{
    if matches!(reply, Reply::Placed) {
        let reservation = Entry {
            sender,
            typ,
            message: false,
            content: 0,
        };
        x.pool = changes::append(x.pool, reservation);
    }
    x
}

// Before the first answer: the sender's mask, and no one in the four others.
pub(crate) fn no_places(mask: u16) -> Places
    ensures { result ≡ no_places mask }
{
    Places {
        mask,
        ..Places::default()
    }
}

// The receiver is noted in the mask of its answer; where it is placed, the sender's mask grows.
#[tactic(auto, unfolding(crate::specs::commands::Reserve::noted))]
fn noted(reply: Reply, r: u8, places: Places) -> Places
    requires { r < most_subjects }
    ensures { result ≡ noted reply r places }
{
    match reply {
        Reply::Placed => Places {
            mask: sets::with(places.mask, r),
            placed: sets::with(places.placed, r),
            ..places
        },
        Reply::Improper => Places {
            improper: sets::with(places.improper, r),
            ..places
        },
        Reply::Closed => Places {
            closed: sets::with(places.closed, r),
            ..places
        },
        Reply::Full => Places {
            full: sets::with(places.full, r),
            ..places
        },
    }
}

// Receiver r is asked once by s: its pool and what is noted come from the one answer.
pub(crate) fn asked(
    owner: model::Subject,
    here: State,
    s: u8,
    r: u8,
    x: Subject,
    places: Places,
) -> Reached
    requires s_lt_most_subjects { s < most_subjects }
    requires r_lt_most_subjects { r < most_subjects }
    requires well { Well most_entries x.pool }
    ensures { result ≡ reached_as owner here s 0 r x places (Reserve s) }
{
    let typ = rules::exit_at(here, 0).typ;
    let reply = reply_of(owner, x, s, typ);
    Reached {
        subject: with_place(reply, s, typ, x),
        places: noted(reply, r, places),
    }
}

// The sender with its mask as it has grown.
pub(crate) fn with_mask(mask: u16, mut me: Subject) -> Subject
    ensures { result ≡ with_mask mask me }
{
    me.mask = mask;
    me
}

// The four masks and the number of receivers still without a place.
#[tactic(auto, unfolding(crate::specs::inner::Spine::parts_of))]
pub(crate) fn answer(here: State, places: Places) -> Answer
    ensures { result ≡ answer_of here places (Reserve 0) }
{
    Answer::Reserved {
        placed: places.placed,
        improper: places.improper,
        closed: places.closed,
        full: places.full,
        missing: sets::missing(here.receivers, places.mask),
    }
}
