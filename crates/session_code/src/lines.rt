// The calls of the set as a session makes them: a new set, insert and replace, remove, get, and recovery after a cut.
ghost use Rattle.std.specs.Prelude.{◌≡◌, [], ◌∷◌, ◌≤◌};
ghost use Rattle.interface.specs.Set.{zipped, stores_in, buffers_after, change_end, remove_result, get_result, index_of};
ghost use Rattle.text.specs.inner.Output.{reply_says};
ghost use Rattle.session.specs.inner.Step.{step_end};
ghost use Rattle.session.specs.Step.{played_all, recover_step, make_step, stored_with, change_step, word_change, write_step, got_by, word_found};

use crate::start::empty_session;
use orderset::{
    Change, Formatted, Got, Invalidations, Located, Outcome, Recovered, State, Stores, format, get,
    insert, locate, play, play_list, recover, remove, replace,
};
use session::{Session, Stepped};
use text::Reply;
use words_code::{padded_word, write_word};

// The invalidating stores of a recovery are made.
fn open_slots(image: &mut [u8], invalidations: Invalidations)
    requires { invalidations.count ≤ 8 }
    ensures { image.new ≡ played_all image.old (stores_in invalidations) }
{
    let count = invalidations.count as usize;
    let _ = play_list(
        image,
        &invalidations.at[..count],
        &invalidations.value[..count],
    );
}

// Recovery and its invalidating stores, after which the session goes on with this answer.
fn recover_session(
    reply: Reply,
    n: u64,
    image: &mut [u8],
    heads: &mut [u32],
    next: &mut [u32],
) -> Stepped
    ensures { step_end result image.new heads.new next.new
        ≡ recover_step (reply_says reply) n image.old heads.old next.old }
{
    let answer = recover(image, heads, next);
    open_slots(image, answer.invalidations);
    match answer.recovered {
        Recovered::Rebuilt(state) => Stepped {
            reply,
            session: Session {
                n,
                state,
                waiting: None,
            },
        },
        Recovered::Refused { number, .. } => Stepped {
            reply: Reply::Refused(number),
            session: empty_session(),
        },
    }
}

// `n N`: a new set of n slots.
pub fn make(
    n: u64,
    session: Session,
    image: &mut [u8],
    heads: &mut [u32],
    next: &mut [u32],
) -> Stepped
    ensures result { step_end result image.new heads.new next.new
        ≡ make_step n session image.old heads.old next.old }
{
    match format(image, 1) {
        Formatted::Slots(slots) => recover_session(
            Reply::Made(slots as u64),
            n,
            image,
            heads,
            next,
        ),
        Formatted::Refused(number) => Stepped {
            reply: Reply::Refused(number),
            session,
        },
    }
}

// The stores of an accepted call are played: all of them, or those that the waiting cut leaves, after which recovery
// runs.
fn play_or_cut(
    slot: u32,
    version: u64,
    change: Change,
    stores: Stores,
    session: Session,
    image: &mut [u8],
    heads: &mut [u32],
    next: &mut [u32],
) -> Stepped
    ensures { step_end result image.new heads.new next.new
        ≡ stored_with session.n (slot ∷ version ∷ []) change.state (zipped stores.at stores.value) image.old
        heads.old next.old session.waiting }
{
    let reply = Reply::Stored { slot, version };
    match session.waiting {
        None => {
            let _ = play_list(image, &stores.at, &stores.value);
            Stepped {
                reply,
                session: Session {
                    state: change.state,
                    ..session
                },
            }
        }
        Some(cut) => {
            let _ = play(image, stores, cut.a, cut.b);
            recover_session(reply, session.n, image, heads, next)
        }
    }
}

// What a call that writes answers; its stores are played.
pub fn carry_change(
    change: Change,
    stores: Stores,
    session: Session,
    image: &mut [u8],
    heads: &mut [u32],
    next: &mut [u32],
) -> Stepped
    ensures result { step_end result image.new heads.new next.new
        ≡ change_step session image.old (change_end change stores.at stores.value heads.old next.old) }
{
    match change.outcome {
        Outcome::Stored { slot, version } => {
            play_or_cut(slot, version, change, stores, session, image, heads, next)
        }
        Outcome::Absent => Stepped {
            reply: Reply::Absent,
            session,
        },
        Outcome::Refused(number) => Stepped {
            reply: Reply::Refused(number),
            session,
        },
    }
}

// The key gets the 8 bytes of the word: an insert or a replace, according to what is held.
pub fn write_key(
    image: &[u8],
    heads: &mut [u32],
    next: &mut [u32],
    state: State,
    key: u64,
    word: u64,
    at: &mut [u32; 16],
    words: &mut [u64; 16],
) -> Change
    ensures result { change_end result at.new words.new heads.new next.new
        ≡ buffers_after (zipped at.old words.old)
        (word_change key word state image.now heads.old next.old) }
{
    let mut value = [0u8; 8];
    write_word(&mut value, 0, word);
    match locate(image, heads, next, key).located {
        Located::At { .. } => replace(image, heads, next, state, key, &value, at, words),
        Located::Absent | Located::Refused(_) => {
            insert(image, heads, next, state, key, &value, at, words)
        }
    }
}

// `p K W`.
pub fn write_line(
    session: Session,
    key: u64,
    word: u64,
    image: &mut [u8],
    heads: &mut [u32],
    next: &mut [u32],
) -> Stepped
    ensures result { step_end result image.new heads.new next.new
        ≡ write_step key word session image.old heads.old next.old }
{
    let mut at = [0u32; 16];
    let mut value = [0u64; 16];
    let change = write_key(
        image,
        heads,
        next,
        session.state,
        key,
        word,
        &mut at,
        &mut value,
    );
    carry_change(change, Stores { at, value }, session, image, heads, next)
}

// `r K`.
pub fn remove_line(
    session: Session,
    key: u64,
    image: &mut [u8],
    heads: &mut [u32],
    next: &mut [u32],
) -> Stepped
    ensures result { step_end result image.new heads.new next.new
        ≡ change_step session image.old
        (remove_result 1 image.old (index_of heads.old next.old session.state) key) }
{
    let mut at = [0u32; 16];
    let mut value = [0u64; 16];
    let change = remove(image, heads, next, session.state, key, &mut at, &mut value);
    carry_change(change, Stores { at, value }, session, image, heads, next)
}

// The word of the key's value, read by way of the lent bytes.
fn get_by(image: &[u8], heads: &[u32], next: &[u32], key: u64, out: &mut [u8]) -> Reply
    ensures { reply_says result ≡ got_by (get_result 1 image.now heads.now next.now key out.old) }
{
    match get(image, heads, next, key, out).got {
        Got::Length(_) => Reply::Found(padded_word(out, 0)),
        Got::Absent => Reply::Absent,
        Got::Refused(number) => Reply::Refused(number),
    }
}

// `g K`.
pub fn get_word(image: &[u8], heads: &[u32], next: &[u32], key: u64) -> Reply
    ensures result { reply_says result ≡ word_found image.now heads.now next.now key }
{
    let mut out = [0u8; 80];
    get_by(image, heads, next, key, &mut out)
}
