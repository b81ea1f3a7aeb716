// A basket by lent numbers: what is asked, and what is handed out.
ghost use Rattle.std.specs.Prelude.{◌≡◌, length, List, ◌∷◌, ℕ, ◌≤◌, ◌<◌};
ghost use Rattle.prelude.specs.Answer.{refusal_in};
ghost use Rattle.interface.specs.Set.{layout_number, basket_says, buffers_after_lists, changes_of, basket_result_by, index_of};
ghost use Rattle.exports.specs.State.{state_from};
ghost use Rattle.exports.specs.Basket.{is_kind, action_of, unknown_kind, keys_asked, given_item, given_items, basket_answered};
ghost use Rattle.exports.specs.Basket.{basket_call_left, basket_call};

use exports_code::state::{keep_state, state_from};
use orderset::layouts::basket_in_layout;
use orderset::{Action, BasketAnswer, BasketItem, BasketOutcome, Mode};

// Is it one of the three kinds?
fn is_kind(kind: u32) -> bool
    ensures { result ≡ is_kind kind }
{
    if kind == 1 {
        return true;
    }
    if kind == 2 {
        return true;
    }
    kind == 3
}

// What is asked by one of the three kinds.
fn action_of(kind: u32) -> Action
    ensures { result ≡ action_of kind }
{
    if kind == 1 {
        return Action::Write(Mode::Insert);
    }
    if kind == 2 {
        return Action::Write(Mode::Replace);
    }
    Action::Remove
}

// Is one of the first kinds none of the three?
fn unknown_kind(kinds: &[u32; 8], count: usize) -> bool
    requires { count ≤ 8 }
    ensures { result ≡ unknown_kind kinds.now count }
{
    let mut i = 0;
    while i < count {
        if !is_kind(kinds[i]) {
            return true;
        }
        i += 1;
    }
    false
}

// The number of keys, 0 for a basket that is refused by its count or its kinds.
pub fn keys_asked(count: usize, kinds: &[u32; 8]) -> usize
    ensures result { result ≡ keys_asked count kinds.now }
{
    if 8 < count {
        return 0;
    }
    if unknown_kind(kinds, count) {
        return 0;
    }
    count
}

// The item with number i.
fn given_item(
    kinds: &[u32; 8],
    lows: &[u64; 8],
    highs: &[u64; 8],
    lengths: &[usize; 8],
    i: usize,
) -> BasketItem
    requires { i < 8 }
    ensures { result ≡ given_item kinds.now lows.now highs.now lengths.now i }
{
    BasketItem {
        action: action_of(kinds[i]),
        low: lows[i],
        high: highs[i],
        length: lengths[i],
    }
}

// All eight.
pub fn given_items(
    kinds: &[u32; 8],
    lows: &[u64; 8],
    highs: &[u64; 8],
    lengths: &[usize; 8],
) -> [BasketItem; 8]
    ensures result { result ≡ given_items kinds.now lows.now highs.now lengths.now }
{
    [
        given_item(kinds, lows, highs, lengths, 0),
        given_item(kinds, lows, highs, lengths, 1),
        given_item(kinds, lows, highs, lengths, 2),
        given_item(kinds, lows, highs, lengths, 3),
        given_item(kinds, lows, highs, lengths, 4),
        given_item(kinds, lows, highs, lengths, 5),
        given_item(kinds, lows, highs, lengths, 6),
        given_item(kinds, lows, highs, lengths, 7),
    ]
}

// A slot's number as one of 64 bits.
fn slot_as_word(slot: u32) -> u64
    ensures { result ≡ slot }
{
    slot as u64
}

// The answer of a basket: its version and the slots.
fn answer_of(version: u64, slots: [u32; 8]) -> [u64; 9]
    ensures { result ≡ version ∷ slots }
{
    [
        version,
        slot_as_word(slots[0]),
        slot_as_word(slots[1]),
        slot_as_word(slots[2]),
        slot_as_word(slots[3]),
        slot_as_word(slots[4]),
        slot_as_word(slots[5]),
        slot_as_word(slots[6]),
        slot_as_word(slots[7]),
    ]
}

// What a basket gives back goes into the lent numbers.
pub fn write_answer_basket(
    basket: BasketAnswer,
    state: &mut [u32; 4],
    version: &mut [u64; 1],
    answer: &mut [u64; 9],
) -> u32
    ensures result { (taken : List ℕ) → (result ≡ refusal_in (basket_says taken basket.outcome)) ×
        (answer.new ≡ basket_answered (basket_says taken basket.outcome) basket.slots answer.old) ×
        (state_from state.new version.new ≡ basket.state) }
{
    let after = basket.state;
    let slots = basket.slots;
    let outcome = basket.outcome;
    keep_state(after, state, version);
    match outcome {
        BasketOutcome::Refused(number) => number,
        BasketOutcome::Stored { version: number } => {
            *answer = answer_of(number, slots);
            0
        }
    }
}

// The first count items are carried out together, as their kinds ask; item i's value is the first bytes of values from
// byte 80 × i on. The answer is the version and the slots taken.
pub fn basket_call(
    image: &[u8],
    wide: bool,
    heads: &mut [u32],
    next: &mut [u32],
    state: &mut [u32; 4],
    version: &mut [u64; 1],
    count: usize,
    kinds: &[u32; 8],
    lows: &[u64; 8],
    highs: &[u64; 8],
    lengths: &[usize; 8],
    values: &[u8; 640],
    at: &mut [u32],
    value: &mut [u64],
    answer: &mut [u64; 9],
    own: bool,
) -> u32
    ensures result { basket_call_left result answer.new (state_from state.new version.new) at.new
        value.new heads.new next.new
        ≡ basket_call
        (buffers_after_lists at.old value.old
        (basket_result_by own (layout_number wide) image.now
        (index_of heads.old next.old (state_from state.old version.old))
        (changes_of (layout_number wide) (keys_asked count kinds.now)
        (given_items kinds.now lows.now highs.now lengths.now) values.now)
        (length at.old) (length value.old)))
        answer.old }
{
    let before = state_from(state, version);
    let asked = keys_asked(count, kinds);
    let items = given_items(kinds, lows, highs, lengths);
    let bytes = *values;
    let given = basket_in_layout(
        image, wide, heads, next, before, asked, items, bytes, at, value, own,
    );
    write_answer_basket(given, state, version, answer)
}
