// The public calls of the set, with the types that they take and answer. None has a `requires`. Each contract is one
// equation; insert, replace, remove and get have one more, on the words moved. A call whose name ends in 2 is layout
// 2's and the one of that name without it layout 1's; format and the plays serve both. A call whose name begins with
// own_ is no call of document 01: it is for the owner of its index, one that comes from recovery and the accepted calls
// since. With such an index it is the call without own_, by the laws either-call and either-basket.

#![tactic(auto)]

pub mod layouts;

pub use calls::{
    BasketAnswer, BasketItem, BasketOutcome, Change, Formatted, GetAnswer, Got, LocateAnswer,
    Located, Outcome,
};
pub use calls_basket_code::basket::{basket, basket2};
pub use calls_basket_list_code::list::{
    basket_list, basket_list2, own_basket_list, own_basket_list2,
};
pub use calls_basket_own_code::basket::{own_basket, own_basket2};
pub use calls_format_code::format::format;
pub use calls_get_code::get::{get, get2};
pub use calls_locate_code::locate::{locate, locate2};
pub use calls_own_code::own::{
    own_insert, own_insert2, own_remove, own_remove2, own_replace, own_replace2,
};
pub use calls_write_code::remove::{remove, remove2};
pub use calls_write_code::write::{insert, insert2, replace, replace2};
pub use cut_counts::CutCounts;
pub use cut_counts_code::{count_cuts, count_cuts2};
pub use index::{Action, Mode, State};
pub use recovery::{Invalidations, RecoverAnswer, Recovered};
pub use recovery_call_code::{recover, recover2};
pub use refusals::{Refusal, return_code};
pub use slot_counts::{CountAnswer, SlotCounts};
pub use slot_counts_code::{count_slots, count_slots2};
pub use stores::{Store, Stores};
pub use stores_code::play::{play, play_list};
pub use stores_list_code::play::play_stores;
