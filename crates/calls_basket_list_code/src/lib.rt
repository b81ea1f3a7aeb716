// The public calls, one for each layout, that change up to eight keys and put their stores into a lent list of records.

#![tactic(auto)]

pub mod list;
mod made;
