//! What holds over every schedule of starts, letters, stops and boots, of the definitions that the contracts of this crate
//! name.

pub use law_agreement::{
    chosen_stays, letters_stand, majorities_meet, one_value, some_value, told_is_chosen,
};
