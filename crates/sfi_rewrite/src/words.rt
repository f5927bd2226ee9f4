//! Code in words: the expansions on typed registers, and how they stand in words of 4 bytes. Of the
//! typed registers the data registers x2, x3, x4 and x29 hold addresses in the data region or near
//! it, so that a load or store on one needs no mask, and x30 a word's start in the code region.

mod expansion;
mod filling;
mod laid_items;

pub(crate) use expansion::ADDRESS_REGISTER;
pub(crate) use laid_items::lay_in_words;
