mod code;
mod lines;
mod owed;
mod padding;
mod registers;
mod single;
mod translation;
