// What the records of the table file and of the listings are made of (document 01, "The file" and "Writer and programs"): numbers in columns, read
// (`field`) and written (`number`), whole records read by the ranges of their fields (`reading`) and written (`writer`), and the record reader that
// holds the text and how far it has got (`reader`).
#![tactic(auto)]

pub mod field;
pub mod number;
pub mod reader;
pub mod reading;
pub mod writer;
