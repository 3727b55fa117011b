//! Initialisers by themselves, as data: each line of standard input is a row, and each line of standard output is the answer to the row
//! on the same line. A line that is empty or begins with `#` is written as it stands.
//!
//! `TYPE | GIVEN`: what an initialiser stores in an object of a type (ISO C99, 6.7.8). A type is `int`, `char`, `const-char`, `function`,
//! `to TYPE` for a pointer, `array N TYPE`, `array - TYPE` for an array without length, or one of these records: `pair`, which is `struct
//! { int x[2]; int y; }`; `either`, `union { int a; char b; }`; `fields`, `struct { int a : 3; int : 5; int b : 9; }`; `nested`, `struct { struct
//! pair p; union either u[2]; char *s; }`; and `open`, which isn't completed. What is given is a number, which is an `int`; `'TEXT` for a string
//! literal, to which a zero byte is added and whose object has the number 7; or `( ENTRY ENTRY .. )`, where designators `[N]` and `.NAME`
//! may stand in front of what an entry gives.
//!
//! The answer has the puts in their order, each the byte, `:` and the bit for a bit-field, `=` and the number, or `&7` for the address of the
//! literal's object; or the rule that is broken and the number of the part.
//!
//! In a text `$n` is a newline, and `$` with two hexadecimal digits is the byte of that number.
#![tactic(auto)]

mod answer;
mod asked;
mod fault;
mod initialiser;
mod row;
mod types;

pub use row::answer_to;
