// A whole field at once: it starts here, its bar is here too, and its kind finds nothing wrong. Each function gives the place past the
// bar; or None, and then nothing is said of the field. So nothing of a field is kept.
// A piece and a place in it travel as two, with what is asked of them in clauses: as one struct they would be made anew for each field.
#![tactic(auto)]

mod bar;
mod digits;
pub mod kind;
mod numbers;
mod text;
mod word;
