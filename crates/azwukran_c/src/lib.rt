// The C interface: each function of the library `azwukran`, exported under its own name as `include/azwukran.h` declares it.
//
// An exported function calls the library's of the same name with its own arguments, and repeats its clauses. A crate is built as a library
// or as an archive for C, so these stand in a crate of their own; nothing is decided here.
#![tactic(auto)]

mod list_sets;
mod regular_sets;
mod single_calls;
mod texts;
mod worksheets;
