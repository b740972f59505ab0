//! The Store's part of the induction: what each move of a table keeps, over its items and its own facts alone.
#![tactic(auto)]
