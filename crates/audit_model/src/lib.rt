//! Definitions, in `specs/`, of what a trace says happened, and of the answer that an audit of it
//! must give.
#![tactic(auto)]
