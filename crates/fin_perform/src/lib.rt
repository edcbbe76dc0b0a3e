//! What a program's statements are as loop code, and what that code performs.
//!
//! The functions build code from tensors' headers, expressions and the codes of bodies, term for term that of
//! `specs/Codes.antt`; what it performs is said by laws, so that a lowering which calls them is proved node by node.
//!
//! The code is over the program's tensors and any number of locals (`specs/Layouts.antt`). `specs/Codes.antt` has the
//! code of the statements that have no body: a declaration, a freeze and a thaw pay what they store, and an update goes
//! into its tensor where its coordinates lie in the box. Round a body's code stands a test or a let. A let's variable keeps
//! its local behind the body, since no code behind it asks for the word that was there.
//!
//! What is performed is said by meaning (`specs/Performing.antt`): codes lead from machines that do what a run does, or one
//! that trails it, to such machines of what the run by pieces makes of it under what is known. It is said at a place of
//! the code (`specs/Standing.antt`): its facts hold of each variable in scope that its local has the run's number, and of
//! any other local nothing is said. Values are those of the expressions as they are written; what is known decides only
//! what the run by pieces decides by it.
//!
//! The laws are clauses of empty functions. `begun_machines_stand` says where each run begins: over inputs that fit a
//! program, they fit the layout, and the first machine does what the run by stages does. `leaves_perform` is of
//! statements without bodies, and `nothing_performs` of those of which nothing is left. `bodies_perform`, `tests_perform`
//! and `lets_perform` put the codes of a body together, from what each of its statements performs. `meanings_compose` says
//! the same of codes that mean statements wherever they may stand (`specs/Meanings.antt`), from a first free local on: at
//! each place that suits the statement (`specs/Places.antt`), over any inputs, with at least as many locals as they need.
//! A loop's code that means its loop fits in beside them. By `programs_stand` the codes that mean all statements of a
//! program lead from the first machine to one that does what the run by pieces does.
//!
//! A piece of which one update is left that is the same at each coordinate is paid at once. The codes of such a body pay
//! nothing: `push_once` appends them where the rest of a body by what is known is one update (`specs/Appending.antt`),
//! and they mean the body without its work (`specs/Once.antt`); `once_compose` puts them together from their parts.
//!
//! A machine runs code that names no local and no tensor but those of its layout. `codes_are_named` says so of the codes of
//! statements (`specs/Naming.antt`), from a first free local on, in the scopes in which the statements' names are good.
#![tactic(auto)]

mod around;
mod laws;
mod once;
mod single;

pub use around::{Let, cond_code, let_code, literal_code};
pub use laws::{
    begun_machines_stand, bodies_perform, codes_are_named, leaves_perform, lets_perform,
    meanings_compose, nothing_performs, once_compose, places_inside, programs_are_named,
    programs_stand, scopes_go_inside, tests_perform,
};
pub use once::{Site, push_once, push_unpaid};
pub use single::{
    Placed, Update, declare_code, freeze_code, next_local, push_charge, push_update, thaw_code,
    update_code,
};
