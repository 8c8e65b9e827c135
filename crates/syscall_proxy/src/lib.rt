// The host's part of the system calls.
//
// - The call table is written as texts: `specs/CallTable` has the row of each request, `specs/DataRows`, `NumberRows`,
//   `PathRows` and `RecordRows` the rows, and `specs/Kept` what a host keeps from call to call.
// - `Host` carries out requests; `Calls` (crate-private) has a method for each row, whose one clause says that the row's
//   text was followed.
// - `laws` has what holds of each row of the table, and of each call whose row was followed.
//
// Only `Host::new` takes memory.
#![tactic(auto)]

mod answers;
mod buffer;
mod call;
mod calls;
mod data_rows;
mod flags;
mod host;
mod host_call;
pub mod laws;
#[cfg(test)]
mod leaf_tests;
mod main_vars;
mod number_rows;
mod numbers;
mod objects;
mod open_rows;
mod outside;
mod path_rows;
mod path_rules;
mod record_rows;
mod request;
mod service;
mod setting;
mod stat;

pub use answers::{CallAnswer, CallFault};
pub use host::Host;
pub use request::{REQUEST_SIZE, request_of};
