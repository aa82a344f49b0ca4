// Lists of building calls, made on a real store, and the law of what they and the questions afterwards answer.
#![tactic(auto)]

mod basket_calls;
mod baskets;
pub mod call;
mod chain_calls;
mod names;
mod printing;
mod reading;
mod report_calls;
mod reports;
pub mod run;
mod session;
mod step;
mod stop;
mod table;
