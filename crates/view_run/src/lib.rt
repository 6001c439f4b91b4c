//! What `confsolve-view` does: it reads the words, and then the files that they name.
#![tactic(auto)]

mod answer;
mod command;
mod options;
mod picture;
mod request;
mod source;
mod status;
mod steps;

pub use answer::{Plan, plan_between};
pub use command::run;
pub use request::{PictureRequest, PlanRequest, Request, StepsRequest, request_of};
pub use status::{Source, Status};
