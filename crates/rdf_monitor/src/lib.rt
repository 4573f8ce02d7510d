//! The texts of replies, and where the replies to a plan's lines go.
#![tactic(auto)]

mod answering;
mod fault;
mod lines;
mod replying;
mod texts;

pub use answering::{Answering, ByText};
pub use fault::AnswerFault;
pub use replying::reply_to;
pub use texts::text_of;
