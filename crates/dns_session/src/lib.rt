//! Session texts: what a lookup is asked for, what it may trust, and what an upstream replies, in lines. The layer above may use
//! `read_session` as exactly the grammar of `specs/`; and, for a text that follows a session in one input, `read_front` with the lines
//! that it leaves, and the reading of lines and words by which a session is read.
#![tactic(auto)]

mod form;
mod forms;
mod lines;
mod named_forms;
mod reading;
mod reply;
mod reply_forms;
mod session;
mod stop;
mod words;

pub use form::{LineForm, many};
pub use forms::algorithms_of;
pub use lines::Lines;
pub use named_forms::question_of;
pub use reading::{read_front, read_session};
pub use reply::{ReplyFault, ReplyKind, SessionReply};
pub use session::{AcceptedSignature, Anchor, Session};
pub use stop::{SessionStop, bad_line_text};
pub use words::{after, double, next_word, quadruple, single, triple};
