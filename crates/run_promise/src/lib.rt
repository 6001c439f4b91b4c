//! What `run` promises: all that its clauses say of commands, as definitions alone.
//!
//! To read these files is to know what the program answers; the code that keeps them needs no
//! reading. The clauses of `run` (`confsolve_run`) go by the stage of the status:
//!
//! - answered (0, 1, 2): what is asked of the model in the text is answered, the whole answer was
//!   printed and nothing else, the file of `--log` holds the log, and the journal what shows it;
//! - refused (3, 4, 5, 9, 10, 11, 14): the status says what is so of the texts, and nothing was
//!   printed or written; nor was it where the words are no request (6) or reading failed (7);
//! - unwritten (8) and lost (12): writing broke off within the log or the text, or came not so far.
//!
//! In the order of reading:
//! - `specs/Asking`: which text is that of a request's model, and what is asked of it.
//! - `specs/Answer`: what answers it, of each command.
//! - `specs/Sessions`: what answers a session, event by event.
//! - `specs/Blaming`: what answers the question what to blame; `specs/CoreTexts`: its text.
//! - `specs/Recorded`: what the journal then holds, whatever is known of files.
//! - `specs/Refusal`: why a request is refused.
//! - `specs/Delivery`: what is printed and written, and how far where writing broke off.
//!
//! What they say of a model they say by the definitions of the crates that give it its meaning. A
//! new command is a line in each of these files.
#![tactic(auto)]
