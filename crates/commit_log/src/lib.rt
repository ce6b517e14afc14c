//! The commit log: records of many sectors that are written as one.
//!
//! A commit writes its targets and their payloads to one half of the log slice of each place, opens the
//! gates, and then writes the payloads to their targets. A stop at any moment leaves slices that, once the
//! pending record is replayed, have all targets written or none (docs/FORMATS.md, 'Commit log').
//!
//! **The model.** Contracts see a log as a `LogView` (specs/View.antt of log_laws): its number, the targets added to it,
//! and those of a pending record that it read. What slices leave pending is `array_image`'s definition. What
//! may stand on the slices when a stop comes, and which places decide there, is said in specs/Standing.antt of log_laws, which has all
//! definitions that contracts cite but those of a scan of gates (specs/Scans.antt).
//!
//! **The contract.** `CommitCall` (specs/Commits.antt of log_laws), over any rack of slices: all or nothing at each
//! moment, whoever goes in which phase; all at the return, but on the places that it answers; each of these
//! has its cause; and what the next commit needs. After a stop, `PendingCall` (specs/Opening.antt of log_laws) says which
//! record is pending and which place's log isn't well formed, and `ReplayCall` that a replay leaves contents
//! that are replayed as before at each moment, with nothing pending at its end where nobody went. Once it is
//! made, a log takes no memory.
//!
//! **The state that log slices say** (`RecoversTo`, specs/Saying.antt of log_laws): no log is damaged, once the pending record is replayed each place
//! has its copy of the state, and as they stand they say this state or one of which the record makes it. At each moment of a commit they
//! say the state from before it or the new one (`commit_says`, proofs/Saying.antt), where places had all copies before (`HoldsCopies`).
#![tactic(auto)]

mod gates;
mod loading;
mod log;
mod lost;
mod record;
mod scan;
mod slices;
mod writing;

pub use gates::first_gate;
pub use log::{Log, Looked, Target};
