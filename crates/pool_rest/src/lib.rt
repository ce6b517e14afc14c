//! Finds a pool on the disks of a rack, in whatever order they are, and brings it to rest.
//!
//! [`stand`] reads what each disk says, takes the newest state, seats the disks of its current
//! places, and looks for the record that is pending in their log slices. Nothing is written by then. [`bring_to_rest`] replays
//! that record: its targets are written where the drives of the state that it brings have them by their own tables, and the gates
//! that were judged are closed; then the disks are looked at once more. Where a log is damaged nothing is replayed. Where a disk
//! has refused a call no gate is closed, so the record stays pending on whoever is left until the next commit takes its place.
//!
//! **The contract of [`stand`].** Over what was read of the disks the state is the newest, of one pool (`IsNewest`); the slices show
//! the log slices of the disks that the meaning of images takes for the current places, and nothing else (`IsLaid`); and what the
//! log finds is what they hold (`HasLooked`), all in specs/Standing.antt. A refusal has its cause in what was read (`IsCause`).
//!
//! **The contract of [`bring_to_rest`]** (specs/Resting.antt). Whatever holds, only sectors of drives are written, in their log slices
//! and in the arrays' part of their disks (`WritesDrives`). What was read last is what the disks hold, and of one pool (`IsNewest`,
//! `IsOnePool`). Where no disk refused a call, the disks hold what they held with the pending record written, and no gate was mended or
//! opened (`RestsSo`); the pool stands so on what they hold now (`StandsNow`); and where nothing is pending any more, they mean what they
//! meant (`MeansTheSame` of pool_image). Nothing is pending where the logs were as commits leave them (`HasSoundLogs` and `IsSettled` of
//! specs/SoundLogs.antt). What a stop inside leaves gives then, once the record is replayed, what the disks hold in the end, where this
//! brings no state, or else the drives had the state that stood and those that it takes in lower gates (`KeepsReplayed` of
//! specs/Moments.antt). As the disks stand then, no copy of the state and no gate has changed yet, or the state that the record is for
//! stands already, and on its drives the record is pending yet or all of it is written (`StandsMidway`). What the log found is what its slices hold at the end (`FindsAll`), but for places whose disk refused a call
//! (`FindsLeft`). Where there is nothing to replay nothing is written (`IsIdle`), and sectors that were durable stay so, but for gates that
//! were closed (`AreSteady`). A place counts as gone only by its disk's faults, and always where its disk refused a call of the scan. A
//! refusal has its cause in what was read, before anything was written or after the replay (`IsRefused`).
#![tactic(auto)]

mod brought;
mod laying;
mod members;
mod resting;
mod standing;

pub use resting::{AtRest, bring_to_rest};
pub use standing::{FindFault, Standing, stand};
