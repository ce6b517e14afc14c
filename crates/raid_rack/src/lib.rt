//! All arrays of a pool over the slices of its drives.
//!
//! The arrays of a pool share its drives, its state and its commit log. A drive that answers `Gone` in a call of one array is gone
//! for all of them: the loss is noted in each array, all arrays are settled on the drives that are left, and one commit has its
//! mark and their superblocks. A [`RaidRack`] holds the arrays with their state, their log and the slices below. It is a rack of
//! them over any rack of drives: disk n is array n. It loses a drive ([`RaidRack::lose`]), resyncs a row ([`RaidRack::resync`]),
//! rebuilds one ([`RaidRack::rebuild`]), ends a plan ([`RaidRack::close`]), does whichever of these a work asks for
//! ([`RaidRack::work`]), makes superblocks agree ([`RaidRack::restate`]), and ends a run ([`RaidRack::clean`]).
//!
//! **Its model.** `Raid` of raid_laws is what contracts see of it: the state, each array's `View`, the number of the log. `raid_of` is the rack
//! that it shows: disk n is array n, a sector is held where no loss spent it, what a stop leaves is what the slices say once their
//! log is replayed, and an array is told where its slices are and it stands in them (`IsTracked`). Its faults are its spent answers.
//! Between calls all losses are mended (`IsFit`).
//!
//! `specs/RaidRack.antt` is the model of the struct, and `specs/AllRuns.antt` says what calls in a row keep of it: also of the slices below,
//! whom alone arrays lose, and which slices are spared. All else that contracts cite is defined in `raid_laws`, whose lemmas name no type of
//! this crate.
//!
//! **The contract of the mending** is one record, `Mends`, over any rack of slices that spends no sector. Whoever went in a call of
//! an array, or goes meanwhile, is marked when it returns, each with its cause, and nobody else is; down to the last drive. At each
//! moment stops leave a state with marks between those before and those after it, and by it each array gives its values; afterwards
//! images go by the shape that the run goes by. No value moves. Where it loses no drive, the state is the same; and a drive's copy of it keeps
//! its values where no other drive is lost, since marks are written on the drives that are left (`KeepsUnlost`).
//!
//! **A clean end** is the cleaning of each array, with a mending after each. Whoever is left has one value in each sector. Where no
//! drive refused a call, each array's superblocks leave the rows to resync that are left in it and no others, durably; nothing else
//! is written, and no superblock that says so already. The state and its copies are changed by the mendings alone (`KeepsUnlost`), as in a new
//! drive's taking in that finds another one gone.
//!
//! **Superblocks that agree.** A stop amid superblocks that are written one after the other leaves some of fewer events than the truth's. All superblocks are written anew by one commit (`restate`), and so they are by each commit that marks a place: then those of
//! each array agree in every image and leave the rows to resync that are left in it, where no drive refuses a call (`MakesAgree`). Calls of the rack in which none does leave the slices of
//! arrays that aren't written alone (`Spares`), so theirs go on to agree (`agree_spared` of proofs/AgreeStill.antt).
//!
//! **Rows to resync.** An array that isn't young and whose truth leaves just the rows that are left in it (`LeavesRows`) does so in
//! every image at each moment of a call and after it (`KeepsRows`), unless the call writes it. The rack keeps which arrays a run has
//! written, so all others do so in every image of the run (`RaidRuns`).
//!
//! **Stops inside calls.** At each moment of a call, of an array that was told and isn't over after it (`CrashInvariant`): no log is
//! damaged; replayed contents say one state between those before and after the call, with each copy of it and no later one
//! (`LogsBetween`), and by it superblocks that agree, of the size and places from before it, and members that count at least as far as
//! before it and are there where they were (`ReachBetween`). If by that state a member of an array that
//! isn't young is missing or being rebuilt, they leave no rows of it to resync but those that were left before the call, where images
//! left no others then (`KeepsLacking`). What is pending brings that state alone, and is for sectors that slices have. As it stands,
//! each place that was current when a run began has a copy of a state that came of the one from then, which names its drive, and any
//! other place an earlier copy at most (`AreSince`): so a stop is read on the same disks, whatever is replayed. Calls in a row keep all
//! this (`moments_then` of specs/Runs.antt).
//!
//! **Works of maintenance.** A step of an array makes another array of it, by one commit: more rows that agree, or members that count
//! further. It is a part of a call that writes no value (`ChangesData`): each array gives its values, by the array before the step or after
//! it. One lemma (`step_brings`) carries any step of `array_sync` along (`Steps`), where what it makes is an array of the pool
//! (`IsNext`). Rows are resynced (`Resyncs`), as many as are answered, exactly where the first can be once losses are mended, and where
//! that is answered no image leaves them any more. Rows of a member are rebuilt (`Rebuilds`) where that is answered, and refused only where
//! the first can't be. The end of a plan (`ClosesPlan`) is a commit of the state's copies alone. A work is one of these three (`Does`), where
//! it is due (`is_due`).
//!
//! **A new drive** at a place ([`RaidRack::enlist`]), whose drive is missing or gives way to it, gets its table, zeros in the place of a state and the closed gate
//! with number 0 (`LaysDrive`), and slices for the log and for each array that it is a member of and reaches (`SeatsDrive`). Calls on a
//! disk that has no place are reads to the slices (`reads_apart` of proofs/Apart.antt). Then one commit on the drives that are left has the
//! state with it, a copy for it too, and the superblocks, by which its members are to be rebuilt from their start. So it is one of the
//! pool in no image before that commit, and in each after it; and since its members are there from then on but count nowhere yet, no value moves (`Enlists`).
//! The slices by the new tables differ from those by the old ones at the drive's place alone. Where that isn't current, arrays stand over
//! them as they did (`reseated_amid` of proofs/Reseated.antt). What a stop leaves is read by the old tables until the slices are added
//! (`SaysLaying`), and from then on by the new ones, where the disk holds its table (`SaysJoining`). The moment alone tells which, so an
//! image is read by the same tables for all arrays. As the log slices stand, each place that was current has its own copy, of the state
//! before or of one with the drive, and the drive's place has none but its own (`AreJoinSince`); so it is after the call too, also on a
//! drive that is marked in it.
//!
//! A drive that gives way is vacated in memory alone (`vacated`), with its members, before the slices are added: so the commit is that of
//! a place whose drive is missing. By the new tables images don't say the arrays then, since the new disk may have old superblocks of
//! this place. What the commit needs is less (`FindsArray`): the logs without the place, and the data of the members that are left. While
//! its record doesn't count (`IsFormerly`) contents are read by the old tables and the state before, the old drive's disk not being
//! written, and no log is damaged there (`former_says` of proofs/FormerSays.antt); from then on by the new tables and a state with the
//! drive (`SaysReplacing`). Where the drive isn't taken in, stops leave of the slices what they leave in any call (`CrashInvariant`).
//!
//! **A drive of a growth** ([`RaidRack::add_drive`]) comes to the next place of the list, or to one of the list with other units than the drive before
//! it. Its table has an entry for each array that it reaches by its units, also for those that it has still to join; where such a slice begins no
//! superblock is left (`LaysReached` of growth_laws). At the next place it is in the list by one commit of the state alone, which settles no array;
//! at a place of the list it is taken in as an `enlist` does it. What it does to the book is one change between losses (`TakesIn`). Of what stops
//! leave nothing is said yet.
//!
//! **A new array** ([`RaidRack::make`]) has all places as members that reach its layer by their units, missing ones too. The tables of those that
//! aren't missing get its entry, each durably before the next, and whoever goes meanwhile is marked. Then its slices are laid in memory, and one
//! commit has its superblocks and the state with it: an entry that a stop leaves before it is no array's. The arrays stand over the laid slices
//! as they did, since none of them has a slice of that number (`other_slices_set` of proofs/LaidMembers.antt). What is made goes by the book right
//! before the commit, which losses have left as due as it was (`may_make_still` of growth_laws).
//!
//! **A disk that is given up** ([`RaidRack::vacate`]), where its drive is marked missing, takes the slices of its place with it. The
//! arrays stand over the slices that are left as they did (`vacated_told`, `vacated_keeps`, `vacated_rows` of proofs/Vacated.antt).
//!
//! **What can't be had.** Where no disk refuses a call, calls in a row spend no sector (`live_still` of proofs/Live.antt), unless numbers
//! are used up ([`RaidRack::is_used_up`]).
//!
//! **What never falls.** Epochs, events and log numbers rise by a bounded number in a call (`RaisesBy`), and the slices of a drive
//! that is marked missing stay as they are (`KeepsMarked`).
//!
//! **A read, a sync and a write** are a call of one array and the mending after it. The sector is refused exactly where it is spent
//! once that is done (`Arrays::is_spent`), and the refusal is counted. A write is one part more (`ChangesData`): each array gives the
//! values that it had, and the written sector the one from before or the new one.
//!
//! **What contents hold of the book.** The mending of losses says what it makes of each book that the run has, whose losses aren't marked in it yet:
//! changes that mark places and write superblocks anew, and none where nobody went (`MakesLosses` of transition_laws). A row of a reshape
//! and its end make the change of their work, where it is done, and losses after it (`MakesReshape` of growth_laws); so do the end of a plan
//! and the readiness of a young array (`MakesTurn`) and, inside the rack, the cleaning of an array, whose superblocks are written one after the
//! other (`MakesClean`), and the commit that makes an array. At each
//! moment of such a call a stop leaves contents that hold the book before the change or after it, but for losses, and each promised sector
//! has one of the values that it had; after it the run stands by the last book. It is said of a run that stands by its book before the call,
//! and of a reshape where superblocks leave whole rows to resync and values past the array's end are zeros; of readiness where the
//! array's superblocks say its truth and no reshape of it has begun (`FitsReady`), of a new array where sectors of its slices have one
//! value each (`FitsMake`). A takeover is such a call behind a cleaning (`CleansAndReshapes`), and so is a reshape's begin, over slices with that of
//! the joining member, where this slice is settled (`CleansBefore`, `ReshapesWith`). The zeros of a new array and the whole call that makes
//! one don't say it yet. A takeover, rows of a reshape, its end and the readiness of a young array also keep what the arrays of the volume
//! held, where these are told (`KeepsOldSectors`), and the sectors that these get hold zeros (`GrowsByZeros`).
//! Of a reshape's begin by which the place has joined it is said where no stop left a superblock on the joining member's slice (`AreBare`): then the
//! arrays stand over the tables with that slice as they did.
//!
//! **For a whole call.** Parts of a call in a row are one (`moves_then`, `brings_then`); a read, a sync or a settling of one array is
//! a part for all (`moves_read`), and so are a write (`write_brings`), losses that are noted and heeded, and the commit that marks
//! them (`moves_noted`, `moves_heeded`, `moves_commit`). Parts of all arrays are a call of the rack (`raid_acts`), whose values are
//! those of a rack (`raid_sound`).
#![tactic(auto)]

mod adding;
mod arrays;
mod disks;
mod enlisting;
mod growing;
mod losses;
mod marks;
mod mending;
mod new_drive;
mod spent;
mod vacating;
mod works;
mod young;

pub use arrays::{LastDrive, RaidRack};
pub use enlisting::EnlistFault;
pub use losses::{add_copies, heed_all, newly_gone, note_gone, restart_rebuilds};
pub use marks::{current_places, mark_missing};
pub use works::Stuck;
