//! What the disks of a pool hold between two calls, and at a stop inside one. The crate has definitions and lemmas alone, and no code.
//!
//! **Its model.** `IsSoundPool f` says that the parts of a pool's drives agree, and `AreSlicesOf f t` that tables of slices are those of its
//! drives (`specs/Pools.antt`). `IsServed f t v y` says of a pool `f` that its arrays stand by a book `v` on slices `y`, which lie as `t` has
//! them, and `HoldRest f t x` of disks `x` that outside the slices they are as the pool has them. `RecoversIdle f t s i` says of contents `i` of the
//! disks that they hold a sound pool again, by the state `s` (`specs/Left.antt`).
//!
//! **For the layers above.** `proofs/Again.antt`: all that the disks of such a pool may be left with holds a sound pool again, by the book's
//! state, with the same drives for its places; nothing is pending there, no log is damaged, and the arrays hold what the slices give
//! (`left_again`; by contents of the slices, `opens_again`). Calls that write slices alone leave the rest of the disks as it was (`rest_later`).
//! `proofs/InService.antt`: so it is for a pool that took new drives in, which is `taken f ..` (`specs/Taken.antt`) in the place of `f` from then on, by
//! `RunInvariant` (`specs/InService.antt`)
//! (`in_service`, `service_calls`, `service_attached`, `service_taken`, `service_again`, `vacant_again`); where the drives' tables have the members' slices, the
//! targets of a record that is left pending later land in it too (`RecoversLanding`, `service_landing`, `vacant_landing`).
//! `proofs/Values.antt`: where no sector is spent and the arrays have the shapes of the pool's and hold what those did, their shapes, their group, the
//! lowest bad array and the volumes are the same (`same_again`). `proofs/Named.antt`: which place a disk stands for goes by the ids of the drives (`seat_ahead`, `copy_names`).
//! **Inside calls** (`specs/Stopped.antt`): `IsStopped f t base s i` says of contents `i` that a stop inside a call leaves, which began with the state
//! `base`, what its slices and the rest of the disks say; then they hold the pool still, by the state `s`, once what is pending is written (`Recovers`,
//! `specs/Left.antt`; `stopped_still`, `proofs/Inside.antt`), and what is pending may be replayed by an opening that is stopped itself
//! (`proofs/Pending.antt`). Of a call of a pool in service that writes slices alone, and that tells of its moments what a rack of arrays does
//! (`CrashInvariant` of raid_laws), each stop leaves such contents, by a state between (`RecoversInCall`; `service_amid`, `vacant_amid`, `proofs/Amid.antt`),
//! where by them the drives' tables have the members' slices (`LieByTables`); each place that is current by that state has its drive. Before a pool is
//! in service a place may be absent: `RecoversBetween` says the rest of it, for calls that tell of their stops (`TellsStops`, `found_tells`). Calls keep these tables (`HoldTables`, `tables_amid`; where drives were
//! declined or taken in `proofs/Tables.antt`). What contents say of a pool, whatever made them so, stands in `proofs/Said.antt`. Members that are there by the book before a call
//! have their superblocks at a stop (`proofs/WereThere.antt`), so no drive of a current place is damaged then, and a later opening refuses such contents for what their own superblocks and
//! marks say of an array, or for another pool's disk, alone (`NextOpenInCall`, `specs/Reopening.antt`; `calls_reopen`, `proofs/ReopeningAmid.antt`).
//!
//! **While a drive is taken in** (`specs/Laid.antt`) a stop leaves contents that hold the pool that there was, up to the moment when the record counts that brings the state
//! with the drive: by the slices that are left while the drive is laid, and by those with its own from then on (`entering_early`, `proofs/TakingEarly.antt`). It says no state by
//! then that it didn't say before, so it is taken for no drive, whatever its table is. Once the record counts they hold the pool with the drive, where no other disk has the id of
//! the pool's next drive (`HaveOtherIds`; `taking_late`, `proofs/TakingLate.antt`). So each stop inside the call leaves the one or the other (`entering_amid`,
//! `proofs/Entering.antt`). Inside a call that doesn't take it in after all they hold the pool that there was (`refused_amid`), with the marks of another drive that was found gone
//! (`not_whole_amid`).
//!
//! **Where targets land** (`LieApart`, `specs/Stopped.antt`; `proofs/Landing.antt`): the slices of a pool's drives lie apart by the rules on the list of drives and on the plan
//! (`ruled_apart`), and where the drives' tables have them (`tables_apart`, `again_apart`, `landing_again`); where each drive has its table a replay then finds them (`apart_tables`).
//!
//! **Inside an opening** (`specs/Openings.antt`): `RecoversInOpening f from i` says of contents `i` that a stop inside it leaves that they hold the pool still, with its
//! plan and members that count as far as they did, that targets land in it, that no superblock of an array stands on a drive that is no member of it (`NoStraySuperblock`), and that it may be replayed where a record is pending.
//! So it is while disks are read (`proofs/Rereading.antt`), while gates are closed (`idle_holds`, `proofs/GatesSame.antt`), while the copies of tables are made to
//! agree (`settled_holds`, `proofs/Settled.antt`), and while places without a disk are marked (`marking_amid`, `proofs/Marking.antt`; `amid_opened`,
//! `proofs/Openings.antt`). Sectors of tables have no superblock (`proofs/NoSuper.antt`). Where no disk had another pool's state none has one then (`HadOnePool`,
//! `proofs/OnePool.antt`). Where what its arrays have before the first extents says the volume, and the pool wasn't refused, such contents aren't refused either, and
//! mean it, with what the arrays held (`HoldMeaning`, `specs/Reopening.antt`; `opened_meaning`, `proofs/OpenedMeaning.antt`).
//!
//! `proofs/Absent.antt`: any one drive of a whole pool may be absent, `IsWholePool` (`specs/Absent.antt`): the disks without its disk mean what all of
//! them mean (`safe_in_absence`). `proofs/EndedWhole.antt`: so it is of all that disks may be left with by a pool that has ended whole, by its
//! book and its slices, `EndsWhole` (`left_absent`). Which arrays are bad goes by what stands before their first extents (`proofs/Heads.antt`,
//! `bad_by_heads`).
#![tactic(auto)]
