//! A linear volume over a rack of arrays, as LVM2 keeps one.
//!
//! An array is a physical volume: its sectors from 2048 on are cut into extents. A [`Volume`] is the
//! rack of one disk whose extents are runs of the arrays' extents, one behind the other.
//!
//! **The model.** What the volume shows is a function of its runs and of what the rack below shows
//! (specs/Shown.antt): a sector is the sector of its array where its extent lies (specs/Runs.antt), with
//! its values, whether it is spent and what a stop leaves in it. No two sectors of the volume are one
//! sector of an array.
//!
//! **The contract.** It meets `Rack` over any rack, steady or not, by that rack's contract alone. It
//! is fit where its extents lie inside the arrays, which have fewer than 2^52 sectors together. Its calls
//! leave its extents and its group what they are, and below they write its own sectors alone
//! (specs/Framed.antt).
//!
//! **The group.** What arrays' contents say of their volume group, which group counts, whether it is
//! one that the pool writes and which arrays are bad is told by specs/Parts.antt and specs/Group.antt,
//! in the words of the codecs. Each array's part is read by exactly that, a refused sector counting as
//! one that has no bytes. The volume of a group that the pool writes is orderly and lies inside its
//! arrays.
//!
//! **Making.** [`Volume::create`] writes labels, headers and the group's text on the arrays; each is durable
//! before a header has the text. Whatever a stop leaves after it means that group and that volume, and no
//! array is bad (specs/Made.antt). Whether a volume can be extended and the runs that it then has are told by
//! specs/Growth.antt. Where the arrays' members are written without them, a [`NewGroup`] says what each sector of the arrays is
//! to hold, and [`Volume::over`] is the volume on them: arrays that hold these sectors mean that volume, with no array bad, and
//! behind the first 2048 of each they are zeros (`IsReadAgain` of specs/Founding.antt).
//!
//! **Extending.** [`Volume::extend`] writes a new text behind the last one of each array, and once all is durable
//! the headers with it: a stop at any moment leaves some of the first writes, or all of them and some of the
//! headers (specs/Changing.antt). So each stop leaves the old volume or the extended one, and no bad array
//! (specs/Images.antt); a sector of the old volume keeps its place.
//!
//! **Opening.** [`Volume::open`] answers by what was read of the joined arrays: the volume of the group that
//! counts, or the lowest bad array (specs/Opening.antt). Where no sector was refused, these are the group and the
//! array that the contents determine. The text of that group is then written on all joined arrays where one of
//! them doesn't say a group of its seqno, and each stop leaves the same volume (specs/Brought.antt).
#![tactic(auto)]

mod changing;
mod founding;
mod growth;
mod making;
mod naming;
mod opening;
mod parts;
mod printing;
mod profile;
mod reading;
mod runs;
mod starts;
mod syncing;
mod volume;
mod writing;

pub use founding::NewGroup;
pub use volume::{Volume, VolumeFault};
