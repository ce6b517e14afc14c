//! A reference to a rack or a bay is one too.

use crate::{AttachFault, Bay, Gone, Rack};

impl<R: Rack> Rack for &mut R {
    ghost use Rattle.std.specs.Prelude.{◌≡◌, refl};
    ghost use Rattle.std.proofs.Common.{◌∙◌};

    ghost seen = { λ r. R.seen r.now };

    ghost runs = { λ r s. (s.ghost_name ≡ r.ghost_name) × R.runs r.now s.now };

    ghost once = { λ r s. R.once r.now s.now };

    ghost unwritten = { λ r s. R.unwritten r.now s.now };

    fn disks(&self) -> u32 {
        (**self).disks()
    }

    fn sectors(&self, disk: u32) -> u64 {
        (**self).sectors(disk)
    }

    fn read(&mut self, disk: u32, sector: u64, into: &mut [u8; 512]) -> Result<(), Gone> {
        (**self).read(disk, sector, into)
    }

    fn write(&mut self, disk: u32, sector: u64, from: &[u8; 512]) -> Result<(), Gone> {
        (**self).write(disk, sector, from)
    }

    fn sync(&mut self, disk: u32) -> Result<(), Gone> {
        (**self).sync(disk)
    }

    ghost sound = { λ r. R.sound r.now };

    ghost runs_same = { λ r. (refl, R.runs_same r.now) };

    ghost runs_then = { λ r s t one two. (two.0 ∙ one.0, R.runs_then r.now s.now t.now one.1 two.1) };

    ghost unwritten_same = { λ r. R.unwritten_same r.now };

    ghost unwritten_then = { λ r s t. R.unwritten_then r.now s.now t.now };
}

impl<R: Bay> Bay for &mut R {
    ghost use Rattle.std.specs.Prelude.{◌≡◌, refl};
    ghost use Rattle.std.proofs.Common.{◌∙◌};

    ghost shelf = { λ r. R.shelf r.now };

    ghost frame = { λ r s. (s.ghost_name ≡ r.ghost_name) × R.frame r.now s.now };

    fn attach(&mut self, name: &str) -> Result<u32, AttachFault> {
        (**self).attach(name)
    }

    ghost always_fit = { λ r. R.always_fit r.now };

    ghost unspent = { λ r. R.unspent r.now };

    ghost lasting = { λ r. R.lasting r.now };

    ghost bounded = { λ r. R.bounded r.now };

    ghost runs_shelf = { λ r s runs. R.runs_shelf r.now s.now runs.1 };

    ghost runs_frame = { λ r s runs. (runs.0, R.runs_frame r.now s.now runs.1) };

    ghost frame_same = { λ r. (refl, R.frame_same r.now) };

    ghost frame_then = { λ r s t one two. (two.0 ∙ one.0, R.frame_then r.now s.now t.now one.1 two.1) };

    ghost numbered = { λ r. R.numbered r.now };
}
