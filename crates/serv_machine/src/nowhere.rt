//! No disk: what is kept in memory is nowhere else.

use serv_disk::{Disk, Failed};

/// A disk that keeps nothing, tells nothing, and never fails.
#[derive(Drop)]
pub struct Nowhere;

impl Disk for Nowhere {
    ghost use Rattle.serv_disk.specs.DiskLaws.{untold};
    ghost use Rattle.serv_disk.specs.Disks.{nothing_seen};

    ghost view = { λ _. nothing_seen };

    ghost faults = { λ _. 0 };

    fn clock(&self) -> u64 {
        0
    }

    fn len(&mut self) -> Result<u64, Failed> {
        Ok(0)
    }

    fn read(&mut self, _: u64, _: &mut [u8]) -> Result<(), Failed> {
        Ok(())
    }

    fn write_at(&mut self, _: u64, _: &[u8]) -> Result<(), Failed> {
        Ok(())
    }

    fn cut(&mut self, _: u64) -> Result<(), Failed> {
        Ok(())
    }

    fn sync(&mut self) -> Result<(), Failed> {
        Ok(())
    }

    ghost counts_now = { λ d t c le image. image };

    ghost only_now = { λ d c since. since };

    ghost reads_image = { λ d s told. untold s told };

    ghost tells = { λ d c image. absurd image };
}
