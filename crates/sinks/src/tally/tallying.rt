// Taking blocks into tallies, and asking them.
ghost use Rattle.std.specs.Prelude.{◌≡◌, ℕ, ◌+◌, ◌<◌, ◌≤◌, if◌then◌else◌, nat_eq, MatchOption};
ghost use Rattle.geometry.specs.Boxes.{volume_of};
ghost use Rattle.sinks.specs.Meaning.{Judged, Tells, materials, limit, over_materials};
ghost use Rattle.sinks.specs.Tallied.{number_of, count_of, volume_held, drawn_of, Noted, Receives};

use super::{MaterialSums, Tallies};
use crate::refusal::SinkRefusal;
use geometry::block::Block;
pub use geometry::limits::MATERIALS;

// The most cubic millimetres that a sink receives.
pub const LIMIT: u64 = 4_398_046_511_104;

impl MaterialSums {
    fn new() -> MaterialSums
        ensures { (((m : ℕ) → number_of result m ≡ 0)) × (result.all ≡ 0) }
    {
        MaterialSums {
            each: [0; 16],
            all: 0,
        }
    }

    // So much more for a material.
    fn add(&mut self, m: usize, by: u64)
        requires { (m < materials) × (self.old.all + by ≤ limit) }
        ensures each { (k : ℕ) → number_of self.new k ≡ number_of self.old k + (if nat_eq k m then by else 0) }
        ensures all { self.new.all ≡ self.old.all + by }
    {
        self.each[m] += by;
        self.all += by;
    }

    // The number of a material; none where there is no such material.
    fn get(&self, m: usize) -> Option<u64>
        ensures { MatchOption result (materials ≤ m) (λ n. (m < materials) × (n ≡ number_of self.now m)) }
    {
        self.each.get(m).copied()
    }
}

impl Tallies {
    pub fn new() -> Tallies
        ensures { (m : ℕ) → (count_of result m ≡ 0) × (volume_held result m ≡ 0) }
    {
        Tallies {
            counts: MaterialSums::new(),
            volumes: MaterialSums::new(),
        }
    }

    // The answer to a block, where the sink says whether it has room.
    fn judge(&self, block: Block, room: bool) -> Result<(), SinkRefusal>
        ensures { Judged self.now.volumes.all room block result }
    {
        if block.material >= MATERIALS {
            return Err(SinkRefusal::NoSuch);
        }
        if block.cuboid.volume() > LIMIT - self.volumes.all {
            return Err(SinkRefusal::OverLimit);
        }
        if !room {
            return Err(SinkRefusal::NoRoom);
        }
        Ok(())
    }

    // One block more, whose volume is at least one cubic millimetre.
    #[tactic(auto, using(crate::proofs::Materials::volume_some))]
    fn add(&mut self, block: Block)
        requires { (block.material < materials) × (self.old.volumes.all + volume_of block.cuboid ≤ limit) }
        ensures { Noted self.old self.new block }
    {
        let m = block.material as usize;
        let volume = block.cuboid.volume();
        self.counts.add(m, 1);
        self.volumes.add(m, volume);
    }

    // Judges a block and notes it where it passes.
    pub fn receive(&mut self, block: Block, room: bool) -> Result<(), SinkRefusal>
        ensures { Receives self.old self.new block room result }
    {
        self.judge(block, room)?;
        self.add(block);
        Ok(())
    }

    pub fn count_of(&self, material: u8) -> Result<u64, SinkRefusal>
        ensures { Tells (material < materials) (count_of self.now material) result }
    {
        let count = self.counts.get(material as usize);
        count.ok_or(SinkRefusal::NoSuch)
    }

    pub fn volume_of(&self, material: u8) -> Result<u64, SinkRefusal>
        ensures { Tells (material < materials) (volume_held self.now material) result }
    {
        let volume = self.volumes.get(material as usize);
        volume.ok_or(SinkRefusal::NoSuch)
    }

    // All blocks, and all volumes.
    pub fn count_all(&self) -> u64
        ensures { result ≡ over_materials (count_of self.now) }
    {
        self.counts.all
    }

    pub fn volume_all(&self) -> u64
        ensures { result ≡ over_materials (volume_held self.now) }
    {
        self.volumes.all
    }

    // Blocks and volume of a material, told together; none of a number that no material has.
    pub fn tally(&self, material: usize) -> (u64, u64)
        ensures count { result.0 ≡ count_of self.now material }
        ensures volume { result.1 ≡ volume_held self.now material }
    {
        let count = self.counts.get(material);
        let volume = self.volumes.get(material);
        (count.unwrap_or(0), volume.unwrap_or(0))
    }

    // All blocks but the void ones.
    #[tactic(auto, using(crate::proofs::Materials::number_le))]
    pub fn drawn(&self) -> u64
        ensures value { result ≡ drawn_of self.now }
        ensures bound { result ≤ limit }
    {
        self.counts.all - self.counts.get(0).unwrap_or(0)
    }
}
