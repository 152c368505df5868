// How many answers of each kind were compared, and how many differ.
use crate::second::Told;

// How often a refusal was answered.
#[derive(Clone, Copy)]
struct Times {
    number: u32,
    times: u64,
}

fn never(number: u32) -> Times {
    Times { number, times: 0 }
}

#[derive(Drop)]
pub struct Tally {
    rows: u64,
    // each refusal of a row
    refused: [Times; 5],
    other: u64,
    differ: u64,
}

// Whether two answers are the same.
fn agree(first: &Told, second: &Told) -> bool {
    match (first, second) {
        (Ok(first), Ok(second)) => first.as_slice() == second.as_slice(),
        (Err(first), Err(second)) => first == second,
        _ => false,
    }
}

impl Tally {
    pub fn new() -> Tally {
        Tally {
            rows: 0,
            refused: [never(31), never(32), never(33), never(34), never(36)],
            other: 0,
            differ: 0,
        }
    }

    pub fn count(&mut self, first: &Told, second: &Told) {
        if !agree(first, second) {
            self.differ = self.differ.saturating_add(1);
        }
        match first {
            Ok(_) => self.rows = self.rows.saturating_add(1),
            Err(refused) => self.count_refused(refused.number),
        }
    }

    fn count_refused(&mut self, number: u32) {
        for known in &mut self.refused {
            if known.number == number {
                known.times = known.times.saturating_add(1);
                return;
            }
        }
        self.other = self.other.saturating_add(1);
    }

    pub fn print(&self, rt: &HostRuntime) -> anyhow::Result<()> {
        let rows = self.rows;
        println!(rt; "rows compared: {rows}")?;
        for known in &self.refused {
            let number = known.number;
            let times = known.times;
            println!(rt; "refused with {number}: {times}")?;
        }
        let other = self.other;
        println!(rt; "refused with other: {other}")?;
        match self.differ {
            0 => println!(rt; "all agree")?,
            differ => println!(rt; "different: {differ}")?,
        }
        Ok(())
    }
}
