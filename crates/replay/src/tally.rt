// How many answers of a list were compared, how many differ, and how many sets of the list were expanded.

use std::io;
use std::io::Print;

#[derive(Clone, Copy, Default)]
pub struct Tally {
    compared: u64,
    differ: u64,
    // The number of the first record that differs, counted from 0, where one does.
    first: Option<u64>,
    expanded: u64,
}

impl Tally {
    // One more answer, which agrees or differs.
    pub fn count(&mut self, agrees: bool) {
        if !agrees {
            self.count_broken();
        }
        self.compared = self.compared.wrapping_add(1);
    }

    // One expanded set more.
    pub fn count_expansion(&mut self) {
        self.expanded = self.expanded.wrapping_add(1);
    }

    // One difference more, of a record that may not even be whole.
    pub fn count_broken(&mut self) {
        if self.first.is_none() {
            self.first = Some(self.compared);
        }
        self.differ = self.differ.wrapping_add(1);
    }

    // Writes the line of the list with this name.
    pub fn print(self, out: &impl Print, name: &str) -> io::Result<()> {
        print!(out;
            "{name}: {} compared, {} differ",
            self.compared, self.differ
        )?;
        if let Some(first) = self.first {
            print!(out; ", the first at record {first}")?;
        }
        if self.expanded != 0 {
            print!(out; ", {} expanded", self.expanded)?;
        }
        println!(out)
    }
}
