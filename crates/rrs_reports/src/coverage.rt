//! How often each instruction of an executable's code was executed.

ghost use Rattle.std.specs.Prelude.{◌≡◌, ◌+◌, ◌*◌, ◌<◌, ℕ, length, get_or, replicate, false, true, MatchOption, IfOk};
ghost use Rattle.rrs_trace.specs.declared.retired.Retired.{Retired};
ghost use Rattle.rrs_elf.specs.Executables.{bytes_of};
ghost use Rattle.rrs_reports.specs.Coverages.{Counts, has_unit, is_step};

use rrs_elf::CodeUnit;
use std::alloc::{AllocError, Global};

/// How often each unit of code was executed: a word, or a half-word, where an instruction begins.
/// A count that would be 2^64 stays 2^64 - 1.
#[derive(Drop)]
pub struct Coverage {
    /// The address of the first unit.
    pub base: u32,
    /// What the instructions lie in.
    pub unit: CodeUnit,
    /// Of each unit from the base on, how many steps began there.
    pub counts: Vec<u64>,
    /// How many steps began elsewhere.
    pub elsewhere: u64,
}

impl Coverage {
    /// No steps, of so many units from an address on.
    ///
    /// # Errors
    ///
    /// Out of memory.
    pub fn new(
        alloc: Global,
        base: u32,
        unit: CodeUnit,
        units: usize,
    ) -> Result<Coverage, AllocError>
        ensures { IfOk result (λ coverage. (coverage.base ≡ base) × (coverage.unit ≡ unit)
            × (coverage.counts.items ≡ replicate units 0)
            × (coverage.elsewhere ≡ 0)) }
    {
        Ok(Coverage {
            base,
            unit,
            counts: vec![in alloc; 0; units]?,
            elsewhere: 0,
        })
    }

    /// The place of the unit at an address, if there is one, where a unit has so many bytes.
    #[inline(always)]
    fn place_among(&self, address: u32, bytes: u32) -> Option<usize>
        requires { bytes ≡ bytes_of self.now.unit }
        ensures { MatchOption result
            (has_unit self.now.unit self.now.base (length self.now.counts.items) address ≡ false)
            (λ place. (has_unit self.now.unit self.now.base (length self.now.counts.items) address
            ≡ true)
            × (place < length self.now.counts.items)
            × (address ≡ self.now.base + bytes_of self.now.unit * place)) }
    {
        if address < self.base || (address - self.base) % bytes != 0 {
            return None;
        }
        let place = ((address - self.base) / bytes) as usize;
        if place < self.counts.len() {
            Some(place)
        } else {
            None
        }
    }

    /// The place of the unit at an address, if there is one.
    #[inline(always)]
    fn place_of(&self, address: u32) -> Option<usize>
        ensures { MatchOption result
            (has_unit self.now.unit self.now.base (length self.now.counts.items) address ≡ false)
            (λ place. (has_unit self.now.unit self.now.base (length self.now.counts.items) address
            ≡ true)
            × (place < length self.now.counts.items)
            × (address ≡ self.now.base + bytes_of self.now.unit * place)) }
    {
        match self.unit {
            CodeUnit::Word => self.place_among(address, 4),
            CodeUnit::HalfWord => self.place_among(address, 2),
        }
    }

    /// How many steps began at an address that a unit has, and 0 for another address.
    pub fn count(&self, address: u32) -> u64
        ensures unit { (place : ℕ) → place < length self.now.counts.items
            → address ≡ self.now.base + bytes_of self.now.unit * place
            → result ≡ get_or self.now.counts.items place 0 }
        ensures other { has_unit self.now.unit self.now.base (length self.now.counts.items) address
            ≡ false → result ≡ 0 }
    {
        match self.place_of(address) {
            Some(place) => self.counts[place],
            None => 0,
        }
    }

    /// Counts a step at an address, and gives the place of the unit there, if there is one.
    #[inline(always)]
    pub fn add(&mut self, address: u32) -> Option<usize>
        ensures counts { (r : Retired) → r.pc_rdata ≡ address → is_step r ≡ true
            → Counts self.old r self.new }
        ensures place { MatchOption result
            (has_unit self.old.unit self.old.base (length self.old.counts.items) address ≡ false)
            (λ place. address ≡ self.old.base + bytes_of self.old.unit * place) }
    {
        match self.place_of(address) {
            Some(place) => {
                self.counts[place] = self.counts[place].saturating_add(1);
                Some(place)
            }
            None => {
                self.elsewhere = self.elsewhere.saturating_add(1);
                None
            }
        }
    }
}
