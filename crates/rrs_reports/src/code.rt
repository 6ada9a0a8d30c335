//! The code of an executable.

use crate::functions::{Function, add_functions, name_units, shown_part};
use crate::sections::{CodePart, add_code_parts};
use rrs_elf::{CodeUnit, Executable, Symbols};
use std::alloc::{AllocError, Global};

/// The most bytes, from the first address of code on, that have symbols: 16 MiB.
const MOST_BYTES: u32 = 1 << 24;

/// The code of an executable: its parts, and its functions.
#[derive(Drop)]
pub struct Code<'a> {
    /// The parts that have code, in the order of the file's headers.
    pub parts: Vec<CodePart<'a>>,
    /// What its instructions lie in.
    unit: CodeUnit,
    /// The lowest address of code.
    base: u32,
    /// The symbols, if there are some.
    symbols: Option<Symbols<'a>>,
    /// Of each unit from the base on 1 and the number of the symbol that names it, or 0.
    names: Vec<u32>,
    /// The functions, in the order of their addresses.
    functions: Vec<Function<'a>>,
    /// Of each unit from the base on 1 and the number of its function, or 0.
    owners: Vec<u32>,
    /// Of each function 1 and the place of its first unit that a part has, or 0; entry 0 is for the
    /// units that belong to none.
    firsts: Vec<u32>,
    /// Of each unit 1 and the place of the next of the same function, or 0.
    nexts: Vec<u32>,
    /// Of each half-word whether it is the upper one of a word; none of words.
    uppers: Vec<bool>,
}

/// The entry at a place, or 0 where there is none.
#[inline]
pub(crate) fn entry(entries: &[u32], place: usize) -> u32 {
    entries.get(place).copied().unwrap_or(0)
}

/// The lowest address of code, and how many units there are up to the highest.
fn range_of(parts: &[CodePart<'_>], unit: CodeUnit) -> (u32, u32) {
    let (mut base, mut end) = (u32::MAX, 0);
    for part in parts {
        if part.units() > 0 {
            let bytes = part.units().saturating_mul(unit.bytes());
            base = base.min(part.address);
            end = end.max(part.address.saturating_add(bytes));
        }
    }
    if base < end {
        (base, unit.count((end - base).min(MOST_BYTES)))
    } else {
        (0, 0)
    }
}

impl<'a> Code<'a> {
    /// The code of a file that is an executable, with these symbols. Its instructions lie in such
    /// units.
    ///
    /// # Errors
    ///
    /// Out of memory.
    pub fn new(
        alloc: Global,
        file: &'a [u8],
        program: &Executable<'a>,
        symbols: Option<Symbols<'a>>,
        unit: CodeUnit,
    ) -> Result<Code<'a>, AllocError> {
        let mut code = Code {
            parts: Vec::new(alloc),
            unit,
            base: 0,
            symbols,
            names: Vec::new(alloc),
            functions: Vec::new(alloc),
            owners: Vec::new(alloc),
            firsts: Vec::new(alloc),
            nexts: Vec::new(alloc),
            uppers: Vec::new(alloc),
        };
        code.read(file, program)?;
        code.chain(alloc)?;
        code.mark_uppers()?;
        Ok(code)
    }

    /// Takes in what a file has.
    fn read(&mut self, file: &'a [u8], program: &Executable<'a>) -> Result<(), AllocError> {
        let unit = self.unit;
        add_code_parts(&mut self.parts, file, program, unit)?;
        let (base, units) = range_of(&self.parts, unit);
        self.base = base;
        self.names.resize(units as usize, 0)?;
        if let Some(symbols) = &self.symbols {
            name_units(&mut self.names, symbols, base, unit);
        }
        let (functions, owners) = (&mut self.functions, &mut self.owners);
        add_functions(functions, owners, self.symbols, base, unit, &self.names)
    }

    /// The parts that have the units, by where each ends: of each unit the lowest place at which a
    /// part begins that ends with it.
    fn starts_of_parts(&self, alloc: Global) -> Result<Vec<u32>, AllocError> {
        let mut starts = vec![in alloc; u32::MAX; self.owners.len()]?;
        for part in &self.parts {
            let first = self.place_of(part.address);
            let behind = first
                .saturating_add(part.units() as usize)
                .min(starts.len());
            if first < behind {
                let start = &mut starts[behind - 1];
                *start = (*start).min(first.min(u32::MAX as usize) as u32);
            }
        }
        Ok(starts)
    }

    /// Chains the units of each function that parts have, from the last to the first.
    fn chain(&mut self, alloc: Global) -> Result<(), AllocError> {
        let starts = self.starts_of_parts(alloc)?;
        self.firsts
            .resize(self.functions.len().saturating_add(1), 0)?;
        self.nexts.resize(starts.len(), 0)?;
        let mut start = u32::MAX;
        for (place, begun) in starts.iter().enumerate().rev() {
            start = start.min(*begun);
            if start as usize <= place {
                self.put_first(place);
            }
        }
        Ok(())
    }

    /// Puts a unit before those of its function.
    fn put_first(&mut self, place: usize) {
        let owner = entry(&self.owners, place) as usize;
        if let (Some(first), Some(next)) = (self.firsts.get_mut(owner), self.nexts.get_mut(place)) {
            *next = *first;
            *first = (place.min(u32::MAX as usize) as u32).wrapping_add(1);
        }
    }

    /// Marks the upper half-words, by the instructions of each part one after another.
    fn mark_uppers(&mut self) -> Result<(), AllocError> {
        if self.unit == CodeUnit::Word {
            return Ok(());
        }
        self.uppers.resize(self.owners.len(), false)?;
        for part in &self.parts {
            let first = self.unit.count(part.address.wrapping_sub(self.base)) as usize;
            let mut is_upper = false;
            for index in 0..part.units() {
                if let Some(upper) = self.uppers.get_mut(first.saturating_add(index as usize)) {
                    *upper = *upper || is_upper;
                }
                is_upper = !is_upper && part.instruction_word(index).is_some();
            }
        }
        Ok(())
    }

    /// Whether an instruction begins with the unit at an address, as `rrs dis` reads the code.
    pub(crate) fn begins_instruction(&self, address: u32) -> bool {
        match self.uppers.get(self.place_of(address)) {
            Some(upper) => !*upper,
            None => true,
        }
    }

    /// 1 and the place of the first unit that belongs to the function of a number and that a part
    /// has, or 0.
    pub(crate) fn first_of(&self, number: u32) -> u32 {
        entry(&self.firsts, number as usize)
    }

    /// The address of the unit at a place, to which 1 was added, and the next unit of its function;
    /// or `None` for 0.
    pub(crate) fn unit_of(&self, next: u32) -> Option<(u32, u32)> {
        let place = next.checked_sub(1)?;
        let address = self
            .base
            .wrapping_add(place.wrapping_mul(self.unit.bytes()));
        Some((address, entry(&self.nexts, place as usize)))
    }

    /// What the instructions lie in.
    pub fn unit(&self) -> CodeUnit {
        self.unit
    }

    /// The lowest address of code.
    pub fn base(&self) -> u32 {
        self.base
    }

    /// How many units there are from the lowest address of code on, up to 16 MiB.
    pub fn units(&self) -> usize {
        self.owners.len()
    }

    /// The functions, in the order of their addresses.
    pub fn functions(&self) -> &[Function<'a>] {
        &self.functions
    }

    /// Whether a part has the unit at an address.
    pub fn has_unit(&self, address: u32) -> bool {
        for part in &self.parts {
            if self.unit.count(address.wrapping_sub(part.address)) < part.units() {
                return true;
            }
        }
        false
    }

    /// The place of an address among the units from the base on.
    pub(crate) fn place_of(&self, address: u32) -> usize {
        self.unit.count(address.wrapping_sub(self.base)) as usize
    }

    /// The name of an address, if a symbol has it, as far as it is shown.
    pub fn name_at(&self, address: u32) -> Option<&'a [u8]> {
        let name = entry(&self.names, self.place_of(address));
        if name == 0 || !self.unit.begins_at(address) {
            return None;
        }
        shown_part(&self.symbols?, name - 1)
    }

    /// The number of the function that the unit at an address belongs to: 1 more than its place
    /// among the functions, or 0 where it belongs to none.
    pub fn owner_of(&self, address: u32) -> u32 {
        entry(&self.owners, self.place_of(address))
    }

    /// The same of the unit at a place from the lowest address on.
    #[inline]
    pub(crate) fn owner_at(&self, place: usize) -> u32 {
        entry(&self.owners, place)
    }

    /// Whether a function begins at an address.
    pub fn begins_function(&self, address: u32) -> bool {
        match self.function_at(address) {
            Some(function) => function.start == address,
            None => false,
        }
    }

    /// The function that the unit at an address belongs to.
    pub fn function_at(&self, address: u32) -> Option<Function<'a>> {
        let owner = self.owner_of(address);
        self.functions.get(owner.wrapping_sub(1) as usize).copied()
    }
}
