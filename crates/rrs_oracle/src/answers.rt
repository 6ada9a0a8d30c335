//! Answering questions, over `rrs_lib` and `rrs_extra`.

use crate::questions::{Question, Steps};
use crate::writing::Pieces;
use rrs_extra::RowNumberer;
use rrs_lib::instruction_executor::{InstructionException, InstructionExecutor};
use rrs_lib::instruction_string_outputter::InstructionStringOutputter;
use rrs_lib::memories::VecMemory;
use rrs_lib::{HartState, process_instruction};
use std::alloc::{AllocError, Global};
use std::io;
use std::io::Write;

/// Writes the answer to a question. What steps return is written as the steps are made.
///
/// # Errors
///
/// The error of a write that fails, or out of memory, where nothing of the answer is written.
pub fn write_answer<W: Write>(alloc: Global, question: Question, out: &mut W) -> io::Result<()> {
    match question {
        Question::Decode(word) => write_row(row_of(word), text_of(alloc, 0, word)?, out),
        Question::Text { pc, word } => write_text(text_of(alloc, pc, word)?, out),
        Question::Steps(steps) => write_steps(steps, out),
    }
}

/// The text of a word at an address, or `None` where the word is no row of the table.
fn text_of(alloc: Global, pc: u32, word: u32) -> Result<Option<String>, AllocError> {
    let mut outputter = InstructionStringOutputter { insn_pc: pc, alloc };
    process_instruction(&mut outputter, word).transpose()
}

/// The number of the row that a word is, or `None` where it is none.
fn row_of(word: u32) -> Option<u32> {
    process_instruction(&mut RowNumberer, word)
}

/// Writes a text, or that there is none.
fn write_text<W: Write>(text: Option<String>, out: &mut W) -> io::Result<()> {
    match text {
        Some(text) => out.write_all(text.as_bytes()),
        None => out.write_all(b"none"),
    }
}

/// Writes the number and the name of a row: the name is the first word of its text.
fn write_row<W: Write>(row: Option<u32>, text: Option<String>, out: &mut W) -> io::Result<()> {
    let mut answer = Pieces::new(out);
    match (row, text) {
        (Some(number), Some(text)) => {
            answer.number("", number as usize);
            answer.text(" ");
            answer.text(first_word(text.as_str()));
        }
        _ => answer.text("none"),
    }
    answer.finish()
}

/// The text up to its first space, or all of it.
fn first_word(text: &str) -> &str {
    match text.split_once(' ') {
        Some((word, _)) => word,
        None => text,
    }
}

/// Makes the steps, and writes what each returns and then the state that they leave.
fn write_steps<W: Write>(steps: Steps, out: &mut W) -> io::Result<()> {
    let Steps {
        count,
        pc,
        last,
        registers,
        memory,
    } = steps;
    let mut hart = HartState {
        registers,
        pc,
        last_register_write: last.map(|register| register.index),
    };
    let mut memory = VecMemory::new(memory);
    let mut answer = Pieces::new(out);
    make_steps(count, &mut hart, &mut memory, &mut answer);
    write_hart(&hart, &mut answer);
    write_memory(&memory.mem, &mut answer);
    answer.finish()
}

/// Makes the steps, and writes what each returns.
fn make_steps<W: Write>(
    count: u32,
    hart: &mut HartState,
    memory: &mut VecMemory,
    answer: &mut Pieces<'_, W>,
) {
    let mut executor = InstructionExecutor {
        mem: memory,
        hart_state: hart,
    };
    let mut separator = "";
    for _ in 0..count {
        let mut answers = [Ok(())];
        executor.step_each(&mut answers);
        answer.text(separator);
        write_step(&answers[0], answer);
        separator = ";";
    }
    if separator.is_empty() {
        answer.text("-");
    }
}

/// Writes what a step returned.
fn write_step<W: Write>(returned: &Result<(), InstructionException>, answer: &mut Pieces<'_, W>) {
    let (before, word) = match returned {
        Ok(()) => return answer.text("Ok"),
        Err(InstructionException::IllegalInstruction(pc, word)) => {
            answer.word("IllegalInstruction 0x", *pc);
            (" 0x", *word)
        }
        Err(InstructionException::FetchError(pc)) => ("FetchError 0x", *pc),
        Err(InstructionException::LoadAccessFault(addr)) => ("LoadAccessFault 0x", *addr),
        Err(InstructionException::StoreAccessFault(addr)) => ("StoreAccessFault 0x", *addr),
        Err(InstructionException::AlignmentFault(addr)) => ("AlignmentFault 0x", *addr),
        Err(InstructionException::EnvironmentCall(pc)) => ("EnvironmentCall 0x", *pc),
        Err(InstructionException::Breakpoint(pc)) => ("Breakpoint 0x", *pc),
    };
    answer.word(before, word);
}

/// Writes the pc, the register that was written last, and the registers that are not 0.
fn write_hart<W: Write>(hart: &HartState, answer: &mut Pieces<'_, W>) {
    answer.word(" pc=0x", hart.pc);
    match hart.last_register_write {
        Some(index) => answer.number(" last=x", index),
        None => answer.text(" last=-"),
    }
    answer.text(" regs=");
    let mut separator = "";
    for (index, value) in hart.registers.iter().enumerate() {
        if *value != 0 {
            answer.text(separator);
            answer.number("x", index);
            answer.word("=0x", *value);
            separator = ",";
        }
    }
    if separator.is_empty() {
        answer.text("-");
    }
}

/// Writes the words of a memory.
fn write_memory<W: Write>(words: &[u32], answer: &mut Pieces<'_, W>) {
    answer.text(" mem=");
    let mut separator = "";
    for word in words {
        answer.text(separator);
        answer.word("0x", *word);
        separator = ",";
    }
    if separator.is_empty() {
        answer.text("-");
    }
}
