//! The stack of a process that starts.

ghost use Rattle.std.specs.Prelude.{◌≡◌, ◌≤◌, ◌<◌, ◌+◌, ◌%◌, ◌^◌, ◌++◌, ◌∷◌, length, map, string_bytes, IfOk, OnOk, IfSome, MatchOption};
ghost use Rattle.rrs_exec.specs.InitialStack.{word_bytes, bytes_of_words, strings, addresses, auxiliary_vector, stack_bytes, stack_pointer, stack_block};

use std::alloc::{AllocError, Global};

/// What a process is told of its program's file.
#[derive(Clone, Copy, Debug, PartialEq)]
pub struct ProgramHeaders {
    /// The address of the program headers, or 0 where they are not in memory.
    pub address: u32,
    /// How many they are.
    pub count: u32,
    /// The address of the first instruction.
    pub entry: u32,
}

/// How many bytes texts have as strings, each with a byte 0 after it, or `None` where they are 2^32
/// or more.
fn string_length(texts: &[String]) -> Option<u32>
    ensures { MatchOption result (2 ^ 32 ≤ length (strings (map string_bytes texts.now)))
        (λ count. count ≡ length (strings (map string_bytes texts.now))) }
{
    let mut count = 0u32;
    for text in texts {
        let length = text.len() as u64;
        if length >= 0x1_0000_0000 {
            return None;
        }
        let more = u64::from(count) + length + 1;
        if more >= 0x1_0000_0000 {
            return None;
        }
        count = more as u32;
    }
    Some(count)
}

/// Where a process starts that has these arguments and environment variables, and whose stack ends
/// below an address, or `None` where what lies there does not fit.
pub fn stack_pointer(end: u32, arguments: &[String], variables: &[String]) -> Option<u32>
    ensures fits { MatchOption result
        (end < stack_bytes (map string_bytes arguments.now) (map string_bytes variables.now))
        (λ sp. sp + stack_bytes (map string_bytes arguments.now) (map string_bytes variables.now)
        ≤ end) }
    ensures highest { IfSome result (λ sp. sp
        ≡ stack_pointer end (map string_bytes arguments.now) (map string_bytes variables.now)) }
    ensures aligned { IfSome result (λ sp. sp % 16 ≡ 0) }
{
    let count = string_length(arguments)?;
    let more = string_length(variables)?;
    if arguments.len() >= 1 << 30 || variables.len() >= 1 << 30 {
        return None;
    }
    let words = arguments.len() as u64 + variables.len() as u64 + 17;
    let bytes = 4 * words + 16 + u64::from(count) + u64::from(more);
    if bytes > u64::from(end) {
        return None;
    }
    Some((end - bytes as u32) / 16 * 16)
}

/// The bytes from sp on, where a process starts: what a program finds of its arguments and
/// environment variables. A variable is a string as `NAME=VALUE` by habit (environ(7)), and here it
/// may be any.
///
/// # Errors
///
/// Out of memory for the bytes.
pub fn initial_stack(
    alloc: Global,
    arguments: &[String],
    variables: &[String],
    headers: ProgramHeaders,
    sp: u32,
) -> Result<Vec<u8>, AllocError>
    requires { sp + stack_bytes (map string_bytes arguments.now) (map string_bytes variables.now)
        < 2 ^ 32 }
    ensures { IfOk result (λ block. block.items
        ≡ stack_block sp (map string_bytes arguments.now) (map string_bytes variables.now)
        headers) }
{
    let count = arguments.len() as u32;
    let random = sp + 4 * (count + variables.len() as u32 + 17);
    let mut block = Vec::new(alloc);
    push_word(&mut block, count)?;
    let behind = push_addresses(&mut block, random + 16, arguments)?;
    push_addresses(&mut block, behind, variables)?;
    push_words(&mut block, &auxiliary_vector(headers, random))?;
    block.extend_from_slice(&[0; 16])?;
    push_strings(&mut block, arguments)?;
    push_strings(&mut block, variables)?;
    Ok(block)
}

/// The types of the auxiliary vector and their values.
fn auxiliary_vector(headers: ProgramHeaders, random: u32) -> [u32; 14]
    ensures { result ≡ auxiliary_vector headers random }
{
    [
        3,
        headers.address,
        4,
        32,
        5,
        headers.count,
        6,
        4096,
        9,
        headers.entry,
        25,
        random,
        0,
        0,
    ]
}

/// Appends a word, its lowest byte first.
fn push_word(block: &mut Vec<u8>, word: u32) -> Result<(), AllocError>
    ensures { OnOk result (block.new.items ≡ block.old.items ++ word_bytes word) }
{
    block.extend_from_slice(&[
        (word % 256) as u8,
        (word / 256 % 256) as u8,
        (word / 65536 % 256) as u8,
        (word / 16777216 % 256) as u8,
    ])
}

/// Appends words.
fn push_words(block: &mut Vec<u8>, words: &[u32]) -> Result<(), AllocError>
    ensures { OnOk result (block.new.items ≡ block.old.items ++ bytes_of_words words.now) }
{
    for word in words {
        push_word(block, *word)?;
    }
    Ok(())
}

/// Appends the addresses of strings, of which the first is at an address, and 0. The answer is the
/// address behind the last of the strings.
fn push_addresses(block: &mut Vec<u8>, start: u32, texts: &[String]) -> Result<u32, AllocError>
    requires { start + length (strings (map string_bytes texts.now)) < 2 ^ 32 }
    ensures pushed { OnOk result (block.new.items ≡ block.old.items
        ++ bytes_of_words (addresses start (map string_bytes texts.now)) ++ word_bytes 0) }
    ensures behind { IfOk result (λ end.
        end ≡ start + length (strings (map string_bytes texts.now))) }
{
    let mut address = start;
    for text in texts {
        push_word(block, address)?;
        address += text.len() as u32 + 1;
    }
    push_word(block, 0)?;
    Ok(address)
}

/// Appends strings, with a byte 0 after each.
fn push_strings(block: &mut Vec<u8>, texts: &[String]) -> Result<(), AllocError>
    ensures { OnOk result
        (block.new.items ≡ block.old.items ++ strings (map string_bytes texts.now)) }
{
    for text in texts {
        block.extend_from_slice(text.as_bytes())?;
        block.extend_from_slice(&[0])?;
    }
    Ok(())
}
