//! The names of CSRs.

ghost use Rattle.std.specs.Prelude.{◌≡◌, ◌≤◌, length};
ghost use Rattle.rrs_words.specs.CsrNumbers.{setup_csrs, user_mode_csrs, handling_csrs, counter_csrs, reading_csrs, information_csrs};
ghost use Rattle.rrs_words.specs.SystemTexts.{name_among, or_else as first_of, table_name};

/// The names of the CSRs that set traps up. Empty where there is none, as below.
fn setup_name(number: u32) -> &'static str
    ensures name { result.now ≡ name_among setup_csrs number }
    ensures length { length result.now ≤ 13 }
{
    match number {
        0x300 => "mstatus",
        0x301 => "misa",
        0x304 => "mie",
        0x305 => "mtvec",
        0x310 => "mstatush",
        0x320 => "mcountinhibit",
        _ => "",
    }
}

/// Those that are there where user mode is.
fn user_mode_name(number: u32) -> &'static str
    ensures name { result.now ≡ name_among user_mode_csrs number }
    ensures length { length result.now ≤ 13 }
{
    match number {
        0x306 => "mcounteren",
        0x30a => "menvcfg",
        0x31a => "menvcfgh",
        _ => "",
    }
}

/// Those that a handler of traps uses.
fn handling_name(number: u32) -> &'static str
    ensures name { result.now ≡ name_among handling_csrs number }
    ensures length { length result.now ≤ 13 }
{
    match number {
        0x340 => "mscratch",
        0x341 => "mepc",
        0x342 => "mcause",
        0x343 => "mtval",
        0x344 => "mip",
        _ => "",
    }
}

/// Those of the counters.
fn counter_name(number: u32) -> &'static str
    ensures name { result.now ≡ name_among counter_csrs number }
    ensures length { length result.now ≤ 13 }
{
    match number {
        0xb00 => "mcycle",
        0xb02 => "minstret",
        0xb80 => "mcycleh",
        0xb82 => "minstreth",
        _ => "",
    }
}

/// Those of the counters and the time, as a program reads them.
fn reading_name(number: u32) -> &'static str
    ensures name { result.now ≡ name_among reading_csrs number }
    ensures length { length result.now ≤ 13 }
{
    match number {
        0xc00 => "cycle",
        0xc01 => "time",
        0xc02 => "instret",
        0xc80 => "cycleh",
        0xc81 => "timeh",
        0xc82 => "instreth",
        _ => "",
    }
}

/// Those that tell which hart it is.
fn information_name(number: u32) -> &'static str
    ensures name { result.now ≡ name_among information_csrs number }
    ensures length { length result.now ≤ 13 }
{
    match number {
        0xf11 => "mvendorid",
        0xf12 => "marchid",
        0xf13 => "mimpid",
        0xf14 => "mhartid",
        0xf15 => "mconfigptr",
        _ => "",
    }
}

/// The first of two names that is not empty.
fn or_else(name: &'static str, other: &'static str) -> &'static str
    requires lengths { (length name.now ≤ 13) × (length other.now ≤ 13) }
    ensures name { result.now ≡ first_of name.now other.now }
    ensures length { length result.now ≤ 13 }
{
    if name.is_empty() { other } else { name }
}

/// The name of a CSR in the tables, empty where there is none.
pub(crate) fn table_name(number: u32) -> &'static str
    ensures name { result.now ≡ table_name number }
    ensures length { length result.now ≤ 13 }
{
    let behind_counters = or_else(reading_name(number), information_name(number));
    let behind_handling = or_else(counter_name(number), behind_counters);
    let behind_user_mode = or_else(handling_name(number), behind_handling);
    let behind_setup = or_else(user_mode_name(number), behind_user_mode);
    or_else(setup_name(number), behind_setup)
}
