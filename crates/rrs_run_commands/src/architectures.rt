//! The names of architectures, as gcc's `-march` takes them.

ghost use Rattle.std.specs.Prelude.{◌≡◌, ◌≢◌, ◌++◌, ℕ, List, Some, MatchOption, IfSome, codes, false};
ghost use Rattle.rrs_words.specs.declared.csrs.HartProfile.{HartProfile as Profile};
ghost use Rattle.rrs_run_commands.specs.declared.architectures.Extension.{Extension as AnExtension};
ghost use Rattle.rrs_run_commands.specs.declared.architectures.Extensions.{Extensions as TheExtensions};
ghost use Rattle.rrs_run_commands.specs.Architectures.{named, all_named, no_extensions, with_one, with_all, letter, march_hart, IsMarch};

use rrs_hart::HartProfile;

/// An extension that stands behind the letters of an architecture.
#[derive(Clone, Copy)]
enum Extension {
    /// Instructions on CSRs.
    Zicsr,
    /// `fence.i`.
    Zifencei,
    /// Addresses.
    Zba,
    /// Basic bit manipulation.
    Zbb,
    /// Single bits.
    Zbs,
    /// Products without carries.
    Zbc,
    /// Bit manipulation for cryptography.
    Zbkb,
    /// Conditional zeros.
    Zicond,
}

/// Which of them there are.
#[derive(Clone, Copy)]
struct Extensions {
    zicsr: bool,
    fence_i: bool,
    zba: bool,
    zbb: bool,
    zbs: bool,
    zbc: bool,
    zbkb: bool,
    zicond: bool,
}

/// The extension whose name a text begins with, and what stands behind it.
fn split_extension(text: &str) -> Option<(Extension, &str)>
    ensures { MatchOption result
        ((e : AnExtension) (rest : List ℕ) → text.now ≢ named e ++ rest)
        (λ x. text.now ≡ named x.0 ++ x.1.now) }
{
    if let Some(rest) = text.strip_prefix("_zicsr") {
        return Some((Extension::Zicsr, rest));
    }
    if let Some(rest) = text.strip_prefix("_zifencei") {
        return Some((Extension::Zifencei, rest));
    }
    if let Some(rest) = text.strip_prefix("_zba") {
        return Some((Extension::Zba, rest));
    }
    if let Some(rest) = text.strip_prefix("_zbb") {
        return Some((Extension::Zbb, rest));
    }
    if let Some(rest) = text.strip_prefix("_zbs") {
        return Some((Extension::Zbs, rest));
    }
    if let Some(rest) = text.strip_prefix("_zbc") {
        return Some((Extension::Zbc, rest));
    }
    if let Some(rest) = text.strip_prefix("_zbkb") {
        return Some((Extension::Zbkb, rest));
    }
    if let Some(rest) = text.strip_prefix("_zicond") {
        return Some((Extension::Zicond, rest));
    }
    None
}

/// These extensions and one more, which is not among them.
fn with_one(known: Extensions, extension: Extension) -> Option<Extensions>
    ensures { result ≡ with_one known extension }
{
    match extension {
        Extension::Zicsr if !known.zicsr => Some(Extensions {
            zicsr: true,
            ..known
        }),
        Extension::Zifencei if !known.fence_i => Some(Extensions {
            fence_i: true,
            ..known
        }),
        Extension::Zba if !known.zba => Some(Extensions { zba: true, ..known }),
        Extension::Zbb if !known.zbb => Some(Extensions { zbb: true, ..known }),
        Extension::Zbs if !known.zbs => Some(Extensions { zbs: true, ..known }),
        Extension::Zbc if !known.zbc => Some(Extensions { zbc: true, ..known }),
        Extension::Zbkb if !known.zbkb => Some(Extensions {
            zbkb: true,
            ..known
        }),
        Extension::Zicond if !known.zicond => Some(Extensions {
            zicond: true,
            ..known
        }),
        _ => None,
    }
}

/// The extensions of a text, and those that are known.
fn extensions_of(text: &str, known: Extensions) -> Option<Extensions>
    ensures { MatchOption result
        ((es : List AnExtension) (x : TheExtensions) → text.now ≡ all_named es
        → with_all (Some known) es ≢ Some x)
        (λ x. (es : List AnExtension) × (text.now ≡ all_named es)
        × (with_all (Some known) es ≡ Some x)) }
{
    if text.is_empty() {
        return Some(known);
    }
    let Some((extension, rest)) = split_extension(text) else {
        return None;
    };
    let Some(more) = with_one(known, extension) else {
        return None;
    };
    extensions_of(rest, more)
}

/// Whether a text begins with a letter, and what stands behind it.
fn split_letter<'a>(text: &'a str, name: &str) -> (bool, &'a str)
    ensures is { text.now ≡ letter result.0 name.now ++ result.1.now }
    ensures no { result.0 ≡ false → (rest : List ℕ) → text.now ≢ name.now ++ rest }
{
    match text.strip_prefix(name) {
        Some(rest) => (true, rest),
        None => (false, text),
    }
}

/// The hart of the architecture that a word names, as gcc's `-march` does: RV32IM, with A and C or
/// without, and behind these Zicsr, Zifencei, Zba, Zbb, Zbs, Zbc, Zbkb and Zicond in any order, each
/// once at most.
pub fn march_of(word: &str) -> Option<HartProfile>
    ensures { MatchOption result ((profile : Profile) → IsMarch word.now profile → ⊥)
        (IsMarch word.now) }
{
    let rest = word.strip_prefix("rv32im")?;
    let (atomics, rest) = split_letter(rest, "a");
    let (compressed, rest) = split_letter(rest, "c");
    let none = Extensions {
        zicsr: false,
        fence_i: false,
        zba: false,
        zbb: false,
        zbs: false,
        zbc: false,
        zbkb: false,
        zicond: false,
    };
    let Some(extensions) = extensions_of(rest, none) else {
        return None;
    };
    Some(HartProfile {
        atomics,
        fence_i: extensions.fence_i,
        misaligned: true,
        compressed,
        zba: extensions.zba,
        zbb: extensions.zbb,
        zbs: extensions.zbs,
        zbc: extensions.zbc,
        zbkb: extensions.zbkb,
        zicond: extensions.zicond,
    })
}
