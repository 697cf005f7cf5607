//! The digest of a party's lines, and the tag of a start's messages.

ghost use Rattle.std.specs.Prelude.{◌≡◌, ◌++◌, [], codes, IfOk, OnOk, string_bytes};
ghost use Rattle.coord_kept.specs.Digest.{digest_of, fence_tag, half_of, history_line, line_of, tag_of, text_of, word_line};

use sha2::{Digest, Sha256};
use std::alloc::{AllocError, Global};

/// Appends a line.
fn push_line(text: &mut String, line: &str) -> Result<(), AllocError>
    ensures { OnOk result (string_bytes text.new ≡ string_bytes text.old ++ (line.now ++ codes "\n")) }
{
    text.push_str(line)?;
    text.push_str("\n")
}

/// Returns the text to digest: the word as its first line, unless it is empty, and then these
/// lines.
fn text_of(alloc: Global, word: &str, lines: &[String]) -> Result<String, AllocError>
    ensures { IfOk result (λ text. string_bytes text ≡ text_of word.now lines.now) }
{
    let mut text = String::new(alloc);
    if !word.is_empty() {
        push_line(&mut text, word)?;
    }
    for line in lines {
        push_line(&mut text, line.as_str())?;
    }
    Ok(text)
}

/// Returns the digest of the word and these lines, as 64 hexadecimal digits.
pub fn digest_of(alloc: Global, word: &str, lines: &[String]) -> Result<String, AllocError>
    ensures { IfOk result (λ digest. string_bytes digest ≡ digest_of word.now lines.now) }
{
    let text = text_of(alloc, word, lines)?;
    let digest = Sha256::digest(text.as_bytes());
    hex::encode(alloc, &digest[..])
}

/// Returns the first 32 digits of the digest.
fn half_of(alloc: Global, word: &str, lines: &[String]) -> Result<String, AllocError>
    ensures { IfOk result (λ digest. string_bytes digest ≡ half_of word.now lines.now) }
{
    let text = text_of(alloc, word, lines)?;
    let digest = Sha256::digest(text.as_bytes());
    hex::encode(alloc, &digest[..16])
}

/// Returns the tag of a start that first talked with the party `first` and now sees the party
/// `shown`. The tag of a start that was alone is empty.
pub fn tag_of(
    alloc: Global,
    word: &str,
    first: &[String],
    shown: &[String],
) -> Result<String, AllocError>
    ensures { IfOk result (λ tag. string_bytes tag ≡ tag_of word.now first.now shown.now) }
{
    if first.len() == 1 {
        return Ok(String::new(alloc));
    }
    let mut tag = half_of(alloc, word, first)?;
    tag.push_str("-")?;
    tag.push_str(half_of(alloc, word, shown)?.as_str())?;
    Ok(tag)
}

/// Returns the fence tag of a start that first talked with this party and whose fence has this
/// count.
pub fn fence_tag(
    alloc: Global,
    word: &str,
    count: u64,
    first: &[String],
) -> Result<String, AllocError>
    ensures { IfOk result (λ tag. string_bytes tag ≡ fence_tag word.now count first.now) }
{
    if first.len() == 1 {
        let own = format!(in alloc; "{word}@{count}")?;
        return half_of(alloc, own.as_str(), first);
    }
    half_of(alloc, word, first)
}

/// Returns the line that the history gets for a party.
pub fn history_line(alloc: Global, lines: &[String]) -> Result<String, AllocError>
    ensures { IfOk result (λ line. string_bytes line ≡ history_line lines.now) }
{
    let mut line = digest_of(alloc, "", lines)?;
    line.push_str("\n")?;
    Ok(line)
}
