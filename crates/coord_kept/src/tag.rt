//! Compares a message's tag with the tag of its receiver.

ghost use Rattle.std.specs.Prelude.{◌≡◌, ◌≤◌, length};
ghost use Rattle.std.specs.List.{position_or_len};
ghost use Rattle.coord_kept.specs.Tag.{are_parted, is_dash, is_same_run, run_of, shown_of};

/// Returns the position of the first dash of a tag, or the tag's length if it has none.
#[tactic(auto, using(crate::proofs::Dashes::first_dash))]
fn dash_in(tag: &[u8]) -> usize
    ensures is { result ≡ position_or_len is_dash tag.now }
    ensures within { result ≤ length tag.now }
{
    let mut place = 0;
    while place < tag.len() && tag[place] != b'-' {
        place += 1;
    }
    place
}

/// Returns the part of a tag before the dash, the digest of the party with which its start first
/// talked.
fn run_of(tag: &[u8]) -> &[u8]
    ensures { result.now ≡ run_of tag.now }
{
    tag.split_at(dash_in(tag)).0
}

/// Returns the part of a tag after the dash, the digest of the party that its start saw last.
fn shown_of(tag: &[u8]) -> &[u8]
    ensures { result.now ≡ shown_of tag.now }
{
    let place = dash_in(tag);
    if place < tag.len() {
        tag.split_at(place + 1).1
    } else {
        tag.split_at(place).1
    }
}

/// Returns whether a message with the tag `other` belongs to the run of `own`, its receiver's tag.
/// A receiver without a tag accepts no message.
pub fn is_same_run(own: &[u8], other: &[u8]) -> bool
    ensures { result ≡ is_same_run own.now other.now }
{
    !own.is_empty() && run_of(own) == run_of(other)
}

/// Tests whether two starts will always refuse each other's messages: they talk in different runs,
/// although both last saw the same party.
pub fn are_parted(own: &[u8], other: &[u8]) -> bool
    ensures { result ≡ are_parted own.now other.now }
{
    if own.is_empty() || other.is_empty() {
        return false;
    }
    run_of(own) != run_of(other) && shown_of(own) == shown_of(other)
}
