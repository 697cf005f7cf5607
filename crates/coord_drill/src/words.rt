//! Reads the words of a line one after another.

ghost use Rattle.std.specs.Prelude.{◌≡◌, MatchOption, ◌∷◌, [], Some, None, nat_lt, option_and_then, if◌then◌else◌};
ghost use Rattle.coord_drill.specs.Format.{ReadsWords};
ghost use Rattle.coord_drill.specs.Grammar.{words_of, number_of, number, node, group, client, distance};

use coord_types::{Client, Group, NodeId, Version};
use std::marker::Model;

/// The remaining words of a line.
#[derive(Drop)]
pub struct Words<'a> {
    rest: Option<&'a str>,
}

impl<'a> Model for Words<'a> {
    ghost use Rattle.std.specs.Prelude.{ℕ, List, []};
    ghost use Rattle.std.specs.Option.{option_map_or};
    ghost use Rattle.coord_drill.specs.Grammar.{words_of};

    ghost Value = { List (List ℕ) };

    ghost view = { λ a. option_map_or (λ text. words_of text.now) a.rest [] };
}

impl<'a> Words<'a> {
    /// Returns the words of a line, before any of them is read.
    pub fn of(line: &'a str) -> Self
        ensures { result ≡ words_of line.entry.now }
    {
        Words { rest: Some(line) }
    }

    /// Removes and returns the next word, or returns None if no word is left.
    pub fn next(&mut self) -> Option<&'a str>
        ensures { MatchOption result (self.old ≡ []) (λ word. self.old ≡ word.now ∷ self.new) }
    {
        let text = self.rest?;
        match text.split_once(' ') {
            Some((word, rest)) => {
                self.rest = Some(rest);
                Some(word)
            }
            None => {
                self.rest = None;
                Some(text)
            }
        }
    }

    /// Removes the next word and returns its value. Returns None unless the word is a decimal number
    /// below 2^64.
    #[tactic(auto, unfolding(crate::specs::Grammar::number))]
    pub fn number(&mut self) -> Option<u64>
        ensures { ReadsWords (number.read self.old) result self.new }
    {
        number_in(self.next()?)
    }

    /// Removes the next word and returns it as the number of a node, 1 to 64. Returns None for any
    /// other word.
    #[tactic(auto, unfolding(crate::specs::Grammar::node))]
    pub fn node(&mut self) -> Option<NodeId>
        ensures { ReadsWords (node.read self.old) result self.new }
    {
        NodeId::new(small_number_in(self.next()?)?)
    }

    /// Removes the next word and returns it as the number of a group, 1 to 16. Returns None for any
    /// other word.
    #[tactic(auto, unfolding(crate::specs::Grammar::group))]
    pub fn group(&mut self) -> Option<Group>
        ensures { ReadsWords (group.read self.old) result self.new }
    {
        Group::new(small_number_in(self.next()?)?)
    }

    /// Removes the next word and returns it as the number of a client, 1 to 16. Returns None for any
    /// other word.
    #[tactic(auto, unfolding(crate::specs::Grammar::client))]
    pub fn client(&mut self) -> Option<Client>
        ensures { ReadsWords (client.read self.old) result self.new }
    {
        Client::new(small_number_in(self.next()?)?)
    }

    /// Returns the distance of an Abort: in version 2 the next word as a number; in version 1 it is 0,
    /// and no word is read.
    #[tactic(auto, unfolding(crate::specs::Grammar::distance))]
    pub fn distance(&mut self, version: Version) -> Option<u64>
        ensures { ReadsWords ((distance version).read self.old) result self.new }
    {
        if version.number() == 2 {
            self.number()
        } else {
            Some(0)
        }
    }
}

/// Returns the value of a word of decimal digits, if it is below 2^64.
fn number_in(word: &str) -> Option<u64>
    ensures { result ≡ number_of word.now }
{
    // `parse` would accept a leading plus sign.
    if word.starts_with('+') {
        return None;
    }
    word.parse().ok()
}

/// Returns the value of a word of decimal digits, if it is below 256.
fn small_number_in(word: &str) -> Option<u8>
    ensures { result ≡ option_and_then (λ n. if nat_lt n 256 then Some n else None)
        (number_of word.now) }
{
    u8::try_from(number_in(word)?).ok()
}
