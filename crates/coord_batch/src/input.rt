//! Reads fields from bytes, from the left.

ghost use Rattle.std.specs.Prelude.{◌≡◌, ◌≤◌, length, IfOk};
ghost use Rattle.coord_batch.specs.Reading.{ReadsSpelled};
ghost use Rattle.coord_batch.specs.Format.{byte, u16, u64};
ghost use Rattle.coord_batch.specs.Fields.{at_most, client, from_one, distance, from_one_to, group, how_many, message, node};

use crate::fault::{Flaw, ReadError};
use coord_types::{Client, Group, Msg, NodeId, Version};
use std::marker::Model;

/// The bytes that have not been read yet. Each method reads one field, in the format of the same
/// name. It fails with `Short` if the bytes end inside the field, and with `BadByte` if the field's
/// value is out of range. After an error the remaining bytes are unspecified.
#[derive(Drop)]
pub struct Input<'a> {
    rest: &'a [u8],
}

impl<'a> Model for Input<'a> {
    ghost use Rattle.std.specs.Prelude.{ℕ, List};
    ghost use Rattle.std.specs.Coded.{coded_ℕ, coded_list};

    ghost Value = { List ℕ };

    ghost coded = { coded_list coded_ℕ };

    ghost view = { λ a. a.rest.now };
}

impl<'a> Input<'a> {
    /// Returns an input in which all these bytes are unread.
    pub fn new(bytes: &'a [u8]) -> Self
        ensures { result ≡ bytes.now }
    {
        Input { rest: bytes }
    }

    /// Returns the number of remaining bytes.
    pub fn left(&self) -> usize
        ensures { result ≡ length self.now }
    {
        self.rest.len()
    }

    /// Reads the next byte.
    pub fn byte(&mut self) -> Result<u8, ReadError>
        ensures { ReadsSpelled (λ x. x) result (byte.read self.old) self.new }
    {
        match self.rest {
            [] => Err(ReadError::Flaw(Flaw::Short)),
            [byte, rest @ ..] => {
                self.rest = rest;
                Ok(*byte)
            }
        }
    }

    /// Reads a number of two bytes, most significant first.
    pub fn u16(&mut self) -> Result<u16, ReadError>
        ensures { ReadsSpelled (λ x. x) result (u16.read self.old) self.new }
    {
        if self.rest.len() < 2 {
            return Err(ReadError::Flaw(Flaw::Short));
        }
        let (front, rest) = self.rest.split_at(2);
        self.rest = rest;
        Ok(u16::from_be_bytes([front[0], front[1]]))
    }

    /// Reads a number of eight bytes, most significant first.
    pub fn u64(&mut self) -> Result<u64, ReadError>
        ensures { ReadsSpelled (λ x. x) result (u64.read self.old) self.new }
    {
        if self.rest.len() < 8 {
            return Err(ReadError::Flaw(Flaw::Short));
        }
        let (front, rest) = self.rest.split_at(8);
        self.rest = rest;
        Ok(u64::from_be_bytes([
            front[0], front[1], front[2], front[3], front[4], front[5], front[6], front[7],
        ]))
    }

    /// Reads a node: a byte from 1 to 64.
    #[tactic(auto, unfolding(crate::specs::Fields::node))]
    pub fn node(&mut self) -> Result<NodeId, ReadError>
        ensures { ReadsSpelled (λ x. x) result (node.read self.old) self.new }
    {
        let left = self.left();
        let number = self.byte()?;
        NodeId::new(number).ok_or(ReadError::bad_byte(left))
    }

    /// Reads a group: a byte from 1 to 16.
    #[tactic(auto, unfolding(crate::specs::Fields::group))]
    pub fn group(&mut self) -> Result<Group, ReadError>
        ensures { ReadsSpelled (λ x. x) result (group.read self.old) self.new }
    {
        let left = self.left();
        let number = self.byte()?;
        Group::new(number).ok_or(ReadError::bad_byte(left))
    }

    /// Reads a client: a byte from 1 to 16.
    #[tactic(auto, unfolding(crate::specs::Fields::client))]
    pub fn client(&mut self) -> Result<Client, ReadError>
        ensures { ReadsSpelled (λ x. x) result (client.read self.old) self.new }
    {
        let left = self.left();
        let number = self.byte()?;
        Client::new(number).ok_or(ReadError::bad_byte(left))
    }

    /// Reads a distance: eight bytes, at most `most`. In version 1 a distance takes no bytes and is 0.
    #[tactic(auto, unfolding(crate::specs::Fields::distance, crate::specs::Fields::unless))]
    pub fn distance(&mut self, version: Version, most: u64) -> Result<u64, ReadError>
        ensures { ReadsSpelled (λ x. x) result ((distance version most).read self.old) self.new }
    {
        if version.number() == 1 {
            return Ok(0);
        }
        self.at_most(most)
    }

    /// Reads a message: 0 for an Abort, followed by a distance of at most `most`; 1 for an Ack; 2
    /// for a Ready.
    #[tactic(auto, unfolding(crate::specs::Fields::message, crate::specs::Fields::message_case))]
    pub fn message(&mut self, version: Version, most: u64) -> Result<Msg, ReadError>
        ensures { ReadsSpelled (λ x. x) result ((message version most).read self.old) self.new }
    {
        let left = self.left();
        match self.byte()? {
            0 => Ok(Msg::Abort(self.distance(version, most)?)),
            1 => Ok(Msg::Ack),
            2 => Ok(Msg::Ready),
            _ => Err(ReadError::bad_byte(left)),
        }
    }

    /// Reads a number of eight bytes, at least 1.
    #[tactic(auto, unfolding(crate::specs::Fields::from_one))]
    pub fn from_one(&mut self) -> Result<u64, ReadError>
        ensures { ReadsSpelled (λ x. x) result (from_one.read self.old) self.new }
    {
        let left = self.left();
        let number = self.u64()?;
        if number < 1 {
            return Err(ReadError::bad_byte(left));
        }
        Ok(number)
    }

    /// Reads a number of eight bytes, at most `most`.
    #[tactic(auto, unfolding(crate::specs::Fields::at_most))]
    pub fn at_most(&mut self, most: u64) -> Result<u64, ReadError>
        ensures { ReadsSpelled (λ x. x) result ((at_most most).read self.old) self.new }
    {
        let left = self.left();
        let number = self.u64()?;
        if number > most {
            return Err(ReadError::bad_byte(left));
        }
        Ok(number)
    }

    /// Reads a number of eight bytes, from 1 to `most`.
    #[tactic(auto, unfolding(crate::specs::Fields::from_one_to))]
    pub fn from_one_to(&mut self, most: u64) -> Result<u64, ReadError>
        ensures { ReadsSpelled (λ x. x) result ((from_one_to most).read self.old) self.new }
    {
        let left = self.left();
        let number = self.u64()?;
        if number < 1 || number > most {
            return Err(ReadError::bad_byte(left));
        }
        Ok(number)
    }

    /// Reads the number of items: a byte, at most `most`.
    #[tactic(auto, unfolding(crate::specs::Fields::how_many))]
    pub fn how_many(&mut self, most: u8) -> Result<u8, ReadError>
        ensures read { ReadsSpelled (λ x. x) result ((how_many most).read self.old) self.new }
        ensures most { IfOk result (λ n. n ≤ most) }
    {
        let left = self.left();
        let number = self.byte()?;
        if number > most {
            return Err(ReadError::bad_byte(left));
        }
        Ok(number)
    }
}
