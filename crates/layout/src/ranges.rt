//! Numbers with a range of their own.

ghost use Rattle.layout.specs.declared.error.ReadError.TheVariants as read_error;
ghost use Rattle.std.specs.Prelude.{◌≢◌, IfErr, ◌≡◌, ◌<◌, ◌≤◌, ◌⊎◌, OnErr, OnOk, ◌+◌, ◌++◌, MatchOption};
ghost use Rattle.std.specs.Int.{w8, w16, w32};
ghost use Rattle.layout.specs.Format.{IsBytes, Reads, be};
ghost use Rattle.layout.specs.Ranges.{user, group, principal, version, last_version, i_number};

use crate::error::{Memory, ReadError};
use crate::reader::Reader;
use crate::writer::Writer;
use std::alloc::Allocator;
use std::marker::Model;

/// A user, 0 to 63. User 0 is the superuser.
#[derive(Clone, Copy, Debug, PartialEq, Eq, PartialOrd, Ord, Hash)]
pub struct User(u8);

impl Model for User {
    ghost use Rattle.std.specs.Prelude.{ℕ, ◌<◌};

    ghost Value = { ℕ };

    ghost view = { λ u. u.0 };

    ghost invariant = { λ u. u.0 < 64 };

    ghost inverse = { λ n. record { 0 = n } };
}

impl User {
    /// The user of this number, if it is one.
    pub fn new(number: u8) -> Option<User>
        ensures { MatchOption result (64 ≤ number) (λ user. user ≡ number) }
    {
        if number < 64 {
            Some(User(number))
        } else {
            None
        }
    }

    /// User 0, whose key each client knows.
    pub fn superuser() -> User
        ensures { result ≡ 0 }
    {
        User(0)
    }

    /// The user's number.
    #[tactic(auto, using(crate::specs::Laws::in_range_fits))]
    pub fn get(self) -> u8
        ensures same { result ≡ self }
        ensures range { self < 64 }
        ensures fits { user.Fits self }
    {
        self.0
    }
}

/// A group, 64 to 95.
#[derive(Clone, Copy, Debug, PartialEq, Eq, PartialOrd, Ord, Hash)]
pub struct Group(u8);

impl Model for Group {
    ghost use Rattle.std.specs.Prelude.{ℕ, ◌<◌, ◌≤◌};

    ghost Value = { ℕ };

    ghost view = { λ g. g.0 };

    ghost invariant = { λ g. (64 ≤ g.0) × (g.0 < 96) };

    ghost inverse = { λ n. record { 0 = n } };
}

impl Group {
    /// The group of this number, if it is one.
    pub fn new(number: u8) -> Option<Group>
        ensures some { MatchOption result (number < 64 ⊎ 96 ≤ number) (λ group. group ≡ number) }
    {
        if (64..96).contains(&number) {
            Some(Group(number))
        } else {
            None
        }
    }

    /// The group's number.
    #[tactic(auto, using(crate::specs::Laws::in_range_fits))]
    pub fn get(self) -> u8
        ensures same { result ≡ self }
        ensures low { 64 ≤ self }
        ensures high { self < 96 }
        ensures fits { group.Fits self }
    {
        self.0
    }
}

/// A user or a group, 0 to 95.
#[derive(Clone, Copy, Debug, PartialEq, Eq, PartialOrd, Ord, Hash)]
pub struct Principal(u8);

impl Model for Principal {
    ghost use Rattle.std.specs.Prelude.{ℕ, ◌<◌};

    ghost Value = { ℕ };

    ghost view = { λ p. p.0 };

    ghost invariant = { λ p. p.0 < 96 };

    ghost inverse = { λ n. record { 0 = n } };
}

impl Principal {
    /// The principal of this number, if it is one.
    pub fn new(number: u8) -> Option<Principal>
        ensures { MatchOption result (96 ≤ number) (λ principal. principal ≡ number) }
    {
        if number < 96 {
            Some(Principal(number))
        } else {
            None
        }
    }

    /// The principal's number.
    #[tactic(auto, using(crate::specs::Laws::in_range_fits))]
    pub fn get(self) -> u8
        ensures same { result ≡ self }
        ensures range { self < 96 }
        ensures fits { principal.Fits self }
    {
        self.0
    }
}

impl From<User> for Principal {
    ghost from_gives = { λ user principal. principal ≡ user };

    fn from(user: User) -> Principal {
        Principal(user.get())
    }
}

impl From<Group> for Principal {
    ghost from_gives = { λ group principal. principal ≡ group };

    fn from(group: Group) -> Principal {
        Principal(group.get())
    }
}

/// The number of an operation, or of a group's state: 1 to 4,294,967,295.
#[derive(Clone, Copy, Debug, PartialEq, Eq, PartialOrd, Ord, Hash)]
pub struct Version(u32);

impl Model for Version {
    ghost use Rattle.std.specs.Prelude.{ℕ, ◌<◌, ◌^◌};

    ghost Value = { ℕ };

    ghost view = { λ v. v.0 };

    ghost invariant = { λ v. (0 < v.0) × (v.0 < 2 ^ 32) };

    ghost inverse = { λ n. record { 0 = n } };
}

impl Version {
    /// The version of this number, if it is one.
    pub fn new(number: u32) -> Option<Version>
        ensures { MatchOption result (number ≡ 0) (λ version. version ≡ number) }
    {
        if number == 0 {
            None
        } else {
            Some(Version(number))
        }
    }

    /// The first version.
    pub fn first() -> Version
        ensures { result ≡ 1 }
    {
        Version(1)
    }

    /// The one after it, if it isn't the last one.
    pub fn next(self) -> Option<Version>
        ensures { MatchOption result (self ≡ last_version) (λ next. next ≡ self + 1) }
    {
        let number = self.0.checked_add(1)?;
        Some(Version(number))
    }

    /// Its number.
    #[tactic(auto, using(crate::specs::Laws::in_range_fits))]
    pub fn get(self) -> u32
        ensures same { result ≡ self }
        ensures positive { 0 < self }
        ensures fits { version.Fits self }
    {
        self.0
    }
}

/// The number of a file or directory among those of its principal: 1 to 4,095.
#[derive(Clone, Copy, Debug, PartialEq, Eq, PartialOrd, Ord, Hash)]
pub struct INumber(u16);

impl Model for INumber {
    ghost use Rattle.std.specs.Prelude.{ℕ, ◌<◌};

    ghost Value = { ℕ };

    ghost view = { λ i. i.0 };

    ghost invariant = { λ i. (0 < i.0) × (i.0 < 4096) };

    ghost inverse = { λ n. record { 0 = n } };
}

impl INumber {
    /// The i-number of this number, if it is one.
    pub fn new(number: u16) -> Option<INumber>
        ensures { MatchOption result (number ≡ 0 ⊎ 4096 ≤ number) (λ i_number. i_number ≡ number) }
    {
        if (1..4096).contains(&number) {
            Some(INumber(number))
        } else {
            None
        }
    }

    /// 1, where the table of principals stands among user 0's.
    pub fn table() -> INumber
        ensures { result ≡ 1 }
    {
        INumber(1)
    }

    /// 2, where the root directory stands among user 0's.
    pub fn root() -> INumber
        ensures { result ≡ 2 }
    {
        INumber(2)
    }

    /// Its number.
    #[tactic(auto, using(crate::specs::Laws::in_range_fits))]
    pub fn get(self) -> u16
        ensures same { result ≡ self }
        ensures positive { 0 < self }
        ensures range { self < 4096 }
        ensures fits { i_number.Fits self }
    {
        self.0
    }
}

impl Reader<'_> {
    /// A user.
    pub fn user(&mut self) -> Result<User, ReadError>
        ensures reads { Reads result self.new (user.read self.old) }
        ensures bytes { IsBytes self.old }
        ensures no_memory { IfErr result (λ e. e ≢ read_error.Memory) }
        ensures err { OnErr result (self.new ≡ self.old) }
    {
        let number = self.u8_in(0, 63)?;
        Ok(User(number))
    }

    /// A group.
    pub fn group(&mut self) -> Result<Group, ReadError>
        ensures reads { Reads result self.new (group.read self.old) }
        ensures bytes { IsBytes self.old }
        ensures no_memory { IfErr result (λ e. e ≢ read_error.Memory) }
        ensures err { OnErr result (self.new ≡ self.old) }
    {
        let number = self.u8_in(64, 95)?;
        Ok(Group(number))
    }

    /// A user or a group.
    pub fn principal(&mut self) -> Result<Principal, ReadError>
        ensures reads { Reads result self.new (principal.read self.old) }
        ensures bytes { IsBytes self.old }
        ensures no_memory { IfErr result (λ e. e ≢ read_error.Memory) }
        ensures err { OnErr result (self.new ≡ self.old) }
    {
        let number = self.u8_in(0, 95)?;
        Ok(Principal(number))
    }

    /// A version.
    pub fn version(&mut self) -> Result<Version, ReadError>
        ensures reads { Reads result self.new (version.read self.old) }
        ensures bytes { IsBytes self.old }
        ensures no_memory { IfErr result (λ e. e ≢ read_error.Memory) }
        ensures err { OnErr result (self.new ≡ self.old) }
    {
        let number = self.u32_in(1, u32::MAX)?;
        Ok(Version(number))
    }

    /// An i-number.
    pub fn i_number(&mut self) -> Result<INumber, ReadError>
        ensures reads { Reads result self.new (i_number.read self.old) }
        ensures bytes { IsBytes self.old }
        ensures no_memory { IfErr result (λ e. e ≢ read_error.Memory) }
        ensures err { OnErr result (self.new ≡ self.old) }
    {
        let number = self.u16_in(1, 4095)?;
        Ok(INumber(number))
    }
}

impl<A: Allocator> Writer<A> {
    /// A user, as one byte.
    pub fn user(&mut self, user: User) -> Result<(), Memory>
        ensures ok { OnOk result (self.new ≡ self.old ++ be w8 user) }
        ensures err { OnErr result (self.new ≡ self.old) }
    {
        self.u8(user.get())
    }

    /// A group, as one byte.
    pub fn group(&mut self, group: Group) -> Result<(), Memory>
        ensures ok { OnOk result (self.new ≡ self.old ++ be w8 group) }
        ensures err { OnErr result (self.new ≡ self.old) }
    {
        self.u8(group.get())
    }

    /// A principal, as one byte.
    pub fn principal(&mut self, principal: Principal) -> Result<(), Memory>
        ensures ok { OnOk result (self.new ≡ self.old ++ be w8 principal) }
        ensures err { OnErr result (self.new ≡ self.old) }
    {
        self.u8(principal.get())
    }

    /// A version, as four bytes.
    pub fn version(&mut self, version: Version) -> Result<(), Memory>
        ensures ok { OnOk result (self.new ≡ self.old ++ be w32 version) }
        ensures err { OnErr result (self.new ≡ self.old) }
    {
        self.u32(version.get())
    }

    /// An i-number, as two bytes.
    pub fn i_number(&mut self, number: INumber) -> Result<(), Memory>
        ensures ok { OnOk result (self.new ≡ self.old ++ be w16 number) }
        ensures err { OnErr result (self.new ≡ self.old) }
    {
        self.u16(number.get())
    }
}
