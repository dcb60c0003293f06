//! What a name stands for.

ghost use Rattle.layout.specs.declared.error.ReadError.TheVariants as read_error;
ghost use Rattle.std.specs.Prelude.{◌≡◌, ◌≢◌, IfErr, OnErr};
ghost use Rattle.layout.specs.Format.{IsBytes, Reads};
ghost use Rattle.directory.specs.Directory.{target as target_format};

use layout::{INumber, Memory, Principal, ReadError, Reader, Text, Writer};
use std::alloc::Allocator;

/// A file or directory.
#[derive(Clone, Copy, Debug, PartialEq, Eq)]
pub struct Target {
    /// Whose it is.
    pub principal: Principal,
    /// Its number among those of the principal.
    pub i_number: INumber,
}

/// A principal and an i-number. After a refusal the reader stands where it stood.
pub(crate) fn read_target(reader: &mut Reader<'_>) -> Result<Target, ReadError>
    ensures reads { Reads result reader.new (target_format.read reader.old) }
    ensures bytes { IsBytes reader.old }
    ensures no_memory { IfErr result (λ e. e ≢ read_error.Memory) }
    ensures err { OnErr result (reader.new ≡ reader.old) }
{
    let start = reader.left();
    let principal = reader.principal()?;
    match reader.i_number() {
        Ok(i_number) => Ok(Target {
            principal,
            i_number,
        }),
        Err(fault) => {
            reader.go_back(start);
            Err(fault)
        }
    }
}

impl<A: Allocator + Copy> Text<A> for Target {
    ghost use Rattle.directory.specs.Directory.{target};
    ghost use Rattle.directory.specs.DirectoryLaws.{lawful_target};

    ghost format = { target };

    fn read_fields(_alloc: A, reader: &mut Reader<'_>) -> Result<Target, ReadError> {
        read_target(reader)
    }

    fn write_fields(&self, writer: &mut Writer<A>) -> Result<(), Memory> {
        writer.principal(self.principal)?;
        writer.i_number(self.i_number)
    }

    ghost lawful = { lawful_target };
}
