//! Columns of the bytes past ASCII, in tables that read symbols.
ghost use Rattle.std.specs.Prelude.{◌≡◌, length, IfOk};
ghost use Rattle.rc_dfa.specs.Past.{AreColumns};

use std::alloc::{AllocError, Global};

/// Returns for each byte the column of its symbol with no tag. `Err` means out of memory.
pub fn columns_of(alloc: Global, classes: &Vec<u8>) -> Result<Vec<u16>, AllocError>
    requires { length classes.now.items ≡ 256 }
    ensures { IfOk result (λ columns. AreColumns classes.now.items columns.items) }
{
    let before = u16::from(classes[128]);
    let count = u16::from(classes[255]) + 1;
    let mut columns = Vec::new(alloc);
    for byte in 0..256usize {
        let past = u16::from(classes[byte]).saturating_sub(before);
        columns.push(count + 5 * past)?;
    }
    Ok(columns)
}
