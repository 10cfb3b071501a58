//! Byte classes: one byte of each class, which stands for all of them.
ghost use Rattle.std.specs.Prelude.{◌≡◌, length, IfOk};
ghost use Rattle.rc_dfa.specs.Samples.{IsCounted, AreSamples};

use std::alloc::{AllocError, Global};

/// Returns the first byte of each class. `Err` means out of memory.
pub fn samples_of(alloc: Global, classes: &Vec<u8>) -> Result<Vec<u8>, AllocError>
    requires size { length classes.now.items ≡ 256 }
    requires counted { IsCounted classes.now.items }
    ensures { IfOk result (λ samples. AreSamples classes.now.items samples.items) }
{
    let mut samples = Vec::new(alloc);
    for byte in 0..256usize {
        if usize::from(classes[byte]) == samples.len() {
            samples.push(byte as u8)?;
        }
    }
    Ok(samples)
}
